//! What the header of a module declares.
ghost use Rattle.std.specs.Prelude.{◌≡◌, ◌++◌, map, OnOk};
ghost use Rattle.vod_names.specs.Entries.{plain};
ghost use Rattle.vod_names.specs.Lists.{shaped, each_named, parameter_ident, header_parameters, port_declaration, port_ident, declared_ports, header_declarations, header_names};
ghost use Rattle.vod_names.specs.declared.entry.Kind.TheVariants.{Parameter, Input};

use crate::{Declaration, Kind, Memory, Names};
use sqlite_items::Items;
use vod_tree::{DeclaredPort, Ident, ParameterPort, Ports, Range};

/// A declaration of a kind with a sign and a range or none.
pub(crate) fn shaped(kind: Kind, signed: bool, range: &Option<Range>) -> Declaration
    ensures { result ≡ shaped kind signed range.now }
{
    Declaration {
        place: 0,
        kind,
        signed,
        ranged: range.is_some(),
        partial: false,
    }
}

/// Declares each of these alike.
pub(crate) fn add_each<'s>(
    names: &mut Names<'s>,
    declaration: Declaration,
    idents: &'s [Ident],
) -> Result<(), Memory>
    ensures { OnOk result (names.new ≡ names.old ++ each_named declaration idents.now) }
{
    for ident in idents {
        names.declare(ident, declaration)?;
    }
    Ok(())
}

/// Adds the parameters of a header.
pub(crate) fn add_header_parameters<'s>(
    names: &mut Names<'s>,
    parameters: &'s Option<Items<ParameterPort>>,
) -> Result<(), Memory>
    ensures { OnOk result (names.new ≡ names.old ++ header_parameters parameters.now) }
{
    match parameters {
        None => Ok(()),
        Some(parameters) => add_parameter_ports(names, parameters.as_slice()),
    }
}

fn add_parameter_ports<'s>(names: &mut Names<'s>, ports: &'s [ParameterPort]) -> Result<(), Memory>
    ensures { OnOk result (names.new ≡ names.old ++ each_named (plain Parameter) (map parameter_ident ports.now)) }
{
    for port in ports {
        names.declare(parameter_ident(port), Declaration::plain(Kind::Parameter))?;
    }
    Ok(())
}

// The name of a parameter of a header.
fn parameter_ident(port: &ParameterPort) -> &Ident
    ensures { result.now ≡ parameter_ident port.now }
{
    match port {
        ParameterPort::Parameter(parameter) => &parameter.setting.name,
        ParameterPort::Further(setting) => &setting.name,
    }
}

/// Adds the declared ports of a header.
pub(crate) fn add_header_ports<'s>(names: &mut Names<'s>, ports: &'s Ports) -> Result<(), Memory>
    ensures { OnOk result (names.new ≡ names.old ++ header_declarations ports.now) }
{
    match ports {
        Ports::Absent | Ports::Empty | Ports::Names(_) => Ok(()),
        Ports::Declared(ports) => add_declared_ports(names, ports.as_slice()),
    }
}

/// Adds the names of a header that lists names alone.
pub(crate) fn add_header_names<'s>(names: &mut Names<'s>, ports: &'s Ports) -> Result<(), Memory>
    ensures { OnOk result (names.new ≡ names.old ++ header_names ports.now) }
{
    match ports {
        Ports::Absent | Ports::Empty | Ports::Declared(_) => Ok(()),
        Ports::Names(idents) => add_each(
            names,
            Declaration::plain(Kind::Listed),
            idents.as_slice(),
        ),
    }
}

// A further name has what the port before it has.
fn add_declared_ports<'s>(names: &mut Names<'s>, ports: &'s [DeclaredPort]) -> Result<(), Memory>
    ensures { OnOk result (names.new ≡ names.old ++ declared_ports (plain Input) ports.now) }
{
    let mut before = Declaration::plain(Kind::Input);
    for port in ports {
        before = port_declaration(before, port);
        names.declare(port_ident(port), before)?;
    }
    Ok(())
}

// What a port is declared as, after the one before it.
fn port_declaration(before: Declaration, port: &DeclaredPort) -> Declaration
    ensures { result ≡ port_declaration before port.now }
{
    match port {
        DeclaredPort::Input(it) => shaped(Kind::Input, it.get().signed, &it.get().range),
        DeclaredPort::Output(it) => shaped(Kind::Output, it.get().signed, &it.get().range),
        DeclaredPort::OutputReg(it) => shaped(Kind::OutputReg, it.get().signed, &it.get().range),
        DeclaredPort::Further(_) | DeclaredPort::FurtherValue(_) => before,
    }
}

// The name of a port.
fn port_ident(port: &DeclaredPort) -> &Ident
    ensures { result.now ≡ port_ident port.now }
{
    match port {
        DeclaredPort::Input(it) | DeclaredPort::Output(it) => &it.get().name,
        DeclaredPort::OutputReg(it) => &it.get().value.name,
        DeclaredPort::Further(ident) => ident,
        DeclaredPort::FurtherValue(setting) => &setting.name,
    }
}
