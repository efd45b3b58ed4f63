//! Ports, read from the tokens of a source.
ghost use Rattle.std.specs.Prelude.{◌≡◌, [], ◌∷◌};
ghost use Rattle.vod_grammar.specs.State.{left, Gives, IsOfSource};
ghost use Rattle.vod_declaration.specs.PortsForm.{further_port, input_port, is_reg, more_ports, net_port, output_port, port_form, port_list, reg_port, some_ports, valued, value_form};

use crate::ranges::range;
use sqlite_items::{Boxed, Items};
use vod_expr::ParseFault;
use vod_grammar::{Phrase, Reader, Word, names};
use vod_tree::{DeclaredPort, Ident, NetPort, Ports, RegPort, Setting, Value, let_go};

/// Behind the name and the parameters of a module: nothing, `( )`, names, or ports with their directions. What its form reads,
/// `ports_are_exact` says: exactly these (`IsPortList`).
pub fn ports(reader: Reader<'_>, at: &mut usize) -> Result<Ports, ParseFault>
    requires { IsOfSource reader }
    ensures { Gives result (left reader.entry at.new) (port_list.read (left reader.entry at.old)) }
{
    let Some(_) = reader.takes(at, Word::OpenParen) else {
        return Ok(Ports::Absent);
    };
    if let Some(_) = reader.takes(at, Word::CloseParen) {
        return Ok(Ports::Empty);
    }
    let ports = some_ports(reader, at)?;
    match reader.word(at, Word::CloseParen) {
        Ok(_) => Ok(ports),
        Err(fault) => {
            let_go(ports);
            Err(fault)
        }
    }
}

fn some_ports(reader: Reader<'_>, at: &mut usize) -> Result<Ports, ParseFault>
    requires { IsOfSource reader }
    ensures { Gives result (left reader.entry at.new) (some_ports.read (left reader.entry at.old)) }
{
    if let Some(place) = reader.takes(at, Word::Input) {
        let port = input_port(reader, at, place)?;
        let ports = more_ports(reader, at, port)?;
        return Ok(Ports::Declared(ports));
    }
    if let Some(place) = reader.takes(at, Word::Output) {
        let port = output_port(reader, at, place)?;
        let ports = more_ports(reader, at, port)?;
        return Ok(Ports::Declared(ports));
    }
    let names = names(reader, at)?;
    Ok(Ports::Names(names))
}

// A first port and each further one behind its `,`. A further name may have a value behind `output reg`.
fn more_ports(
    reader: Reader<'_>,
    at: &mut usize,
    first: DeclaredPort,
) -> Result<Items<DeclaredPort>, ParseFault>
    requires { IsOfSource reader }
    ensures { Gives result (left reader.entry at.new) ((more_ports (first ∷ [])).read (left reader.entry at.old)) }
{
    let mut reg = is_reg(false, &first);
    let mut ports = Items::new(reader.alloc);
    ports.push(first)?;
    for _ in 0..reader.remaining(*at) {
        let Some(_) = reader.takes(at, Word::Comma) else {
            return Ok(ports);
        };
        let port = port(reader, at, reg)?;
        reg = is_reg(reg, &port);
        ports.push(port)?;
    }
    Ok(ports)
}

// Whether the nearest port with a direction is `output reg`, by this port and by what was so before it.
fn is_reg(before: bool, port: &DeclaredPort) -> bool
    ensures { result ≡ is_reg before port.now }
{
    match port {
        DeclaredPort::Input(_) | DeclaredPort::Output(_) => false,
        DeclaredPort::OutputReg(_) => true,
        DeclaredPort::Further(_) | DeclaredPort::FurtherValue(_) => before,
    }
}

// A port behind others.
fn port(reader: Reader<'_>, at: &mut usize, reg: bool) -> Result<DeclaredPort, ParseFault>
    requires { IsOfSource reader }
    ensures { Gives result (left reader.entry at.new) ((port_form reg).read (left reader.entry at.old)) }
{
    if let Some(place) = reader.takes(at, Word::Input) {
        return input_port(reader, at, place);
    }
    if let Some(place) = reader.takes(at, Word::Output) {
        return output_port(reader, at, place);
    }
    further_port(reader, at, reg)
}

// A name, which may have a value behind `output reg`.
fn further_port(reader: Reader<'_>, at: &mut usize, reg: bool) -> Result<DeclaredPort, ParseFault>
    requires { IsOfSource reader }
    ensures { Gives result (left reader.entry at.new) ((further_port reg).read (left reader.entry at.old)) }
{
    let name = reader.name(at)?;
    if !reg {
        return Ok(DeclaredPort::Further(name));
    }
    let Some(_) = reader.takes(at, Word::Equals) else {
        return Ok(DeclaredPort::Further(name));
    };
    let value = reader.expression(at)?;
    Ok(DeclaredPort::FurtherValue(Setting { name, value }))
}

// Behind `input`, at this place.
fn input_port(reader: Reader<'_>, at: &mut usize, place: u32) -> Result<DeclaredPort, ParseFault>
    requires { IsOfSource reader }
    ensures { Gives result (left reader.entry at.new) ((input_port place).read (left reader.entry at.old)) }
{
    let port = net_port(reader, at, place)?;
    let port = Boxed::new(reader.alloc, port)?;
    Ok(DeclaredPort::Input(port))
}

// Behind `output`, at this place.
fn output_port(reader: Reader<'_>, at: &mut usize, place: u32) -> Result<DeclaredPort, ParseFault>
    requires { IsOfSource reader }
    ensures { Gives result (left reader.entry at.new) ((output_port place).read (left reader.entry at.old)) }
{
    let Some(_) = reader.takes(at, Word::Reg) else {
        let port = net_port(reader, at, place)?;
        let port = Boxed::new(reader.alloc, port)?;
        return Ok(DeclaredPort::Output(port));
    };
    let port = reg_port(reader, at, place)?;
    let port = Boxed::new(reader.alloc, port)?;
    Ok(DeclaredPort::OutputReg(port))
}

fn net_port(reader: Reader<'_>, at: &mut usize, place: u32) -> Result<NetPort, ParseFault>
    requires { IsOfSource reader }
    ensures { Gives result (left reader.entry at.new) ((net_port place).read (left reader.entry at.old)) }
{
    let wire = reader.flag(at, Word::Wire);
    let signed = reader.flag(at, Word::Signed);
    let range = range(reader, at)?;
    match reader.name(at) {
        Ok(name) => Ok(NetPort {
            place,
            wire,
            signed,
            range,
            name,
        }),
        Err(fault) => {
            let_go(range);
            Err(fault)
        }
    }
}

// Behind `output reg`.
fn reg_port(reader: Reader<'_>, at: &mut usize, place: u32) -> Result<RegPort, ParseFault>
    requires { IsOfSource reader }
    ensures { Gives result (left reader.entry at.new) ((reg_port place).read (left reader.entry at.old)) }
{
    let signed = reader.flag(at, Word::Signed);
    let range = range(reader, at)?;
    match value(reader, at) {
        Ok(value) => Ok(RegPort {
            place,
            signed,
            range,
            value,
        }),
        Err(fault) => {
            let_go(range);
            Err(fault)
        }
    }
}

fn value(reader: Reader<'_>, at: &mut usize) -> Result<Value, ParseFault>
    requires { IsOfSource reader }
    ensures { Gives result (left reader.entry at.new) (value_form.read (left reader.entry at.old)) }
{
    let name = reader.name(at)?;
    valued(reader, at, name)
}

// Behind a name: a value, or nothing.
pub(crate) fn valued(reader: Reader<'_>, at: &mut usize, name: Ident) -> Result<Value, ParseFault>
    requires { IsOfSource reader }
    ensures { Gives result (left reader.entry at.new) ((valued name).read (left reader.entry at.old)) }
{
    let Some(_) = reader.takes(at, Word::Equals) else {
        return Ok(Value { name, value: None });
    };
    let value = reader.expression(at)?;
    Ok(Value {
        name,
        value: Some(value),
    })
}

// `NAME` or `NAME = expr`
pub(crate) struct ValuePhrase {}

impl Phrase for ValuePhrase {
    type Node = Value;

    ghost use Rattle.vod_declaration.specs.PortsForm.{value_form};

    ghost reading = { value_form.read };

    fn read(reader: Reader<'_>, at: &mut usize) -> Result<Value, ParseFault> {
        value(reader, at)
    }
}
