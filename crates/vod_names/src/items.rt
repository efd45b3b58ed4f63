//! What the items of a module declare.
ghost use Rattle.std.specs.Prelude.{◌≡◌, ◌++◌, map, flat_map, OnOk};
ghost use Rattle.vod_names.specs.Entries.{plain};
ghost use Rattle.vod_names.specs.Lists.{direction, each_named, gate_name, each_setting, each_value, register_kind, register_ident, register_declaration, gate_declarations, instance_declaration, kind_declarations, item_declarations, kind_parameters, item_parameters, kind_directions, item_directions};

use crate::header::{add_each, shaped};
use crate::{Declaration, Kind, Memory, Names};
use vod_tree::{
    GateTerminals, Ident, Instance, Item, ItemKind, NetDeclaration, RegDeclaration, Register,
    Setting, Value,
};

/// Adds what items declare.
pub(crate) fn add_items<'s>(names: &mut Names<'s>, items: &'s [Item]) -> Result<(), Memory>
    ensures { OnOk result (names.new ≡ names.old ++ flat_map item_declarations items.now) }
{
    for item in items {
        add_item(names, &item.kind)?;
    }
    Ok(())
}

/// Adds the parameters that items declare.
pub(crate) fn add_parameters<'s>(names: &mut Names<'s>, items: &'s [Item]) -> Result<(), Memory>
    ensures { OnOk result (names.new ≡ names.old ++ flat_map item_parameters items.now) }
{
    for item in items {
        add_item_parameters(names, &item.kind)?;
    }
    Ok(())
}

fn add_item_parameters<'s>(names: &mut Names<'s>, item: &'s ItemKind) -> Result<(), Memory>
    ensures { OnOk result (names.new ≡ names.old ++ kind_parameters item.now) }
{
    match item {
        ItemKind::Parameter(it) => add_settings(names, Kind::Parameter, it.settings.as_slice()),
        _ => Ok(()),
    }
}

fn add_item<'s>(names: &mut Names<'s>, item: &'s ItemKind) -> Result<(), Memory>
    ensures { OnOk result (names.new ≡ names.old ++ kind_declarations item.now) }
{
    match item {
        ItemKind::Input(it) => add_direction(names, Kind::Input, it),
        ItemKind::Output(it) => add_direction(names, Kind::Output, it),
        ItemKind::OutputReg(it) => {
            let declaration = shaped(Kind::OutputReg, it.signed, &it.range);
            add_values(names, declaration, it.values.as_slice())
        }
        ItemKind::Wire(it) => {
            let declaration = shaped(Kind::Wire, it.signed, &it.range);
            add_values(names, declaration, it.values.as_slice())
        }
        ItemKind::Reg(it) => add_registers(names, it, it.registers.as_slice()),
        ItemKind::Integer(idents) => {
            add_each(names, Declaration::plain(Kind::Integer), idents.as_slice())
        }
        ItemKind::Parameter(it) => add_settings(names, Kind::Parameter, it.settings.as_slice()),
        ItemKind::Localparam(it) => add_settings(names, Kind::Localparam, it.settings.as_slice()),
        ItemKind::Gate(it) => add_gates(names, it.gates.as_slice()),
        ItemKind::Instances(it) => add_instances(names, it.instances.as_slice()),
        ItemKind::Function(it) => {
            let function = it.get();
            let declaration = shaped(Kind::Function, function.signed, &function.range);
            names.declare(&function.name, declaration)
        }
        ItemKind::Assign(_) | ItemKind::Initial(_) | ItemKind::Always(_) => Ok(()),
    }
}

/// Adds the directions among items.
pub(crate) fn add_directions<'s>(names: &mut Names<'s>, items: &'s [Item]) -> Result<(), Memory>
    ensures { OnOk result (names.new ≡ names.old ++ flat_map item_directions items.now) }
{
    for item in items {
        add_item_directions(names, &item.kind)?;
    }
    Ok(())
}

fn add_item_directions<'s>(names: &mut Names<'s>, item: &'s ItemKind) -> Result<(), Memory>
    ensures { OnOk result (names.new ≡ names.old ++ kind_directions item.now) }
{
    match item {
        ItemKind::Input(it) => add_direction(names, Kind::Input, it),
        ItemKind::Output(it) => add_direction(names, Kind::Output, it),
        ItemKind::OutputReg(it) => {
            let declaration = shaped(Kind::OutputReg, it.signed, &it.range);
            add_values(names, declaration, it.values.as_slice())
        }
        _ => Ok(()),
    }
}

// Ports that are given a direction: without `wire` a second declaration may complete it.
fn add_direction<'s>(
    names: &mut Names<'s>,
    kind: Kind,
    it: &'s NetDeclaration,
) -> Result<(), Memory>
    ensures { OnOk result (names.new ≡ names.old ++ each_named (direction kind it.now.wire it.now.signed it.now.range) it.now.names) }
{
    let declaration = Declaration {
        partial: !it.wire,
        ..shaped(kind, it.signed, &it.range)
    };
    add_each(names, declaration, it.names.as_slice())
}

fn add_settings<'s>(
    names: &mut Names<'s>,
    kind: Kind,
    settings: &'s [Setting],
) -> Result<(), Memory>
    ensures { OnOk result (names.new ≡ names.old ++ each_setting (plain kind) settings.now) }
{
    let declaration = Declaration::plain(kind);
    for setting in settings {
        names.declare(&setting.name, declaration)?;
    }
    Ok(())
}

fn add_values<'s>(
    names: &mut Names<'s>,
    declaration: Declaration,
    values: &'s [Value],
) -> Result<(), Memory>
    ensures { OnOk result (names.new ≡ names.old ++ each_value declaration values.now) }
{
    for value in values {
        names.declare(&value.name, declaration)?;
    }
    Ok(())
}

fn add_registers<'s>(
    names: &mut Names<'s>,
    it: &'s RegDeclaration,
    registers: &'s [Register],
) -> Result<(), Memory>
    ensures { OnOk result (names.new ≡ names.old ++ map (register_declaration it.now.signed it.now.range) registers.now) }
{
    for register in registers {
        let declaration = shaped(register_kind(register), it.signed, &it.range);
        names.declare(register_ident(register), declaration)?;
    }
    Ok(())
}

fn register_kind(register: &Register) -> Kind
    ensures { result ≡ register_kind register.now }
{
    match register {
        Register::Value(_) => Kind::Reg,
        Register::Ram(_, _) => Kind::Ram,
    }
}

fn register_ident(register: &Register) -> &Ident
    ensures { result.now ≡ register_ident register.now }
{
    match register {
        Register::Value(value) => &value.name,
        Register::Ram(ident, _) => ident,
    }
}

fn add_gates<'s>(names: &mut Names<'s>, gates: &'s [GateTerminals]) -> Result<(), Memory>
    ensures { OnOk result (names.new ≡ names.old ++ flat_map gate_declarations gates.now) }
{
    for gate in gates {
        add_gate(names, &gate.name)?;
    }
    Ok(())
}

fn add_gate<'s>(names: &mut Names<'s>, name: &'s Option<Ident>) -> Result<(), Memory>
    ensures { OnOk result (names.new ≡ names.old ++ gate_name name.now) }
{
    match name {
        None => Ok(()),
        Some(ident) => names.declare(ident, Declaration::plain(Kind::Gate)),
    }
}

fn add_instances<'s>(names: &mut Names<'s>, instances: &'s [Instance]) -> Result<(), Memory>
    ensures { OnOk result (names.new ≡ names.old ++ map instance_declaration instances.now) }
{
    for instance in instances {
        names.declare(&instance.name, Declaration::plain(Kind::Instance))?;
    }
    Ok(())
}
