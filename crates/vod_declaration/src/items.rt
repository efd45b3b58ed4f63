//! Declarations as items of a module, read from the tokens of a source.
ghost use Rattle.std.specs.Prelude.{◌≡◌, None};
ghost use Rattle.vod_grammar.specs.Read.{first, passes};
ghost use Rattle.vod_grammar.specs.State.{left, Gives, IsOfSource};
ghost use Rattle.vod_declaration.specs.ItemsForm.{declaration_form, input_item, integer_item, localparam_item, nets, output_item, parameter_item, reg_item, register_form, registers, starts_declaration, variables, wire_item};

use crate::headers::{ValuePhrase, valued};
use crate::lists::{listed, listed_names};
use crate::parameters::parameters;
use crate::ranges::{bounds, range};
use vod_expr::ParseFault;
use vod_grammar::{Phrase, Reader, Word};
use vod_tree::{ItemKind, NetDeclaration, RegDeclaration, Register, VariableDeclaration, let_go};

/// Whether a token comes next that begins a declaration: one of the seven words with which each begins, as
/// `declarations_are_exact` says (`starts`).
#[tactic(auto, using(crate::proofs::Starts::declaration_next))]
pub fn is_declaration(reader: Reader<'_>, at: usize) -> bool
    requires { IsOfSource reader }
    ensures { result ≡ passes starts_declaration (first (left reader.entry at) None) }
{
    reader.is_next(at, Word::Input)
        || reader.is_next(at, Word::Output)
        || reader.is_next(at, Word::Wire)
        || reader.is_next(at, Word::Reg)
        || reader.is_next(at, Word::Integer)
        || reader.is_next(at, Word::Parameter)
        || reader.is_next(at, Word::Localparam)
}

/// A declaration of ports, nets, registers or parameters, with its first word. What its form reads, `declarations_are_exact`
/// says: exactly the declarations (`IsDeclaration`).
pub fn declaration(reader: Reader<'_>, at: &mut usize) -> Result<ItemKind, ParseFault>
    requires { IsOfSource reader }
    ensures { Gives result (left reader.entry at.new) (declaration_form.read (left reader.entry at.old)) }
{
    if let Some(_) = reader.takes(at, Word::Input) {
        return input_item(reader, at);
    }
    if let Some(_) = reader.takes(at, Word::Output) {
        return output_item(reader, at);
    }
    if let Some(_) = reader.takes(at, Word::Wire) {
        return wire_item(reader, at);
    }
    if let Some(_) = reader.takes(at, Word::Reg) {
        return reg_item(reader, at);
    }
    if let Some(_) = reader.takes(at, Word::Integer) {
        return integer_item(reader, at);
    }
    if let Some(_) = reader.takes(at, Word::Parameter) {
        return parameter_item(reader, at);
    }
    reader.word(at, Word::Localparam)?;
    localparam_item(reader, at)
}

// Behind `input`.
fn input_item(reader: Reader<'_>, at: &mut usize) -> Result<ItemKind, ParseFault>
    requires { IsOfSource reader }
    ensures { Gives result (left reader.entry at.new) (input_item.read (left reader.entry at.old)) }
{
    let nets = nets(reader, at)?;
    Ok(ItemKind::Input(nets))
}

// Behind `output`: nets, or behind `reg` registers.
fn output_item(reader: Reader<'_>, at: &mut usize) -> Result<ItemKind, ParseFault>
    requires { IsOfSource reader }
    ensures { Gives result (left reader.entry at.new) (output_item.read (left reader.entry at.old)) }
{
    let Some(_) = reader.takes(at, Word::Reg) else {
        let nets = nets(reader, at)?;
        return Ok(ItemKind::Output(nets));
    };
    let variables = variables(reader, at)?;
    Ok(ItemKind::OutputReg(variables))
}

// Behind `wire`.
fn wire_item(reader: Reader<'_>, at: &mut usize) -> Result<ItemKind, ParseFault>
    requires { IsOfSource reader }
    ensures { Gives result (left reader.entry at.new) (wire_item.read (left reader.entry at.old)) }
{
    let variables = variables(reader, at)?;
    Ok(ItemKind::Wire(variables))
}

// Behind `reg`: registers and memories.
fn reg_item(reader: Reader<'_>, at: &mut usize) -> Result<ItemKind, ParseFault>
    requires { IsOfSource reader }
    ensures { Gives result (left reader.entry at.new) (reg_item.read (left reader.entry at.old)) }
{
    let registers = registers(reader, at)?;
    Ok(ItemKind::Reg(registers))
}

// Behind `integer`.
fn integer_item(reader: Reader<'_>, at: &mut usize) -> Result<ItemKind, ParseFault>
    requires { IsOfSource reader }
    ensures { Gives result (left reader.entry at.new) (integer_item.read (left reader.entry at.old)) }
{
    let names = listed_names(reader, at)?;
    Ok(ItemKind::Integer(names))
}

// Behind `parameter`.
fn parameter_item(reader: Reader<'_>, at: &mut usize) -> Result<ItemKind, ParseFault>
    requires { IsOfSource reader }
    ensures { Gives result (left reader.entry at.new) (parameter_item.read (left reader.entry at.old)) }
{
    let parameters = parameters(reader, at)?;
    Ok(ItemKind::Parameter(parameters))
}

// Behind `localparam`.
fn localparam_item(reader: Reader<'_>, at: &mut usize) -> Result<ItemKind, ParseFault>
    requires { IsOfSource reader }
    ensures { Gives result (left reader.entry at.new) (localparam_item.read (left reader.entry at.old)) }
{
    let parameters = parameters(reader, at)?;
    Ok(ItemKind::Localparam(parameters))
}

fn nets(reader: Reader<'_>, at: &mut usize) -> Result<NetDeclaration, ParseFault>
    requires { IsOfSource reader }
    ensures { Gives result (left reader.entry at.new) (nets.read (left reader.entry at.old)) }
{
    let wire = reader.flag(at, Word::Wire);
    let signed = reader.flag(at, Word::Signed);
    let range = range(reader, at)?;
    match listed_names(reader, at) {
        Ok(names) => Ok(NetDeclaration {
            wire,
            signed,
            range,
            names,
        }),
        Err(fault) => {
            let_go(range);
            Err(fault)
        }
    }
}

fn variables(reader: Reader<'_>, at: &mut usize) -> Result<VariableDeclaration, ParseFault>
    requires { IsOfSource reader }
    ensures { Gives result (left reader.entry at.new) (variables.read (left reader.entry at.old)) }
{
    let signed = reader.flag(at, Word::Signed);
    let range = range(reader, at)?;
    match listed::<ValuePhrase>(reader, at) {
        Ok(values) => Ok(VariableDeclaration {
            signed,
            range,
            values,
        }),
        Err(fault) => {
            let_go(range);
            Err(fault)
        }
    }
}

fn registers(reader: Reader<'_>, at: &mut usize) -> Result<RegDeclaration, ParseFault>
    requires { IsOfSource reader }
    ensures { Gives result (left reader.entry at.new) (registers.read (left reader.entry at.old)) }
{
    let signed = reader.flag(at, Word::Signed);
    let range = range(reader, at)?;
    match listed::<RegisterPhrase>(reader, at) {
        Ok(registers) => Ok(RegDeclaration {
            signed,
            range,
            registers,
        }),
        Err(fault) => {
            let_go(range);
            Err(fault)
        }
    }
}

// A register, with a value or without one, or a memory.
fn register(reader: Reader<'_>, at: &mut usize) -> Result<Register, ParseFault>
    requires { IsOfSource reader }
    ensures { Gives result (left reader.entry at.new) (register_form.read (left reader.entry at.old)) }
{
    let name = reader.name(at)?;
    let Some(place) = reader.takes(at, Word::OpenBracket) else {
        let value = valued(reader, at, name)?;
        return Ok(Register::Value(value));
    };
    let range = bounds(reader, at, place)?;
    Ok(Register::Ram(name, range))
}

// A register or a memory.
struct RegisterPhrase {}

impl Phrase for RegisterPhrase {
    type Node = Register;

    ghost use Rattle.vod_declaration.specs.ItemsForm.{register_form};

    ghost reading = { register_form.read };

    fn read(reader: Reader<'_>, at: &mut usize) -> Result<Register, ParseFault> {
        register(reader, at)
    }
}
