//! What functions declare.
ghost use Rattle.std.specs.Prelude.{◌≡◌, ◌++◌, flat_map, OnOk};
ghost use Rattle.vod_names.specs.Entries.{plain};
ghost use Rattle.vod_names.specs.Lists.{input_declaration, input_ident, function_inputs, header_inputs, inner_declarations};
ghost use Rattle.vod_names.specs.declared.entry.Kind.TheVariants.{Input};

use crate::header::{add_each, shaped};
use crate::{Declaration, Kind, Memory, Names};
use sqlite_items::Items;
use vod_tree::{FunctionDeclaration, FunctionInput, Ident};

/// Adds the inputs of a function's header.
pub(crate) fn add_header_inputs<'s>(
    names: &mut Names<'s>,
    inputs: &'s Option<Items<FunctionInput>>,
) -> Result<(), Memory>
    ensures { OnOk result (names.new ≡ names.old ++ header_inputs inputs.now) }
{
    match inputs {
        None => Ok(()),
        Some(inputs) => add_inputs(names, inputs.as_slice()),
    }
}

// A further name has what the input before it has.
fn add_inputs<'s>(names: &mut Names<'s>, inputs: &'s [FunctionInput]) -> Result<(), Memory>
    ensures { OnOk result (names.new ≡ names.old ++ function_inputs (plain Input) inputs.now) }
{
    let mut before = Declaration::plain(Kind::Input);
    for input in inputs {
        before = input_declaration(before, input);
        names.declare(input_ident(input), before)?;
    }
    Ok(())
}

fn input_declaration(before: Declaration, input: &FunctionInput) -> Declaration
    ensures { result ≡ input_declaration before input.now }
{
    match input {
        FunctionInput::Port(it) => shaped(Kind::Input, it.signed, &it.range),
        FunctionInput::Further(_) => before,
    }
}

fn input_ident(input: &FunctionInput) -> &Ident
    ensures { result.now ≡ input_ident input.now }
{
    match input {
        FunctionInput::Port(it) => &it.name,
        FunctionInput::Further(ident) => ident,
    }
}

/// Adds what a function declares behind its header.
pub(crate) fn add_inner<'s>(
    names: &mut Names<'s>,
    declarations: &'s [FunctionDeclaration],
) -> Result<(), Memory>
    ensures { OnOk result (names.new ≡ names.old ++ flat_map inner_declarations declarations.now) }
{
    for declaration in declarations {
        add_variables(names, declaration)?;
    }
    Ok(())
}

fn add_variables<'s>(
    names: &mut Names<'s>,
    declaration: &'s FunctionDeclaration,
) -> Result<(), Memory>
    ensures { OnOk result (names.new ≡ names.old ++ inner_declarations declaration.now) }
{
    match declaration {
        FunctionDeclaration::Input(it) => {
            add_each(
                names,
                shaped(Kind::Input, it.signed, &it.range),
                it.names.as_slice(),
            )
        }
        FunctionDeclaration::Reg(it) => {
            add_each(
                names,
                shaped(Kind::Reg, it.signed, &it.range),
                it.names.as_slice(),
            )
        }
    }
}
