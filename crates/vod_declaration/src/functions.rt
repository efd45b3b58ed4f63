//! The header and the declarations of a function, read from the tokens of a source.
ghost use Rattle.std.specs.Prelude.{◌≡◌, None};
ghost use Rattle.vod_grammar.specs.Read.{first, passes, repeat};
ghost use Rattle.vod_grammar.specs.State.{left, Gives, GivesAs, IsOfSource};
ghost use Rattle.vod_declaration.specs.FunctionsForm.{first_input, function_declaration, function_declarations, function_input, function_inputs, function_port, function_variables, inputs, starts_function_declaration};

use crate::lists::{enclosed, listed_names};
use crate::ranges::range;
use sqlite_items::Items;
use vod_expr::ParseFault;
use vod_grammar::{Phrase, Reader, Word};
use vod_tree::{FunctionDeclaration, FunctionInput, FunctionPort, FunctionVariables, let_go};

/// The inputs of a function's header where `(` comes next, and nothing elsewhere. What its form reads,
/// `function_headers_are_exact` says: exactly these (`AreInputs`).
pub fn function_inputs(
    reader: Reader<'_>,
    at: &mut usize,
) -> Result<Option<Items<FunctionInput>>, ParseFault>
    requires { IsOfSource reader }
    ensures { Gives result (left reader.entry at.new) (function_inputs.read (left reader.entry at.old)) }
{
    let Some(_) = reader.takes(at, Word::OpenParen) else {
        return Ok(None);
    };
    let inputs = inputs(reader, at)?;
    Ok(Some(inputs))
}

// Behind `(`: the first input has its word.
fn inputs(reader: Reader<'_>, at: &mut usize) -> Result<Items<FunctionInput>, ParseFault>
    requires { IsOfSource reader }
    ensures { Gives result (left reader.entry at.new) (inputs.read (left reader.entry at.old)) }
{
    let first = first_input(reader, at)?;
    enclosed::<InputPhrase>(reader, at, first)
}

fn first_input(reader: Reader<'_>, at: &mut usize) -> Result<FunctionInput, ParseFault>
    requires { IsOfSource reader }
    ensures { Gives result (left reader.entry at.new) (first_input.read (left reader.entry at.old)) }
{
    let place = reader.word(at, Word::Input)?;
    let port = function_port(reader, at, place)?;
    Ok(FunctionInput::Port(port))
}

// An input of a header, behind others.
fn input(reader: Reader<'_>, at: &mut usize) -> Result<FunctionInput, ParseFault>
    requires { IsOfSource reader }
    ensures { Gives result (left reader.entry at.new) (function_input.read (left reader.entry at.old)) }
{
    let Some(place) = reader.takes(at, Word::Input) else {
        let name = reader.name(at)?;
        return Ok(FunctionInput::Further(name));
    };
    let port = function_port(reader, at, place)?;
    Ok(FunctionInput::Port(port))
}

// An input of a header.
struct InputPhrase {}

impl Phrase for InputPhrase {
    type Node = FunctionInput;

    ghost use Rattle.vod_declaration.specs.FunctionsForm.{function_input};

    ghost reading = { function_input.read };

    fn read(reader: Reader<'_>, at: &mut usize) -> Result<FunctionInput, ParseFault> {
        input(reader, at)
    }
}

// Behind `input`, at this place.
fn function_port(reader: Reader<'_>, at: &mut usize, place: u32) -> Result<FunctionPort, ParseFault>
    requires { IsOfSource reader }
    ensures { Gives result (left reader.entry at.new) ((function_port place).read (left reader.entry at.old)) }
{
    let signed = reader.flag(at, Word::Signed);
    let range = range(reader, at)?;
    match reader.name(at) {
        Ok(name) => Ok(FunctionPort {
            place,
            signed,
            range,
            name,
        }),
        Err(fault) => {
            let_go(range);
            Err(fault)
        }
    }
}

/// The inputs and locals that a function declares, while `input` or `reg` comes next. What its form reads,
/// `function_headers_are_exact` says: exactly these (`AreFunctionDeclarations`).
pub fn function_declarations(
    reader: Reader<'_>,
    at: &mut usize,
) -> Result<Items<FunctionDeclaration>, ParseFault>
    requires { IsOfSource reader }
    ensures { Gives result (left reader.entry at.new) (function_declarations.read (left reader.entry at.old)) }
{
    let mut declarations = Items::new(reader.alloc);
    more_declarations(reader, at, &mut declarations)?;
    Ok(declarations)
}

// Each further one.
fn more_declarations(
    reader: Reader<'_>,
    at: &mut usize,
    declarations: &mut Items<FunctionDeclaration>,
) -> Result<(), ParseFault>
    requires { IsOfSource reader }
    ensures { GivesAs (λ _. declarations.new) result (left reader.entry at.new)
        (repeat starts_function_declaration function_declaration.read declarations.old (left reader.entry at.old)) }
{
    for _ in 0..reader.remaining(*at) {
        if !is_declaration(reader, *at) {
            return Ok(());
        }
        declarations.push(declaration(reader, at)?)?;
    }
    Ok(())
}

// Whether a token comes next that begins a declaration.
#[tactic(auto, using(crate::proofs::Starts::function_declaration_next))]
fn is_declaration(reader: Reader<'_>, at: usize) -> bool
    requires { IsOfSource reader }
    ensures { result ≡ passes starts_function_declaration (first (left reader.entry at) None) }
{
    reader.is_next(at, Word::Input) || reader.is_next(at, Word::Reg)
}

fn declaration(reader: Reader<'_>, at: &mut usize) -> Result<FunctionDeclaration, ParseFault>
    requires { IsOfSource reader }
    ensures { Gives result (left reader.entry at.new) (function_declaration.read (left reader.entry at.old)) }
{
    if let Some(place) = reader.takes(at, Word::Input) {
        let inputs = variables(reader, at, place)?;
        return Ok(FunctionDeclaration::Input(inputs));
    }
    let place = reader.word(at, Word::Reg)?;
    let locals = variables(reader, at, place)?;
    Ok(FunctionDeclaration::Reg(locals))
}

// Behind `input` or `reg`, at this place.
fn variables(
    reader: Reader<'_>,
    at: &mut usize,
    place: u32,
) -> Result<FunctionVariables, ParseFault>
    requires { IsOfSource reader }
    ensures { Gives result (left reader.entry at.new) ((function_variables place).read (left reader.entry at.old)) }
{
    let signed = reader.flag(at, Word::Signed);
    let range = range(reader, at)?;
    match listed_names(reader, at) {
        Ok(names) => Ok(FunctionVariables {
            place,
            signed,
            range,
            names,
        }),
        Err(fault) => {
            let_go(range);
            Err(fault)
        }
    }
}
