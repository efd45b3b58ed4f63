//! Functions, read from the tokens of a source.
ghost use Rattle.std.specs.Prelude.{◌≡◌, length};
ghost use Rattle.vod_grammar.specs.State.{left, Gives, IsOfSource};
ghost use Rattle.vod_parse.specs.Functions.{function};
ghost use Rattle.vod_parse.specs.FunctionsForm.{function_body, function_end, function_form, function_named, function_statement};

use sqlite_items::Items;
use vod_declaration::{function_declarations, function_inputs, range};
use vod_expr::ParseFault;
use vod_grammar::{Reader, Word};
use vod_statement::{Context, statement};
use vod_tree::{Function, FunctionDeclaration, FunctionInput, Ident, Range, Statement, let_go};

// The place of a function, and how its result is declared.
#[derive(Drop)]
struct Returned {
    place: u32,
    automatic: bool,
    signed: bool,
    range: Option<Range>,
}

// The name of a function and the inputs of its header.
#[derive(Drop)]
struct Header {
    name: Ident,
    inputs: Option<Items<FunctionInput>>,
}

// Behind `function` at this place: its header, its declarations, its statement and `endfunction`.
pub(crate) fn function(
    reader: Reader<'_>,
    at: &mut usize,
    place: u32,
) -> Result<Function, ParseFault>
    requires { IsOfSource reader }
    ensures { Gives result (left reader.entry at.new) ((function_form (length reader.entry.tokens.now) place).read (left reader.entry at.old)) }
{
    let automatic = reader.flag(at, Word::Automatic);
    let signed = reader.flag(at, Word::Signed);
    let range = range(reader, at)?;
    let returned = Returned {
        place,
        automatic,
        signed,
        range,
    };
    named(reader, at, returned)
}

// Behind how the result is declared.
fn named(reader: Reader<'_>, at: &mut usize, returned: Returned) -> Result<Function, ParseFault>
    requires { IsOfSource reader }
    ensures { Gives result (left reader.entry at.new)
        ((function_named (length reader.entry.tokens.now) returned.place returned.automatic returned.signed returned.range).read (left reader.entry at.old)) }
{
    let name = match reader.name(at) {
        Ok(name) => name,
        Err(fault) => {
            let_go(returned);
            return Err(fault);
        }
    };
    match function_inputs(reader, at) {
        Ok(inputs) => declared(reader, at, returned, Header { name, inputs }),
        Err(fault) => {
            let_go(returned);
            Err(fault)
        }
    }
}

// Behind the inputs.
fn declared(
    reader: Reader<'_>,
    at: &mut usize,
    returned: Returned,
    header: Header,
) -> Result<Function, ParseFault>
    requires { IsOfSource reader }
    ensures { Gives result (left reader.entry at.new)
        ((function_body (length reader.entry.tokens.now) returned.place returned.automatic returned.signed returned.range header.name header.inputs).read (left reader.entry at.old)) }
{
    if let Err(fault) = reader.word(at, Word::Semicolon) {
        let_go(returned);
        let_go(header);
        return Err(fault);
    }
    match function_declarations(reader, at) {
        Ok(declarations) => computed(reader, at, returned, header, declarations),
        Err(fault) => {
            let_go(returned);
            let_go(header);
            Err(fault)
        }
    }
}

// Behind the declarations.
fn computed(
    reader: Reader<'_>,
    at: &mut usize,
    returned: Returned,
    header: Header,
    declarations: Items<FunctionDeclaration>,
) -> Result<Function, ParseFault>
    requires { IsOfSource reader }
    ensures { Gives result (left reader.entry at.new)
        ((function_statement (length reader.entry.tokens.now) returned.place returned.automatic returned.signed returned.range header.name header.inputs declarations).read (left reader.entry at.old)) }
{
    match statement(reader, at, Context::Function) {
        Ok(body) => ended(reader, at, whole(returned, header, declarations, body)),
        Err(fault) => {
            let_go(returned);
            let_go(header);
            let_go(declarations);
            Err(fault)
        }
    }
}

// A function of its parts.
fn whole(
    returned: Returned,
    header: Header,
    declarations: Items<FunctionDeclaration>,
    body: Statement,
) -> Function
    ensures { result ≡ function returned.place returned.automatic returned.signed returned.range header.name header.inputs declarations body }
{
    let Returned {
        place,
        automatic,
        signed,
        range,
    } = returned;
    let Header { name, inputs } = header;
    Function {
        place,
        automatic,
        signed,
        range,
        name,
        inputs,
        declarations,
        body,
    }
}

// Behind the statement: `endfunction`.
fn ended(reader: Reader<'_>, at: &mut usize, read: Function) -> Result<Function, ParseFault>
    requires { IsOfSource reader }
    ensures { Gives result (left reader.entry at.new) ((function_end read).read (left reader.entry at.old)) }
{
    match reader.word(at, Word::Endfunction) {
        Ok(_) => Ok(read),
        Err(fault) => {
            let_go(read);
            Err(fault)
        }
    }
}
