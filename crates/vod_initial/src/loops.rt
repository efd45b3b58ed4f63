//! The head of a `for`, read from the tokens of a source.
ghost use Rattle.vod_grammar.specs.State.{left, Gives, IsOfSource};
ghost use Rattle.vod_initial.specs.InitialForm.{bounds_form, comparison_form, head_form, last_form, start_form, step_form, test_form, value_form};

use vod_expr::ParseFault;
use vod_grammar::{Reader, Word};
use vod_tree::{Expr, Ident, Number, let_go};

/// The index of a `for` and what it begins with.
pub(crate) type Start = (Ident, Expr);

/// What is compared, whether by `<=`, and with what.
pub(crate) type Test = (Ident, bool, Expr);

/// What is assigned, and the name and the number that are added.
pub(crate) type Step = (Ident, Ident, Number);

// Behind `for`: its head.
pub(crate) fn head(reader: Reader<'_>, at: &mut usize) -> Result<(Start, Test, Step), ParseFault>
    requires { IsOfSource reader }
    ensures { Gives result (left reader.entry at.new) (head_form.read (left reader.entry at.old)) }
{
    let (start, test) = bounds(reader, at)?;
    match last(reader, at) {
        Ok(step) => Ok((start, test, step)),
        Err(fault) => {
            let_go(start);
            let_go(test);
            Err(fault)
        }
    }
}

// `(`, the start and the test.
fn bounds(reader: Reader<'_>, at: &mut usize) -> Result<(Start, Test), ParseFault>
    requires { IsOfSource reader }
    ensures { Gives result (left reader.entry at.new) (bounds_form.read (left reader.entry at.old)) }
{
    reader.word(at, Word::OpenParen)?;
    let start = start(reader, at)?;
    match test(reader, at) {
        Ok(test) => Ok((start, test)),
        Err(fault) => {
            let_go(start);
            Err(fault)
        }
    }
}

// The step and `)`.
fn last(reader: Reader<'_>, at: &mut usize) -> Result<Step, ParseFault>
    requires { IsOfSource reader }
    ensures { Gives result (left reader.entry at.new) (last_form.read (left reader.entry at.old)) }
{
    let step = step(reader, at)?;
    reader.word(at, Word::CloseParen)?;
    Ok(step)
}

// `= expr ;`
pub(crate) fn value(reader: Reader<'_>, at: &mut usize) -> Result<Expr, ParseFault>
    requires { IsOfSource reader }
    ensures { Gives result (left reader.entry at.new) (value_form.read (left reader.entry at.old)) }
{
    reader.word(at, Word::Equals)?;
    let value = reader.expression(at)?;
    match reader.word(at, Word::Semicolon) {
        Ok(_) => Ok(value),
        Err(fault) => {
            let_go(value);
            Err(fault)
        }
    }
}

// `NAME = expr ;`: the index and what it begins with.
fn start(reader: Reader<'_>, at: &mut usize) -> Result<Start, ParseFault>
    requires { IsOfSource reader }
    ensures { Gives result (left reader.entry at.new) (start_form.read (left reader.entry at.old)) }
{
    let index = reader.name(at)?;
    let start = value(reader, at)?;
    Ok((index, start))
}

// `NAME < expr ;` or `NAME <= expr ;`: the name, whether it is the second, and the bound.
fn test(reader: Reader<'_>, at: &mut usize) -> Result<Test, ParseFault>
    requires { IsOfSource reader }
    ensures { Gives result (left reader.entry at.new) (test_form.read (left reader.entry at.old)) }
{
    let tested = reader.name(at)?;
    let inclusive = comparison(reader, at)?;
    let bound = reader.expression(at)?;
    match reader.word(at, Word::Semicolon) {
        Ok(_) => Ok((tested, inclusive, bound)),
        Err(fault) => {
            let_go(bound);
            Err(fault)
        }
    }
}

// `<` or `<=`, as whether it is the second.
fn comparison(reader: Reader<'_>, at: &mut usize) -> Result<bool, ParseFault>
    requires { IsOfSource reader }
    ensures { Gives result (left reader.entry at.new) (comparison_form.read (left reader.entry at.old)) }
{
    let Some(_) = reader.takes(at, Word::LessEqual) else {
        reader.word(at, Word::Less)?;
        return Ok(false);
    };
    Ok(true)
}

// `NAME = NAME + NUMBER`
fn step(reader: Reader<'_>, at: &mut usize) -> Result<Step, ParseFault>
    requires { IsOfSource reader }
    ensures { Gives result (left reader.entry at.new) (step_form.read (left reader.entry at.old)) }
{
    let stepped = reader.name(at)?;
    reader.word(at, Word::Equals)?;
    let from = reader.name(at)?;
    reader.word(at, Word::Plus)?;
    let step = reader.number(at)?;
    Ok((stepped, from, step))
}
