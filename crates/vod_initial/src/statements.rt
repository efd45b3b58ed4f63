//! Statements of an `initial`, read from the tokens of a source.
ghost use Rattle.std.specs.Prelude.{◌≡◌, [], None};
ghost use Rattle.vod_grammar.specs.Form.{limit_read};
ghost use Rattle.vod_grammar.specs.Read.{first, passes, repeat};
ghost use Rattle.vod_grammar.specs.State.{left, Gives, GivesAs, IsOfSource};
ghost use Rattle.vod_grammar.specs.Words.{is_other};
ghost use Rattle.vod_grammar.specs.declared.word.Word.TheVariants.{End};
ghost use Rattle.vod_tree.specs.declared.statement.InitialKind.{InitialKind};
ghost use Rattle.vod_initial.specs.Initial.{for_loop};
ghost use Rattle.vod_initial.specs.InitialForm.{alternatives, assigned, block_form, block_or_assigned, for_form, indexed, initial_form, starts_initial, target};

use crate::loops::{Start, Step, Test, head, value};
use sqlite_items::{Boxed, Items};
use vod_expr::ParseFault;
use vod_grammar::{Reader, Word};
use vod_statement::block_name;
use vod_tree::{Expr, ForLoop, Ident, InitialKind, InitialStatement, let_go};

/// How deeply statements may be nested: the statement of an `initial` has depth 1.
const LIMIT: usize = 64;

/// A statement of an `initial`, in which no more than 64 levels of statements stand. What its form reads,
/// `initial_statements_are_exact` says: exactly these statements (`IsInitial`).
pub fn initial_statement(reader: Reader<'_>, at: &mut usize) -> Result<InitialStatement, ParseFault>
    requires { IsOfSource reader }
    ensures { Gives result (left reader.entry at.new) ((initial_form 64).read (left reader.entry at.old)) }
{
    nested(reader, at, LIMIT)
}

// One in which so many levels of statements stand.
#[cycle(initial)]
#[tactic(auto, unfolding(crate::specs::InitialForm::initial_form))]
fn nested(reader: Reader<'_>, at: &mut usize, depth: usize) -> Result<InitialStatement, ParseFault>
    requires { IsOfSource reader }
    ensures { Gives result (left reader.entry at.new) ((initial_form depth).read (left reader.entry at.old)) }
{
    if depth == 0 {
        return refused(reader, *at);
    }
    let place = reader.place(*at);
    let kind = alternative(reader, at, depth - 1)?;
    Ok(InitialStatement { place, kind })
}

// Why no statement is read that would be nested too deep.
#[tactic(auto, using(vod_statement::specs::LimitLaws::limited, vod_statement::specs::LimitLaws::unlimited))]
fn refused(reader: Reader<'_>, at: usize) -> Result<InitialStatement, ParseFault>
    requires { IsOfSource reader }
    ensures { Gives result [] (limit_read starts_initial (left reader.entry at)) }
{
    if is_statement(reader, at) {
        return Err(ParseFault::Statement(reader.place(at)));
    }
    Err(reader.fault(at))
}

// Whether a token comes next that begins a statement.
#[tactic(auto, using(crate::proofs::Starts::initial_next))]
fn is_statement(reader: Reader<'_>, at: usize) -> bool
    requires { IsOfSource reader }
    ensures { result ≡ passes starts_initial (first (left reader.entry at) None) }
{
    reader.is_next(at, Word::For) || reader.is_next(at, Word::Begin) || reader.is_name(at)
}

// A `for`, or another statement.
#[cycle(initial)]
fn alternative(reader: Reader<'_>, at: &mut usize, depth: usize) -> Result<InitialKind, ParseFault>
    requires { IsOfSource reader }
    ensures { Gives result (left reader.entry at.new) ((alternatives (initial_form depth)).read (left reader.entry at.old)) }
{
    match reader.takes(at, Word::For) {
        Some(_) => for_loop(reader, at, depth),
        None => block_or_assigned(reader, at, depth),
    }
}

// Behind `for`.
#[cycle(initial)]
fn for_loop(reader: Reader<'_>, at: &mut usize, depth: usize) -> Result<InitialKind, ParseFault>
    requires { IsOfSource reader }
    ensures { Gives result (left reader.entry at.new) ((for_form (initial_form depth)).read (left reader.entry at.old)) }
{
    let head = head(reader, at)?;
    match boxed(reader, at, depth) {
        Ok(body) => Ok(for_of(head, body)),
        Err(fault) => {
            let_go(head);
            Err(fault)
        }
    }
}

// The body of a `for`.
#[cycle(initial)]
fn boxed(
    reader: Reader<'_>,
    at: &mut usize,
    depth: usize,
) -> Result<Boxed<InitialStatement>, ParseFault>
    requires { IsOfSource reader }
    ensures { Gives result (left reader.entry at.new) ((initial_form depth).read (left reader.entry at.old)) }
{
    let body = nested(reader, at, depth)?;
    let body = Boxed::new(reader.alloc, body)?;
    Ok(body)
}

// A `for` of its head and its body.
fn for_of(head: (Start, Test, Step), body: Boxed<InitialStatement>) -> InitialKind
    ensures { result ≡ InitialKind.For (for_loop head.0 head.1 head.2 body) }
{
    let (start, test, step) = head;
    let (index, start) = start;
    let (tested, inclusive, bound) = test;
    let (stepped, from, step) = step;
    InitialKind::For(ForLoop {
        index,
        start,
        tested,
        inclusive,
        bound,
        stepped,
        from,
        step,
        body,
    })
}

// A block or an assignment.
#[cycle(initial)]
fn block_or_assigned(
    reader: Reader<'_>,
    at: &mut usize,
    depth: usize,
) -> Result<InitialKind, ParseFault>
    requires { IsOfSource reader }
    ensures { Gives result (left reader.entry at.new) ((block_or_assigned (initial_form depth)).read (left reader.entry at.old)) }
{
    match reader.takes(at, Word::Begin) {
        Some(_) => block(reader, at, depth),
        None => assigned(reader, at),
    }
}

// Behind `begin`.
#[cycle(initial)]
fn block(reader: Reader<'_>, at: &mut usize, depth: usize) -> Result<InitialKind, ParseFault>
    requires { IsOfSource reader }
    ensures { Gives result (left reader.entry at.new) ((block_form (initial_form depth)).read (left reader.entry at.old)) }
{
    let name = block_name(reader, at)?;
    let mut body = Items::new(reader.alloc);
    more_statements(reader, at, depth, &mut body)?;
    reader.word(at, Word::End)?;
    Ok(InitialKind::Block(name, body))
}

// Each statement of a block.
#[cycle(initial)]
fn more_statements(
    reader: Reader<'_>,
    at: &mut usize,
    depth: usize,
    body: &mut Items<InitialStatement>,
) -> Result<(), ParseFault>
    requires { IsOfSource reader }
    ensures { GivesAs (λ _. body.new) result (left reader.entry at.new)
        (repeat (is_other End) (initial_form depth).read body.old (left reader.entry at.old)) }
{
    for _ in 0..reader.remaining(*at) {
        if !reader.is_other(*at, Word::End) {
            return Ok(());
        }
        body.push(nested(reader, at, depth)?)?;
    }
    Ok(())
}

// A name, with an index or without one, and its value.
fn assigned(reader: Reader<'_>, at: &mut usize) -> Result<InitialKind, ParseFault>
    requires { IsOfSource reader }
    ensures { Gives result (left reader.entry at.new) (assigned.read (left reader.entry at.old)) }
{
    let name = reader.name(at)?;
    let kind = assigned_to(reader, at, name)?;
    Ok(kind)
}

// Behind the name.
fn assigned_to(reader: Reader<'_>, at: &mut usize, name: Ident) -> Result<InitialKind, ParseFault>
    requires { IsOfSource reader }
    ensures { Gives result (left reader.entry at.new) ((target name).read (left reader.entry at.old)) }
{
    let Some(_) = reader.takes(at, Word::OpenBracket) else {
        let value = value(reader, at)?;
        return Ok(InitialKind::Assign(name, value));
    };
    let index = reader.expression(at)?;
    indexed(reader, at, name, index)
}

// Behind the name and the index.
fn indexed(
    reader: Reader<'_>,
    at: &mut usize,
    name: Ident,
    index: Expr,
) -> Result<InitialKind, ParseFault>
    requires { IsOfSource reader }
    ensures { Gives result (left reader.entry at.new) ((indexed name index).read (left reader.entry at.old)) }
{
    if let Err(fault) = reader.word(at, Word::CloseBracket) {
        let_go(index);
        return Err(fault);
    }
    match value(reader, at) {
        Ok(value) => Ok(InitialKind::AssignIndex(name, index, value)),
        Err(fault) => {
            let_go(index);
            Err(fault)
        }
    }
}
