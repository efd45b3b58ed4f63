//! Statements, read from the tokens of a source.
ghost use Rattle.std.specs.Prelude.{◌≡◌, [], length, None};
ghost use Rattle.vod_grammar.specs.Form.{limit_read};
ghost use Rattle.vod_grammar.specs.Read.{first, passes, repeat};
ghost use Rattle.vod_grammar.specs.State.{left, Gives, GivesAs, IsOfSource};
ghost use Rattle.vod_grammar.specs.Words.{is_other};
ghost use Rattle.vod_grammar.specs.declared.word.Word.TheVariants.{End, Endcase};
ghost use Rattle.vod_statement.specs.StatementForm.{alternatives, assigned, block, block_or_other, branches, case_items, case_or_other, cases, cases_end, chosen, default_item, empty_or_assigned, item_form, item_parts, starts_statement, target_form, test_form, value_form, valued_item};
ghost use Rattle.vod_statement.specs.Reading.{statement_in};
ghost use Rattle.vod_statement.specs.declared.context.Context.TheVariants.{Always, Function};

use crate::context::Context;
use crate::label::block_name;
use crate::sides::{is_left_side, left_side};
use sqlite_items::{Boxed, Items};
use vod_expr::ParseFault;
use vod_grammar::{Reader, Word, expressions};
use vod_tree::{CaseItem, CaseLabel, Expr, Lval, Statement, StatementKind, let_go};

/// How deeply statements may be nested: the body of an `always` or of a function has depth 1.
const LIMIT: usize = 64;

/// A statement of an `always` or of a function, in which no more than 64 levels of statements stand. What its form reads,
/// `statements_are_exact` says: exactly the statements (`IsStatement`).
pub fn statement(
    reader: Reader<'_>,
    at: &mut usize,
    context: Context,
) -> Result<Statement, ParseFault>
    requires { IsOfSource reader }
    ensures { Gives result (left reader.entry at.new) ((statement_in reader.entry context 64).read (left reader.entry at.old)) }
{
    nested(reader, at, context, LIMIT)
}

// One in which so many levels of statements stand.
#[cycle(statement)]
#[tactic(auto, unfolding(crate::specs::StatementForm::statement_form))]
fn nested(
    reader: Reader<'_>,
    at: &mut usize,
    context: Context,
    depth: usize,
) -> Result<Statement, ParseFault>
    requires { IsOfSource reader }
    ensures { Gives result (left reader.entry at.new) ((statement_in reader.entry context depth).read (left reader.entry at.old)) }
{
    if depth == 0 {
        return refused(reader, *at);
    }
    let place = reader.place(*at);
    let kind = alternative(reader, at, context, depth - 1)?;
    Ok(Statement { place, kind })
}

// Why no statement is read that would be nested too deep.
#[tactic(auto, using(crate::specs::LimitLaws::limited, crate::specs::LimitLaws::unlimited))]
fn refused(reader: Reader<'_>, at: usize) -> Result<Statement, ParseFault>
    requires { IsOfSource reader }
    ensures { Gives result [] (limit_read starts_statement (left reader.entry at)) }
{
    if is_statement(reader, at) {
        return Err(ParseFault::Statement(reader.place(at)));
    }
    Err(reader.fault(at))
}

// Whether a token comes next that begins a statement.
#[tactic(auto, using(crate::proofs::Starts::statement_next))]
fn is_statement(reader: Reader<'_>, at: usize) -> bool
    requires { IsOfSource reader }
    ensures { result ≡ passes starts_statement (first (left reader.entry at) None) }
{
    reader.is_next(at, Word::If)
        || reader.is_next(at, Word::Case)
        || reader.is_next(at, Word::Begin)
        || reader.is_next(at, Word::Semicolon)
        || is_left_side(reader, at)
}

// An `if`, or another statement.
#[cycle(statement)]
fn alternative(
    reader: Reader<'_>,
    at: &mut usize,
    context: Context,
    depth: usize,
) -> Result<StatementKind, ParseFault>
    requires { IsOfSource reader }
    ensures { Gives result (left reader.entry at.new)
        ((alternatives context (length reader.entry.tokens.now) (statement_in reader.entry context depth)).read (left reader.entry at.old)) }
{
    match reader.takes(at, Word::If) {
        Some(_) => chosen(reader, at, context, depth),
        None => case_or_other(reader, at, context, depth),
    }
}

// A `case`, a block, `;` or an assignment.
#[cycle(statement)]
fn case_or_other(
    reader: Reader<'_>,
    at: &mut usize,
    context: Context,
    depth: usize,
) -> Result<StatementKind, ParseFault>
    requires { IsOfSource reader }
    ensures { Gives result (left reader.entry at.new)
        ((case_or_other context (length reader.entry.tokens.now) (statement_in reader.entry context depth)).read (left reader.entry at.old)) }
{
    match reader.takes(at, Word::Case) {
        Some(_) => cases(reader, at, context, depth),
        None => block_or_other(reader, at, context, depth),
    }
}

// A block, `;` or an assignment.
#[cycle(statement)]
fn block_or_other(
    reader: Reader<'_>,
    at: &mut usize,
    context: Context,
    depth: usize,
) -> Result<StatementKind, ParseFault>
    requires { IsOfSource reader }
    ensures { Gives result (left reader.entry at.new)
        ((block_or_other context (length reader.entry.tokens.now) (statement_in reader.entry context depth)).read (left reader.entry at.old)) }
{
    match reader.takes(at, Word::Begin) {
        Some(_) => block(reader, at, context, depth),
        None => empty_or_assigned(reader, at, context),
    }
}

// `;` or an assignment.
fn empty_or_assigned(
    reader: Reader<'_>,
    at: &mut usize,
    context: Context,
) -> Result<StatementKind, ParseFault>
    requires { IsOfSource reader }
    ensures { Gives result (left reader.entry at.new)
        ((empty_or_assigned context (length reader.entry.tokens.now)).read (left reader.entry at.old)) }
{
    match reader.takes(at, Word::Semicolon) {
        Some(_) => Ok(StatementKind::Empty),
        None => assigned(reader, at, context),
    }
}

// A target, `<=` or `=`, a value and `;`.
fn assigned(
    reader: Reader<'_>,
    at: &mut usize,
    context: Context,
) -> Result<StatementKind, ParseFault>
    requires { IsOfSource reader }
    ensures { Gives result (left reader.entry at.new) ((assigned context (length reader.entry.tokens.now)).read (left reader.entry at.old)) }
{
    match context {
        Context::Always => nonblocking(reader, at),
        Context::Function => blocking(reader, at),
    }
}

fn nonblocking(reader: Reader<'_>, at: &mut usize) -> Result<StatementKind, ParseFault>
    requires { IsOfSource reader }
    ensures { Gives result (left reader.entry at.new) ((assigned Always (length reader.entry.tokens.now)).read (left reader.entry at.old)) }
{
    let target = target(reader, at, Word::LessEqual)?;
    match value(reader, at) {
        Ok(value) => Ok(StatementKind::Nonblocking(target, value)),
        Err(fault) => {
            let_go(target);
            Err(fault)
        }
    }
}

fn blocking(reader: Reader<'_>, at: &mut usize) -> Result<StatementKind, ParseFault>
    requires { IsOfSource reader }
    ensures { Gives result (left reader.entry at.new) ((assigned Function (length reader.entry.tokens.now)).read (left reader.entry at.old)) }
{
    let target = target(reader, at, Word::Equals)?;
    match value(reader, at) {
        Ok(value) => Ok(StatementKind::Blocking(target, value)),
        Err(fault) => {
            let_go(target);
            Err(fault)
        }
    }
}

// A left side and the word behind it.
fn target(reader: Reader<'_>, at: &mut usize, word: Word) -> Result<Boxed<Lval>, ParseFault>
    requires { IsOfSource reader }
    ensures { Gives result (left reader.entry at.new) ((target_form (length reader.entry.tokens.now) word).read (left reader.entry at.old)) }
{
    let target = left_side(reader, at)?;
    match reader.word(at, word) {
        Ok(_) => {
            let target = Boxed::new(reader.alloc, target)?;
            Ok(target)
        }
        Err(fault) => {
            let_go(target);
            Err(fault)
        }
    }
}

// A value and `;`.
fn value(reader: Reader<'_>, at: &mut usize) -> Result<Expr, ParseFault>
    requires { IsOfSource reader }
    ensures { Gives result (left reader.entry at.new) (value_form.read (left reader.entry at.old)) }
{
    let value = reader.expression(at)?;
    match reader.word(at, Word::Semicolon) {
        Ok(_) => Ok(value),
        Err(fault) => {
            let_go(value);
            Err(fault)
        }
    }
}

// Behind `if`.
#[cycle(statement)]
fn chosen(
    reader: Reader<'_>,
    at: &mut usize,
    context: Context,
    depth: usize,
) -> Result<StatementKind, ParseFault>
    requires { IsOfSource reader }
    ensures { Gives result (left reader.entry at.new) ((chosen (statement_in reader.entry context depth)).read (left reader.entry at.old)) }
{
    let test = tested(reader, at)?;
    match branches(reader, at, context, depth) {
        Ok((branch, other)) => Ok(StatementKind::If(test, branch, other)),
        Err(fault) => {
            let_go(test);
            Err(fault)
        }
    }
}

// `( expr )`
fn tested(reader: Reader<'_>, at: &mut usize) -> Result<Expr, ParseFault>
    requires { IsOfSource reader }
    ensures { Gives result (left reader.entry at.new) (test_form.read (left reader.entry at.old)) }
{
    reader.word(at, Word::OpenParen)?;
    let test = reader.expression(at)?;
    match reader.word(at, Word::CloseParen) {
        Ok(_) => Ok(test),
        Err(fault) => {
            let_go(test);
            Err(fault)
        }
    }
}

// A statement, and `else` and another one or nothing.
#[cycle(statement)]
fn branches(
    reader: Reader<'_>,
    at: &mut usize,
    context: Context,
    depth: usize,
) -> Result<(Boxed<Statement>, Option<Boxed<Statement>>), ParseFault>
    requires { IsOfSource reader }
    ensures { Gives result (left reader.entry at.new) ((branches (statement_in reader.entry context depth)).read (left reader.entry at.old)) }
{
    let branch = boxed(reader, at, context, depth)?;
    let Some(_) = reader.takes(at, Word::Else) else {
        return Ok((branch, None));
    };
    let other = boxed(reader, at, context, depth)?;
    Ok((branch, Some(other)))
}

// A statement of an `if`.
#[cycle(statement)]
fn boxed(
    reader: Reader<'_>,
    at: &mut usize,
    context: Context,
    depth: usize,
) -> Result<Boxed<Statement>, ParseFault>
    requires { IsOfSource reader }
    ensures { Gives result (left reader.entry at.new) ((statement_in reader.entry context depth).read (left reader.entry at.old)) }
{
    let statement = nested(reader, at, context, depth)?;
    let statement = Boxed::new(reader.alloc, statement)?;
    Ok(statement)
}

// Behind `case`.
#[cycle(statement)]
fn cases(
    reader: Reader<'_>,
    at: &mut usize,
    context: Context,
    depth: usize,
) -> Result<StatementKind, ParseFault>
    requires { IsOfSource reader }
    ensures { Gives result (left reader.entry at.new) ((cases (statement_in reader.entry context depth)).read (left reader.entry at.old)) }
{
    let value = tested(reader, at)?;
    match case_items(reader, at, context, depth) {
        Ok(items) => cases_end(reader, at, value, items),
        Err(fault) => {
            let_go(value);
            Err(fault)
        }
    }
}

// Behind the value and the items of a `case`.
fn cases_end(
    reader: Reader<'_>,
    at: &mut usize,
    value: Expr,
    items: Items<CaseItem>,
) -> Result<StatementKind, ParseFault>
    requires { IsOfSource reader }
    ensures { Gives result (left reader.entry at.new) ((cases_end value items).read (left reader.entry at.old)) }
{
    match reader.word(at, Word::Endcase) {
        Ok(_) => Ok(StatementKind::Case(value, items)),
        Err(fault) => {
            let_go(value);
            let_go(items);
            Err(fault)
        }
    }
}

// One item or more.
#[cycle(statement)]
fn case_items(
    reader: Reader<'_>,
    at: &mut usize,
    context: Context,
    depth: usize,
) -> Result<Items<CaseItem>, ParseFault>
    requires { IsOfSource reader }
    ensures { Gives result (left reader.entry at.new) ((case_items (statement_in reader.entry context depth)).read (left reader.entry at.old)) }
{
    let mut items = Items::new(reader.alloc);
    items.push(item(reader, at, context, depth)?)?;
    more_items(reader, at, context, depth, &mut items)?;
    Ok(items)
}

// Each further item of a `case`.
#[cycle(statement)]
fn more_items(
    reader: Reader<'_>,
    at: &mut usize,
    context: Context,
    depth: usize,
    items: &mut Items<CaseItem>,
) -> Result<(), ParseFault>
    requires { IsOfSource reader }
    ensures { GivesAs (λ _. items.new) result (left reader.entry at.new)
        (repeat (is_other Endcase) (item_form (statement_in reader.entry context depth)).read items.old (left reader.entry at.old)) }
{
    for _ in 0..reader.remaining(*at) {
        if !reader.is_other(*at, Word::Endcase) {
            return Ok(());
        }
        items.push(item(reader, at, context, depth)?)?;
    }
    Ok(())
}

// An item of a `case`, with its place.
#[cycle(statement)]
#[tactic(auto, unfolding(crate::specs::StatementForm::item_form))]
fn item(
    reader: Reader<'_>,
    at: &mut usize,
    context: Context,
    depth: usize,
) -> Result<CaseItem, ParseFault>
    requires { IsOfSource reader }
    ensures { Gives result (left reader.entry at.new) ((item_form (statement_in reader.entry context depth)).read (left reader.entry at.old)) }
{
    let place = reader.place(*at);
    let (label, body) = item_parts(reader, at, context, depth)?;
    Ok(CaseItem { place, label, body })
}

// `default` or values, and a statement.
#[cycle(statement)]
fn item_parts(
    reader: Reader<'_>,
    at: &mut usize,
    context: Context,
    depth: usize,
) -> Result<(CaseLabel, Statement), ParseFault>
    requires { IsOfSource reader }
    ensures { Gives result (left reader.entry at.new) ((item_parts (statement_in reader.entry context depth)).read (left reader.entry at.old)) }
{
    match reader.takes(at, Word::Default) {
        Some(_) => default_item(reader, at, context, depth),
        None => valued_item(reader, at, context, depth),
    }
}

// Behind `default`: `:` or none, and a statement.
#[cycle(statement)]
fn default_item(
    reader: Reader<'_>,
    at: &mut usize,
    context: Context,
    depth: usize,
) -> Result<(CaseLabel, Statement), ParseFault>
    requires { IsOfSource reader }
    ensures { Gives result (left reader.entry at.new) ((default_item (statement_in reader.entry context depth)).read (left reader.entry at.old)) }
{
    reader.flag(at, Word::Colon);
    let body = nested(reader, at, context, depth)?;
    Ok((CaseLabel::Default, body))
}

// Expressions, `:` and a statement.
#[cycle(statement)]
fn valued_item(
    reader: Reader<'_>,
    at: &mut usize,
    context: Context,
    depth: usize,
) -> Result<(CaseLabel, Statement), ParseFault>
    requires { IsOfSource reader }
    ensures { Gives result (left reader.entry at.new) ((valued_item (statement_in reader.entry context depth)).read (left reader.entry at.old)) }
{
    let values = expressions(reader, at)?;
    reader.word(at, Word::Colon)?;
    match nested(reader, at, context, depth) {
        Ok(body) => Ok((CaseLabel::Values(values), body)),
        Err(fault) => {
            let_go(values);
            Err(fault)
        }
    }
}

// Behind `begin`.
#[cycle(statement)]
fn block(
    reader: Reader<'_>,
    at: &mut usize,
    context: Context,
    depth: usize,
) -> Result<StatementKind, ParseFault>
    requires { IsOfSource reader }
    ensures { Gives result (left reader.entry at.new) ((block (statement_in reader.entry context depth)).read (left reader.entry at.old)) }
{
    let name = block_name(reader, at)?;
    let mut body = Items::new(reader.alloc);
    more_statements(reader, at, context, depth, &mut body)?;
    reader.word(at, Word::End)?;
    Ok(StatementKind::Block(name, body))
}

// Each statement of a block.
#[cycle(statement)]
fn more_statements(
    reader: Reader<'_>,
    at: &mut usize,
    context: Context,
    depth: usize,
    body: &mut Items<Statement>,
) -> Result<(), ParseFault>
    requires { IsOfSource reader }
    ensures { GivesAs (λ _. body.new) result (left reader.entry at.new)
        (repeat (is_other End) (statement_in reader.entry context depth).read body.old (left reader.entry at.old)) }
{
    for _ in 0..reader.remaining(*at) {
        if !reader.is_other(*at, Word::End) {
            return Ok(());
        }
        body.push(nested(reader, at, context, depth)?)?;
    }
    Ok(())
}
