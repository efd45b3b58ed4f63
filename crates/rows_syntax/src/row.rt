//! A row: an operation, and the source that it is tried on.
ghost use Rattle.std.specs.Prelude.{◌≡◌, ◌≤◌, length, All, None};
ghost use Rattle.vod_token.specs.Nesting.{deep_at};
ghost use Rattle.vod_token.specs.Span.{IsTokenOf};

use crate::expression::show_expr;
use crate::facts::show_facts;
use crate::lexis::{show_literal, show_tokens};
use crate::tree::show_tree;
use rows_text::{Page, number_at, unescaped};
use std::alloc::{AllocError, Global};
use vod_expr::{ParseFault, read_expr};
use vod_parse::read_source;
use vod_token::{Token, tokens};
use vod_tree::{Expr, Tree};

/// The most bytes of a source.
const MOST_BYTES: usize = 1_048_576;

/// What is tried on a source.
#[derive(Clone, Copy)]
enum Operation {
    /// Its tokens.
    Tokens,
    /// The number that it begins with.
    Literal,
    /// The expression that is read from the first token on.
    Expression,
    /// The expression that is read from the token with a given number on.
    From,
    /// The tree of the whole.
    Source,
    /// What calls say of the tree of the whole.
    Facts,
}

fn operation_of(word: &str) -> Option<Operation> {
    match word {
        "tokens" => Some(Operation::Tokens),
        "literal" => Some(Operation::Literal),
        "expr" => Some(Operation::Expression),
        "from" => Some(Operation::From),
        "source" => Some(Operation::Source),
        "facts" => Some(Operation::Facts),
        _ => None,
    }
}

/// A row with its answer; a comment and an empty row as they are.
pub fn answered(alloc: Global, row: &str) -> Result<String, AllocError> {
    let text = String::from_str(alloc, row)?;
    if row.is_empty() || row.starts_with('#') {
        return Ok(text);
    }
    let mut page = Page::new(text);
    page.put(" ->");
    answer(alloc, &mut page, row)?;
    page.finish()
}

fn answer(alloc: Global, page: &mut Page, row: &str) -> Result<(), AllocError> {
    let (word, text) = row.split_once(' ').unwrap_or((row, ""));
    let Some(operation) = operation_of(word) else {
        page.word("unknown row");
        return Ok(());
    };
    let (from, text) = match operation {
        Operation::From => number_at(text.as_bytes()),
        _ => (0, text.as_bytes()),
    };
    let source = unescaped(alloc, text)?;
    show_answer(alloc, page, operation, from, source.as_slice())
}

fn show_answer(
    alloc: Global,
    page: &mut Page,
    operation: Operation,
    from: u64,
    source: &[u8],
) -> Result<(), AllocError> {
    if source.len() > MOST_BYTES {
        page.word("longer than 1,048,576 bytes");
        return Ok(());
    }
    match operation {
        Operation::Tokens => show_tokens(alloc, page, source),
        Operation::Literal => show_literal(alloc, page, source),
        Operation::Expression | Operation::From => show_expression(alloc, page, source, from),
        Operation::Source => show_source(alloc, page, source),
        Operation::Facts => return show_known(alloc, page, source),
    }
    Ok(())
}

/// The expression that is read from a token on.
fn show_expression(alloc: Global, page: &mut Page, source: &[u8], from: u64)
    requires { length source.now ≤ 1048576 }
{
    match tokens(alloc, source) {
        Ok(tokens) => show_run(alloc, page, source, tokens.as_slice(), from),
        Err(fault) => page.shown(&fault),
    }
}

fn show_run(alloc: Global, page: &mut Page, source: &[u8], tokens: &[Token], from: u64)
    requires tokens { All (IsTokenOf source.now) tokens.now }
    requires nested { deep_at source.now tokens.now ≡ None }
{
    if from > tokens.len() as u64 {
        return page.word("no such token");
    }
    show_read(page, &read_expr(alloc, source, tokens, from as usize));
}

/// An expression, and how many tokens stand before the one behind it.
fn show_read(page: &mut Page, read: &Result<(Expr, usize), ParseFault>) {
    match read {
        Ok((expr, end)) => {
            show_expr(page, expr);
            page.shown(end);
        }
        Err(fault) => show_fault(page, *fault),
    }
}

/// The tree of a whole source.
fn show_source(alloc: Global, page: &mut Page, source: &[u8])
    requires { length source.now ≤ 1048576 }
{
    match tokens(alloc, source) {
        Ok(tokens) => show_parsed(page, &read_source(alloc, source, tokens.as_slice())),
        Err(fault) => page.shown(&fault),
    }
}

/// What calls say of the tree of a whole source.
fn show_known(alloc: Global, page: &mut Page, source: &[u8]) -> Result<(), AllocError>
    requires { length source.now ≤ 1048576 }
{
    match tokens(alloc, source) {
        Ok(tokens) => show_read_facts(alloc, page, &read_source(alloc, source, tokens.as_slice())),
        Err(fault) => {
            page.shown(&fault);
            Ok(())
        }
    }
}

fn show_read_facts(
    alloc: Global,
    page: &mut Page,
    parsed: &Result<Tree, ParseFault>,
) -> Result<(), AllocError> {
    match parsed {
        Ok(tree) => show_facts(alloc, page, tree),
        Err(fault) => {
            show_fault(page, *fault);
            Ok(())
        }
    }
}

fn show_parsed(page: &mut Page, parsed: &Result<Tree, ParseFault>) {
    match parsed {
        Ok(tree) => show_tree(page, tree),
        Err(fault) => show_fault(page, *fault),
    }
}

fn show_fault(page: &mut Page, fault: ParseFault) {
    match fault {
        ParseFault::At(place) => page.placed("At", u64::from(place)),
        ParseFault::End => page.word("End"),
        ParseFault::Statement(place) => page.placed("Statement", u64::from(place)),
        ParseFault::Memory => page.word("Memory"),
    }
}
