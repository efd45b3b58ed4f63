//! Rows over the sizes, signs and values of expressions, and over left sides. A `declare` row says what names stand for in the rows
//! behind it; a `size` row has the size of a context, 0 for none, and an expression; an `at` row has a size, a sign and an expression;
//! a `constant`, `own` or `place` row has an expression, and a `left` row a left side.
#![tactic(auto)]

mod answers;
mod functions;
mod lefts;
mod names;

use crate::answers::{Question, print_answer, print_count, print_left_answer, print_message};
use rows_digits::named;
use std::io;

/// What the first word of a row names.
#[derive(Clone, Copy)]
enum Call {
    Declare,
    Size,
    Constant,
    Own,
    At,
    Place,
    Reads,
    Left,
    Message,
}

const CALLS: [(&str, Call); 9] = [
    ("declare", Call::Declare),
    ("size", Call::Size),
    ("constant", Call::Constant),
    ("own", Call::Own),
    ("at", Call::At),
    ("place", Call::Place),
    ("reads", Call::Reads),
    ("left", Call::Left),
    ("message", Call::Message),
];

/// Keeps the declarations of a row for those behind it.
fn declare(rt: &(impl Print + AllocGlobal), words: &str, names: &mut String) -> io::Result<()> {
    *names = String::from_str(rt.alloc(), words)?;
    print_count(rt, words)
}

/// Prints the answer on the context and the expression of a row.
fn sized(rt: &(impl Print + AllocGlobal), rest: &str, names: &str) -> io::Result<()> {
    let (context, text) = rest.split_once(' ').unwrap_or((rest, ""));
    match context.parse() {
        Ok(context) => print_answer(rt, names, Question::Size(context), text),
        Err(_) => rt.println("not a row"),
    }
}

/// Prints the answer on the size, the sign and the expression of a row.
fn sized_at(rt: &(impl Print + AllocGlobal), rest: &str, names: &str) -> io::Result<()> {
    let (width, rest) = rest.split_once(' ').unwrap_or((rest, ""));
    let (sign, text) = rest.split_once(' ').unwrap_or((rest, ""));
    match width.parse() {
        Ok(width) => print_answer(rt, names, Question::At(width, sign == "signed"), text),
        Err(_) => rt.println("not a row"),
    }
}

/// Prints what the call of a row gives for the text behind its name.
fn answer(
    rt: &(impl Print + AllocGlobal),
    call: Call,
    rest: &str,
    names: &mut String,
) -> io::Result<()> {
    match call {
        Call::Declare => declare(rt, rest, names),
        Call::Size => sized(rt, rest, names.as_str()),
        Call::Constant => print_answer(rt, names.as_str(), Question::Constant, rest),
        Call::Own => print_answer(rt, names.as_str(), Question::Own, rest),
        Call::At => sized_at(rt, rest, names.as_str()),
        Call::Place => print_answer(rt, names.as_str(), Question::Place, rest),
        Call::Reads => print_answer(rt, names.as_str(), Question::Reads, rest),
        Call::Left => print_left_answer(rt, names.as_str(), rest),
        Call::Message => print_message(rt, rest),
    }
}

/// Prints a line, and behind a row what it gives.
fn row(rt: &(impl Print + AllocGlobal), line: &str, names: &mut String) -> io::Result<()> {
    if line.is_empty() || line.starts_with('#') {
        return rt.println(line);
    }
    print!(rt; "{line} -> ")?;
    let (word, rest) = line.split_once(' ').unwrap_or((line, ""));
    match named(word, &CALLS) {
        Some(call) => answer(rt, call, rest, names),
        None => rt.println("unknown row"),
    }
}

fn main(rt: HostRuntime) -> io::Result<()> {
    let mut names = String::new(rt.alloc());
    for line in rt.lines(rt.alloc()) {
        row(&rt, line?.as_str(), &mut names)?;
    }
    Ok(())
}
