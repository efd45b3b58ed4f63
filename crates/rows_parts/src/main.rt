//! Rows over what the parts of a simulation share:
//! - `value NAME A B`: an operator of the interface of values, on two values of one width; what it gives as a known value, where
//!   both are known, and as one of four states;
//! - `fan SOURCES SOURCE:READER..`: the readers of each source.
#![tactic(auto)]

mod fan;
mod operator;

use rows_digits::named;
use std::io;

/// What the first word of a row names.
#[derive(Clone, Copy)]
enum Call {
    Value,
    Fan,
}

const CALLS: [(&str, Call); 2] = [("value", Call::Value), ("fan", Call::Fan)];

/// Prints what the call of a row's words gives.
fn answer(rt: &(impl Print + AllocGlobal), words: &[&str]) -> io::Result<()> {
    let [first, rest @ ..] = words else {
        return Ok(());
    };
    match named(first, &CALLS) {
        Some(Call::Value) => operator::answer(rt, rest),
        Some(Call::Fan) => fan::answer(rt, rest),
        None => rt.print(" unknown row"),
    }
}

/// Prints a line, and behind a row what it gives.
fn row(rt: &(impl Print + AllocGlobal), line: &str) -> io::Result<()> {
    if line.is_empty() || line.starts_with('#') {
        return rt.println(line);
    }
    let words: Vec<&str> = line.split_whitespace().collect(rt.alloc())?;
    print!(rt; "{line} ->")?;
    answer(rt, words.as_slice())?;
    rt.println("")
}

fn main(rt: HostRuntime) -> io::Result<()> {
    for line in rt.lines(rt.alloc()) {
        row(&rt, line?.as_str())?;
    }
    Ok(())
}
