//! Rows over the program's commands on real files: `input FILE` is the input of the rows behind it, and `vod WORD..` a call, behind
//! whose text stands its status. `trace WORD..` is a call with a line for each call that it makes on the system; `short WORD..` one
//! on a system that reads and writes at most 1,000 bytes at once, and `fail CALL WORD..` one on which this call fails.
#![tactic(auto)]

mod traced;

use crate::traced::{Call, Traced, Trouble};
use std::alloc::{AllocError, Global};
use std::fs::Files;
use std::io;
use std::io::Print;
use vod_io::{FileSource, PrintErr};
use vod_program::run;

/// What the first word of a row is, and the words behind it.
enum Row<'a> {
    Text,
    Input(&'a str),
    Call(&'a str),
    Traced(Trouble, &'a str),
}

fn row_of(line: &str) -> Option<Row<'_>> {
    if line.is_empty() || line.starts_with('#') {
        return Some(Row::Text);
    }
    if let Some(file) = line.strip_prefix("input ") {
        return Some(Row::Input(file));
    }
    if let Some(words) = line.strip_prefix("vod ") {
        return Some(Row::Call(words));
    }
    if let Some(words) = line.strip_prefix("trace ") {
        return Some(Row::Traced(Trouble::None, words));
    }
    if let Some(words) = line.strip_prefix("short ") {
        return Some(Row::Traced(Trouble::Short, words));
    }
    failing(line.strip_prefix("fail ")?)
}

/// The row whose first word is the call that fails.
fn failing(text: &str) -> Option<Row<'_>> {
    let mut parts = text.splitn(2, ' ');
    let call = call_of(parts.next()?)?;
    let words = parts.next()?;
    Some(Row::Traced(Trouble::Fails(call), words))
}

fn call_of(word: &str) -> Option<Call> {
    match word {
        "open" => Some(Call::Open),
        "len" => Some(Call::Len),
        "read" => Some(Call::Read),
        "write" => Some(Call::Write),
        "sync" => Some(Call::Sync),
        "say" => Some(Call::Say),
        "put" => Some(Call::Put),
        _ => None,
    }
}

fn words_of(alloc: Global, text: &str) -> Result<Vec<String>, AllocError> {
    let mut words = Vec::new(alloc);
    for word in text.split_whitespace() {
        words.push(word.to_string(alloc)?)?;
    }
    Ok(words)
}

/// Calls the program on the input and a system, and prints its status behind what it wrote.
fn call<R: Files + Print + PrintErr + Copy>(
    rt: HostRuntime,
    on: R,
    input: &str,
    text: &str,
) -> io::Result<()> {
    let words = words_of(rt.alloc(), text)?;
    let mut source = FileSource::new(on, input.to_string(rt.alloc())?);
    let status = run(rt.alloc(), on, words.as_slice(), &mut source);
    println!(rt; "-> {}", status.code())
}

fn answer(rt: HostRuntime, input: &mut String, line: &str) -> io::Result<()> {
    rt.println(line)?;
    match row_of(line) {
        Some(Row::Text) => Ok(()),
        Some(Row::Input(file)) => {
            *input = file.to_string(rt.alloc())?;
            Ok(())
        }
        Some(Row::Call(words)) => call(rt, rt, input.as_str(), words),
        Some(Row::Traced(trouble, words)) => {
            call(rt, Traced::new(rt, trouble), input.as_str(), words)
        }
        None => rt.println("-> unknown row"),
    }
}

fn main(rt: HostRuntime) -> io::Result<()> {
    let mut input = String::new(rt.alloc());
    for line in rt.lines(rt.alloc()) {
        answer(rt, &mut input, line?.as_str())?;
    }
    Ok(())
}
