//! Rows about sources, sinks, decks, logs and records: each row is run, and printed with its answer.
//!
//! A row is a form in memory or a file, ` : `, and calls on it between `;`. Bytes are words of text,
//! with `\x` and two digits for what isn't printed. `#N` is a number of eight bytes, `-` no bytes,
//! and `$NAME` the bytes of an earlier row `name $NAME BYTES`.
#![tactic(auto)]

mod answer;
mod bytes;
mod decks;
mod disks;
mod logs;
mod past;
mod records;
mod setup;
mod streams;
mod words;

use crate::bytes::Names;
use crate::setup::{Context, Setup};
use crate::words::{Form, Memory, Stop, form_of};
use std::alloc::{AllocError, Global};
use std::io;

fn main(rt: HostRuntime) -> io::Result<()> {
    let mut names = Names::new(rt.alloc());
    for line in rt.lines(rt.alloc()) {
        print_row(&rt, line?.as_str(), &mut names)?;
    }
    Ok(())
}

// Prints a row and its answer; a comment and an empty line as they are.
fn print_row(rt: &HostRuntime, line: &str, names: &mut Names) -> io::Result<()> {
    if line.is_empty() || line.starts_with('#') {
        return println!(rt; "{line}");
    }
    let mut answer = String::new(rt.alloc());
    match run(rt, line, names, &mut answer) {
        Ok(()) => println!(rt; "{line} ->{answer}"),
        Err(Stop::Unknown) => println!(rt; "{line} -> unknown row"),
        Err(Stop::Memory) => Err(io::Error::from(AllocError)),
    }
}

// Runs a row.
fn run(rt: &HostRuntime, line: &str, names: &mut Names, answer: &mut String) -> Result<(), Stop> {
    let alloc = rt.alloc();
    let mut parts = line.splitn(2, " : ");
    let head = parts.next().unwrap_or("");
    let calls = parts.next().unwrap_or("");
    let words: Vec<&str> = head.split_whitespace().collect(alloc)?;
    let [first, rest @ ..] = words.as_slice() else {
        return Err(Stop::Unknown);
    };
    match form_of(first)? {
        Form::Name => names.add(alloc, rest, answer),
        Form::Record => records::record(alloc, names, rest, answer),
        Form::File => disks::file(rt, rest, calls, answer),
        Form::Disk => disks::disk(rt, names, rest, calls, answer),
        Form::Memory(form) => in_memory(alloc, form, names, rest, calls, answer),
    }
}

// Runs a row about a form in memory.
fn in_memory(
    alloc: Global,
    form: Memory,
    names: &Names,
    words: &[&str],
    calls: &str,
    answer: &mut String,
) -> Result<(), Stop> {
    let setup = Setup::read(alloc, names, words)?;
    let context = Context {
        alloc,
        names,
        setup: &setup,
    };
    match form {
        Memory::Source => streams::source(&context, calls, answer),
        Memory::Sink => streams::mem_sink(&context, calls, answer),
        Memory::Short => streams::short_sink(&context, calls, answer),
        Memory::Deck => decks::deck(&context, calls, answer),
    }
}
