//! Rows over the call of the program, on a device on which each call fails. A row has the words of a call, and is answered with its
//! status, what it wrote on standard output and on standard error, and how many calls on the device failed.
#![tactic(auto)]

mod dead;

use dead::Dead;
use rows_text::Page;
use std::alloc::{AllocError, Global};
use std::io;
use vod_io::{MemSink, MemSource};
use vod_program::vod;

const DESIGN: &str = "module g (input a, output x); assign x = ~a; endmodule";

const SCRIPT: &str = "1 a=1\n2 a=0\n";

/// The most bytes that a sink takes.
const MOST: usize = 4096;

fn source(alloc: Global, text: &str) -> Result<MemSource, AllocError> {
    let bytes = text.as_bytes().to_vec(alloc)?;
    Ok(MemSource::new(bytes, Vec::new(alloc)))
}

fn words_of(alloc: Global, text: &str) -> Result<Vec<String>, AllocError> {
    let mut words = Vec::new(alloc);
    for word in text.split_whitespace() {
        words.push(word.to_string(alloc)?)?;
    }
    Ok(words)
}

fn sink(alloc: Global) -> Result<MemSink, AllocError> {
    MemSink::new(alloc, MOST, Vec::new(alloc)).map_err(|_| AllocError)
}

/// A row with its answer.
fn answered(alloc: Global, row: &str) -> Result<String, AllocError> {
    let words = words_of(alloc, row)?;
    let mut design = source(alloc, DESIGN)?;
    let mut script = source(alloc, SCRIPT)?;
    let mut out = sink(alloc)?;
    let mut err = sink(alloc)?;
    let mut deck = Dead::new();
    let status = vod(
        alloc,
        &words,
        &mut design,
        &mut script,
        &mut deck,
        &mut out,
        &mut err,
    );
    let mut page = Page::new(String::from_str(alloc, row)?);
    page.put(" -> ");
    page.put_shown(&status.code());
    page.put("; out ");
    page.put_lines(out.taken());
    page.put("; err ");
    page.put_lines(err.taken());
    page.placed("; failed", deck.faults());
    page.finish()
}

fn main(rt: HostRuntime) -> io::Result<()> {
    for line in rt.lines(rt.alloc()) {
        let answered = answered(rt.alloc(), line?.as_str())?;
        println!(rt; "{answered}")?;
    }
    Ok(())
}
