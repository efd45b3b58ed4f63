//! Rows over the order of drivers. A word `SIGNAL.BIT,..=READ,..` is a driver: the bits that it writes, the upper one first, and what
//! it reads, which is `SIGNAL` for a whole signal, `SIGNAL.LOW` for a bit, `SIGNAL.LOW.WIDTH` for bits, `SIGNAL?` for a bit by a value,
//! or `mMEMORY` for a word by a value. The answer has each driver as `DRIVER@LEVEL`, or the cycle.
//! - `order DRIVER..`: the order of these drivers;
//! - `readers SIGNALS MEMORIES DRIVER..`: which drivers can read each of so many signals, and of so many memories;
//! - `blocks SIGNALS CLOCK[,RESET]..`: which blocks wait for edges of each of so many signals;
//! - `mesh COUNT REACH`: of so many drivers of one bit, of which each reads the next REACH ones; the first and the last rank;
//! - `ring COUNT`: of so many drivers, of which each feeds the one before; how long the cycle is, and its first and last driver.
#![tactic(auto)]

mod answers;
mod drivers;
mod made;
mod readers;

use rows_digits::named;
use std::io;

/// What the first word of a row names.
#[derive(Clone, Copy)]
enum Call {
    Order,
    Readers,
    Blocks,
    Mesh,
    Ring,
}

const CALLS: [(&str, Call); 5] = [
    ("order", Call::Order),
    ("readers", Call::Readers),
    ("blocks", Call::Blocks),
    ("mesh", Call::Mesh),
    ("ring", Call::Ring),
];

/// Prints what the call of a row's words gives.
fn answer(rt: &(impl Print + AllocGlobal), words: &[&str]) -> io::Result<()> {
    let [first, rest @ ..] = words else {
        return Ok(());
    };
    match named(first, &CALLS) {
        Some(Call::Order) => answers::order_of(rt, rest),
        Some(Call::Readers) => readers::answer(rt, rest),
        Some(Call::Blocks) => readers::answer_blocks(rt, rest),
        Some(Call::Mesh) => answers::mesh(rt, rest),
        Some(Call::Ring) => answers::ring(rt, rest),
        None => rt.print(" unknown row"),
    }
}

/// Prints a line, and behind a row what it gives.
fn row(rt: &(impl Print + AllocGlobal), line: &str) -> io::Result<()> {
    if line.is_empty() || line.starts_with('#') {
        return rt.println(line);
    }
    let words: Vec<&str> = line.split_whitespace().collect(rt.alloc())?;
    print!(rt; "{line} ->")?;
    answer(rt, words.as_slice())?;
    rt.println("")
}

fn main(rt: HostRuntime) -> io::Result<()> {
    for line in rt.lines(rt.alloc()) {
        row(&rt, line?.as_str())?;
    }
    Ok(())
}
