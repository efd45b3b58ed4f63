//! Who reads what of drivers, and which blocks wait for what.
ghost use Rattle.std.specs.Prelude.{◌≡◌, ◌<◌, ◌^◌, length, true};

use crate::answers::drivers_of;
use std::alloc::{AllocError, Global};
use std::io;
use vod_design::{Block, Body, Driver, Edge, Statement};
use vod_fanout::FanOut;
use vod_readers::{memory_readers, signal_readers, waiting_blocks};

/// Prints the readers of each of so many sources.
fn print_table(rt: &impl Print, table: &FanOut, count: u32) -> io::Result<()>
    requires { length table.now ≡ count }
{
    for source in 0..count {
        rt.print(" [")?;
        for (i, reader) in table.of(source).iter().enumerate() {
            if i > 0 {
                rt.print(" ")?;
            }
            print!(rt; "{reader}")?;
        }
        rt.print("]")?;
    }
    Ok(())
}

/// Whether a list is short enough for numbers of its parts.
fn is_short(count: usize) -> bool
    ensures { result ≡ true → count < 2 ^ 25 }
{
    count < 1 << 25
}

fn print_readers(
    rt: &(impl Print + AllocGlobal),
    signals: u32,
    memories: u32,
    drivers: &[Driver],
) -> io::Result<()> {
    if !is_short(drivers.len()) {
        return rt.print(" too many");
    }
    let table = signal_readers(rt.alloc(), signals, drivers)?;
    print_table(rt, &table, signals)?;
    rt.print(" memories")?;
    let table = memory_readers(rt.alloc(), memories, drivers)?;
    print_table(rt, &table, memories)
}

/// `readers`
pub fn answer(rt: &(impl Print + AllocGlobal), words: &[&str]) -> io::Result<()> {
    let [signals, memories, words @ ..] = words else {
        return rt.print(" not a row");
    };
    let (Ok(signals), Ok(memories)) = (signals.parse(), memories.parse()) else {
        return rt.print(" not a row");
    };
    match drivers_of(rt.alloc(), words)? {
        Some(drivers) => print_readers(rt, signals, memories, drivers.as_slice()),
        None => rt.print(" not a row"),
    }
}

/// A rising edge of the net that a word numbers.
fn edge(word: &str) -> Option<Edge> {
    let signal = word.parse().ok()?;
    Some(Edge {
        signal,
        rising: true,
    })
}

/// The block of a word `CLOCK` or `CLOCK,RESET`.
fn block(word: &str) -> Option<Block> {
    let (clock, reset) = match word.split_once(',') {
        None => (edge(word)?, None),
        Some((clock, reset)) => (edge(clock)?, Some(edge(reset)?)),
    };
    Some(Block {
        clock,
        reset,
        body: Body::new(Statement::Empty),
    })
}

fn blocks_of(alloc: Global, words: &[&str]) -> Result<Vec<Block>, AllocError> {
    let mut list = Vec::with_capacity(alloc, words.len())?;
    for word in words {
        if let Some(block) = block(word) {
            list.push(block)?;
        }
    }
    Ok(list)
}

/// `blocks`
pub fn answer_blocks(rt: &(impl Print + AllocGlobal), words: &[&str]) -> io::Result<()> {
    let [signals, words @ ..] = words else {
        return rt.print(" not a row");
    };
    let Ok(signals) = signals.parse() else {
        return rt.print(" not a row");
    };
    let blocks = blocks_of(rt.alloc(), words)?;
    if !is_short(blocks.len()) {
        return rt.print(" too many");
    }
    let table = waiting_blocks(rt.alloc(), signals, blocks.as_slice())?;
    print_table(rt, &table, signals)
}
