//! Rows about what is recorded in a log, and read back.
ghost use Rattle.std.specs.Prelude.{◌^◌, ◌≤◌, length, IfOk};
ghost use Rattle.vod_thin_design.specs.Names.{HasPlainNames};
ghost use Rattle.vod_thin.specs.Thin.{IsThin};

use crate::bytes::push_bytes;
use crate::logs::push_fault;
use crate::setup::Context;
use crate::words::Stop;
use std::alloc::Global;
use vod_deck::MemDeck;
use vod_io::Sink;
use vod_log::{Bytes, Log};
use vod_thin::{few_inputs, read_thin};
use vod_thin_design::Design;
use vod_thin_replay::{RangeFault, ReplayFault, first_image, range, read_source, read_vectors};
use vod_thin_script::read_script;
use vod_thin_store::StoreFault;
use vod_thin_window::{WindowFault, write_dump};

// The most bytes of a source.
const MOST_BYTES: usize = 1 << 20;

// The most vectors that are recorded.
const MOST_VECTORS: usize = 4_095;

/// The design of a source.
pub fn design_of(alloc: Global, source: &[u8]) -> Result<Design, Stop>
    ensures short { IfOk result (λ _. length source.now ≤ 2 ^ 20) }
    ensures thin { IfOk result (λ d. IsThin source.now d) }
    ensures plain { IfOk result (λ d. HasPlainNames d) }
{
    if source.len() > MOST_BYTES {
        return Err(Stop::Unknown);
    }
    match read_thin(alloc, source, false) {
        Ok(design) => Ok(design),
        Err(_) => Err(Stop::Unknown),
    }
}

/// Opens a log to append to it, and records the vectors of a script.
pub fn record(
    context: &Context,
    deck: &mut MemDeck,
    script: &[u8],
    answer: &mut String,
) -> Result<(), Stop> {
    let (alloc, source) = (context.alloc, context.setup.design.as_slice());
    let design = design_of(alloc, source)?;
    let Ok(past) = read_script(alloc, &design, script) else {
        return Err(Stop::Unknown);
    };
    let (vectors, known) = (past.vectors(), past.known_since());
    if vectors.len() > MOST_VECTORS {
        return Err(Stop::Unknown);
    }
    let log = match Log::open_to_append(alloc, deck) {
        Ok(log) => log,
        Err(fault) => return push_fault(answer, fault),
    };
    // A law: a thin design has at most 256 inputs.
    few_inputs();
    let done = vod_thin_store::record(alloc, deck, log.tail(), &design, source, vectors, known);
    push_stored(answer, done)
}

fn push_stored(answer: &mut String, done: Result<(), StoreFault>) -> Result<(), Stop> {
    match done {
        Ok(()) => answer.push_str(" ok")?,
        Err(StoreFault::Deck) => answer.push_str(" Deck")?,
        Err(StoreFault::NotEmpty) => answer.push_str(" NotEmpty")?,
        Err(StoreFault::Memory) => answer.push_str(" Memory")?,
    }
    Ok(())
}

/// Writes the dump of a design over the vectors of a script.
pub fn dump<K: Sink>(
    context: &Context,
    out: &mut K,
    script: &[u8],
    answer: &mut String,
) -> Result<(), Stop> {
    let (alloc, source) = (context.alloc, context.setup.design.as_slice());
    let design = design_of(alloc, source)?;
    let Ok(past) = read_script(alloc, &design, script) else {
        return Err(Stop::Unknown);
    };
    match write_dump(alloc, source, &design, past.vectors(), out) {
        Ok(()) => answer.push_str(" ok")?,
        Err(WindowFault::Write) => answer.push_str(" Write")?,
        Err(WindowFault::Memory) => answer.push_str(" Memory")?,
    }
    Ok(())
}

/// Whether a window is in what a log holds.
pub fn in_range(
    alloc: Global,
    deck: &mut MemDeck,
    from: u64,
    to: u64,
    answer: &mut String,
) -> Result<(), Stop> {
    let log = match Log::open(alloc, deck) {
        Ok(log) => log,
        Err(fault) => return push_fault(answer, fault),
    };
    match range(&log, from, to) {
        Ok(()) => answer.push_str(" ok")?,
        Err(fault) => push_range(answer, fault)?,
    }
    Ok(())
}

fn push_range(answer: &mut String, fault: RangeFault) -> Result<(), Stop> {
    match fault {
        RangeFault::Backwards => answer.push_str(" Backwards")?,
        RangeFault::NothingHeld => answer.push_str(" NothingHeld")?,
        RangeFault::NeverKnown => answer.push_str(" NeverKnown")?,
        RangeFault::TooEarly(time) => write!(answer, " TooEarly {time}")?,
        RangeFault::PastEnd(time) => write!(answer, " PastEnd {time}")?,
    }
    Ok(())
}

/// The gate of a log's first image.
pub fn image(alloc: Global, deck: &mut MemDeck, answer: &mut String) -> Result<(), Stop> {
    let log = match Log::open(alloc, deck) {
        Ok(log) => log,
        Err(fault) => return push_fault(answer, fault),
    };
    match first_image(&log) {
        Some(gate) => write!(answer, " {gate}")?,
        None => answer.push_str(" none")?,
    }
    Ok(())
}

fn push_replay(answer: &mut String, fault: ReplayFault) -> Result<(), Stop> {
    match fault {
        ReplayFault::Deck => answer.push_str(" Deck")?,
        ReplayFault::Damaged(gate) => write!(answer, " Damaged {gate}")?,
        ReplayFault::Memory => answer.push_str(" Memory")?,
    }
    Ok(())
}

/// The source that a log holds.
pub fn source_of(alloc: Global, deck: &mut MemDeck, answer: &mut String) -> Result<(), Stop> {
    let log = match Log::open(alloc, deck) {
        Ok(log) => log,
        Err(fault) => return push_fault(answer, fault),
    };
    let mut buffer = Bytes::new(alloc);
    match read_source(deck, &log, &mut buffer) {
        Ok(source) => push_bytes(answer, source),
        Err(fault) => push_replay(answer, fault),
    }
}

/// The vectors that a log holds up to a time: how many, their last time, since when every input is
/// known, and how many bytes were read for them.
pub fn vectors_to(
    context: &Context,
    deck: &mut MemDeck,
    to: u64,
    answer: &mut String,
) -> Result<(), Stop> {
    let (alloc, source) = (context.alloc, context.setup.design.as_slice());
    let design = design_of(alloc, source)?;
    let log = match Log::open(alloc, deck) {
        Ok(log) => log,
        Err(fault) => return push_fault(answer, fault),
    };
    let before = deck.bytes_read();
    match read_vectors(alloc, deck, &log, &design, to) {
        Ok(past) => {
            let read = deck.bytes_read().saturating_sub(before);
            write!(
                answer,
                " {} last={}",
                past.vectors().len(),
                past.last_time()
            )?;
            write!(answer, " bytes={read}")?;
        }
        Err(fault) => push_replay(answer, fault)?,
    }
    Ok(())
}
