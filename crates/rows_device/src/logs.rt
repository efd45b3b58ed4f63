//! Rows about the log on a deck.
ghost use Rattle.std.specs.Prelude.{◌≡◌, ◌+◌, ◌^◌, ◌≤◌, ◌<◌, length, false, IsTrue};
ghost use Rattle.vod_deck.specs.InMemory.{told};
ghost use Rattle.vod_log.specs.Tail.{IsSettled};

use crate::bytes::push_bytes;
use crate::setup::Context;
use crate::words::{MOST, Stop};
use std::alloc::Global;
use vod_deck::{MemDeck, Room};
use vod_log::{AppendFault, Bytes, Kind, Log, LogFault, Record, Tail, payload};

/// Opens a log. The answer is its records, each with its gate and header, and its counts.
pub fn open(alloc: Global, deck: &mut MemDeck, answer: &mut String) -> Result<(), Stop> {
    match Log::open(alloc, deck) {
        Ok(log) => push_log(answer, &log),
        Err(fault) => push_fault(answer, fault),
    }
}

/// Opens a log to append to it, with the same answer.
pub fn create(alloc: Global, deck: &mut MemDeck, answer: &mut String) -> Result<(), Stop> {
    match Log::open_to_append(alloc, deck) {
        Ok(log) => push_log(answer, &log),
        Err(fault) => push_fault(answer, fault),
    }
}

/// Prints why a log isn't opened or read.
pub fn push_fault(answer: &mut String, fault: LogFault) -> Result<(), Stop> {
    match fault {
        LogFault::Deck => answer.push_str(" Deck")?,
        LogFault::NotALog(at) => write!(answer, " NotALog {at}")?,
        LogFault::Memory => answer.push_str(" Memory")?,
    }
    Ok(())
}

fn push_log(answer: &mut String, log: &Log) -> Result<(), Stop> {
    for record in log.records() {
        push_record(answer, record)?;
    }
    let held = log.counts();
    write!(answer, " vectors={} last={}", held.vectors, held.last)?;
    push_known(answer, held.known)
}

fn push_record(answer: &mut String, record: &Record) -> Result<(), Stop> {
    let header = record.header;
    write!(answer, " {}:{}", record.at, kind_name(header.kind))?;
    write!(answer, " length={}", header.length)?;
    write!(answer, " held={}..{}", header.before, header.after)?;
    write!(answer, " last={}", header.last)?;
    push_known(answer, header.known)?;
    answer.push_str(" |")?;
    Ok(())
}

fn kind_name(kind: Kind) -> &'static str {
    match kind {
        Kind::Head => "head",
        Kind::Batch => "batch",
        Kind::Image => "image",
    }
}

fn push_known(answer: &mut String, known: Option<u64>) -> Result<(), Stop> {
    match known {
        Some(time) => write!(answer, " known={time}")?,
        None => answer.push_str(" known=never")?,
    }
    Ok(())
}

// Whether a record is inside a file of this length.
fn is_inside(entry: &Record, len: usize) -> bool
    ensures inside { IsTrue result → entry.now.at + 49 + entry.now.header.length ≤ len }
    ensures short { IsTrue result → entry.now.at < 2 ^ 63 }
{
    let (at, length, len) = (entry.at, entry.header.length, len as u64);
    at < MOST && length < MOST && at + 49 + length <= len
}

/// Opens a log, and reads the payload of a record.
pub fn payload_of(
    alloc: Global,
    deck: &mut MemDeck,
    index: usize,
    answer: &mut String,
) -> Result<(), Stop> {
    let log = match Log::open(alloc, deck) {
        Ok(log) => log,
        Err(fault) => return push_fault(answer, fault),
    };
    let records = log.records();
    if index >= records.len() || !is_inside(&records[index], deck.bytes().len()) {
        return Err(Stop::Unknown);
    }
    let mut buffer = Bytes::new(alloc);
    match payload(deck, &records[index], &mut buffer) {
        Ok(()) => push_bytes(answer, buffer.as_slice()),
        Err(fault) => push_fault(answer, fault),
    }
}

/// Opens a log to append to it, and appends frames, between `,`, with one tail.
pub fn append(
    context: &Context,
    deck: &mut MemDeck,
    frames: &str,
    answer: &mut String,
) -> Result<(), Stop> {
    let log = match Log::open_to_append(context.alloc, deck) {
        Ok(log) => log,
        Err(fault) => return push_fault(answer, fault),
    };
    let mut tail = log.tail();
    for words in frames.split(',') {
        let frame = context.bytes_in(words)?;
        append_frame(deck, &mut tail, frame.as_slice(), answer)?;
    }
    Ok(())
}

// Appends a frame where it continues the log.
fn append_frame(
    deck: &mut MemDeck,
    tail: &mut Tail,
    frame: &[u8],
    answer: &mut String,
) -> Result<(), Stop>
    requires { tail.old.broken ≡ false → IsSettled (told deck.old) tail.old.gate tail.old.last }
    ensures { tail.new.broken ≡ false → IsSettled (told deck.new) tail.new.gate tail.new.last }
{
    if !tail.is_continued_by(frame) {
        answer.push_str(" not-continued")?;
        return Ok(());
    }
    match tail.append(deck, frame) {
        Ok(()) => answer.push_str(" ok")?,
        Err(AppendFault::Deck) => answer.push_str(" Deck")?,
        Err(AppendFault::Broken) => answer.push_str(" Broken")?,
    }
    Ok(())
}

// The least and the most of some numbers.
#[derive(Clone, Copy)]
struct Span {
    least: u64,
    most: u64,
}

impl Span {
    // Of no numbers.
    fn new() -> Span {
        Span {
            least: u64::MAX,
            most: 0,
        }
    }

    fn add(&mut self, number: u64) {
        self.least = self.least.min(number);
        self.most = self.most.max(number);
    }
}

/// How many records and vectors a log has after a stop, at least and at most, where each of the last
/// two writes is kept whole, half or not at all.
pub fn held(alloc: Global, deck: &MemDeck, answer: &mut String) -> Result<(), Stop> {
    let (mut records, mut vectors) = (Span::new(), Span::new());
    for choice in 0..16u64 {
        let Ok(left) = deck.outcome(alloc, choice & 3 | choice >> 2 << 32) else {
            return Err(Stop::Memory);
        };
        match open_bytes(alloc, left.bytes) {
            Ok(log) => {
                records.add(log.records().len() as u64);
                vectors.add(log.counts().vectors);
            }
            Err(fault) => push_fault(answer, fault)?,
        }
    }
    write!(answer, " records={}..{}", records.least, records.most)?;
    write!(answer, " vectors={}..{}", vectors.least, vectors.most)?;
    Ok(())
}

// The log that a file of these bytes is.
fn open_bytes(alloc: Global, bytes: Vec<u8>) -> Result<Log, LogFault> {
    let room = Room {
        bytes: 0,
        said: 0,
        calls: 0,
    };
    match MemDeck::new(alloc, bytes, room, Vec::new(alloc), None) {
        Ok(mut deck) => Log::open(alloc, &mut deck),
        Err(_) => Err(LogFault::Memory),
    }
}
