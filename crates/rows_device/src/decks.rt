//! Rows about decks.
ghost use Rattle.std.specs.Prelude.{◌≤◌, ◌^◌, length};

use crate::answer::{push_done, push_number, separate};
use crate::bytes::push_bytes;
use crate::logs::{append, create, held, open, payload_of};
use crate::past::{image, in_range, record, source_of, vectors_to};
use crate::setup::Context;
use crate::words::{Stop, count, halves, pick};
use std::alloc::Global;
use vod_deck::{Deck, MemDeck};
use vod_io::Failed;

// A call on a deck, or on the log that it holds.
#[derive(Clone, Copy)]
enum Verb {
    Device(Device),
    View(View),
    Log(OfLog),
    Past(OfPast),
}

// A call of the deck.
#[derive(Clone, Copy)]
enum Device {
    Len,
    Read,
    Write,
    Sync,
    Say,
}

// What is seen of it.
#[derive(Clone, Copy)]
enum View {
    Bytes,
    Said,
    Outcome,
    BytesRead,
}

// What is done with the log on it.
#[derive(Clone, Copy)]
enum OfLog {
    Open,
    Create,
    Payload,
    Append,
    Held,
}

// What is recorded in the log, and read back.
#[derive(Clone, Copy)]
enum OfPast {
    Record,
    Range,
    Image,
    Source,
    Vectors,
}

fn verb_of(word: &str) -> Result<Verb, Stop> {
    match word {
        "len" => Ok(Verb::Device(Device::Len)),
        "read" => Ok(Verb::Device(Device::Read)),
        "write" => Ok(Verb::Device(Device::Write)),
        "sync" => Ok(Verb::Device(Device::Sync)),
        "say" => Ok(Verb::Device(Device::Say)),
        "bytes" => Ok(Verb::View(View::Bytes)),
        "said" => Ok(Verb::View(View::Said)),
        "outcome" => Ok(Verb::View(View::Outcome)),
        "bytes_read" => Ok(Verb::View(View::BytesRead)),
        _ => log_verb(word),
    }
}

fn log_verb(word: &str) -> Result<Verb, Stop> {
    match word {
        "open" => Ok(Verb::Log(OfLog::Open)),
        "create" => Ok(Verb::Log(OfLog::Create)),
        "payload" => Ok(Verb::Log(OfLog::Payload)),
        "append" => Ok(Verb::Log(OfLog::Append)),
        "held" => Ok(Verb::Log(OfLog::Held)),
        "record" => Ok(Verb::Past(OfPast::Record)),
        "range" => Ok(Verb::Past(OfPast::Range)),
        "image" => Ok(Verb::Past(OfPast::Image)),
        "source" => Ok(Verb::Past(OfPast::Source)),
        "vectors" => Ok(Verb::Past(OfPast::Vectors)),
        _ => Err(Stop::Unknown),
    }
}

// A deck with the bytes, the room and the faults of a setup.
fn deck_of(context: &Context) -> Result<MemDeck, Stop> {
    let (alloc, setup) = (context.alloc, context.setup);
    let bytes = setup.bytes.to_vec(alloc)?;
    let fails = setup.fails.to_vec(alloc)?;
    match MemDeck::new(alloc, bytes, setup.room, fails, setup.stop) {
        Ok(deck) => Ok(deck),
        Err(_) => Err(Stop::Memory),
    }
}

/// A deck in memory, and the log on it.
pub fn deck(context: &Context, calls: &str, answer: &mut String) -> Result<(), Stop> {
    let mut deck = deck_of(context)?;
    for call in calls.split(';') {
        separate(answer)?;
        let (word, rest) = halves(call.trim(), ' ');
        match verb_of(word)? {
            Verb::Device(verb) => call_device(context, &mut deck, verb, rest, answer)?,
            Verb::View(verb) => push_view(context, &deck, verb, rest, answer)?,
            Verb::Log(verb) => of_log(context, &mut deck, verb, rest, answer)?,
            Verb::Past(verb) => of_past(context, &mut deck, verb, rest, answer)?,
        }
    }
    Ok(())
}

fn call_device(
    context: &Context,
    deck: &mut MemDeck,
    verb: Device,
    rest: &str,
    answer: &mut String,
) -> Result<(), Stop> {
    match verb {
        Device::Len => push_number(answer, deck.len()),
        Device::Read => read(context.alloc, deck, rest, answer),
        Device::Write => write(context, deck, rest, answer),
        Device::Sync => push_done(answer, deck.sync()),
        Device::Say => {
            let text = context.bytes_in(rest)?;
            push_done(answer, deck.say(text.as_slice()))
        }
    }
}

// Reads where the range is inside the file. The answer has the buffer, which was of periods.
fn read(alloc: Global, deck: &mut MemDeck, rest: &str, answer: &mut String) -> Result<(), Stop> {
    let (at, room) = halves(rest, ' ');
    let (at, room) = (count(at)?, count(room)?);
    if at + room > deck.bytes().len() {
        return Err(Stop::Unknown);
    }
    let mut buf = vec![in alloc; b'.'; room]?;
    push_done(answer, deck.read_at(at as u64, &mut buf))?;
    push_bytes(answer, buf.as_slice())
}

// Writes where a write may begin.
fn write(
    context: &Context,
    deck: &mut MemDeck,
    rest: &str,
    answer: &mut String,
) -> Result<(), Stop> {
    let (at, text) = halves(rest, ' ');
    let at = count(at)?;
    let bytes = context.bytes_in(text)?;
    if at > deck.bytes().len() || bytes.len() > 1 << 40 {
        return Err(Stop::Unknown);
    }
    push_done(answer, deck.write_at(at as u64, bytes.as_slice()))
}

fn push_view(
    context: &Context,
    deck: &MemDeck,
    verb: View,
    rest: &str,
    answer: &mut String,
) -> Result<(), Stop> {
    match verb {
        View::Bytes => push_bytes(answer, deck.bytes()),
        View::Said => push_bytes(answer, deck.said()),
        View::Outcome => outcome(context.alloc, deck, pick(rest)?, answer),
        View::BytesRead => push_number(answer, Ok(deck.bytes_read())),
    }
}

// What a stop leaves of the file, and of what was said.
fn outcome(alloc: Global, deck: &MemDeck, pick: u64, answer: &mut String) -> Result<(), Stop> {
    let Ok(left) = deck.outcome(alloc, pick) else {
        return Err(Stop::Memory);
    };
    push_bytes(answer, left.bytes.as_slice())?;
    push_bytes(answer, left.said.as_slice())
}

fn of_log(
    context: &Context,
    deck: &mut MemDeck,
    verb: OfLog,
    rest: &str,
    answer: &mut String,
) -> Result<(), Stop> {
    match verb {
        OfLog::Open => open(context.alloc, deck, answer),
        OfLog::Create => create(context.alloc, deck, answer),
        OfLog::Payload => payload_of(context.alloc, deck, count(rest)?, answer),
        OfLog::Append => append(context, deck, rest, answer),
        OfLog::Held => held(context.alloc, deck, answer),
    }
}

fn of_past(
    context: &Context,
    deck: &mut MemDeck,
    verb: OfPast,
    rest: &str,
    answer: &mut String,
) -> Result<(), Stop> {
    match verb {
        OfPast::Record => {
            let script = context.bytes_in(rest)?;
            record(context, deck, script.as_slice(), answer)
        }
        OfPast::Range => {
            let (from, to) = halves(rest, ' ');
            in_range(
                context.alloc,
                deck,
                count(from)? as u64,
                count(to)? as u64,
                answer,
            )
        }
        OfPast::Image => image(context.alloc, deck, answer),
        OfPast::Source => source_of(context.alloc, deck, answer),
        OfPast::Vectors => vectors_to(context, deck, count(rest)? as u64, answer),
    }
}
