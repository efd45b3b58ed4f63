//! Rows about sources and sinks.
ghost use Rattle.std.specs.Prelude.{Some, ◌≤◌, ◌^◌};

use crate::answer::{push_done, push_number, separate};
use crate::bytes::push_bytes;
use crate::past::dump;
use crate::setup::Context;
use crate::words::{Stop, count, halves};
use std::alloc::Global;
use vod_io::{Failed, FillFault, MemSink, MemSource, Sink, Source, fill, put_all};

/// A source in memory: `fill LIMIT` and `read COUNT`.
pub fn source(context: &Context, calls: &str, answer: &mut String) -> Result<(), Stop> {
    let (alloc, setup) = (context.alloc, context.setup);
    let bytes = setup.bytes.to_vec(alloc)?;
    let mut source = MemSource::new(bytes, setup.fails.to_vec(alloc)?);
    for call in calls.split(';') {
        separate(answer)?;
        let (verb, word) = halves(call.trim(), ' ');
        match verb {
            "fill" => fill_from(alloc, &mut source, count(word)?, answer)?,
            "read" => read_from(alloc, &mut source, count(word)?, answer)?,
            _ => return Err(Stop::Unknown),
        }
    }
    Ok(())
}

/// Fills from a source, up to a limit.
pub fn fill_from<S: Source>(
    alloc: Global,
    source: &mut S,
    limit: usize,
    answer: &mut String,
) -> Result<(), Stop>
    requires { limit ≤ 2 ^ 40 }
{
    match fill(alloc, source, limit) {
        Ok(filled) => {
            push_bytes(answer, filled.bytes.as_slice())?;
            write!(answer, " more={}", filled.more)?;
        }
        Err(FillFault::Read) => answer.push_str(" Read")?,
        Err(FillFault::Memory) => answer.push_str(" Memory")?,
    }
    Ok(())
}

// The answer is the count, and the buffer, which was of periods.
fn read_from(
    alloc: Global,
    source: &mut MemSource,
    room: usize,
    answer: &mut String,
) -> Result<(), Stop> {
    let mut buf = vec![in alloc; b'.'; room]?;
    match source.read(&mut buf) {
        Ok(count) => write!(answer, " {count}")?,
        Err(Failed) => answer.push_str(" Failed")?,
    }
    push_bytes(answer, buf.as_slice())
}

// A sink with the room and the faults of a setup.
fn sink_of(context: &Context) -> Result<MemSink, Stop> {
    let (alloc, setup) = (context.alloc, context.setup);
    match MemSink::new(alloc, setup.room.bytes, setup.fails.to_vec(alloc)?) {
        Ok(sink) => Ok(sink),
        Err(_) => Err(Stop::Memory),
    }
}

/// A sink in memory: `put BYTES`, `write BYTES` and `dump SCRIPT`; the answer has what was taken.
pub fn mem_sink(context: &Context, calls: &str, answer: &mut String) -> Result<(), Stop> {
    let mut sink = sink_of(context)?;
    for call in calls.split(';') {
        separate(answer)?;
        sink_call(context, &mut sink, call.trim(), answer)?;
        push_bytes(answer, sink.taken())?;
    }
    Ok(())
}

/// A sink that takes at most two bytes a write, with the same calls.
pub fn short_sink(context: &Context, calls: &str, answer: &mut String) -> Result<(), Stop> {
    let mut short = Short {
        sink: sink_of(context)?,
    };
    for call in calls.split(';') {
        separate(answer)?;
        sink_call(context, &mut short, call.trim(), answer)?;
        push_bytes(answer, short.sink.taken())?;
    }
    Ok(())
}

fn sink_call<K: Sink>(
    context: &Context,
    sink: &mut K,
    call: &str,
    answer: &mut String,
) -> Result<(), Stop> {
    let (verb, text) = halves(call, ' ');
    let piece = context.bytes_in(text)?;
    match verb {
        "put" => push_done(answer, put_all(sink, piece.as_slice())),
        "write" => {
            let taken = sink.write(piece.as_slice());
            push_number(answer, taken.map(|count| count as u64))
        }
        "dump" => dump(context, sink, piece.as_slice(), answer),
        _ => Err(Stop::Unknown),
    }
}

// Takes at most two bytes of a piece.
#[derive(Drop)]
struct Short {
    sink: MemSink,
}

impl Sink for Short {
    ghost taken = { λ s. Some s.sink.taken };

    ghost faults = { λ s. s.sink.faults };

    fn write(&mut self, piece: &[u8]) -> Result<usize, Failed> {
        self.sink.write(&piece[..piece.len().min(2)])
    }

    fn flush(&mut self) -> Result<(), Failed> {
        self.sink.flush()
    }
}
