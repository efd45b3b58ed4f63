//! Rows about the bytes of records.
ghost use Rattle.std.specs.Prelude.{◌≤◌, length, All, IfOk};
ghost use Rattle.vod_thin_code.specs.Bytes.{IsInForm};

use crate::bytes::{Names, bytes_of, push_bytes};
use crate::past::design_of;
use crate::words::{Stop, count, halves, number};
use std::alloc::{AllocError, Global};
use vod_log::Counts;
use vod_thin::few_inputs;
use vod_thin_code::{Frame, Memory, batches_are_short, read_head, read_vector};
use vod_thin_design::{Bit, Design, Vector};

// What is read or spelled.
#[derive(Clone, Copy)]
enum Verb {
    /// `head INTERVAL SOURCE`: the frame of a head.
    Head,
    /// `batch BEFORE/AFTER/LAST/KNOWN DESIGN PAYLOAD`: the frame of the vectors of a payload.
    Batch,
    /// `payload PAYLOAD`: the interval and the source of a head's payload.
    Payload,
    /// `vector DESIGN BYTES`: the vector that some bytes begin with, and the bytes behind it.
    Vector,
}

fn verb_of(word: &str) -> Result<Verb, Stop> {
    match word {
        "head" => Ok(Verb::Head),
        "batch" => Ok(Verb::Batch),
        "payload" => Ok(Verb::Payload),
        "vector" => Ok(Verb::Vector),
        _ => Err(Stop::Unknown),
    }
}

/// The bytes of a record, or what they are.
pub fn record(
    alloc: Global,
    names: &Names,
    words: &[&str],
    answer: &mut String,
) -> Result<(), Stop> {
    let [first, second, rest @ ..] = words else {
        return Err(Stop::Unknown);
    };
    match verb_of(first)? {
        Verb::Head => head(
            alloc,
            count(second)?,
            &bytes_of(alloc, names, rest)?,
            answer,
        ),
        Verb::Batch => batch_row(alloc, names, second, rest, answer),
        Verb::Payload => payload(&bytes_of(alloc, names, &words[1..])?, answer),
        Verb::Vector => vector_row(alloc, names, second, rest, answer),
    }
}

fn head(alloc: Global, interval: usize, source: &[u8], answer: &mut String) -> Result<(), Stop> {
    if interval > 1 << 20 || source.len() > 1 << 20 {
        return Err(Stop::Unknown);
    }
    let mut frame = Frame::new(alloc);
    push_frame(answer, frame.head(interval as u32, source), &frame)
}

fn push_frame(answer: &mut String, made: Result<(), Memory>, frame: &Frame) -> Result<(), Stop> {
    match made {
        Ok(()) => push_bytes(answer, frame.as_slice()),
        Err(Memory) => Err(Stop::Memory),
    }
}

fn payload(bytes: &[u8], answer: &mut String) -> Result<(), Stop> {
    match read_head(bytes) {
        Some((interval, source)) => {
            write!(answer, " {interval}")?;
            push_bytes(answer, source)
        }
        None => {
            answer.push_str(" none")?;
            Ok(())
        }
    }
}

// The design of a named source.
fn named_design(alloc: Global, names: &Names, word: &str) -> Result<Design, Stop> {
    let source = bytes_of(alloc, names, &[word])?;
    design_of(alloc, source.as_slice())
}

fn vector_row(
    alloc: Global,
    names: &Names,
    design: &str,
    words: &[&str],
    answer: &mut String,
) -> Result<(), Stop> {
    let bytes = bytes_of(alloc, names, words)?;
    let design = named_design(alloc, names, design)?;
    match read_vector(alloc, &design, bytes.as_slice())? {
        Some((vector, rest)) => {
            push_vector(answer, &vector)?;
            push_bytes(answer, rest)
        }
        None => {
            answer.push_str(" none")?;
            Ok(())
        }
    }
}

fn push_vector(answer: &mut String, vector: &Vector) -> Result<(), Stop> {
    write!(answer, " {}", vector.time)?;
    for assigned in vector.moves.as_slice() {
        write!(answer, " {}={}", assigned.input, digit(assigned.value))?;
    }
    Ok(())
}

fn digit(value: Bit) -> char {
    match value {
        Bit::Zero => '0',
        Bit::One => '1',
        Bit::X => 'x',
        Bit::Z => 'z',
    }
}

// The counts `AFTER/LAST/KNOWN`, where KNOWN may be `never`.
fn counts(alloc: Global, word: &str) -> Result<Counts, Stop> {
    let parts: Vec<&str> = word.split('/').collect(alloc)?;
    let [vectors, last, known] = parts.as_slice() else {
        return Err(Stop::Unknown);
    };
    let known = match *known {
        "never" => None,
        time => Some(number(time)?),
    };
    Ok(Counts {
        vectors: number(vectors)?,
        last: number(last)?,
        known,
    })
}

fn batch_row(
    alloc: Global,
    names: &Names,
    word: &str,
    words: &[&str],
    answer: &mut String,
) -> Result<(), Stop> {
    let [design, rest @ ..] = words else {
        return Err(Stop::Unknown);
    };
    let (before, after) = halves(word, '/');
    let (before, after) = (number(before)?, counts(alloc, after)?);
    let bytes = bytes_of(alloc, names, rest)?;
    let source = bytes_of(alloc, names, &[design])?;
    let design = design_of(alloc, source.as_slice())?;
    // Laws: a thin design has at most 256 inputs, and a batch of 64 vectors is short.
    few_inputs();
    batches_are_short();
    let vectors = vectors_of(alloc, &design, bytes.as_slice())?;
    let mut frame = Frame::new(alloc);
    push_frame(
        answer,
        frame.batch(before, vectors.as_slice(), after),
        &frame,
    )
}

// The vectors that some bytes begin with, at most 64.
fn vectors_of(alloc: Global, design: &Design, bytes: &[u8]) -> Result<Vec<Vector>, AllocError>
    ensures few { IfOk result (λ vs. length vs.items ≤ 64) }
    ensures forms { IfOk result (λ vs. All (IsInForm design.now) vs.items) }
{
    let mut vectors = Vec::new(alloc);
    let mut rest = bytes;
    while vectors.len() < 64 {
        match read_vector(alloc, design, rest)? {
            Some((vector, behind)) => {
                vectors.push(vector)?;
                rest = behind;
            }
            None => return Ok(vectors),
        }
    }
    Ok(vectors)
}
