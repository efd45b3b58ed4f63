//! The words of a row: forms and numbers.
ghost use Rattle.std.specs.Prelude.{IfOk, ◌≤◌, ◌^◌};

use std::alloc::{AllocError, AllocFailed};

/// Why a row has no answer.
#[derive(Clone, Copy)]
pub enum Stop {
    /// It is no row.
    Unknown,
    /// There was no memory.
    Memory,
}

impl From<AllocError> for Stop {
    fn from(_: AllocError) -> Stop {
        Stop::Memory
    }
}

impl<T: Drop> From<AllocFailed<T>> for Stop {
    fn from(_: AllocFailed<T>) -> Stop {
        Stop::Memory
    }
}

/// What a row is about.
#[derive(Clone, Copy)]
pub enum Form {
    Name,
    Record,
    File,
    Disk,
    Memory(Memory),
}

/// A form in memory.
#[derive(Clone, Copy)]
pub enum Memory {
    Source,
    Sink,
    Short,
    Deck,
}

/// The form with this name.
pub fn form_of(word: &str) -> Result<Form, Stop> {
    match word {
        "name" => Ok(Form::Name),
        "source" => Ok(Form::Memory(Memory::Source)),
        "sink" => Ok(Form::Memory(Memory::Sink)),
        "short" => Ok(Form::Memory(Memory::Short)),
        "deck" => Ok(Form::Memory(Memory::Deck)),
        "file" => Ok(Form::File),
        "disk" => Ok(Form::Disk),
        "record" => Ok(Form::Record),
        _ => Err(Stop::Unknown),
    }
}

/// A number.
pub fn number(word: &str) -> Result<u64, Stop> {
    word.parse::<u64>().map_err(|_| Stop::Unknown)
}

/// The most that a row counts.
pub const MOST: u64 = 1 << 40;

/// A number that isn't past `MOST`.
pub fn count(word: &str) -> Result<usize, Stop>
    ensures { IfOk result (λ n. n ≤ 2 ^ 40) }
{
    let counted = number(word)?;
    if counted > MOST {
        return Err(Stop::Unknown);
    }
    Ok(counted as usize)
}

/// The two parts around the first of a mark; the second is empty where there is none.
pub fn halves(word: &str, mark: char) -> (&str, &str) {
    let mut parts = word.splitn(2, mark);
    let first = parts.next().unwrap_or("");
    let second = parts.next().unwrap_or("");
    (first, second)
}

/// The number `LOW/HIGH`, where HIGH counts 2^32.
pub fn pick(word: &str) -> Result<u64, Stop> {
    let (low, high) = halves(word, '/');
    Ok(number(low)? | number(high)? << 32)
}
