//! How a call ends, and what it says of that.
ghost use Rattle.std.specs.Prelude.{◌≡◌, ◌⊎◌, ◌≤◌, Option};
ghost use Rattle.vod_io.specs.Told.{Written};
ghost use Rattle.vod_io.specs.Faults.{HasCause, Rose};
ghost use Rattle.vod_program.specs.Ends.{code_of, text_of, number_of, number_text, ending, line_of, range_status, status_of, Reports};

use vod_io::{Failed, Sink, put_all};
use vod_text::put_decimal;
use vod_thin_replay::RangeFault;

/// What a call can't do yet, or not with what it was handed.
#[derive(Clone, Copy)]
pub enum Part {
    /// The source isn't of the thin form; the place is a byte offset.
    Design,
    /// The script breaks a rule; the place is the number of a line, or 0 where it is too long.
    Script,
    /// The log holds what isn't read yet, or isn't empty; the place is a byte offset.
    Log,
}

/// How a call ended. Times are those of the log.
#[derive(Clone, Copy)]
pub enum Status {
    /// The whole answer was written, or all was recorded.
    Ok,
    /// The words are no command.
    Usage,
    /// The window ends before it begins.
    Backwards,
    /// The log holds no vector.
    NothingHeld,
    /// Some input never has a value.
    NeverKnown,
    /// The window begins before this time, from which on each input has a value.
    TooEarly(u64),
    /// The window ends past this time, the last that is held.
    PastEnd(u64),
    /// The bytes of the log aren't framed: the record behind the gate at this place is wrong.
    NotALog(u64),
    /// The payload of the record behind the gate at this place is wrong.
    Damaged(u64),
    /// The log's device failed.
    DeckFault,
    /// The design or the input failed.
    ReadFault,
    /// A sink failed, which took a prefix of what was to be written.
    WriteFault,
    /// There was no memory.
    OutOfMemory,
    /// A part isn't of a form that is read yet.
    NotYet { part: Part, place: u64 },
}

impl Status {
    /// The number of the status, with which the program ends.
    pub fn code(&self) -> u8
        ensures { result ≡ code_of self.now }
    {
        match self {
            Status::Ok => 0,
            Status::Usage => 2,
            Status::Backwards
            | Status::NothingHeld
            | Status::NeverKnown
            | Status::TooEarly(_)
            | Status::PastEnd(_) => 5,
            Status::NotALog(_) | Status::Damaged(_) => 6,
            Status::DeckFault => 7,
            Status::ReadFault => 8,
            Status::WriteFault => 9,
            Status::OutOfMemory => 10,
            Status::NotYet { .. } => 12,
        }
    }
}

/// Why a command has no answer.
#[derive(Clone, Copy)]
pub enum Fault {
    Usage,
    NotYet(Part, u64),
    Range(RangeFault),
    NotALog(u64),
    Damaged(u64),
    Deck,
    Read,
    Write,
    Memory,
}

fn range_status(fault: RangeFault) -> Status
    ensures { result ≡ range_status fault }
{
    match fault {
        RangeFault::Backwards => Status::Backwards,
        RangeFault::NothingHeld => Status::NothingHeld,
        RangeFault::NeverKnown => Status::NeverKnown,
        RangeFault::TooEarly(time) => Status::TooEarly(time),
        RangeFault::PastEnd(time) => Status::PastEnd(time),
    }
}

fn status_of(fault: Fault) -> Status
    ensures { result ≡ status_of fault }
{
    match fault {
        Fault::Usage => Status::Usage,
        Fault::NotYet(part, place) => Status::NotYet { part, place },
        Fault::Range(fault) => range_status(fault),
        Fault::NotALog(at) => Status::NotALog(at),
        Fault::Damaged(at) => Status::Damaged(at),
        Fault::Deck => Status::DeckFault,
        Fault::Read => Status::ReadFault,
        Fault::Write => Status::WriteFault,
        Fault::Memory => Status::OutOfMemory,
    }
}

/// The line of a window that isn't in the log, up to its time.
fn range_text(fault: RangeFault) -> &'static [u8]
    ensures { result.now ≡ text_of (Fault.Range fault) }
{
    match fault {
        RangeFault::Backwards => b"window refused: Backwards",
        RangeFault::NothingHeld => b"window refused: NothingHeld",
        RangeFault::NeverKnown => b"window refused: NeverKnown",
        RangeFault::TooEarly(_) => b"window refused: TooEarly ",
        RangeFault::PastEnd(_) => b"window refused: PastEnd ",
    }
}

/// The line of a fault, up to its number or its end; of a failed sink there is none.
fn text_of(fault: Fault) -> &'static [u8]
    ensures { result.now ≡ text_of fault }
{
    match fault {
        Fault::Usage => b"usage: vod [--every N] ACTION [ARGS]..",
        Fault::NotYet(Part::Design, _) => b"not yet: design at ",
        Fault::NotYet(Part::Script, _) => b"not yet: script line ",
        Fault::NotYet(Part::Log, _) => b"not yet: log at ",
        Fault::Range(fault) => range_text(fault),
        Fault::NotALog(_) => b"log refused: NotALog ",
        Fault::Damaged(_) => b"log refused: Damaged ",
        Fault::Deck => b"deck fault",
        Fault::Read => b"read fault",
        Fault::Write => b"",
        Fault::Memory => b"out of memory",
    }
}

/// The number at the end of a line.
fn number_of(fault: Fault) -> Option<u64>
    ensures { result ≡ number_of fault }
{
    match fault {
        Fault::NotYet(_, number)
        | Fault::Range(RangeFault::TooEarly(number) | RangeFault::PastEnd(number))
        | Fault::NotALog(number)
        | Fault::Damaged(number) => Some(number),
        Fault::Usage | Fault::Range(_) | Fault::Deck | Fault::Read | Fault::Write | Fault::Memory =>
            None,
    }
}

/// Writes a number, if there is one.
fn put_number<E: Sink>(err: &mut E, number: Option<u64>) -> Result<(), Failed>
    ensures written { Written result (E.taken err.old) (E.taken err.new) (number_text number) }
    ensures caused { HasCause (E.faults err.old) (E.faults err.new) result }
{
    let mut digits = [0; 20];
    let count = match number {
        Some(number) => put_decimal(number, &mut digits),
        None => 0,
    };
    put_all(err, &digits[..count])
}

/// Writes the line of a fault.
fn put_line<E: Sink>(err: &mut E, fault: Fault) -> Result<(), Failed>
    ensures written { Written result (E.taken err.old) (E.taken err.new) (line_of fault) }
    ensures caused { HasCause (E.faults err.old) (E.faults err.new) result }
{
    put_all(err, text_of(fault))?;
    put_number(err, number_of(fault))?;
    put_all(err, ending(fault))
}

/// Writes the line of a fault, and flushes the sink.
fn say<E: Sink>(err: &mut E, fault: Fault) -> Result<(), Failed>
    ensures written { Written result (E.taken err.old) (E.taken err.new) (line_of fault) }
    ensures caused { HasCause (E.faults err.old) (E.faults err.new) result }
{
    put_line(err, fault)?;
    err.flush()
}

/// The LF behind a line; of a failed sink there is none.
fn ending(fault: Fault) -> &'static [u8]
    ensures { result.now ≡ ending fault }
{
    match fault {
        Fault::Write => b"",
        _ => b"\n",
    }
}

/// Writes the line of a fault, and answers its status, or that the sink failed.
pub fn report<E: Sink>(fault: Fault, err: &mut E) -> Status
    ensures reports { Reports fault result (E.taken err.old) (E.taken err.new) }
    ensures caused { (result ≡ status_of fault) ⊎ ((result ≡ Status.WriteFault) × Rose (E.faults err.old) (E.faults err.new)) }
    ensures counted { E.faults err.old ≤ E.faults err.new }
{
    match say(err, fault) {
        Ok(()) => status_of(fault),
        Err(_) => Status::WriteFault,
    }
}
