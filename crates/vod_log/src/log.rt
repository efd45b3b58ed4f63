ghost use Rattle.std.specs.Prelude.{◌≡◌, ℕ, ◌+◌, ◌*◌, ◌-◌, ◌^◌, ◌≤◌, ◌<◌, [], ◌∷◌, length, IfOk, All, OnOk, OnErr, IsErrOf, IfErr, None, Some, false};
ghost use Rattle.vod_io.specs.Faults.{Rose};
ghost use Rattle.vod_deck.specs.Outcomes.{View, From, Leaves};
ghost use Rattle.vod_log.specs.declared.log.LogFault.TheVariants.{Deck as DeckFault, NotALog, Memory as NoMemory};
ghost use Rattle.vod_log.specs.Format.{committed, counts_of};
ghost use Rattle.vod_log.specs.Opened.{IsLogOf, ArePlaced, IsWrongAt, OnNotALog};
ghost use Rattle.vod_log.specs.Tail.{IsUnchanged, IsNear, IsSettled, Opens};

use crate::reading::{is_empty, read_log};
use crate::tail::write_gate;
use crate::{Counts, Header, Tail};
use std::alloc::{AllocError, AllocFailed, Global};
use std::fmt;
use std::marker::Model;
use vod_deck::Deck;
use vod_io::Failed;

/// A record of a log: the place of its gate, and its header.
#[derive(Clone, Copy, PartialEq, Eq)]
pub struct Record {
    pub at: u64,
    pub header: Header,
}

/// Why a log isn't opened or read.
#[derive(Clone, Copy, Debug, PartialEq, Eq)]
pub enum LogFault {
    /// The deck counted a fault.
    Deck,
    /// The record behind the gate at this place is wrong.
    NotALog(u64),
    /// There was no memory.
    Memory,
}

impl fmt::Display for LogFault {
    fn fmt<W: fmt::Write>(&self, f: &mut fmt::Formatter<W>) -> fmt::Result {
        match self {
            LogFault::Deck => write!(f, "the file of the log failed"),
            LogFault::NotALog(at) => write!(
                f,
                "no log: the record behind byte {at} of the file is wrong"
            ),
            LogFault::Memory => write!(f, "out of memory"),
        }
    }
}

impl From<Failed> for LogFault {
    ghost from_gives = { λ _ e. e ≡ DeckFault };

    fn from(_: Failed) -> LogFault {
        LogFault::Deck
    }
}

impl From<AllocError> for LogFault {
    ghost from_gives = { λ _ e. e ≡ NoMemory };

    fn from(_: AllocError) -> LogFault {
        LogFault::Memory
    }
}

impl<T: Drop> From<AllocFailed<T>> for LogFault {
    ghost from_gives = { λ _ e. e ≡ NoMemory };

    fn from(_: AllocFailed<T>) -> LogFault {
        LogFault::Memory
    }
}

/// A log that was opened.
#[derive(Drop)]
pub struct Log {
    records: Vec<Record>,
    gate: u64,
    last: Option<Header>,
}

impl Model for Log {
    ghost use Rattle.vod_log.specs.Opened.{LogView};
    ghost use Rattle.vod_log.specs.Tail.{IsNear};

    ghost Value = { LogView };

    ghost view = { λ s. record { records = s.records.items; gate = s.gate; last = s.last } };

    ghost invariant = { λ s. IsNear s.gate s.last };
}

impl Log {
    /// Reads the gates and the headers of a log, at most 49 bytes for each record and 49 more.
    pub fn open<L: Deck>(alloc: Global, deck: &mut L) -> Result<Log, LogFault>
        ensures committed { IfOk result (λ log. L.tells → IsLogOf (committed (L.view deck.old).bytes) log) }
        ensures placed { IfOk result (λ log. L.tells → ArePlaced (L.view deck.old).bytes log.records) }
        ensures near { IfOk result (λ log. All (λ r. r.at < 2 ^ 63) log.records) }
        ensures wrong { IfErr result (λ fault. OnNotALog fault (λ at. L.tells → IsWrongAt (committed (L.view deck.old).bytes) at)) }
        ensures unchanged { L.tells → IsUnchanged (L.view deck.old) (L.view deck.new) }
        ensures later { (L.view deck.old).faults ≤ (L.view deck.new).faults }
        ensures caused { IsErrOf result DeckFault → Rose (L.view deck.old).faults (L.view deck.new).faults }
        ensures most { IfOk result (λ log. (L.view deck.new).bytes_read ≤ (L.view deck.old).bytes_read + 49 * (length log.records + 1)) }
    {
        let len = deck.len()?;
        read_log(alloc, deck, len)
    }

    /// Makes the file last, creates the log where it has at most one byte, and reads the gates and
    /// the headers. A log that is created is one closed gate.
    pub fn open_to_append<L: Deck>(alloc: Global, deck: &mut L) -> Result<Log, LogFault>
        ensures committed { IfOk result (λ log. L.tells → IsLogOf (committed (L.view deck.new).bytes) log) }
        ensures settled { IfOk result (λ log. L.tells → IsSettled (L.view deck.new) log.gate log.last) }
        ensures placed { IfOk result (λ log. L.tells → ArePlaced (L.view deck.new).bytes log.records) }
        ensures near { IfOk result (λ log. All (λ r. r.at < 2 ^ 63) log.records) }
        ensures wrong { IfErr result (λ fault. OnNotALog fault (λ at. L.tells → IsWrongAt (committed (L.view deck.old).bytes) at)) }
        ensures kept { L.tells → 1 < length (L.view deck.old).bytes → (L.view deck.new).bytes ≡ (L.view deck.old).bytes }
        ensures created { OnOk result (L.tells → length (L.view deck.old).bytes ≤ 1 → (L.view deck.new).bytes ≡ 0 ∷ []) }
        ensures crashes { L.tells → Leaves (L.view deck.old) (L.view deck.new) (From (L.view deck.old).may_leave (Opens (L.view deck.old).bytes)) }
        ensures later { (L.view deck.old).faults ≤ (L.view deck.new).faults }
        ensures caused { IsErrOf result DeckFault → Rose (L.view deck.old).faults (L.view deck.new).faults }
        ensures most { IfOk result (λ log. (L.view deck.new).bytes_read ≤ (L.view deck.old).bytes_read + 49 * (length log.records + 1)) }
    {
        deck.sync()?;
        let len = deck.len()?;
        if is_empty(len) {
            write_gate(deck, 0, 0)?;
            return Ok(Log::with(Vec::new(alloc), 0, None));
        }
        let log = read_log(alloc, deck, len)?;
        Ok(log)
    }

    /// The records, in order.
    pub fn records(&self) -> &[Record]
        ensures { result.now ≡ self.now.records }
    {
        self.records.as_slice()
    }

    /// What the log holds.
    pub fn counts(&self) -> Counts
        ensures { result ≡ counts_of self.now.last }
    {
        match self.last {
            Some(last) => Counts {
                vectors: last.after,
                last: last.last,
                known: last.known,
            },
            None => Counts {
                vectors: 0,
                last: 0,
                known: None,
            },
        }
    }

    // A log with these records.
    pub(crate) fn with(records: Vec<Record>, gate: u64, last: Option<Header>) -> Log
        requires { IsNear gate last }
        ensures { result ≡ record { records = records.items; gate = gate; last = last } }
    {
        Log {
            records,
            gate,
            last,
        }
    }

    /// The end of the log, where records are appended.
    pub fn tail(&self) -> Tail
        ensures { result ≡ record { gate = self.now.gate; last = self.now.last; broken = false } }
    {
        Tail::at(self.gate, self.last)
    }
}
