ghost use Rattle.std.specs.Prelude.{◌≡◌, ℕ, ◌+◌, ◌^◌, ◌≤◌, ◌<◌, ◌↔◌, [], ◌∷◌, length, take, IfOk, OnOk, OnErr, IsErrOf, IsTrue, Some, None, true, false};
ghost use Rattle.vod_io.specs.Faults.{Rose, HasCause};
ghost use Rattle.vod_deck.specs.Outcomes.{View, Holds, Torn, Writes, From, Only, Elapses, Leaves};
ghost use Rattle.vod_log.specs.Format.{committed, fields_of};
ghost use Rattle.vod_log.specs.Opened.{ArePlaced, records_of};
ghost use Rattle.vod_log.specs.Tail.{Continues, IsNear, IsSettled, HoldsEither, IsAppended, appended, frame_header};
ghost use Rattle.vod_log.specs.declared.tail.AppendFault.TheVariants.{Deck as DeckFault, Broken};

use crate::Header;
use crate::header::{fields, follows, read_header};
use std::fmt;
use std::marker::Model;
use vod_deck::Deck;
use vod_io::Failed;

/// Why a record isn't appended.
#[derive(Clone, Copy, Debug, PartialEq, Eq)]
pub enum AppendFault {
    /// The deck counted a fault. The record is held or not, until the log is opened again.
    Deck,
    /// An earlier append failed.
    Broken,
}

impl fmt::Display for AppendFault {
    fn fmt<W: fmt::Write>(&self, f: &mut fmt::Formatter<W>) -> fmt::Result {
        match self {
            AppendFault::Deck => write!(
                f,
                "the file of the log failed: open the log again to see what it holds"
            ),
            AppendFault::Broken => write!(f, "an earlier append failed: open the log again"),
        }
    }
}

/// The end of a log, where records are appended.
#[derive(Drop)]
pub struct Tail {
    gate: u64,
    last: Option<Header>,
    broken: bool,
}

impl Model for Tail {
    ghost use Rattle.vod_log.specs.Tail.{TailView, IsNear};

    ghost Value = { TailView };

    ghost view = { λ s. record { gate = s.gate; last = s.last; broken = s.broken } };

    ghost invariant = { λ s. IsNear s.gate s.last };
}

// Writes a gate, and makes it last.
pub(crate) fn write_gate<L: Deck>(deck: &mut L, at: u64, gate: u8) -> Result<(), Failed>
    requires joined { L.tells → at ≤ length (L.view deck.old).bytes }
    requires short { at + 1 < 2 ^ 63 }
    ensures written { OnOk result (L.tells → Holds (L.view deck.old).bytes at (gate ∷ []) (L.view deck.new).bytes) }
    ensures lasts { OnOk result (L.tells → Only (L.view deck.new).bytes (L.view deck.new).may_leave) }
    ensures outcomes { L.tells → Elapses (L.view deck.old) (L.view deck.new) (Writes at 1) }
    ensures caused { HasCause (L.view deck.old).faults (L.view deck.new).faults result }
    ensures read { (L.view deck.new).bytes_read ≡ (L.view deck.old).bytes_read }
{
    deck.write_at(at, &[gate])?;
    deck.sync()
}

// Writes a frame behind a gate, and makes it last.
fn write_frame<L: Deck>(deck: &mut L, gate: u64, frame: &[u8]) -> Result<(), Failed>
    requires joined { L.tells → gate < length (L.view deck.old).bytes }
    requires short { gate + 1 + length frame.now < 2 ^ 63 }
    ensures written { OnOk result (L.tells → Holds (L.view deck.old).bytes (gate + 1) frame.now (L.view deck.new).bytes) }
    ensures lasts { OnOk result (L.tells → Only (L.view deck.new).bytes (L.view deck.new).may_leave) }
    ensures outcomes { L.tells → Elapses (L.view deck.old) (L.view deck.new) (Writes (gate + 1) (length frame.now)) }
    ensures caused { HasCause (L.view deck.old).faults (L.view deck.new).faults result }
    ensures read { (L.view deck.new).bytes_read ≡ (L.view deck.old).bytes_read }
{
    deck.write_at(gate + 1, frame)?;
    deck.sync()
}

// The gate where a log ends whose last record stands at this gate in a frame.
fn gate_behind(gate: u64, frame: &[u8]) -> u64
    requires { gate + length frame.now < 2 ^ 63 }
    ensures { result ≡ gate + length frame.now }
{
    gate + frame.len() as u64
}

// The header that a frame begins with.
fn header_in(frame: &[u8]) -> Header
    requires { 48 ≤ length frame.now }
    ensures { result ≡ frame_header frame.now }
{
    fields(&header_bytes(frame))
}

// The first bytes of a frame, as many as a header has.
fn header_bytes(frame: &[u8]) -> [u8; 48]
    requires { 48 ≤ length frame.now }
    ensures { result ≡ take 48 frame.now }
{
    let mut bytes = [0; 48];
    bytes.copy_from_slice(&frame[..48]);
    bytes
}

// Whether a frame goes on behind this last header.
fn continues(last: &Option<Header>, frame: &[u8]) -> bool
    ensures { IsTrue result ↔ Continues last.now frame.now }
{
    if frame.len() < 49 {
        return false;
    }
    if frame[frame.len() - 1] != 0 {
        return false;
    }
    match read_header(&header_bytes(frame)) {
        Some(header) => {
            if header.length != (frame.len() - 49) as u64 {
                return false;
            }
            follows(last, &header)
        }
        None => false,
    }
}

impl Tail {
    /// Whether a frame goes on behind this end: a right header, its payload, and a closed gate.
    pub fn is_continued_by(&self, frame: &[u8]) -> bool
        ensures { IsTrue result ↔ Continues self.now.last frame.now }
    {
        continues(&self.last, frame)
    }

    // The end of a log at this gate, with this last header.
    pub(crate) fn at(gate: u64, last: Option<Header>) -> Tail
        requires { IsNear gate last }
        ensures { result ≡ record { gate = gate; last = last; broken = false } }
    {
        Tail {
            gate,
            last,
            broken: false,
        }
    }

    /// Appends a frame: the header of a record, its payload, and a closed gate. It is written behind
    /// the closed gate where the log ends, and then that gate is opened, each with a sync. After Ok
    /// the record is held. A crash in the call leaves the records of before, or these and the new one.
    pub fn append<L: Deck>(&mut self, deck: &mut L, frame: &[u8]) -> Result<(), AppendFault>
        requires goes_on { Continues self.old.last frame.now }
        requires settled { L.tells → self.old.broken ≡ false → IsSettled (L.view deck.old) self.old.gate self.old.last }
        ensures held { OnOk result (L.tells → committed (L.view deck.new).bytes ≡ appended (committed (L.view deck.old).bytes) self.old.gate frame.now) }
        ensures bytes { OnOk result (L.tells → IsAppended (L.view deck.old).bytes self.old.gate frame.now (L.view deck.new).bytes) }
        ensures settled { OnOk result (L.tells → IsSettled (L.view deck.new) self.new.gate self.new.last) }
        ensures placed { OnOk result (L.tells → ArePlaced (L.view deck.new).bytes (records_of (committed (L.view deck.new).bytes).entries)) }
        ensures tail { OnOk result (self.new ≡ record { gate = self.old.gate + length frame.now; last = Some (frame_header frame.now); broken = false }) }
        ensures fails { OnErr result (self.new ≡ record self.old { broken = true }) }
        ensures broken { IsErrOf result Broken ↔ (self.old.broken ≡ true) }
        ensures untouched { self.old.broken ≡ true → deck.new ≡ deck.old }
        ensures crashes { L.tells → self.old.broken ≡ false → Leaves (L.view deck.old) (L.view deck.new)
            (From (L.view deck.old).may_leave (HoldsEither (committed (L.view deck.old).bytes) (appended (committed (L.view deck.old).bytes) self.old.gate frame.now))) }
        ensures later { (L.view deck.old).faults ≤ (L.view deck.new).faults }
        ensures caused { IsErrOf result DeckFault → Rose (L.view deck.old).faults (L.view deck.new).faults }
        ensures read { (L.view deck.new).bytes_read ≡ (L.view deck.old).bytes_read }
    {
        if self.broken {
            return Err(AppendFault::Broken);
        }
        match write_frame(deck, self.gate, frame) {
            Ok(()) => {}
            Err(Failed) => {
                self.broken = true;
                return Err(AppendFault::Deck);
            }
        }
        match write_gate(deck, self.gate, 1) {
            Ok(()) => {}
            Err(Failed) => {
                self.broken = true;
                return Err(AppendFault::Deck);
            }
        }
        self.gate = gate_behind(self.gate, frame);
        self.last = Some(header_in(frame));
        Ok(())
    }
}
