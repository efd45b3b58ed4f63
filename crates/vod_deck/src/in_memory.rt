ghost use Rattle.std.specs.Prelude.{◌≡◌, ℕ, ◌+◌, ◌-◌, ◌^◌, ◌≤◌, ◌<◌, ◌↔◌, ◌⊎◌, [], ◌∷◌, ◌++◌, length, take, drop, max, min, true, false, Contains, IfOk, OnOk, OnErr, IsErr, IsTrue, vec_len, vec_capacity};
ghost use Rattle.vod_io.specs.Faults.{HasCause};
ghost use Rattle.vod_deck.specs.Outcomes.{Holds, Torn, Writes, Stays, Says, IsSaid, Only, Elapses, SameOutcomes, IsRead, IsLive, capped};
ghost use Rattle.vod_deck.specs.Moments.{told-counts_now, told-only_now};
ghost use Rattle.vod_deck.specs.InMemory.{laid, picked, told, spent, faulted, disk_of, sure_text, IsStopped, RefusesWrite, RefusesSync, RefusesText};

mod replay;

use self::replay::{lay, picked_file};
use crate::Deck;
use std::alloc::{AllocError, Global};
use std::marker::Model;
use vod_io::{Failed, Memory};

/// The memory that a deck takes at once: for the bytes of all writes together, for all texts
/// together, and for the calls that write, sync or say.
#[derive(Clone, Copy)]
pub struct Room {
    pub bytes: usize,
    pub said: usize,
    pub calls: usize,
}

// A call that did something, `held` where it didn't fail.
#[derive(Clone, Copy)]
enum Call {
    Wrote { at: u64, count: usize, held: bool },
    Synced { held: bool },
    Said { count: usize, held: bool },
}

/// What a crash leaves: the bytes of the file, and the text that was said.
#[derive(Drop)]
pub struct Outcome {
    pub bytes: Vec<u8>,
    pub said: Vec<u8>,
}

/// A deck in memory. It tells what it holds, fails at the calls that it was given and past its room,
/// and stops after a number of calls.
#[derive(Drop)]
pub struct MemDeck {
    first: Vec<u8>,
    bytes: Vec<u8>,
    wrote: Vec<u8>,
    texts: Vec<u8>,
    // How much of the text given is sure.
    sure: usize,
    calls: Vec<Call>,
    room: Room,
    fails: Vec<u64>,
    stop: Option<u64>,
    made: u64,
    faults: u64,
    bytes_read: u64,
}

impl Model for MemDeck {
    ghost use Rattle.std.specs.Prelude.{◌≤◌, ◌+◌, vec_len, vec_capacity};
    ghost use Rattle.vod_deck.specs.InMemory.{MemView, IsMemory};

    ghost Value = { MemView };

    ghost view = { λ s. record {
      first = s.first.items;
      bytes = s.bytes.items;
      wrote = s.wrote.items;
      texts = s.texts.items;
      calls = s.calls.items;
      room = s.room;
      fails = s.fails.items;
      stop = s.stop;
      made = s.made;
      faults = s.faults;
      bytes_read = s.bytes_read;
    } };

    ghost use Rattle.vod_deck.specs.Room.{HasRoom};

    ghost invariant = { λ s. IsMemory s.first.items s.bytes.items s.wrote.items s.texts.items s.calls.items s.sure × HasRoom s };
}

// Whether a deck stops before this call.
fn is_stopped(stop: Option<u64>, made: u64) -> bool
    ensures { IsTrue result ↔ IsStopped stop made }
{
    match stop {
        Some(calls) => calls <= made,
        None => false,
    }
}

// Whether a call is behind the stop or doesn't fit into what is left of the room.
fn is_refused(stop: Option<u64>, made: u64, spare: usize, count: usize, spare_calls: usize) -> bool
    ensures { IsTrue result ↔ (IsStopped stop made ⊎ ((spare < count) ⊎ (spare_calls ≡ 0))) }
{
    is_stopped(stop, made) || spare < count || spare_calls == 0
}

// Notes a call, for which there is room.
fn note(calls: &mut Vec<Call>, call: Call)
    requires { vec_len calls.old < vec_capacity calls.old }
    ensures items { calls.new.items ≡ calls.old.items ++ call ∷ [] }
    ensures len { vec_len calls.new ≡ vec_len calls.old + 1 }
    ensures capacity { vec_capacity calls.old ≤ vec_capacity calls.new }
{
    calls.push(call).unwrap();
}

// Keeps bytes, for which there is room.
fn keep(bytes: &mut Vec<u8>, more: &[u8])
    requires { vec_len bytes.old + length more.now ≤ vec_capacity bytes.old }
    ensures items { bytes.new.items ≡ bytes.old.items ++ more.now }
    ensures len { vec_len bytes.new ≡ vec_len bytes.old + length more.now }
    ensures capacity { vec_capacity bytes.old ≤ vec_capacity bytes.new }
{
    bytes.extend_from_slice(more).unwrap();
}

impl MemDeck {
    /// A deck that holds these bytes, with room for what its calls write and say. `fails` lists the
    /// calls, from 0, that fail; after `stop` calls every call fails.
    pub fn new(
        alloc: Global,
        bytes: Vec<u8>,
        room: Room,
        fails: Vec<u64>,
        stop: Option<u64>,
    ) -> Result<MemDeck, Memory>
        ensures { IfOk result (λ deck. deck ≡ record {
          first = bytes.items;
          bytes = bytes.items;
          wrote = [];
          texts = [];
          calls = [];
          room = room;
          fails = fails.items;
          stop = stop;
          made = 0;
          faults = 0;
          bytes_read = 0;
        }) }
    {
        match with_room(alloc, bytes, room, fails, stop) {
            Ok(deck) => Ok(deck),
            Err(_) => Err(Memory),
        }
    }

    /// The bytes as a read gives them.
    pub fn bytes(&self) -> &[u8]
        ensures bytes { result.now ≡ self.now.bytes }
        ensures outcome { (told self.now).may_leave (record { file = result.now; said = sure_text (disk_of self.now) }) }
    {
        self.bytes.as_slice()
    }

    /// The shortest text that a crash may leave.
    pub fn said(&self) -> &[u8]
        ensures { result.now ≡ sure_text (disk_of self.now) }
    {
        &self.texts[..self.sure]
    }

    /// What a crash may leave. The writes since the last sync are numbered from 0, failed ones too:
    /// write i is kept whole where bit `i % 32` of the pick is 0, and else its first half where bit
    /// `32 + i % 32` is 1, and nothing of it where that bit is 0. The text is the shortest one.
    pub fn outcome(&self, alloc: Global, pick: u64) -> Result<Outcome, Memory>
        ensures bytes { let d = disk_of self.now in IfOk result (λ left. left.bytes.items ≡ picked pick d.writes d.file) }
        ensures said { IfOk result (λ left. left.said.items ≡ sure_text (disk_of self.now)) }
        ensures outcome { IfOk result (λ left. (told self.now).may_leave (record { file = left.bytes.items; said = left.said.items })) }
    {
        match picked_outcome(alloc, self, pick) {
            Ok(left) => Ok(left),
            Err(_) => Err(Memory),
        }
    }

    /// How many bytes were read.
    pub fn bytes_read(&self) -> u64
        ensures { result ≡ self.now.bytes_read }
    {
        self.bytes_read
    }
}

// What a pick leaves of a deck.
fn picked_outcome(alloc: Global, deck: &MemDeck, pick: u64) -> Result<Outcome, AllocError>
    ensures bytes { let d = disk_of deck.now in IfOk result (λ left. left.bytes.items ≡ picked pick d.writes d.file) }
    ensures said { IfOk result (λ left. left.said.items ≡ sure_text (disk_of deck.now)) }
    ensures outcome { IfOk result (λ left. (told deck.now).may_leave (record { file = left.bytes.items; said = left.said.items })) }
{
    let bytes = picked_file(alloc, &deck.first, &deck.wrote, &deck.calls, pick)?;
    let said = deck.texts[..deck.sure].to_vec(alloc)?;
    Ok(Outcome { bytes, said })
}

// A deck before its first call, with all its room.
fn with_room(
    alloc: Global,
    first: Vec<u8>,
    room: Room,
    fails: Vec<u64>,
    stop: Option<u64>,
) -> Result<MemDeck, AllocError>
    ensures { IfOk result (λ deck. deck ≡ record {
      first = first.items;
      bytes = first.items;
      wrote = [];
      texts = [];
      calls = [];
      room = room;
      fails = fails.items;
      stop = stop;
      made = 0;
      faults = 0;
      bytes_read = 0;
    }) }
{
    let mut bytes = first.to_vec(alloc)?;
    bytes.reserve(room.bytes)?;
    Ok(MemDeck {
        first,
        bytes,
        wrote: Vec::with_capacity(alloc, room.bytes)?,
        texts: Vec::with_capacity(alloc, room.said)?,
        sure: 0,
        calls: Vec::with_capacity(alloc, room.calls)?,
        room,
        fails,
        stop,
        made: 0,
        faults: 0,
        bytes_read: 0,
    })
}

impl Deck for MemDeck {
    ghost tells = { Unit {0} };

    ghost view = { told };

    ghost counts_now = { told-counts_now };

    ghost only_now = { told-only_now };

    fn len(&mut self) -> Result<u64, Failed>
        // What each deck promises.
        ensures total { IfOk result (λ n. n ≡ length self.old.bytes) }
        ensures bytes { self.new.bytes ≡ self.old.bytes }
        ensures outcomes { SameOutcomes (told self.old) (told self.new) }
        ensures caused { HasCause self.old.faults self.new.faults result }
        ensures read { self.new.bytes_read ≡ self.old.bytes_read }

        // What this one promises besides.
        ensures refused { IsErr result ↔ (IsStopped self.old.stop self.old.made ⊎ Contains self.old.fails self.old.made) }
        ensures done { OnOk result (self.new ≡ spent self.old) }
        ensures failed { OnErr result (self.new ≡ faulted self.old) }
    {
        let call = self.made;
        self.made = call.saturating_add(1);
        if is_stopped(self.stop, call) || self.fails.contains(&call) {
            self.faults = self.faults.saturating_add(1);
            return Err(Failed);
        }
        Ok(self.bytes.len() as u64)
    }

    fn read_at(&mut self, at: u64, buf: &mut [u8]) -> Result<(), Failed>
        requires { at + length buf.old ≤ length self.old.bytes }

        // What each deck promises.
        ensures got { OnOk result (buf.new ≡ take (length buf.old) (drop at self.old.bytes)) }
        ensures bytes { self.new.bytes ≡ self.old.bytes }
        ensures outcomes { SameOutcomes (told self.old) (told self.new) }
        ensures caused { HasCause self.old.faults self.new.faults result }
        ensures read { IsRead self.old.bytes_read self.new.bytes_read (length buf.old) result }

        // What this one promises besides.
        ensures refused { IsErr result ↔ (IsStopped self.old.stop self.old.made ⊎ Contains self.old.fails self.old.made) }
        ensures done { OnOk result (self.new ≡ record (spent self.old) { bytes_read = capped (self.old.bytes_read + length buf.old) }) }
        ensures failed { OnErr result (self.new ≡ faulted self.old) }
        ensures kept { OnErr result (buf.new ≡ buf.old) }
    {
        let call = self.made;
        self.made = call.saturating_add(1);
        if is_stopped(self.stop, call) || self.fails.contains(&call) {
            self.faults = self.faults.saturating_add(1);
            return Err(Failed);
        }
        self.bytes_read = self.bytes_read.saturating_add(buf.len() as u64);
        let from = at as usize;
        buf.copy_from_slice(&self.bytes[from..from + buf.len()]);
        Ok(())
    }

    fn write_at(&mut self, at: u64, bytes: &[u8]) -> Result<(), Failed>
        requires joined { at ≤ length self.old.bytes }
        requires short { at + length bytes.now < 2 ^ 63 }

        // What each deck promises.
        ensures written { OnOk result (Holds self.old.bytes at bytes.now self.new.bytes) }
        ensures torn { OnErr result (Torn at (length bytes.now) self.old.bytes self.new.bytes) }
        ensures outcomes { Elapses (told self.old) (told self.new) (Writes at (length bytes.now)) }
        ensures caused { HasCause self.old.faults self.new.faults result }
        ensures read { self.new.bytes_read ≡ self.old.bytes_read }

        // What this one promises besides.
        ensures refused { IsErr result ↔ (RefusesWrite self.old (length bytes.now) ⊎ Contains self.old.fails self.old.made) }
        ensures nothing { RefusesWrite self.old (length bytes.now) → self.new ≡ faulted self.old }
        ensures failed { OnErr result ((RefusesWrite self.old (length bytes.now) → ⊥) → self.new ≡ record (faulted self.old) {
          wrote = self.old.wrote ++ bytes.now;
          calls = self.old.calls ++ Call.Wrote at (length bytes.now) false ∷ [];
        }) }
        ensures done { OnOk result (self.new ≡ record (spent self.old) {
          bytes = laid at bytes.now self.old.bytes;
          wrote = self.old.wrote ++ bytes.now;
          calls = self.old.calls ++ Call.Wrote at (length bytes.now) true ∷ [];
        }) }
    {
        let call = self.made;
        self.made = call.saturating_add(1);
        let spare = self.room.bytes - self.wrote.len();
        let spare_calls = self.room.calls - self.calls.len();
        if is_refused(self.stop, call, spare, bytes.len(), spare_calls) {
            self.faults = self.faults.saturating_add(1);
            return Err(Failed);
        }
        keep(&mut self.wrote, bytes);
        let count = bytes.len();
        if self.fails.contains(&call) {
            note(
                &mut self.calls,
                Call::Wrote {
                    at,
                    count,
                    held: false,
                },
            );
            self.faults = self.faults.saturating_add(1);
            return Err(Failed);
        }
        note(
            &mut self.calls,
            Call::Wrote {
                at,
                count,
                held: true,
            },
        );
        lay(&mut self.bytes, at as usize, bytes).unwrap();
        Ok(())
    }

    fn sync(&mut self) -> Result<(), Failed>
        // What each deck promises.
        ensures lasts { OnOk result (Only self.old.bytes (told self.new).may_leave) }
        ensures bytes { self.new.bytes ≡ self.old.bytes }
        ensures outcomes { Elapses (told self.old) (told self.new) Stays }
        ensures caused { HasCause self.old.faults self.new.faults result }
        ensures read { self.new.bytes_read ≡ self.old.bytes_read }

        // What this one promises besides.
        ensures refused { IsErr result ↔ (RefusesSync self.old ⊎ Contains self.old.fails self.old.made) }
        ensures nothing { RefusesSync self.old → self.new ≡ faulted self.old }
        ensures failed { OnErr result ((RefusesSync self.old → ⊥) → self.new ≡ record (faulted self.old) {
          calls = self.old.calls ++ Call.Synced false ∷ [];
        }) }
        ensures done { OnOk result (self.new ≡ record (spent self.old) { calls = self.old.calls ++ Call.Synced true ∷ [] }) }
    {
        let call = self.made;
        self.made = call.saturating_add(1);
        if is_refused(self.stop, call, 0, 0, self.room.calls - self.calls.len()) {
            self.faults = self.faults.saturating_add(1);
            return Err(Failed);
        }
        if self.fails.contains(&call) {
            note(&mut self.calls, Call::Synced { held: false });
            self.faults = self.faults.saturating_add(1);
            return Err(Failed);
        }
        note(&mut self.calls, Call::Synced { held: true });
        Ok(())
    }

    fn say(&mut self, text: &[u8]) -> Result<(), Failed>
        // What each deck promises.
        ensures whole { OnOk result (IsSaid (told self.old) (told self.new) text.now) }
        ensures bytes { self.new.bytes ≡ self.old.bytes }
        ensures outcomes { Elapses (told self.old) (told self.new) (Says (told self.old).may_leave text.now) }
        ensures caused { HasCause self.old.faults self.new.faults result }
        ensures read { self.new.bytes_read ≡ self.old.bytes_read }

        // What this one promises besides.
        ensures refused { IsErr result ↔ (RefusesText self.old (length text.now) ⊎ Contains self.old.fails self.old.made) }
        ensures nothing { RefusesText self.old (length text.now) → self.new ≡ faulted self.old }
        ensures failed { OnErr result ((RefusesText self.old (length text.now) → ⊥) → self.new ≡ record (faulted self.old) {
          texts = self.old.texts ++ text.now;
          calls = self.old.calls ++ Call.Said (length text.now) false ∷ [];
        }) }
        ensures done { OnOk result (self.new ≡ record (spent self.old) {
          texts = self.old.texts ++ text.now;
          calls = self.old.calls ++ Call.Said (length text.now) true ∷ [];
        }) }
    {
        let call = self.made;
        self.made = call.saturating_add(1);
        let spare = self.room.said - self.texts.len();
        let spare_calls = self.room.calls - self.calls.len();
        if is_refused(self.stop, call, spare, text.len(), spare_calls) {
            self.faults = self.faults.saturating_add(1);
            return Err(Failed);
        }
        keep(&mut self.texts, text);
        let count = text.len();
        if self.fails.contains(&call) {
            note(&mut self.calls, Call::Said { count, held: false });
            self.faults = self.faults.saturating_add(1);
            return Err(Failed);
        }
        note(&mut self.calls, Call::Said { count, held: true });
        self.sure = self.texts.len();
        Ok(())
    }

    fn lives(&self)
        ensures { IsLive (told self.now) }
    {
        let _ = &self.bytes;
    }
}
