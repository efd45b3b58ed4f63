ghost use Rattle.std.specs.Prelude.{◌≡◌, ℕ, ◌+◌, ◌≤◌, ◌<◌, ◌↔◌, ◌⊎◌, [], length, take, drop, min, Some, Ok, Contains, IfOk, OnOk, OnErr, IsErr, vec_len, vec_capacity};
ghost use Rattle.vod_io.specs.Told.{put_back, appended, Told};
ghost use Rattle.vod_io.specs.Faults.{HasCause};
ghost use Rattle.vod_io.specs.InMemory.{counted};

use crate::{Failed, Memory, Sink, Source};
use std::alloc::Global;
use std::marker::Model;

/// A source of bytes in memory. It tells what is left, and fails at the calls that it was given.
#[derive(Drop)]
pub struct MemSource {
    bytes: Vec<u8>,
    // How many bytes were read.
    at: usize,
    fails: Vec<u64>,
    calls: u64,
    faults: u64,
}

impl Model for MemSource {
    ghost use Rattle.std.specs.Prelude.{◌≤◌, drop, vec_len};
    ghost use Rattle.vod_io.specs.InMemory.{SourceView};

    ghost Value = { SourceView };

    ghost view = { λ s. record { left = drop s.at s.bytes.items; fails = s.fails.items; calls = s.calls; faults = s.faults } };

    ghost invariant = { λ s. s.at ≤ vec_len s.bytes };
}

impl MemSource {
    /// A source of these bytes. `fails` lists the calls of `read`, from 0, that fail.
    pub fn new(bytes: Vec<u8>, fails: Vec<u64>) -> MemSource
        ensures { result ≡ record { left = bytes.items; fails = fails.items; calls = 0; faults = 0 } }
    {
        MemSource {
            bytes,
            at: 0,
            fails,
            calls: 0,
            faults: 0,
        }
    }
}

impl Source for MemSource {
    ghost left = { λ s. Some s.left };

    ghost faults = { λ s. s.faults };

    /// Takes as many bytes as fit, or fails where this call is listed.
    fn read(&mut self, buf: &mut [u8]) -> Result<usize, Failed>
        // What each source promises.
        ensures within { IfOk result (λ n. n ≤ length buf.old) }
        ensures taken { IfOk result (λ n. Some self.old.left ≡ put_back (take n buf.new) (Some self.new.left)) }
        ensures end { IfOk result (λ n. n ≡ 0 → 0 < length buf.old → Told (Some self.old.left) []) }
        ensures kept { OnErr result (Some self.new.left ≡ Some self.old.left) }
        ensures caused { HasCause self.old.faults self.new.faults result }

        // What this one promises besides.
        ensures most { IfOk result (λ n. n ≡ min (length buf.old) (length self.old.left)) }
        ensures listed { IsErr result ↔ Contains self.old.fails self.old.calls }
        ensures calls { self.new.calls ≡ counted self.old.calls }
        ensures fails { self.new.fails ≡ self.old.fails }
        ensures quiet { OnOk result (self.new.faults ≡ self.old.faults) }
        ensures rose { OnErr result (self.new.faults ≡ counted self.old.faults) }
    {
        let call = self.calls;
        self.calls = call.saturating_add(1);
        if self.fails.contains(&call) {
            self.faults = self.faults.saturating_add(1);
            return Err(Failed);
        }
        let count = buf.len().min(self.bytes.len() - self.at);
        buf[..count].copy_from_slice(&self.bytes[self.at..self.at + count]);
        self.at += count;
        Ok(count)
    }
}

/// A sink of bytes in memory. It tells what was taken, and fails at the calls that it was given and
/// where a piece doesn't fit whole into the room that is left.
#[derive(Drop)]
pub struct MemSink {
    bytes: Vec<u8>,
    room: usize,
    fails: Vec<u64>,
    calls: u64,
    faults: u64,
}

impl Model for MemSink {
    ghost use Rattle.std.specs.Prelude.{◌≤◌, vec_len, vec_capacity};
    ghost use Rattle.vod_io.specs.InMemory.{SinkView};

    ghost Value = { SinkView };

    ghost view = { λ s. record { taken = s.bytes.items; room = s.room; fails = s.fails.items; calls = s.calls; faults = s.faults } };

    ghost invariant = { λ s. (vec_len s.bytes ≤ s.room) × (s.room ≤ vec_capacity s.bytes) };
}

impl MemSink {
    /// A sink with room for `room` bytes, all of it taken here. `fails` lists the calls of `write`,
    /// from 0, that fail.
    pub fn new(alloc: Global, room: usize, fails: Vec<u64>) -> Result<MemSink, Memory>
        ensures { IfOk result (λ sink. sink ≡ record { taken = []; room = room; fails = fails.items; calls = 0; faults = 0 }) }
    {
        match Vec::with_capacity(alloc, room) {
            Ok(bytes) => Ok(MemSink {
                bytes,
                room,
                fails,
                calls: 0,
                faults: 0,
            }),
            Err(_) => Err(Memory),
        }
    }

    /// The bytes that were taken.
    pub fn taken(&self) -> &[u8]
        ensures { result.now ≡ self.now.taken }
    {
        self.bytes.as_slice()
    }
}

impl Sink for MemSink {
    ghost taken = { λ s. Some s.taken };

    ghost faults = { λ s. s.faults };

    /// Takes the whole piece, or fails where this call is listed or the piece doesn't fit.
    fn write(&mut self, piece: &[u8]) -> Result<usize, Failed>
        // What each sink promises.
        ensures within { IfOk result (λ n. n ≤ length piece.now) }
        ensures some { IfOk result (λ n. 0 < length piece.now → 0 < n) }
        ensures taken { IfOk result (λ n. Some self.new.taken ≡ appended (Some self.old.taken) (take n piece.now)) }
        ensures kept { OnErr result (Some self.new.taken ≡ Some self.old.taken) }
        ensures caused { HasCause self.old.faults self.new.faults result }

        // What this one promises besides.
        ensures whole { IfOk result (λ n. n ≡ length piece.now) }
        ensures refused { IsErr result ↔ (Contains self.old.fails self.old.calls ⊎ (self.old.room < length self.old.taken + length piece.now)) }
        ensures calls { self.new.calls ≡ counted self.old.calls }
        ensures fails { self.new.fails ≡ self.old.fails }
        ensures room { self.new.room ≡ self.old.room }
        ensures quiet { OnOk result (self.new.faults ≡ self.old.faults) }
        ensures rose { OnErr result (self.new.faults ≡ counted self.old.faults) }
    {
        let call = self.calls;
        self.calls = call.saturating_add(1);
        if self.fails.contains(&call) || self.room - self.bytes.len() < piece.len() {
            self.faults = self.faults.saturating_add(1);
            return Err(Failed);
        }
        self.bytes.extend_from_slice(piece).unwrap();
        Ok(piece.len())
    }

    /// Does nothing: what was taken is here.
    fn flush(&mut self) -> Result<(), Failed>
        ensures taken { Some self.new.taken ≡ Some self.old.taken }
        ensures caused { HasCause self.old.faults self.new.faults result }

        // What this one promises besides.
        ensures ok { result ≡ Ok tt }
        ensures unchanged { self.new ≡ self.old }
    {
        Ok(())
    }
}
