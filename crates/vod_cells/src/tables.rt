//! The values that are stored and the flags that writes raise, as tables.
ghost use Rattle.std.specs.Prelude.{◌≡◌, ◌+◌, ◌<◌, ◌≤◌, ◌^◌, ◌==◌, false, length, All, IfOk};
ghost use Rattle.std.specs.List.{list_any};
ghost use Rattle.vod_bits.specs.Value.{upper_bit, resize_bits};
ghost use Rattle.vod_design.specs.Feeds.{is_read};
ghost use Rattle.vod_design.specs.Reads.{reads};
ghost use Rattle.vod_design.specs.declared.statement.Place.{Place};
ghost use Rattle.vod_slot.specs.Store.{ToBit, ToWord, bits_written, places_written, is_word_read, list_at, word_at};
ghost use Rattle.vod_slot.specs.Step.{raised, raised_if};
ghost use Rattle.vod_cells.specs.Listening.{AreListeners, starts_block};
ghost use Rattle.vod_cells.specs.Stored.{Stored, IsStoredOf, put_in, put_all_in};

use crate::bits::{bit_in, bit_or_zero, differ, replaced};
use crate::flags::Flags;
use crate::listeners::Listeners;
use crate::reached::{start_blocks, wake_for_bit, wake_for_word};
use crate::words::{changes_word, set_word};
use sqlite_items::Items;
use std::marker::Model;
use vod_bits::Word;
use vod_design::{Design, Place};
use vod_four::Four;
use vod_value::Value;

/// The value of each signal and of each memory word, whether each driver awaits evaluation, and whether an edge came for each block.
#[derive(Drop)]
pub struct Tables {
    pub signals: Vec<Four>,
    pub memories: Vec<Items<Four>>,
    pub wake: Flags,
    pub started: Flags,
}

impl Model for Tables {
    ghost use Rattle.vod_cells.specs.Stored.{Stored};

    ghost Value = { Stored };

    ghost view = { λ t. record { store = record { signals = t.signals.items; memories = t.memories.items }; wake = t.wake; started = t.started } };
}

impl Tables {
    /// A word of a memory.
    pub fn word(&self, memory: u32, place: u32) -> Four
        requires memory { memory < length self.now.store.memories }
        requires place { place < length (list_at self.now.store.memories memory) }
        ensures { result ≡ word_at self.now.store memory place }
    {
        self.memories[memory as usize].as_slice()[place as usize]
    }

    /// A bit of a signal takes a value: where that changes it, the drivers that can read it await evaluation; and where it is an
    /// edge, it came for the blocks that name it.
    pub fn put_bit(
        &mut self,
        design: &Design,
        listeners: &Listeners,
        signal: u32,
        place: Word,
        bit: Four,
    )
        requires shaped { IsStoredOf design.now.netlist self.old }
        requires listed { AreListeners design.now.netlist listeners.now }
        requires within { signal < length design.now.netlist.signals }
        requires one { length bit ≡ 1 }
        ensures { self.new ≡ put_in design.now.netlist (ToBit signal place (upper_bit bit)) self.old }
    {
        let value = self.signals[signal as usize];
        let old = bit_in(value, place);
        self.signals[signal as usize] = replaced(value, place, bit);
        wake_readers(
            &mut self.wake,
            design,
            listeners,
            signal,
            place,
            differ(old, bit),
        );
        start_waiting(
            &mut self.started,
            design,
            listeners,
            signal,
            place,
            old,
            bit,
        );
    }

    /// A word of a memory takes a value: where that changes it, the drivers that can read it await evaluation.
    pub fn put_word(
        &mut self,
        design: &Design,
        listeners: &Listeners,
        memory: u32,
        place: Word,
        word: Four,
    )
        requires shaped { IsStoredOf design.now.netlist self.old }
        requires listed { AreListeners design.now.netlist listeners.now }
        requires within { memory < length design.now.netlist.memories }
        ensures { self.new ≡ put_in design.now.netlist (ToWord memory place word) self.old }
    {
        let changed = changes_word(&self.memories[memory as usize], place, word);
        set_word(&mut self.memories[memory as usize], place, word);
        wake_memory_readers(&mut self.wake, design, listeners, memory, place, changed);
    }

    /// Bits of a signal from a place up take a value, one after the other from the upper one.
    pub fn put_bits(
        &mut self,
        design: &Design,
        listeners: &Listeners,
        signal: u32,
        low: Word,
        value: Four,
    )
        requires shaped { IsStoredOf design.now.netlist self.old }
        requires listed { AreListeners design.now.netlist listeners.now }
        requires within { signal < length design.now.netlist.signals }
        requires places { low + length value ≤ 2 ^ 64 }
        ensures { self.new ≡ put_all_in design.now.netlist (bits_written signal low value) self.old }
    {
        let mut left = value.width();
        while left > 0 {
            left -= 1;
            let place = Word::from(left);
            let bit = bit_in(value, place);
            self.put_bit(design, listeners, signal, low + place, bit);
        }
    }

    /// Bits of signals by their places take a value at their count of bits, one after the other from the upper one (6.1.2).
    pub fn put_places(
        &mut self,
        design: &Design,
        listeners: &Listeners,
        places: &[Place],
        value: Four,
    )
        requires shaped { IsStoredOf design.now.netlist self.old }
        requires listed { AreListeners design.now.netlist listeners.now }
        requires within { All (λ (p : Place). p.signal < length design.now.netlist.signals) places.now }
        ensures { self.new ≡ put_all_in design.now.netlist (places_written places.now (resize_bits (length places.now) false value)) self.old }
    {
        for (i, place) in places.iter().enumerate() {
            let bit = bit_or_zero(value, places.len() - 1 - i);
            self.put_bit(design, listeners, place.signal, Word::from(place.bit), bit);
        }
    }
}

// Wakes the drivers that can read a bit that was changed.
fn wake_readers(
    wake: &mut Flags,
    design: &Design,
    listeners: &Listeners,
    signal: u32,
    place: Word,
    changed: bool,
)
    requires listed { AreListeners design.now.netlist listeners.now }
    requires within { signal < length design.now.netlist.signals }
    requires size { length wake.old ≡ length design.now.netlist.drivers }
    ensures { wake.new ≡ raised_if changed (λ a. list_any (is_read (record { signal = signal; bit = place })) (reads a.value)) design.now.netlist.drivers wake.old }
{
    if !changed {
        return;
    }
    wake_for_bit(
        wake,
        listeners.signals.of(signal),
        listeners.reads.as_slice(),
        signal,
        place,
    );
}

// Wakes the drivers that can read a memory word that was changed.
fn wake_memory_readers(
    wake: &mut Flags,
    design: &Design,
    listeners: &Listeners,
    memory: u32,
    place: Word,
    changed: bool,
)
    requires listed { AreListeners design.now.netlist listeners.now }
    requires within { memory < length design.now.netlist.memories }
    requires size { length wake.old ≡ length design.now.netlist.drivers }
    ensures { wake.new ≡ raised_if changed (λ a. list_any (is_word_read memory place) (reads a.value)) design.now.netlist.drivers wake.old }
{
    if !changed {
        return;
    }
    wake_for_word(
        wake,
        listeners.memories.of(memory),
        listeners.reads.as_slice(),
        memory,
        place,
    );
}

// Marks the blocks as started for which the change of a bit is an edge that they wait for.
fn start_waiting(
    started: &mut Flags,
    design: &Design,
    listeners: &Listeners,
    signal: u32,
    place: Word,
    old: Four,
    new: Four,
)
    requires listed { AreListeners design.now.netlist listeners.now }
    requires within { signal < length design.now.netlist.signals }
    requires size { length started.old ≡ length design.now.netlist.blocks }
    requires old { length old ≡ 1 }
    requires new { length new ≡ 1 }
    ensures { started.new ≡ raised_if (place == 0) (starts_block signal (upper_bit old) (upper_bit new)) design.now.netlist.blocks started.old }
{
    if place != 0 {
        return;
    }
    start_blocks(
        started,
        listeners.blocks.of(signal),
        design.blocks(),
        signal,
        old,
        new,
    );
}
