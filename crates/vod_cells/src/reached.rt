//! The flags that a write raises: those of the drivers that can read what is written, and of the blocks whose edge it is.
ghost use Rattle.std.specs.Prelude.{◌≡◌, ◌+◌, ◌<◌, ◌&&◌, nat_le, nat_lt, length, All};
ghost use Rattle.std.specs.List.{list_any};
ghost use Rattle.vod_bits.specs.Bit.{is_0, is_1};
ghost use Rattle.vod_bits.specs.Value.{upper_bit};
ghost use Rattle.vod_design.specs.Feeds.{is_read};
ghost use Rattle.vod_slot.specs.Store.{is_word_read};
ghost use Rattle.vod_slot.specs.Step.{is_rising, is_falling};
ghost use Rattle.vod_cells.specs.Listening.{passes_at, raised_at, is_change, is_first_edge, is_first_reset, starts_block};

use crate::flags::Flags;
use sqlite_items::Items;
use vod_bits::Word;
use vod_design::{Block, Edge, Read};
use vod_eval::bounded;
use vod_four::Four;
use vod_value::Value;

/// Wakes those of the listed drivers that can read a bit of a signal.
pub fn wake_for_bit(
    wake: &mut Flags,
    drivers: &[u32],
    reads: &[Items<Read>],
    signal: u32,
    place: Word,
)
    requires flags { All (λ k. k < length wake.old) drivers.now }
    requires reads { All (λ k. k < length reads.now) drivers.now }
    ensures size { length wake.new ≡ length wake.old }
    ensures raised { wake.new ≡ raised_at (passes_at (list_any (is_read (record { signal = signal; bit = place }))) reads.now) wake.old drivers.now }
{
    for driver in drivers {
        wake.raise(*driver, reads_bit(&reads[*driver as usize], signal, place));
    }
}

/// Wakes those of the listed drivers that can read a word of a memory.
pub fn wake_for_word(
    wake: &mut Flags,
    drivers: &[u32],
    reads: &[Items<Read>],
    memory: u32,
    place: Word,
)
    requires flags { All (λ k. k < length wake.old) drivers.now }
    requires reads { All (λ k. k < length reads.now) drivers.now }
    ensures size { length wake.new ≡ length wake.old }
    ensures raised { wake.new ≡ raised_at (passes_at (list_any (is_word_read memory place)) reads.now) wake.old drivers.now }
{
    for driver in drivers {
        wake.raise(*driver, reads_word(&reads[*driver as usize], memory, place));
    }
}

// Whether a bit of a signal is among what is read.
fn reads_bit(reads: &Items<Read>, signal: u32, place: Word) -> bool
    ensures { result ≡ list_any (is_read (record { signal = signal; bit = place })) reads.now }
{
    for read in reads.as_slice() {
        if is_bit_read(*read, signal, place) {
            return true;
        }
    }
    false
}

fn is_bit_read(read: Read, signal: u32, place: Word) -> bool
    ensures { result ≡ is_read (record { signal = signal; bit = place }) read }
{
    match read {
        Read::Whole(n) => signal == n,
        Read::Bits(n, low, width) => signal == n && is_between(place, low, bounded(width)),
        Read::Word(_, _) | Read::Ram(_) => false,
    }
}

// Whether a place is one of so many from a lowest up.
fn is_between(place: Word, low: u8, width: u8) -> bool
    ensures { result ≡ (nat_le low place && nat_lt place (low + width)) }
{
    let low = Word::from(low);
    low <= place && place < low + Word::from(width)
}

// Whether a word of a memory is among what is read.
fn reads_word(reads: &Items<Read>, memory: u32, place: Word) -> bool
    ensures { result ≡ list_any (is_word_read memory place) reads.now }
{
    for read in reads.as_slice() {
        if is_word(*read, memory, place) {
            return true;
        }
    }
    false
}

fn is_word(read: Read, memory: u32, place: Word) -> bool
    ensures { result ≡ is_word_read memory place read }
{
    match read {
        Read::Whole(_) | Read::Bits(_, _, _) => false,
        Read::Word(m, p) => m == memory && Word::from(p) == place,
        Read::Ram(m) => m == memory,
    }
}

/// Marks those of the listed blocks as started that wait for an edge which a change of a net's lowest bit is.
pub fn start_blocks(
    started: &mut Flags,
    listed: &[u32],
    blocks: &[Block],
    signal: u32,
    old: Four,
    new: Four,
)
    requires flags { All (λ k. k < length started.old) listed.now }
    requires blocks { All (λ k. k < length blocks.now) listed.now }
    requires old { length old ≡ 1 }
    requires new { length new ≡ 1 }
    ensures size { length started.new ≡ length started.old }
    ensures raised { started.new ≡ raised_at (passes_at (starts_block signal (upper_bit old) (upper_bit new)) blocks.now) started.old listed.now }
{
    for block in listed {
        started.raise(
            *block,
            is_started(&blocks[*block as usize], signal, old, new),
        );
    }
}

// Whether a change of a net's lowest bit starts a block that waits.
fn is_started(block: &Block, signal: u32, old: Four, new: Four) -> bool
    requires old { length old ≡ 1 }
    requires new { length new ≡ 1 }
    ensures { result ≡ starts_block signal (upper_bit old) (upper_bit new) block.now }
{
    is_edge(block.clock, signal, old, new) || is_reset_edge(block.reset, signal, old, new)
}

fn is_reset_edge(reset: Option<Edge>, signal: u32, old: Four, new: Four) -> bool
    requires old { length old ≡ 1 }
    requires new { length new ≡ 1 }
    ensures { result ≡ is_first_reset signal (upper_bit old) (upper_bit new) reset }
{
    match reset {
        None => false,
        Some(edge) => is_edge(edge, signal, old, new),
    }
}

// Whether a change of a net's lowest bit is an edge that is waited for.
fn is_edge(edge: Edge, signal: u32, old: Four, new: Four) -> bool
    requires old { length old ≡ 1 }
    requires new { length new ≡ 1 }
    ensures { result ≡ is_first_edge signal (upper_bit old) (upper_bit new) edge }
{
    edge.signal == signal && is_change(edge.rising, old, new)
}

// Whether a change is one in a direction: a posedge, or else a negedge (9.7.2).
fn is_change(rising: bool, old: Four, new: Four) -> bool
    requires old { length old ≡ 1 }
    requires new { length new ≡ 1 }
    ensures { result ≡ is_change rising (upper_bit old) (upper_bit new) }
{
    if rising {
        rises(old, new)
    } else {
        falls(old, new)
    }
}

#[tactic(auto, using(crate::proofs::Edges::rising))]
fn rises(old: Four, new: Four) -> bool
    requires old { length old ≡ 1 }
    requires new { length new ≡ 1 }
    ensures { result ≡ is_rising (upper_bit old) (upper_bit new) }
{
    if is_zero(old) {
        !is_zero(new)
    } else {
        !is_one(old) && is_one(new)
    }
}

#[tactic(auto, using(crate::proofs::Edges::falling))]
fn falls(old: Four, new: Four) -> bool
    requires old { length old ≡ 1 }
    requires new { length new ≡ 1 }
    ensures { result ≡ is_falling (upper_bit old) (upper_bit new) }
{
    if is_one(old) {
        !is_one(new)
    } else {
        !is_zero(old) && is_zero(new)
    }
}

#[tactic(auto, using(crate::proofs::Edges::truth_one, crate::proofs::Edges::truth_not_one))]
fn is_one(bit: Four) -> bool
    requires { length bit ≡ 1 }
    ensures { result ≡ is_1 (upper_bit bit) }
{
    match bit.truth() {
        None => false,
        Some(truth) => truth,
    }
}

#[tactic(auto, using(crate::proofs::Edges::truth_zero, crate::proofs::Edges::truth_not_zero))]
fn is_zero(bit: Four) -> bool
    requires { length bit ≡ 1 }
    ensures { result ≡ is_0 (upper_bit bit) }
{
    match bit.truth() {
        None => false,
        Some(truth) => !truth,
    }
}
