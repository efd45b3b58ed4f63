//! Flags by place: how many are set, and where the n-th of these is.
ghost use Rattle.std.specs.Prelude.{◌≡◌, ℕ, ◌+◌, ◌*◌, ◌<◌, ◌≤◌, ◌^◌, true, false, not, length, take, replicate, slice_set, slice_index, IfOk};
ghost use Rattle.vod_thin_queue.specs.State.{flag_at};
ghost use Rattle.vod_thin_queue.specs.Flags.{digit_of, set_count, AreSums, AreSumsBut, IsTree};

use std::alloc::{AllocError, Global};
use std::marker::Model;

/// Flags by place. The counts are a binary tree with its root at 1: node `n` counts the set flags
/// below its children `2n` and `2n + 1`, and the leaves are the flags. So to write a flag, or to
/// find the n-th that is set, takes a step for each level.
#[derive(Drop)]
pub struct Flags {
    flags: Vec<bool>,
    counts: Vec<u32>,
    leaves: u32,
    height: u32,
}

impl Model for Flags {
    ghost use Rattle.std.specs.Prelude.{List, Bool};
    ghost use Rattle.vod_thin_queue.specs.Flags.{IsTree};

    ghost Value = { List Bool };

    ghost view = { λ a. a.flags.items };

    ghost invariant = { λ a. IsTree a.flags.items a.counts.items a.leaves a.height };
}

impl Flags {
    /// So many flags, none of them set.
    pub fn none(alloc: Global, len: usize) -> Result<Flags, AllocError>
        requires { len < 2 ^ 25 }
        ensures { IfOk result (λ flags. flags ≡ replicate len false) }
    {
        let (leaves, height) = leaves_for(len);
        Ok(Flags {
            flags: vec![in alloc; false; len]?,
            counts: vec![in alloc; 0; 2 * leaves as usize]?,
            leaves,
            height,
        })
    }

    /// So many flags, all of them set.
    pub fn all(alloc: Global, len: usize) -> Result<Flags, AllocError>
        requires { len < 2 ^ 25 }
        ensures { IfOk result (λ flags. flags ≡ replicate len true) }
    {
        let mut flags = Flags::none(alloc, len)?;
        for place in 0..len {
            flags.write(place as u32, true);
        }
        Ok(flags)
    }

    /// How many are set.
    pub fn count(&self) -> u32
        ensures count { result ≡ set_count self.now }
        ensures few { length self.now < 2 ^ 25 }
    {
        self.counts[1]
    }

    /// Sets or clears the flag at a place.
    pub fn write(&mut self, place: u32, flag: bool)
        requires { place < length self.old }
        ensures { self.new ≡ slice_set self.old place flag }
    {
        if self.flags[place as usize] == flag {
            return;
        }
        let leaf = self.leaves + place;
        self.flags[place as usize] = flag;
        self.counts[leaf as usize] = u32::from(flag);
        recount(&mut self.counts, self.leaves, leaf / 2, flag);
    }

    /// The place of the set flag before which `nth` others are set.
    pub fn find(&self, nth: u32) -> u32
        requires { nth < set_count self.now }
        ensures within { result < length self.now }
        ensures set { flag_at self.now result ≡ true }
        ensures nth { set_count (take result self.now) ≡ nth }
    {
        let mut level = 1;
        let mut place = 0;
        let mut left = nth;
        for _ in 0..self.height {
            level *= 2;
            place *= 2;
            let first = self.counts[(level + place) as usize];
            if left >= first {
                left -= first;
                place += 1;
            }
        }
        place
    }
}

/// The least power of two that is no less, and its exponent.
fn leaves_for(len: usize) -> (u32, u32)
    requires { len < 2 ^ 25 }
    ensures low { result.1 ≤ 25 }
    ensures power { result.0 ≡ 2 ^ result.1 }
    ensures room { len ≤ result.0 }
{
    let mut leaves = 1;
    let mut height = 0;
    while (leaves as usize) < len {
        leaves *= 2;
        height += 1;
    }
    (leaves, height)
}

/// Counts one more, or one less, in the nodes from this one up to the root.
fn recount(counts: &mut [u32], leaves: u32, node: u32, added: bool)
    requires size { length counts.old ≡ 2 * leaves }
    requires within { node < leaves }
    requires small { (n : ℕ) → 1 ≤ n → n ≤ node → slice_index counts.old n ≤ 2 ^ 26 }
    requires sums { AreSumsBut node added leaves counts.old }
    ensures size { length counts.new ≡ 2 * leaves }
    ensures leaves { (n : ℕ) → leaves ≤ n → slice_index counts.new n ≡ slice_index counts.old n }
    ensures sums { AreSums leaves counts.new }
{
    let mut node = node;
    while node > 0 {
        counts[node as usize] = mended(counts[node as usize], added);
        node /= 2;
    }
}

/// A count with one more, or one less.
fn mended(count: u32, added: bool) -> u32
    requires some { digit_of (not added) ≤ count }
    requires few { count ≤ 2 ^ 26 }
    ensures { result + digit_of (not added) ≡ count + digit_of added }
{
    if added { count + 1 } else { count - 1 }
}
