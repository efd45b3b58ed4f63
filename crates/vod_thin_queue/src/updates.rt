//! The nonblocking updates of each block, of which it has at most one.
ghost use Rattle.std.specs.Prelude.{◌≡◌, ◌<◌, ◌^◌, ◌∷◌, [], ◌++◌, length, take, drop, replicate, slice_set, slice_index_or, count_by, IsTrue, IfOk};
ghost use Rattle.vod_thin_design.specs.declared.thin.Bit.TheVariants.{X};
ghost use Rattle.vod_thin_queue.specs.State.{list_at};
ghost use Rattle.vod_thin_queue.specs.Step.{is_filled};

use crate::waiting::Waiting;
use std::alloc::{AllocError, Global};
use std::marker::Model;
use vod_thin_design::Bit;

/// The updates of each block. The clock of a block moves at most once in a slot, so there is one
/// at most, for which the place is there from the start.
#[derive(Drop)]
pub struct Updates {
    values: Waiting,
}

impl Model for Updates {
    ghost use Rattle.std.specs.Prelude.{List, map};
    ghost use Rattle.vod_thin_design.specs.declared.thin.Bit.{Bit};
    ghost use Rattle.vod_thin_queue.specs.Core.{updates_of};

    ghost Value = { List (List Bit) };

    ghost view = { λ a. map updates_of a.values };
}

impl Updates {
    /// So many blocks, without an update.
    pub fn none(alloc: Global, blocks: usize) -> Result<Updates, AllocError>
        requires { blocks < 2 ^ 25 }
        ensures { IfOk result (λ updates. updates ≡ replicate blocks []) }
    {
        Ok(Updates {
            values: Waiting::none(alloc, blocks)?,
        })
    }

    /// How many blocks have an update.
    pub fn count(&self) -> u32
        ensures count { result ≡ count_by is_filled self.now }
        ensures few { length self.now < 2 ^ 25 }
    {
        self.values.count()
    }

    /// The block with an update before which `nth` others have one.
    pub fn find(&self, nth: u32) -> u32
        requires { nth < count_by is_filled self.now }
        ensures within { result < length self.now }
        ensures filled { IsTrue (is_filled (list_at self.now result)) }
        ensures nth { count_by is_filled (take result self.now) ≡ nth }
    {
        self.values.find(nth)
    }

    /// Adds an update of a block that has none.
    pub fn add(&mut self, block: u32, bit: Bit)
        requires within { block < length self.old }
        requires none { list_at self.old block ≡ [] }
        ensures { self.new ≡ slice_set self.old block (list_at self.old block ++ bit ∷ []) }
    {
        self.values.write(block, Some(bit));
    }

    /// Takes the first update of a block.
    pub fn take(&mut self, block: u32) -> Bit
        requires { IsTrue (is_filled (list_at self.old block)) }
        ensures first { result ≡ slice_index_or (list_at self.old block) 0 X }
        ensures rest { self.new ≡ slice_set self.old block (drop 1 (list_at self.old block)) }
    {
        self.values.take(block)
    }
}
