//! A value by place, or none, where values wait to be taken.
ghost use Rattle.std.specs.Prelude.{◌≡◌, ◌+◌, ◌<◌, ◌^◌, length, take, replicate, slice_set, count_by, is_some, unwrap_or, None, IsTrue, IfOk};
ghost use Rattle.vod_thin_design.specs.declared.thin.Bit.TheVariants.{X};
ghost use Rattle.vod_thin_queue.specs.State.{option_at};

use crate::flags::Flags;
use std::alloc::{AllocError, Global};
use std::marker::Model;
use vod_thin_design::Bit;

/// The value that waits at each place, or none.
#[derive(Drop)]
pub struct Waiting {
    bits: Vec<Option<Bit>>,
    filled: Flags,
}

impl Model for Waiting {
    ghost use Rattle.std.specs.Prelude.{◌≡◌, List, Option, map, is_some};
    ghost use Rattle.vod_thin_design.specs.declared.thin.Bit.{Bit};

    ghost Value = { List (Option Bit) };

    ghost view = { λ a. a.bits.items };

    ghost invariant = { λ a. a.filled ≡ map is_some a.bits.items };
}

impl Waiting {
    /// So many places, with nothing at any.
    #[tactic(auto, using(crate::proofs::Count::filled))]
    pub fn none(alloc: Global, len: usize) -> Result<Waiting, AllocError>
        requires { len < 2 ^ 25 }
        ensures { IfOk result (λ waiting. waiting ≡ replicate len None) }
    {
        Ok(Waiting {
            bits: vec![in alloc; None; len]?,
            filled: Flags::none(alloc, len)?,
        })
    }

    /// How many places have a value.
    pub fn count(&self) -> u32
        ensures count { result ≡ count_by is_some self.now }
        ensures few { length self.now < 2 ^ 25 }
    {
        self.filled.count()
    }

    /// Puts a value at a place, or takes it away.
    #[tactic(auto, using(crate::proofs::Count::filled))]
    pub fn write(&mut self, place: u32, bit: Option<Bit>)
        requires { place < length self.old }
        ensures { self.new ≡ slice_set self.old place bit }
    {
        self.bits[place as usize] = bit;
        self.filled.write(place, bit.is_some());
    }

    /// The place with a value before which `nth` others have one.
    #[tactic(auto, using(crate::proofs::Count::filled))]
    pub fn find(&self, nth: u32) -> u32
        requires { nth < count_by is_some self.now }
        ensures within { result < length self.now }
        ensures some { IsTrue (is_some (option_at self.now result)) }
        ensures nth { count_by is_some (take result self.now) ≡ nth }
    {
        self.filled.find(nth)
    }

    /// Takes the value at a place.
    #[tactic(auto, using(crate::proofs::Count::filled))]
    pub fn take(&mut self, place: u32) -> Bit
        requires { IsTrue (is_some (option_at self.old place)) }
        ensures value { result ≡ unwrap_or (option_at self.old place) X }
        ensures taken { self.new ≡ slice_set self.old place None }
    {
        let bit = self.bits[place as usize].unwrap_or(Bit::X);
        self.bits[place as usize] = None;
        self.filled.write(place, false);
        bit
    }
}
