//! Flags by place.
ghost use Rattle.std.specs.Prelude.{◌≡◌, ◌||◌, ◌<◌, false, length, replicate, slice_set, IfOk};
ghost use Rattle.vod_slot.specs.State.{flag_at};

use std::alloc::{AllocError, Global};
use std::marker::Model;

/// A flag for each of so many places, which contracts see as their list.
#[derive(Drop)]
pub struct Flags {
    flags: Vec<bool>,
}

impl Model for Flags {
    ghost use Rattle.std.specs.Prelude.{List, Bool};

    ghost Value = { List Bool };

    ghost view = { λ f. f.flags.items };
}

impl Flags {
    /// So many flags, all of them set or none.
    pub fn new(alloc: Global, count: usize, set: bool) -> Result<Flags, AllocError>
        ensures { IfOk result (λ flags. flags ≡ replicate count set) }
    {
        Ok(Flags {
            flags: vec![in alloc; set; count]?,
        })
    }

    /// The flags.
    pub fn as_slice(&self) -> &[bool]
        ensures { result.now ≡ self.now }
    {
        self.flags.as_slice()
    }

    /// Whether the flag at a place is set.
    pub fn is_set(&self, place: u32) -> bool
        requires { place < length self.now }
        ensures { result ≡ flag_at self.now place }
    {
        self.flags[place as usize]
    }

    /// Sets the flag at a place where a test holds.
    pub fn raise(&mut self, place: u32, test: bool)
        requires { place < length self.old }
        ensures { self.new ≡ slice_set self.old place (flag_at self.old place || test) }
    {
        self.flags[place as usize] = either(self.flags[place as usize], test);
    }

    /// Clears the flag at a place.
    pub fn clear(&mut self, place: u32)
        requires { place < length self.old }
        ensures { self.new ≡ slice_set self.old place false }
    {
        self.flags[place as usize] = false;
    }
}

fn either(one: bool, other: bool) -> bool
    ensures { result ≡ (one || other) }
{
    one || other
}
