//! A device on which each call fails.
ghost use Rattle.std.specs.Prelude.{◌≡◌, ◌+◌, min, ◌^◌, ◌-◌, ◌≤◌};
ghost use Rattle.rows_dead.specs.Dead.{dead, dead-counts_now, dead-only_now};
ghost use Rattle.rows_dead.specs.declared.dead.Dead.{Dead};

use std::marker::Model;
use vod_deck::Deck;
use vod_io::Failed;

/// A device that holds no byte, and on which each call fails, which it counts. It tells what it holds.
#[derive(Drop)]
pub struct Dead {
    faults: u64,
}

impl Model for Dead {
    ghost use Rattle.std.specs.Prelude.{ℕ};

    ghost Value = { ℕ };

    ghost view = { λ d. d.faults };
}

impl Dead {
    pub fn new() -> Dead
        ensures { result ≡ 0 }
    {
        Dead { faults: 0 }
    }

    /// How many calls failed.
    pub fn faults(&self) -> u64
        ensures { result ≡ self.now }
    {
        self.faults
    }
}

impl Deck for Dead {
    ghost tells = { Unit };

    ghost view = { dead };

    ghost counts_now = { dead-counts_now };

    ghost only_now = { dead-only_now };

    fn len(&mut self) -> Result<u64, Failed> {
        self.faults = self.faults.saturating_add(1);
        Err(Failed)
    }

    fn read_at(&mut self, _at: u64, _buf: &mut [u8]) -> Result<(), Failed> {
        self.faults = self.faults.saturating_add(1);
        Err(Failed)
    }

    fn write_at(&mut self, _at: u64, _bytes: &[u8]) -> Result<(), Failed> {
        self.faults = self.faults.saturating_add(1);
        Err(Failed)
    }

    fn sync(&mut self) -> Result<(), Failed> {
        self.faults = self.faults.saturating_add(1);
        Err(Failed)
    }

    fn say(&mut self, _text: &[u8]) -> Result<(), Failed> {
        self.faults = self.faults.saturating_add(1);
        Err(Failed)
    }

    fn lives(&self) {}
}
