//! A sink that counts the bytes it takes and keeps none of them.
ghost use Rattle.std.specs.Prelude.{◌≡◌, ℕ, List, ◌≤◌, ◌<◌, None, length, take, IfOk, OnErr};
ghost use Rattle.vod_io.specs.Told.{appended};
ghost use Rattle.vod_io.specs.Faults.{HasCause};

use vod_io::{Failed, Sink};

/// How many bytes were taken.
#[derive(Drop)]
pub struct Counter {
    pub bytes: u64,
}

impl Counter {
    pub fn new() -> Counter {
        Counter { bytes: 0 }
    }
}

impl Sink for Counter {
    ghost taken = { λ _. None };

    ghost faults = { λ _. 0 };

    fn write(&mut self, piece: &[u8]) -> Result<usize, Failed> {
        self.bytes = self.bytes.saturating_add(piece.len() as u64);
        Ok(piece.len())
    }

    fn flush(&mut self) -> Result<(), Failed> {
        Ok(())
    }
}
