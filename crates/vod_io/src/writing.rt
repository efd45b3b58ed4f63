ghost use Rattle.std.specs.Prelude.{◌≡◌, ℕ, ◌≤◌, ◌<◌, List, Option, length, take, IfOk, OnErr};
ghost use Rattle.vod_io.specs.Told.{appended, Written};
ghost use Rattle.vod_io.specs.Faults.{HasCause};

use crate::Failed;

/// What bytes are written to.
pub trait Sink {
    // The bytes taken so far, where the sink tells them.
    ghost taken: { Self → Option (List ℕ) };

    // How many faults were counted, up to 2^64-1.
    ghost faults: { Self → ℕ };

    /// Takes at least one of the first bytes of a piece that isn't empty, and answers how many.
    /// `Failed` took nothing.
    fn write(&mut self, piece: &[u8]) -> Result<usize, Failed>
        ensures within { IfOk result (λ n. n ≤ length piece.now) }
        ensures some { IfOk result (λ n. 0 < length piece.now → 0 < n) }
        ensures taken { IfOk result (λ n. taken self.new ≡ appended (taken self.old) (take n piece.now)) }
        ensures kept { OnErr result (taken self.new ≡ taken self.old) }
        ensures caused { HasCause (faults self.old) (faults self.new) result };

    /// Passes on what a sink that gathers pieces has taken. Behind `Ok` all of it is where it goes.
    fn flush(&mut self) -> Result<(), Failed>
        ensures taken { taken self.new ≡ taken self.old }
        ensures caused { HasCause (faults self.old) (faults self.new) result };
}

/// Writes the whole piece. After `Failed` the sink took a prefix of it.
pub fn put_all<K: Sink>(sink: &mut K, piece: &[u8]) -> Result<(), Failed>
    ensures put { Written result (K.taken sink.old) (K.taken sink.new) piece.now }
    ensures caused { HasCause (K.faults sink.old) (K.faults sink.new) result }
{
    let mut rest = piece;
    while !rest.is_empty() {
        let count = sink.write(rest)?;
        rest = &rest[count..];
    }
    Ok(())
}
