ghost use Rattle.std.specs.Prelude.{◌≡◌, ℕ, ◌+◌, ◌≤◌, ◌<◌, ◌^◌, ◌∷◌, [], ◌++◌, List, Option, true, false, Some, Err, length, take, IfOk, OnErr};
ghost use Rattle.vod_io.specs.Told.{put_back, Told, Tells, IsTaken, Comes};
ghost use Rattle.vod_io.specs.Faults.{HasCause, Rose};

use crate::Failed;
use std::alloc::{AllocError, Global};
use std::fmt;

/// What bytes are read from.
pub trait Source {
    // The bytes that are left, where the source tells them.
    ghost left: { Self → Option (List ℕ) };

    // How many faults were counted, up to 2^64-1.
    ghost faults: { Self → ℕ };

    /// Takes at least one of the next bytes into a buffer that isn't empty, or answers 0 at the end.
    /// `Failed` took nothing.
    fn read(&mut self, buf: &mut [u8]) -> Result<usize, Failed>
        ensures within { IfOk result (λ n. n ≤ length buf.old) }
        ensures taken { IfOk result (λ n. left self.old ≡ put_back (take n buf.new) (left self.new)) }
        ensures end { IfOk result (λ n. n ≡ 0 → 0 < length buf.old → Told (left self.old) []) }
        ensures kept { OnErr result (left self.new ≡ left self.old) }
        ensures caused { HasCause (faults self.old) (faults self.new) result };
}

/// What `fill` read.
#[derive(Drop)]
pub struct Filled {
    /// The bytes up to the limit.
    pub bytes: Vec<u8>,
    /// Whether a byte past the limit came.
    pub more: bool,
}

/// Why `fill` stopped before the end and the limit.
#[derive(Clone, Copy, Debug, PartialEq, Eq)]
pub enum FillFault {
    /// The source failed.
    Read,
    /// There was no memory.
    Memory,
}

impl fmt::Display for FillFault {
    fn fmt<W: fmt::Write>(&self, f: &mut fmt::Formatter<W>) -> fmt::Result {
        match self {
            FillFault::Read => write!(f, "the file or stream could not be read"),
            FillFault::Memory => write!(f, "out of memory"),
        }
    }
}

impl From<Failed> for FillFault {
    ghost use Rattle.std.specs.Prelude.{◌≡◌};
    ghost use Rattle.vod_io.specs.declared.reading.FillFault.TheVariants.{Read};

    ghost from_gives = { λ _ fault. fault ≡ Read };

    fn from(_failed: Failed) -> FillFault {
        FillFault::Read
    }
}

impl From<AllocError> for FillFault {
    ghost use Rattle.std.specs.Prelude.{◌≡◌};
    ghost use Rattle.vod_io.specs.declared.reading.FillFault.TheVariants.{Memory};

    ghost from_gives = { λ _ fault. fault ≡ Memory };

    fn from(_error: AllocError) -> FillFault {
        FillFault::Memory
    }
}

// How many bytes one read may bring.
const PIECE: usize = 8192;

/// Reads to the end or to one byte past `limit`, whichever comes first. The bytes that were taken are
/// gone, after a refusal too. `Read` comes only where the source counted a fault.
pub fn fill<S: Source>(alloc: Global, source: &mut S, limit: usize) -> Result<Filled, FillFault>
    requires { limit < 2 ^ 63 }

    ensures within { IfOk result (λ filled. length filled.bytes.items ≤ limit) }

    // To the end: what was left is what came, and nothing is left.
    ensures whole { IfOk result (λ filled. filled.more ≡ false → Told (S.left source.old) filled.bytes.items) }
    ensures end { IfOk result (λ filled. filled.more ≡ false → Told (S.left source.new) []) }

    // Past the limit: what was left is longer, and begins with what came.
    ensures full { IfOk result (λ filled. filled.more ≡ true → length filled.bytes.items ≡ limit) }
    ensures more { IfOk result (λ filled. filled.more ≡ true →
        Tells (S.left source.old) (λ text. (limit < length text) × (filled.bytes.items ≡ take limit text))) }

    // Exactly the bytes that came, and the one past the limit, are gone.
    ensures moved_all { IfOk result (λ filled. filled.more ≡ false →
        S.left source.old ≡ put_back filled.bytes.items (S.left source.new)) }
    ensures moved_more { IfOk result (λ filled. filled.more ≡ true →
        (past : ℕ) × (S.left source.old ≡ put_back (filled.bytes.items ++ past ∷ []) (S.left source.new))) }
    ensures moved_some { OnErr result (IsTaken (S.left source.old) (S.left source.new) (limit + 1)) }

    ensures counted { S.faults source.old ≤ S.faults source.new }
    ensures caused { result ≡ Err FillFault.Read → Rose (S.faults source.old) (S.faults source.new) }
{
    let mut bytes = Vec::new(alloc);
    let mut piece = [0u8; PIECE];
    while bytes.len() <= limit {
        let room = PIECE.min(limit + 1 - bytes.len());
        if read_on(source, &mut piece[..room], &mut bytes)? == 0 {
            return Ok(Filled { bytes, more: false });
        }
    }
    bytes.truncate(limit);
    Ok(Filled { bytes, more: true })
}

// Reads once, into `piece`, and appends what came.
fn read_on<S: Source>(
    source: &mut S,
    piece: &mut [u8],
    bytes: &mut Vec<u8>,
) -> Result<usize, FillFault>
    requires { 0 < length piece.old }
    ensures came { IfOk result (λ n. Comes (S.left source.old) (S.left source.new) bytes.old.items bytes.new.items n (length piece.old)) }
    ensures end { IfOk result (λ n. n ≡ 0 → Told (S.left source.new) []) }
    ensures err { OnErr result (IsTaken (S.left source.old) (S.left source.new) (length piece.old)) }
    ensures counted { S.faults source.old ≤ S.faults source.new }
    ensures caused { result ≡ Err FillFault.Read → Rose (S.faults source.old) (S.faults source.new) }
{
    let count = source.read(piece)?;
    bytes.extend_from_slice(&piece[..count])?;
    Ok(count)
}
