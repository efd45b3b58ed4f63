//! What a window needs of an opened log: its source, and its vectors up to a time.
#![tactic(auto)]

mod batch;
mod held;
mod law;
mod source;
mod vectors;

pub use held::{RangeFault, first_image, range};
pub use law::{one_damage, sound_is_undamaged};
pub use source::read_source;
use std::alloc::AllocError;
use std::fmt;
pub use vectors::read_vectors;

/// Why what a log holds isn't read.
#[derive(Clone, Copy, Debug, PartialEq, Eq)]
pub enum ReplayFault {
    /// The deck counted a fault.
    Deck,
    /// The payload of the record at this gate isn't what a log of the design holds there.
    Damaged(u64),
    /// There was no memory.
    Memory,
}

impl fmt::Display for ReplayFault {
    fn fmt<W: fmt::Write>(&self, f: &mut fmt::Formatter<W>) -> fmt::Result {
        match self {
            ReplayFault::Deck => write!(f, "the file of the log failed"),
            ReplayFault::Damaged(at) => write!(
                f,
                "the record behind byte {at} of the log is damaged"
            ),
            ReplayFault::Memory => write!(f, "out of memory"),
        }
    }
}

impl From<AllocError> for ReplayFault {
    ghost use Rattle.std.specs.Prelude.{◌≡◌};
    ghost use Rattle.vod_thin_replay.specs.declared.ReplayFault.TheVariants.{Memory};

    ghost from_gives = { λ _ fault. fault ≡ Memory };

    fn from(_: AllocError) -> ReplayFault {
        ReplayFault::Memory
    }
}
