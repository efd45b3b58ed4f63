//! Vectors of a thin design, recorded in a log.
#![tactic(auto)]

mod ack;
mod append;
mod law;
mod store;

pub use law::said_is_held;
use std::fmt;
pub use store::record;
use vod_io::Failed;

/// Why vectors aren't recorded whole.
#[derive(Clone, Copy, Debug, PartialEq, Eq)]
pub enum StoreFault {
    /// The deck counted a fault.
    Deck,
    /// The log isn't empty.
    NotEmpty,
    /// There was no memory.
    Memory,
}

impl fmt::Display for StoreFault {
    fn fmt<W: fmt::Write>(&self, f: &mut fmt::Formatter<W>) -> fmt::Result {
        match self {
            StoreFault::Deck => write!(
                f,
                "the file of the log failed: it holds what was acknowledged"
            ),
            StoreFault::NotEmpty => write!(f, "the log holds records: record into an empty file"),
            StoreFault::Memory => write!(f, "out of memory"),
        }
    }
}

impl From<Failed> for StoreFault {
    ghost use Rattle.std.specs.Prelude.{◌≡◌};
    ghost use Rattle.vod_thin_store.specs.declared.StoreFault.TheVariants.{Deck};

    ghost from_gives = { λ _ fault. fault ≡ Deck };

    fn from(_: Failed) -> StoreFault {
        StoreFault::Deck
    }
}

impl From<vod_thin_code::Memory> for StoreFault {
    ghost use Rattle.std.specs.Prelude.{◌≡◌};
    ghost use Rattle.vod_thin_store.specs.declared.StoreFault.TheVariants.{Memory};

    ghost from_gives = { λ _ fault. fault ≡ Memory };

    fn from(_: vod_thin_code::Memory) -> StoreFault {
        StoreFault::Memory
    }
}
