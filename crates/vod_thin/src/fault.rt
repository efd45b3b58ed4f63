//! Why a source has no design.
use std::alloc::{AllocError, AllocFailed};
use std::fmt;
use vod_thin_syntax::SyntaxFault;

/// Why a source has no design.
#[derive(Clone, Copy, Debug, PartialEq, Eq)]
pub enum ThinFault {
    /// It isn't of the thin form: the least of the places that make it so, in bytes.
    At(u32),
    /// Memory ran out.
    Memory,
}

impl From<SyntaxFault> for ThinFault {
    ghost use Rattle.std.specs.Prelude.{◌≡◌};
    ghost use Rattle.vod_thin.specs.Faults.{fault_of};

    ghost from_gives = { λ fault made. made ≡ fault_of fault };

    fn from(fault: SyntaxFault) -> ThinFault {
        match fault {
            SyntaxFault::At(place) => ThinFault::At(place),
            SyntaxFault::Memory => ThinFault::Memory,
        }
    }
}

impl From<AllocError> for ThinFault {
    ghost use Rattle.std.specs.Prelude.{◌≡◌};
    ghost use Rattle.vod_thin.specs.declared.fault.ThinFault.TheVariants.{Memory};

    ghost from_gives = { λ _ fault. fault ≡ Memory };

    fn from(_error: AllocError) -> ThinFault {
        ThinFault::Memory
    }
}

impl<T: Drop> From<AllocFailed<T>> for ThinFault {
    ghost use Rattle.std.specs.Prelude.{◌≡◌};
    ghost use Rattle.vod_thin.specs.declared.fault.ThinFault.TheVariants.{Memory};

    ghost from_gives = { λ _ fault. fault ≡ Memory };

    fn from(_failed: AllocFailed<T>) -> ThinFault {
        ThinFault::Memory
    }
}

impl fmt::Display for ThinFault {
    fn fmt<W: fmt::Write>(&self, f: &mut fmt::Formatter<W>) -> fmt::Result {
        match self {
            ThinFault::At(place) => write!(f, "the source isn't of the thin form: byte {}", place),
            ThinFault::Memory => f.write_str("there was no memory"),
        }
    }
}

impl std::error::Error for ThinFault {}
