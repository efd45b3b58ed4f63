//! Why a source has no sentence.
use std::alloc::{AllocError, AllocFailed};
use std::fmt;

/// Why a source has no sentence.
#[derive(Clone, Copy, Debug, PartialEq, Eq)]
pub enum SyntaxFault {
    /// It isn't of the thin form: the least of the places that make it so, in bytes.
    At(u32),
    /// Memory ran out.
    Memory,
}

impl From<AllocError> for SyntaxFault {
    ghost use Rattle.std.specs.Prelude.{◌≡◌};
    ghost use Rattle.vod_thin_syntax.specs.declared.fault.SyntaxFault.TheVariants.{Memory};

    ghost from_gives = { λ _ fault. fault ≡ Memory };

    fn from(_error: AllocError) -> SyntaxFault {
        SyntaxFault::Memory
    }
}

impl<T: Drop> From<AllocFailed<T>> for SyntaxFault {
    ghost use Rattle.std.specs.Prelude.{◌≡◌};
    ghost use Rattle.vod_thin_syntax.specs.declared.fault.SyntaxFault.TheVariants.{Memory};

    ghost from_gives = { λ _ fault. fault ≡ Memory };

    fn from(_failed: AllocFailed<T>) -> SyntaxFault {
        SyntaxFault::Memory
    }
}

impl fmt::Display for SyntaxFault {
    fn fmt<W: fmt::Write>(&self, f: &mut fmt::Formatter<W>) -> fmt::Result {
        match self {
            SyntaxFault::At(place) => write!(
                f,
                "the source isn't of the thin form: byte {}",
                place
            ),
            SyntaxFault::Memory => f.write_str("there was no memory"),
        }
    }
}

impl std::error::Error for SyntaxFault {}
