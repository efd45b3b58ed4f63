//! The script of a thin design: lines of timed input changes.
#![tactic(auto)]

mod held;
mod history;
mod inputs;
mod line;
mod pieces;
mod script;

pub use history::{AddFault, History};
pub use script::{one_reading, one_refusal, read_script};
use std::alloc::{AllocError, AllocFailed};
use std::fmt;

/// Why a script isn't read.
#[derive(Clone, Copy, PartialEq, Eq)]
pub enum ScriptFault {
    /// The first line that breaks a rule, from 1; 0 where the script has more than 1,048,576 bytes.
    Refused { line: u64 },
    /// There was no memory.
    Memory,
}

impl fmt::Display for ScriptFault {
    fn fmt<W: fmt::Write>(&self, f: &mut fmt::Formatter<W>) -> fmt::Result {
        match self {
            ScriptFault::Refused { line: 0 } => write!(
                f,
                "the script is longer than 1,048,576 bytes"
            ),
            ScriptFault::Refused { line } => write!(
                f,
                "line {line} isn't that of a vector that may stand there"
            ),
            ScriptFault::Memory => write!(f, "out of memory"),
        }
    }
}

impl From<AllocError> for ScriptFault {
    ghost use Rattle.std.specs.Prelude.{◌≡◌};
    ghost use Rattle.vod_thin_script.specs.declared.ScriptFault.TheVariants.{Memory};

    ghost from_gives = { λ _ fault. fault ≡ Memory };

    fn from(_: AllocError) -> ScriptFault {
        ScriptFault::Memory
    }
}

impl<T: Drop> From<AllocFailed<T>> for ScriptFault {
    ghost use Rattle.std.specs.Prelude.{◌≡◌};
    ghost use Rattle.vod_thin_script.specs.declared.ScriptFault.TheVariants.{Memory};

    ghost from_gives = { λ _ fault. fault ≡ Memory };

    fn from(_: AllocFailed<T>) -> ScriptFault {
        ScriptFault::Memory
    }
}
