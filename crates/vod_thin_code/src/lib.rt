//! The records of a log of a thin design, as bytes.
#![tactic(auto)]

mod frame;
mod law;
mod read;

pub use frame::Frame;
pub use law::{batches_are_short, frames_are_records, inputs_fit, one_batch, one_head, one_log};
pub use read::{read_head, read_vector};
use std::alloc::{AllocError, AllocFailed};
use std::fmt;

/// The refusal for want of memory.
#[derive(Clone, Copy, Debug, PartialEq, Eq)]
pub struct Memory;

impl fmt::Display for Memory {
    fn fmt<W: fmt::Write>(&self, f: &mut fmt::Formatter<W>) -> fmt::Result {
        write!(f, "out of memory")
    }
}

impl From<AllocError> for Memory {
    ghost from_gives = { λ _ _. Unit {0} };

    fn from(_error: AllocError) -> Memory {
        Memory
    }
}

impl<T: Drop> From<AllocFailed<T>> for Memory {
    ghost from_gives = { λ _ _. Unit {0} };

    fn from(_failed: AllocFailed<T>) -> Memory {
        Memory
    }
}
