//! Value change dumps (IEEE 1364-2005, 18): the text of values, and the dump of a run, written as the run goes on.
#![tactic(auto)]

mod header;
mod law;
mod lines;
mod scopes;
mod value;
mod writer;
mod written;

pub use law::window_is_cut;
use std::alloc::AllocError;
use std::fmt;
pub use value::value_line;
pub use writer::Writer;

/// The refusal for want of memory.
#[derive(Clone, Copy, PartialEq, Eq)]
pub struct Memory;

impl fmt::Display for Memory {
    fn fmt<W: fmt::Write>(&self, f: &mut fmt::Formatter<W>) -> fmt::Result {
        f.write_str("there was no memory")
    }
}

impl From<AllocError> for Memory {
    ghost from_gives = { λ _ _. Unit {0} };

    fn from(_error: AllocError) -> Memory {
        Memory
    }
}
