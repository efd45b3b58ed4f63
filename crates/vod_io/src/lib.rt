//! Where bytes come from and where they go: sources and sinks, in memory and of the system.
#![tactic(auto)]

mod in_memory;
mod reading;
mod system;
mod writing;

pub use in_memory::{MemSink, MemSource};
pub use reading::{FillFault, Filled, Source, fill};
use std::fmt;
pub use system::{FileSource, PrintErr, StdSink, StdSource};
pub use writing::{Sink, put_all};

/// The greatest time that a vector may have, in ticks.
pub const MAX_TIME: u64 = 9_223_372_036_854_775_807;

/// The refusal of a source or a sink, which counted a fault.
#[derive(Clone, Copy, Debug, PartialEq, Eq)]
pub struct Failed;

impl fmt::Display for Failed {
    fn fmt<W: fmt::Write>(&self, f: &mut fmt::Formatter<W>) -> fmt::Result {
        write!(f, "the file or stream failed")
    }
}

/// The refusal for want of memory.
#[derive(Clone, Copy, Debug, PartialEq, Eq)]
pub struct Memory;

impl fmt::Display for Memory {
    fn fmt<W: fmt::Write>(&self, f: &mut fmt::Formatter<W>) -> fmt::Result {
        write!(f, "out of memory")
    }
}
