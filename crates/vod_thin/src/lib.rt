//! The thin form of a design: which sources are of it, the design of each, and where others are refused.
#![tactic(auto)]

mod fault;
mod judge;
mod machine;
mod names;
mod netlist;
mod read;
mod text;

pub use fault::ThinFault;
pub use read::{few_inputs, one_design, one_place, plain_names, read_thin};

// Lets go of a part. Its drop then stands here alone, and not in each function that gives a part up.
pub(crate) fn let_go<T: Drop>(_value: T) {}
