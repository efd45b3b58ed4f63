//! The gates and instances of a module, read from the tokens of a source (IEEE 1364-2005, clauses 7 and 12).
#![tactic(auto)]

mod gates;
mod hierarchy;
mod laws;

pub use gates::{gate, is_gate};
pub use hierarchy::instances;
pub use laws::{gates_are_exact, instances_are_exact};
