//! What is stored of signals and memory words, bit by bit in tables, with the drivers that changes wake and the blocks that edges
//! start (IEEE 1364-2005, 11.3, 9.7.2).
#![tactic(auto)]

mod bits;
mod brought;
mod cells;
mod first;
mod flags;
mod laws;
mod listeners;
mod reached;
mod tables;
mod words;

pub use crate::cells::Cells;
pub use crate::laws::writes_are_events;
