//! What modules and functions declare: lists in the order of the source, and tables that find names in them (IEEE 1364-2005,
//! clauses 4, 10 and 12).
#![tactic(auto)]

mod entry;
mod function;
mod header;
mod items;
mod lists;
mod memory;
mod names;

pub use entry::{Declaration, Entry, Kind};
pub use lists::{declarations, directions, function_declarations, listed_names, parameters, ports};
pub use memory::Memory;
pub use names::Names;
