//! Whether modules and functions declare each of their names once, and give their ports directions where they have to
//! (IEEE 1364-2005, 10.4 and 12.3).
#![tactic(auto)]

mod again;
mod function;
mod ports;
mod source;

pub use again::is_repeated;
pub use source::{first_declaration_fault, names_are_declared_once};
