//! Whether instances are connected and given parameters as their modules have them, and the rule on names as a whole
//! (IEEE 1364-2005, 12.2 and 12.3).
#![tactic(auto)]

mod connection;
mod interface;
mod naming;
mod source;

pub use naming::first_name_fault;
pub use source::first_connection_fault;
