//! A log of records on a deck, of which a crash at any moment leaves whole ones.
#![tactic(auto)]

mod header;
mod log;
mod payloads;
mod reading;
mod tail;

pub use header::{Counts, Header, Kind, read_header};
pub use log::{Log, LogFault, Record};
pub use payloads::{Bytes, payload};
pub use tail::{AppendFault, Tail};
