//! The commands of vod, and the one call that the program makes.
#![tactic(auto)]

mod command;
mod dump;
mod faults;
mod files;
mod phase;
mod record;
mod status;
mod top;
mod window;

pub use files::run;
pub use status::{Fault, Part, Status, report};
pub use top::vod;
