//! The directives of a source, read from its tokens (IEEE 1364-2005, clause 19).
#![tactic(auto)]

mod laws;
mod meaning;
mod reading;

pub use laws::directives_are_exact;
pub use meaning::directive_of;
pub use reading::{directive, is_directive};
