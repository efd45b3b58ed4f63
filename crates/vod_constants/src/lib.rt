//! What has to be constant in the declarations of a module (IEEE 1364-2005, 4.3, 4.9 and 4.10): bounds of ranges and of memories, and
//! parameters with what an instance sets them to.
#![tactic(auto)]

mod bounds;
mod number;
mod parameters;

pub use bounds::{Span, Words, memory_words, vector_span};
pub use parameters::{Formed, Given, parameter};
