//! The limits on the modules of a source, and on the instances, signals, inputs and tokens that all instances have.
#![tactic(auto)]

mod counts;
mod edges;
mod first;
mod limit;
mod weights;

pub use first::first_limit;
pub use limit::Limit;
