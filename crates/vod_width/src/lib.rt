//! Sizes, signs and constants (IEEE 1364-2005, 5.4 and 5.5): an expression of a source becomes one in which each part has the size
//! and the sign at which it is evaluated.
#![tactic(auto)]

mod decls;
mod expr;
mod left;
mod limit;
mod number;
mod parts;
mod select;
mod sizing;
pub mod types;

pub use decls::{Callee, Declared, Decls, Params, Sort, Vector, WordArray};
pub use left::{Parts, size_left};
pub use sizing::{constant, first_is_least, own, size, size_at};
pub use types::WidthFault;
