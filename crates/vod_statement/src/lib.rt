//! The left sides and statements of a source, read from its tokens (IEEE 1364-2005, clauses 6 and 9).
#![tactic(auto)]

mod context;
mod label;
mod laws;
mod sides;
mod statements;

pub use context::Context;
pub use label::block_name;
pub use laws::{block_names_are_exact, left_sides_are_exact, statements_are_exact};
pub use sides::left_side;
pub use statements::statement;
