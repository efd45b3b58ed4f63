//! The statements of an `initial`, read from the tokens of a source (IEEE 1364-2005, 9.6, 9.9.1).
#![tactic(auto)]

mod laws;
mod loops;
mod statements;

pub use laws::initial_statements_are_exact;
pub use statements::initial_statement;
