//! Expressions read token by token (IEEE 1364-2005, clause 5): a pushdown machine, whose state is what was read last and what is
//! begun around it.
#![tactic(auto)]

mod machine;
mod number;
mod word;

pub use machine::{Frame, Head, Reader};
pub use word::Mark;
