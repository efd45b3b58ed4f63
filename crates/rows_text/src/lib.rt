//! The text of rows, which programs that try calls one row at a time read and print.
#![tactic(auto)]

mod escape;
mod page;

pub use escape::{number_at, unescaped};
pub use page::Page;
