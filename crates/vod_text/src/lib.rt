//! Numbers as text: decimal and hexadecimal numbers, the digits of based numbers, and shortest decimals.
#![tactic(auto)]

mod print;
mod read;

pub use print::put_decimal;
pub use read::{NumberFault, based, decimal, hexadecimal};
