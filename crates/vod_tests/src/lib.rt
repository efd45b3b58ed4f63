//! Tests of what no row of a program can say: streams that fail in mid-stream, want of memory, a
//! script of the most bytes, and a function whose statements no source makes yet.
#![tactic(auto)]

#[cfg(test)]
mod called;
#[cfg(test)]
mod memory;
#[cfg(test)]
mod script;
#[cfg(test)]
mod streams;
