//! Designs in which nothing is driven, for programs of rows that ask for designs.
#![tactic(auto)]

mod idle;

pub use idle::design;
