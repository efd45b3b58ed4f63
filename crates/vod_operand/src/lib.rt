//! Operands and operators (IEEE 1364-2005, 5.1, 5.4 and 5.5): the size and the sign of what an operator gives, its tree, which gets
//! its size once that is known, and the numbers of constant parts.
#![tactic(auto)]

mod fault;
mod number;
mod operators;
mod refit;
mod tree;

pub use fault::{Fault, fault_beside, fault_if, join, sooner};
pub use number::{literal, natural, part_fault, value};
pub use operators::{binary, conditional, unary};
pub use tree::{
    Looked, WIDE, at_place, both_hold, fault_of, fit, fit_own, fit_own_pair, tree_unless, unplaced,
    unsized_node,
};
