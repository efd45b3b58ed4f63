//! The design of the thin form, and the vectors that drive it.
#![tactic(auto)]

mod thin;

pub use thin::{
    Bit, Block, Class, Design, Driver, Expr, Initial, Input, Move, Moves, Name, Parts, Signal,
    Vector, expr_by_operands, value_hangs_on_reads,
};
