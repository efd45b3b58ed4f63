//! The steps of a flat expression.
ghost use Rattle.std.specs.Prelude.{◌≡◌, ◌∷◌, reverse, IfOk};

use std::alloc::AllocError;
use vod_bits::Bits;
use vod_design::{
    BinaryOp, ComparisonOp, GateOp, LogicalOp, NamedMemory, ReductionOp, ShiftOp, UnaryOp,
};

/// Where bits come from: a signal by its number, a cell by its place, a constant, or nowhere.
#[derive(Clone, Copy)]
pub enum Source {
    Signal(u32),
    Cell(usize),
    Constant(Bits),
    Nothing,
}

/// An operand: where its bits come from, and the size and sign at which they are taken (IEEE 1364-2005, 5.4).
#[derive(Clone, Copy)]
pub struct Input {
    pub source: Source,
    pub width: u8,
    pub signed: bool,
}

/// What a step puts into its cell, or which steps behind it are left out.
#[derive(Clone, Copy)]
pub enum Op {
    /// The operand as it is.
    Copy(Input),
    /// So many bits from a place up (5.2.1).
    Select(Source, u8, u8),
    /// A bit by an index, given the least index (5.2.1).
    Index(Source, u16, Input),
    /// A memory word at a place (5.2.2).
    Word(NamedMemory, u16),
    /// A memory word by an index, given the least index (5.2.2).
    WordIndex(NamedMemory, u16, Input),
    Unary(UnaryOp, Input),
    Binary(BinaryOp, Input, Input),
    Comparison(ComparisonOp, Input, Input),
    LogicalNot(Input),
    Logical(LogicalOp, Input, Input),
    Reduction(ReductionOp, Input),
    Shift(ShiftOp, Input, Input),
    /// The operand behind what the cell holds (5.1.14).
    Join(Input),
    /// So many times the operand (5.1.14).
    Replicate(u8, Input),
    /// What a gate begins with (7.2, 7.3).
    GateStart(GateOp),
    /// What a gate makes of what the cell holds and one input more.
    GateInput(GateOp, Input),
    /// What a gate makes of all its inputs together, which the cell holds.
    GateEnd(GateOp),
    /// Where the operand is false, so many steps are left out (5.1.13).
    Test(Input, usize),
    /// The first branch of a conditional, given its test: where that is true it is the value, and so many steps are left out; else
    /// it goes into the cell behind.
    First(Input, Input, usize),
    /// The second branch of a conditional, given its test, with the first one in the cell behind where the test has no truth.
    Second(Input, Input),
}

/// A step: the cell that it fills, the size and sign of the operator, and what it does.
#[derive(Clone, Copy)]
pub struct Step {
    pub to: usize,
    pub width: u8,
    pub signed: bool,
    pub op: Op,
}

// Puts a step before those that there are.
#[tactic(auto, using(crate::proofs::Emit::reverse_push))]
pub fn push(steps: &mut Vec<Step>, step: Step) -> Result<(), AllocError>
    ensures { IfOk result (λ _. reverse steps.new.items ≡ step ∷ reverse steps.old.items) }
{
    // The proof of the call finds only types that are named in this function.
    let _copy = Op::Copy(Input {
        source: Source::Nothing,
        width: 1,
        signed: false,
    });
    steps.push(step)?;
    Ok(())
}
