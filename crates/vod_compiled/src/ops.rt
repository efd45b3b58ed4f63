//! What steps do, made from its parts.
ghost use Rattle.std.specs.Prelude.{◌≡◌};

use crate::step::{Input, Op, Source};
use vod_design::{
    BinaryOp, ComparisonOp, GateOp, LogicalOp, NamedMemory, ReductionOp, ShiftOp, UnaryOp,
};

pub fn select(from: Source, low: u8, count: u8) -> Op
    ensures { result ≡ Op.Select from low count }
{
    Op::Select(from, low, count)
}

pub fn index(from: Source, least: u16, index: Input) -> Op
    ensures { result ≡ Op.Index from least index }
{
    Op::Index(from, least, index)
}

pub fn word(memory: NamedMemory, place: u16) -> Op
    ensures { result ≡ Op.Word memory place }
{
    Op::Word(memory, place)
}

pub fn word_index(memory: NamedMemory, least: u16, index: Input) -> Op
    ensures { result ≡ Op.WordIndex memory least index }
{
    Op::WordIndex(memory, least, index)
}

pub fn unary(op: UnaryOp, a: Input) -> Op
    ensures { result ≡ Op.Unary op a }
{
    Op::Unary(op, a)
}

pub fn binary(op: BinaryOp, a: Input, b: Input) -> Op
    ensures { result ≡ Op.Binary op a b }
{
    Op::Binary(op, a, b)
}

pub fn comparison(op: ComparisonOp, a: Input, b: Input) -> Op
    ensures { result ≡ Op.Comparison op a b }
{
    Op::Comparison(op, a, b)
}

pub fn logical(op: LogicalOp, a: Input, b: Input) -> Op
    ensures { result ≡ Op.Logical op a b }
{
    Op::Logical(op, a, b)
}

pub fn reduction(op: ReductionOp, a: Input) -> Op
    ensures { result ≡ Op.Reduction op a }
{
    Op::Reduction(op, a)
}

pub fn shift(op: ShiftOp, a: Input, amount: Input) -> Op
    ensures { result ≡ Op.Shift op a amount }
{
    Op::Shift(op, a, amount)
}

pub fn replicate(count: u8, a: Input) -> Op
    ensures { result ≡ Op.Replicate count a }
{
    Op::Replicate(count, a)
}

pub fn gate_start(gate: GateOp) -> Op
    ensures { result ≡ Op.GateStart gate }
{
    Op::GateStart(gate)
}

pub fn gate_input(gate: GateOp, input: Input) -> Op
    ensures { result ≡ Op.GateInput gate input }
{
    Op::GateInput(gate, input)
}

pub fn gate_end(gate: GateOp) -> Op
    ensures { result ≡ Op.GateEnd gate }
{
    Op::GateEnd(gate)
}

pub fn test_op(test: Input, behind: usize) -> Op
    ensures { result ≡ Op.Test test behind }
{
    Op::Test(test, behind)
}

pub fn first_op(test: Input, a: Input, behind: usize) -> Op
    ensures { result ≡ Op.First test a behind }
{
    Op::First(test, a, behind)
}

pub fn second_op(test: Input, b: Input) -> Op
    ensures { result ≡ Op.Second test b }
{
    Op::Second(test, b)
}
