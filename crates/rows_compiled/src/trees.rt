//! Expressions over signals of four bits.
use sqlite_items::{Boxed, Items};
use std::alloc::{AllocError, Global};
use vod_design::{
    BinaryOp, ComparisonOp, GateOp, LogicalOp, Named, NamedMemory, ReductionOp, ShiftOp, SizedExpr,
    SizedKind, UnaryOp, Variable,
};

/// How many bits each signal has.
const BITS: u8 = 4;

type Tree = Result<Boxed<SizedExpr>, AllocError>;

fn tree(alloc: Global, width: u8, kind: SizedKind) -> Tree {
    Boxed::new(
        alloc,
        SizedExpr {
            place: 0,
            width,
            signed: false,
            kind,
        },
    )
}

fn name(number: u32) -> Named {
    Named::Variable(Variable::Signal(number))
}

fn signal(alloc: Global, number: u32) -> Tree {
    tree(alloc, BITS, SizedKind::Name(name(number)))
}

/// A bit of a signal.
fn bit(alloc: Global, number: u32, low: u8) -> Tree {
    tree(alloc, 1, SizedKind::Select(name(number), low, 1))
}

fn pair(alloc: Global, op: BinaryOp, one: u32, other: u32) -> Tree {
    let one = signal(alloc, one)?;
    let other = signal(alloc, other)?;
    tree(alloc, BITS, SizedKind::Binary(op, one, other))
}

/// `(s0 + s1) ^ (s2 & s3)`
fn sums(alloc: Global) -> Tree {
    let one = pair(alloc, BinaryOp::Add, 0, 1)?;
    let other = pair(alloc, BinaryOp::And, 2, 3)?;
    tree(alloc, BITS, SizedKind::Binary(BinaryOp::Xor, one, other))
}

/// `-s0 - ~s1`
fn negated(alloc: Global) -> Tree {
    let one = signal(alloc, 0)?;
    let one = tree(alloc, BITS, SizedKind::Unary(UnaryOp::Minus, one))?;
    let other = signal(alloc, 1)?;
    let other = tree(alloc, BITS, SizedKind::Unary(UnaryOp::Not, other))?;
    tree(alloc, BITS, SizedKind::Binary(BinaryOp::Sub, one, other))
}

/// `s0[0] ? s1 : s0[1] ? s2 : s3`
fn choice(alloc: Global) -> Tree {
    let test = bit(alloc, 0, 1)?;
    let one = signal(alloc, 2)?;
    let other = signal(alloc, 3)?;
    let rest = tree(alloc, BITS, SizedKind::Conditional(test, one, other))?;
    let test = bit(alloc, 0, 0)?;
    let one = signal(alloc, 1)?;
    tree(alloc, BITS, SizedKind::Conditional(test, one, rest))
}

/// `{s0[0], s1, {2{s2[3]}}}`
fn joined(alloc: Global) -> Tree {
    let mut parts = Items::new(alloc);
    parts.push(bit(alloc, 0, 0)?.into_inner())?;
    parts.push(signal(alloc, 1)?.into_inner())?;
    let twice = bit(alloc, 2, 3)?;
    parts.push(tree(alloc, 2, SizedKind::Replicate(2, twice))?.into_inner())?;
    tree(alloc, 7, SizedKind::Concat(parts))
}

/// `!(s0 < s1) && (^s2 || s3 == s0)`
fn tests(alloc: Global) -> Tree {
    let one = signal(alloc, 0)?;
    let other = signal(alloc, 1)?;
    let less = tree(
        alloc,
        1,
        SizedKind::Comparison(ComparisonOp::Less, one, other),
    )?;
    let not = tree(alloc, 1, SizedKind::LogicalNot(less))?;
    let odd = signal(alloc, 2)?;
    let odd = tree(alloc, 1, SizedKind::Reduction(ReductionOp::Xor, odd))?;
    let one = signal(alloc, 3)?;
    let other = signal(alloc, 0)?;
    let same = tree(
        alloc,
        1,
        SizedKind::Comparison(ComparisonOp::Equal, one, other),
    )?;
    let either = tree(alloc, 1, SizedKind::Logical(LogicalOp::Or, odd, same))?;
    tree(alloc, 1, SizedKind::Logical(LogicalOp::And, not, either))
}

/// `{s0 << s1, s0[s2[1:0]]}`
fn indexed(alloc: Global) -> Tree {
    let value = signal(alloc, 0)?;
    let amount = signal(alloc, 1)?;
    let mut parts = Items::new(alloc);
    parts.push(tree(alloc, BITS, SizedKind::Shift(ShiftOp::Left, value, amount))?.into_inner())?;
    let index = tree(alloc, 2, SizedKind::Select(name(2), 0, 2))?;
    parts.push(tree(alloc, 1, SizedKind::Index(name(0), 0, index))?.into_inner())?;
    tree(alloc, 5, SizedKind::Concat(parts))
}

/// `{m[s0[1:0]], m[1]}` of a memory with these signals' values
fn words(alloc: Global) -> Tree {
    let memory = NamedMemory {
        number: 0,
        width: BITS,
    };
    let index = tree(alloc, 2, SizedKind::Select(name(0), 0, 2))?;
    let mut parts = Items::new(alloc);
    parts.push(tree(alloc, BITS, SizedKind::WordIndex(memory, 0, index))?.into_inner())?;
    parts.push(tree(alloc, BITS, SizedKind::Word(memory, 1))?.into_inner())?;
    tree(alloc, 8, SizedKind::Concat(parts))
}

/// `nand (s0[0], s1[0], s2[0])`
fn gate(alloc: Global) -> Tree {
    let mut inputs = Items::new(alloc);
    for number in 0..3u32 {
        inputs.push(bit(alloc, number, 0)?.into_inner())?;
    }
    tree(alloc, 1, SizedKind::Gate(GateOp::Nand, inputs))
}

/// What a row's first word names.
#[derive(Clone, Copy)]
pub enum Shape {
    Sums,
    Negated,
    Choice,
    Joined,
    Tests,
    Indexed,
    Words,
    Gate,
}

/// The expression of a name.
pub fn expr(alloc: Global, shape: Shape) -> Tree {
    match shape {
        Shape::Sums => sums(alloc),
        Shape::Negated => negated(alloc),
        Shape::Choice => choice(alloc),
        Shape::Joined => joined(alloc),
        Shape::Tests => tests(alloc),
        Shape::Indexed => indexed(alloc),
        Shape::Words => words(alloc),
        Shape::Gate => gate(alloc),
    }
}
