//! Expressions over eight signals of 32 bits and a memory of words of 32 bits.
use sqlite_items::{Boxed, Items};
use std::alloc::{AllocError, Global};
use vod_design::{BinaryOp, ComparisonOp, Named, NamedMemory, SizedExpr, SizedKind, Variable};

/// How many bits each signal and each word has.
const BITS: u8 = 32;

pub type Tree = Result<Boxed<SizedExpr>, AllocError>;

fn tree(alloc: Global, width: u8, kind: SizedKind) -> Tree {
    Boxed::new(
        alloc,
        SizedExpr {
            place: 0,
            width,
            signed: false,
            kind,
        },
    )
}

fn name(number: u32) -> Named {
    Named::Variable(Variable::Signal(number))
}

fn signal(alloc: Global, number: u32) -> Tree {
    tree(alloc, BITS, SizedKind::Name(name(number)))
}

fn select(alloc: Global, number: u32, low: u8, width: u8) -> Tree {
    tree(alloc, width, SizedKind::Select(name(number), low, width))
}

fn pair(alloc: Global, op: BinaryOp, one: u32, other: u32) -> Tree {
    let one = signal(alloc, one)?;
    let other = signal(alloc, other)?;
    tree(alloc, BITS, SizedKind::Binary(op, one, other))
}

/// `((s0 + s1) ^ (s2 & s3)) - ((s4 | s5) + (s6 ^ s7))`
pub fn sums(alloc: Global) -> Tree {
    let a = pair(alloc, BinaryOp::Add, 0, 1)?;
    let b = pair(alloc, BinaryOp::And, 2, 3)?;
    let one = tree(alloc, BITS, SizedKind::Binary(BinaryOp::Xor, a, b))?;
    let a = pair(alloc, BinaryOp::Or, 4, 5)?;
    let b = pair(alloc, BinaryOp::Xor, 6, 7)?;
    let other = tree(alloc, BITS, SizedKind::Binary(BinaryOp::Add, a, b))?;
    tree(alloc, BITS, SizedKind::Binary(BinaryOp::Sub, one, other))
}

/// `{s0[15:8], s1[7:0], s2[31:24], s3[23:16]}`
fn bytes(alloc: Global) -> Tree {
    let mut parts = Items::new(alloc);
    parts.push(select(alloc, 0, 8, 8)?.into_inner())?;
    parts.push(select(alloc, 1, 0, 8)?.into_inner())?;
    parts.push(select(alloc, 2, 24, 8)?.into_inner())?;
    parts.push(select(alloc, 3, 16, 8)?.into_inner())?;
    tree(alloc, BITS, SizedKind::Concat(parts))
}

/// `{s4[s5[4:0]], s6[30:0]}`
fn indexed(alloc: Global) -> Tree {
    let index = select(alloc, 5, 0, 5)?;
    let mut parts = Items::new(alloc);
    parts.push(tree(alloc, 1, SizedKind::Index(name(4), 0, index))?.into_inner())?;
    parts.push(select(alloc, 6, 0, 31)?.into_inner())?;
    tree(alloc, BITS, SizedKind::Concat(parts))
}

/// `{s0[15:8], s1[7:0], s2[31:24], s3[23:16]} ^ {s4[s5[4:0]], s6[30:0]}`
pub fn parts(alloc: Global) -> Tree {
    let one = bytes(alloc)?;
    let other = indexed(alloc)?;
    tree(alloc, BITS, SizedKind::Binary(BinaryOp::Xor, one, other))
}

/// `s7 == one ? taken : rest`
fn choice(alloc: Global, one: u32, taken: u32, rest: Boxed<SizedExpr>) -> Tree {
    let seventh = signal(alloc, 7)?;
    let other = signal(alloc, one)?;
    let test = tree(
        alloc,
        1,
        SizedKind::Comparison(ComparisonOp::Equal, seventh, other),
    )?;
    let taken = signal(alloc, taken)?;
    tree(alloc, BITS, SizedKind::Conditional(test, taken, rest))
}

/// `s7 == s0 ? s1 : s7 == s2 ? s3 : s7 == s4 ? s5 : s6`
pub fn three_way(alloc: Global) -> Tree {
    let rest = signal(alloc, 6)?;
    let rest = choice(alloc, 4, 5, rest)?;
    let rest = choice(alloc, 2, 3, rest)?;
    choice(alloc, 0, 1, rest)
}

/// `s7 == s0 ? s1 : s7 == s1 ? s2 : s7 == s2 ? s3 : s7 == s3 ? s4 : s7 == s5 ? s6 : s7 == s4 ? s5 : s6`
pub fn six_way(alloc: Global) -> Tree {
    let rest = signal(alloc, 6)?;
    let rest = choice(alloc, 4, 5, rest)?;
    let rest = choice(alloc, 5, 6, rest)?;
    let rest = choice(alloc, 3, 4, rest)?;
    let rest = choice(alloc, 2, 3, rest)?;
    let rest = choice(alloc, 1, 2, rest)?;
    choice(alloc, 0, 1, rest)
}

const MEMORY: NamedMemory = NamedMemory {
    number: 0,
    width: BITS,
};

/// `m[s[low+3:low]]`
fn word(alloc: Global, number: u32, low: u8) -> Tree {
    let index = select(alloc, number, low, 4)?;
    tree(alloc, BITS, SizedKind::WordIndex(MEMORY, 0, index))
}

/// `(m[s0[3:0]] + m[s1[7:4]]) ^ (m[s2[3:0]] - m[5])`
pub fn words(alloc: Global) -> Tree {
    let a = word(alloc, 0, 0)?;
    let b = word(alloc, 1, 4)?;
    let one = tree(alloc, BITS, SizedKind::Binary(BinaryOp::Add, a, b))?;
    let a = word(alloc, 2, 0)?;
    let b = tree(alloc, BITS, SizedKind::Word(MEMORY, 5))?;
    let other = tree(alloc, BITS, SizedKind::Binary(BinaryOp::Sub, a, b))?;
    tree(alloc, BITS, SizedKind::Binary(BinaryOp::Xor, one, other))
}
