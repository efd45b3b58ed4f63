//! What an expression is by itself, found from its parts up in one pass. Its tree is made before its size is known: the parts that
//! take the size of the whole get it once, where that is known.
ghost use Rattle.std.specs.Prelude.{◌≡◌, ◌&&◌, false, IfOk};
ghost use Rattle.vod_operand.specs.Operands.{Looked as Found};
ghost use Rattle.vod_operand.specs.Operators.{look_unary, look_binary, look_conditional, like_operand, one_bit, like_both, like_left, compare, truths};
ghost use Rattle.vod_operand.specs.Found.{Sees, Saw, row_of, single_of, both_of, looked_of, pair_kind_of, pair_tree_of, triple_tree_of, single_kind_of};

use crate::tree::{
    Looked, Pair, Single, both_hold, fit_own, fit_own_pair, fit_pair, larger, pair_tree,
    single_tree, triple_tree,
};
use std::alloc::{AllocError, Global};
use vod_design::{BinaryOp, ComparisonOp, LogicalOp, ReductionOp, ShiftOp, UnaryOp};

// How the size and sign of an operator on two operands come from theirs.
#[derive(Clone, Copy)]
enum Row {
    // The larger size, signed where both are, and the operands take it.
    Whole(Pair),
    // Those of the left operand; the other is by itself.
    Left(Pair),
    // One bit; the operands take the larger size of the two.
    Compared(Pair),
    // One bit; the operands are by themselves.
    Truths(Pair),
}

fn row_of(op: vod_tree::BinaryOp) -> Row
    ensures { result ≡ row_of op }
{
    use vod_tree::BinaryOp as Tree;
    match op {
        Tree::Mul => Row::Whole(Pair::Binary(BinaryOp::Mul)),
        Tree::Add => Row::Whole(Pair::Binary(BinaryOp::Add)),
        Tree::Sub => Row::Whole(Pair::Binary(BinaryOp::Sub)),
        Tree::And => Row::Whole(Pair::Binary(BinaryOp::And)),
        Tree::Xor => Row::Whole(Pair::Binary(BinaryOp::Xor)),
        Tree::Xnor | Tree::XorNot => Row::Whole(Pair::Binary(BinaryOp::Xnor)),
        Tree::Or => Row::Whole(Pair::Binary(BinaryOp::Or)),
        Tree::ShiftLeft | Tree::ArithmeticLeft => Row::Left(Pair::Shift(ShiftOp::Left)),
        Tree::ShiftRight => Row::Left(Pair::Shift(ShiftOp::Right)),
        Tree::ArithmeticRight => Row::Left(Pair::Shift(ShiftOp::ArithmeticRight)),
        Tree::Less => Row::Compared(Pair::Comparison(ComparisonOp::Less)),
        Tree::LessEqual => Row::Compared(Pair::Comparison(ComparisonOp::LessEqual)),
        Tree::Greater => Row::Compared(Pair::Comparison(ComparisonOp::Greater)),
        Tree::GreaterEqual => Row::Compared(Pair::Comparison(ComparisonOp::GreaterEqual)),
        Tree::Equal => Row::Compared(Pair::Comparison(ComparisonOp::Equal)),
        Tree::NotEqual => Row::Compared(Pair::Comparison(ComparisonOp::NotEqual)),
        Tree::CaseEqual => Row::Compared(Pair::Comparison(ComparisonOp::CaseEqual)),
        Tree::CaseNotEqual => Row::Compared(Pair::Comparison(ComparisonOp::CaseNotEqual)),
        Tree::LogicalAnd => Row::Truths(Pair::Logical(LogicalOp::And)),
        Tree::LogicalOr => Row::Truths(Pair::Logical(LogicalOp::Or)),
    }
}

/// An operator on two operands.
pub fn binary(
    alloc: Global,
    op: vod_tree::BinaryOp,
    a: Looked,
    b: Looked,
) -> Result<Looked, AllocError>
    ensures { IfOk result (λ c. (x y : Found) → Saw a x → Saw b y → Sees c (look_binary op x y)) }
{
    match row_of(op) {
        Row::Whole(pair) => whole(alloc, pair, a, b),
        Row::Left(pair) => left(alloc, pair, a, b),
        Row::Compared(pair) => compared(alloc, pair, a, b),
        Row::Truths(pair) => truths(alloc, pair, a, b),
    }
}

// Whether both operands are signed.
fn both_signed(a: &Looked, b: &Looked) -> bool
    ensures { result ≡ (a.now.signed && b.now.signed) }
{
    both_hold(a.signed, b.signed)
}

fn whole(alloc: Global, pair: Pair, a: Looked, b: Looked) -> Result<Looked, AllocError>
    ensures { IfOk result (λ c. (x y : Found) → Saw a x → Saw b y → Sees c (like_both (pair_kind_of pair) x y)) }
{
    let width = larger(a.width, b.width);
    let signed = both_signed(&a, &b);
    paired(alloc, pair, a, b, width, signed)
}

fn left(alloc: Global, pair: Pair, a: Looked, b: Looked) -> Result<Looked, AllocError>
    ensures { IfOk result (λ c. (x y : Found) → Saw a x → Saw b y → Sees c (like_left (pair_kind_of pair) x y)) }
{
    let b = fit_own(alloc, b)?;
    let (width, signed) = (a.width, a.signed);
    paired(alloc, pair, a, b, width, signed)
}

fn compared(alloc: Global, pair: Pair, a: Looked, b: Looked) -> Result<Looked, AllocError>
    ensures { IfOk result (λ c. (x y : Found) → Saw a x → Saw b y → Sees c (compare (pair_kind_of pair) x y)) }
{
    let width = larger(a.width, b.width);
    let signed = both_signed(&a, &b);
    let (a, b) = fit_pair(alloc, a, b, width, signed)?;
    paired(alloc, pair, a, b, 1, false)
}

fn truths(alloc: Global, pair: Pair, a: Looked, b: Looked) -> Result<Looked, AllocError>
    ensures { IfOk result (λ c. (x y : Found) → Saw a x → Saw b y → Sees c (truths (pair_kind_of pair) x y)) }
{
    let (a, b) = fit_own_pair(alloc, a, b)?;
    paired(alloc, pair, a, b, 1, false)
}

// An operator on two operands, of a size and sign.
fn paired(
    alloc: Global,
    pair: Pair,
    a: Looked,
    b: Looked,
    width: u8,
    signed: bool,
) -> Result<Looked, AllocError>
    ensures { IfOk result (λ c. c ≡ looked_of 0 width signed (a.constant && b.constant) (pair_tree_of pair (both_of a.tree b.tree))) }
{
    let tree = pair_tree(alloc, pair, a.tree, b.tree)?;
    Ok(Looked {
        place: 0,
        width,
        signed,
        constant: both_hold(a.constant, b.constant),
        tree,
    })
}

fn single_of(op: vod_tree::UnaryOp) -> Single
    ensures { result ≡ single_of op }
{
    use vod_tree::UnaryOp as Tree;
    match op {
        Tree::Minus => Single::Unary(UnaryOp::Minus),
        Tree::Not => Single::Unary(UnaryOp::Not),
        Tree::LogicalNot => Single::LogicalNot,
        Tree::And => Single::Reduction(ReductionOp::And),
        Tree::Nand => Single::Reduction(ReductionOp::Nand),
        Tree::Or => Single::Reduction(ReductionOp::Or),
        Tree::Nor => Single::Reduction(ReductionOp::Nor),
        Tree::Xor => Single::Reduction(ReductionOp::Xor),
        Tree::Xnor | Tree::XorNot => Single::Reduction(ReductionOp::Xnor),
    }
}

/// An operator on one operand.
pub fn unary(alloc: Global, op: vod_tree::UnaryOp, a: Looked) -> Result<Looked, AllocError>
    ensures { IfOk result (λ c. (x : Found) → Saw a x → Sees c (look_unary op x)) }
{
    match single_of(op) {
        Single::Unary(op) => like(alloc, Single::Unary(op), a),
        Single::LogicalNot => bit(alloc, Single::LogicalNot, a),
        Single::Reduction(op) => bit(alloc, Single::Reduction(op), a),
    }
}

fn like(alloc: Global, single: Single, a: Looked) -> Result<Looked, AllocError>
    ensures { IfOk result (λ c. (x : Found) → Saw a x → Sees c (like_operand (single_kind_of single) x)) }
{
    let tree = single_tree(alloc, single, a.tree)?;
    Ok(Looked {
        place: 0,
        width: a.width,
        signed: a.signed,
        constant: a.constant,
        tree,
    })
}

fn bit(alloc: Global, single: Single, a: Looked) -> Result<Looked, AllocError>
    ensures { IfOk result (λ c. (x : Found) → Saw a x → Sees c (one_bit (single_kind_of single) x)) }
{
    let a = fit_own(alloc, a)?;
    let tree = single_tree(alloc, single, a.tree)?;
    Ok(Looked {
        place: 0,
        width: 1,
        signed: false,
        constant: a.constant,
        tree,
    })
}

/// `?:`
pub fn conditional(alloc: Global, test: Looked, a: Looked, b: Looked) -> Result<Looked, AllocError>
    ensures { IfOk result (λ c. (t x y : Found) → Saw test t → Saw a x → Saw b y → Sees c (look_conditional t x y)) }
{
    let test = fit_own(alloc, test)?;
    let width = larger(a.width, b.width);
    let signed = both_signed(&a, &b);
    tripled(alloc, test, a, b, width, signed)
}

// The same, of a size and sign.
fn tripled(
    alloc: Global,
    test: Looked,
    a: Looked,
    b: Looked,
    width: u8,
    signed: bool,
) -> Result<Looked, AllocError>
    ensures { IfOk result (λ c. c ≡ looked_of 0 width signed (test.constant && a.constant && b.constant) (triple_tree_of test.tree (both_of a.tree b.tree))) }
{
    let tree = triple_tree(alloc, test.tree, a.tree, b.tree)?;
    Ok(Looked {
        place: 0,
        width,
        signed,
        constant: both_hold(both_hold(test.constant, a.constant), b.constant),
        tree,
    })
}
