//! Trees that are made before their sizes are known, and faults beside them.
ghost use Rattle.std.specs.Prelude.{◌≡◌, ◌&&◌, min, false, IfOk};
ghost use Rattle.vod_operand.specs.Operands.{Looked as Found, node, own};
ghost use Rattle.vod_operand.specs.Operators.{larger};
ghost use Rattle.vod_design.specs.declared.sized.SizedKind.TheVariants as kind;
ghost use Rattle.vod_operand.specs.Found.{both_of, beside_of, standing_tree, looked_of, at_place_of, pair_kind_of, pair_tree_of, single_kind_of, single_tree_of, triple_tree_of, FitsTree, fault_of, tree_unless, SeesAs, Sees, Refits, IsNarrow};

use crate::fault::{Fault, sooner};
use crate::refit::fit_tree;
use sqlite_items::Boxed;
use std::alloc::{AllocError, Global};
use vod_bits::WIDTH;
use vod_design::{
    BinaryOp, ComparisonOp, LogicalOp, ReductionOp, ShiftOp, SizedExpr, SizedKind, UnaryOp,
};
use vod_tree::let_go;

/// A width past `WIDTH`, however large.
pub const WIDE: u8 = 65;

/// What an expression is: the place of its first token, its size, where a width past `WIDTH` counts as `WIDE`, its sign, and whether
/// it is constant. There is a tree where nothing in it is at fault, and else the first fault.
#[derive(Drop)]
pub struct Looked {
    pub place: u32,
    pub width: u8,
    pub signed: bool,
    pub constant: bool,
    pub tree: Result<SizedExpr, Fault>,
}

// An operator on two operands.
#[derive(Clone, Copy)]
pub(crate) enum Pair {
    Binary(BinaryOp),
    Comparison(ComparisonOp),
    Logical(LogicalOp),
    Shift(ShiftOp),
}

// An operator on one operand.
#[derive(Clone, Copy)]
pub(crate) enum Single {
    Unary(UnaryOp),
    LogicalNot,
    Reduction(ReductionOp),
}

/// An expression of a kind, whose size and place aren't known yet.
pub fn unsized_node(kind: SizedKind) -> SizedExpr
    ensures { result ≡ node 0 false kind }
{
    SizedExpr {
        place: 0,
        width: 0,
        signed: false,
        kind,
    }
}

/// An expression of a size and sign, with no place as yet.
pub fn unplaced(width: u8, signed: bool, constant: bool, tree: Result<SizedExpr, Fault>) -> Looked
    ensures { result ≡ looked_of 0 width signed constant tree }
{
    Looked {
        place: 0,
        width,
        signed,
        constant,
        tree,
    }
}

// The two trees, or the sooner fault.
fn both(
    a: Result<SizedExpr, Fault>,
    b: Result<SizedExpr, Fault>,
) -> Result<(SizedExpr, SizedExpr), Fault>
    ensures { result ≡ both_of a b }
{
    match a {
        Ok(a) => match b {
            Ok(b) => Ok((a, b)),
            Err(f) => {
                let_go(a);
                Err(f)
            }
        },
        Err(f) => match b {
            Ok(b) => {
                let_go(b);
                Err(f)
            }
            Err(g) => Err(sooner(f, g)),
        },
    }
}

// A tree, unless there is a fault beside it.
fn beside(tree: Result<SizedExpr, Fault>, other: Result<(), Fault>) -> Result<SizedExpr, Fault>
    ensures { result ≡ beside_of tree other }
{
    match other {
        Ok(()) => tree,
        Err(f) => match tree {
            Ok(tree) => {
                let_go(tree);
                Err(f)
            }
            Err(g) => Err(sooner(g, f)),
        },
    }
}

// A tree at its place.
fn standing_tree(place: u32, tree: Result<SizedExpr, Fault>) -> Result<SizedExpr, Fault>
    ensures { result ≡ standing_tree place tree }
{
    match tree {
        Ok(e) => Ok(SizedExpr {
            place,
            width: e.width,
            signed: e.signed,
            kind: e.kind,
        }),
        Err(f) => Err(f),
    }
}

/// An expression at its place. One that is too wide is at fault there.
pub fn at_place(place: u32, x: Looked) -> Looked
    ensures { result ≡ at_place_of place x }
{
    let wide = if x.width > WIDTH {
        Err(Fault::Width(place))
    } else {
        Ok(())
    };
    Looked {
        place,
        width: x.width,
        signed: x.signed,
        constant: x.constant,
        tree: beside(standing_tree(place, x.tree), wide),
    }
}

// An operator of two trees.
fn pair_kind(pair: Pair, a: Boxed<SizedExpr>, b: Boxed<SizedExpr>) -> SizedKind
    ensures { result ≡ pair_kind_of pair a b }
{
    match pair {
        Pair::Binary(op) => SizedKind::Binary(op, a, b),
        Pair::Comparison(op) => SizedKind::Comparison(op, a, b),
        Pair::Logical(op) => SizedKind::Logical(op, a, b),
        Pair::Shift(op) => SizedKind::Shift(op, a, b),
    }
}

// Two trees in boxes of their own.
fn boxed(
    alloc: Global,
    a: SizedExpr,
    b: SizedExpr,
) -> Result<(Boxed<SizedExpr>, Boxed<SizedExpr>), AllocError>
    ensures { IfOk result (λ p. (p.0 ≡ a) × (p.1 ≡ b)) }
{
    let a = match Boxed::new(alloc, a) {
        Ok(a) => a,
        Err(e) => {
            let_go(b);
            return Err(e);
        }
    };
    match Boxed::new(alloc, b) {
        Ok(b) => Ok((a, b)),
        Err(e) => {
            let_go(a);
            Err(e)
        }
    }
}

// The tree of an operator on two operands.
pub(crate) fn pair_tree(
    alloc: Global,
    pair: Pair,
    a: Result<SizedExpr, Fault>,
    b: Result<SizedExpr, Fault>,
) -> Result<Result<SizedExpr, Fault>, AllocError>
    ensures { IfOk result (λ r. r ≡ pair_tree_of pair (both_of a b)) }
{
    match both(a, b) {
        Ok((a, b)) => {
            let (a, b) = boxed(alloc, a, b)?;
            Ok(Ok(unsized_node(pair_kind(pair, a, b))))
        }
        Err(f) => Ok(Err(f)),
    }
}

// An operator of a tree.
fn single_kind(single: Single, a: Boxed<SizedExpr>) -> SizedKind
    ensures { result ≡ single_kind_of single a }
{
    match single {
        Single::Unary(op) => SizedKind::Unary(op, a),
        Single::LogicalNot => SizedKind::LogicalNot(a),
        Single::Reduction(op) => SizedKind::Reduction(op, a),
    }
}

// The tree of an operator on one operand.
pub(crate) fn single_tree(
    alloc: Global,
    single: Single,
    a: Result<SizedExpr, Fault>,
) -> Result<Result<SizedExpr, Fault>, AllocError>
    ensures { IfOk result (λ r. r ≡ single_tree_of single a) }
{
    match a {
        Ok(a) => {
            let a = Boxed::new(alloc, a)?;
            Ok(Ok(unsized_node(single_kind(single, a))))
        }
        Err(f) => Ok(Err(f)),
    }
}

// The tree of `?:` of three trees.
fn choice(
    alloc: Global,
    test: SizedExpr,
    a: SizedExpr,
    b: SizedExpr,
) -> Result<SizedExpr, AllocError>
    ensures { IfOk result (λ r. r ≡ node 0 false (kind.Conditional test a b)) }
{
    let (a, b) = match boxed(alloc, a, b) {
        Ok(branches) => branches,
        Err(e) => {
            let_go(test);
            return Err(e);
        }
    };
    match Boxed::new(alloc, test) {
        Ok(test) => Ok(unsized_node(SizedKind::Conditional(test, a, b))),
        Err(e) => {
            let_go(a);
            let_go(b);
            Err(e)
        }
    }
}

// The tree of `?:`.
pub(crate) fn triple_tree(
    alloc: Global,
    test: Result<SizedExpr, Fault>,
    a: Result<SizedExpr, Fault>,
    b: Result<SizedExpr, Fault>,
) -> Result<Result<SizedExpr, Fault>, AllocError>
    ensures { IfOk result (λ r. r ≡ triple_tree_of test (both_of a b)) }
{
    match both(a, b) {
        Ok((a, b)) => match test {
            Ok(test) => {
                let tree = choice(alloc, test, a, b)?;
                Ok(Ok(tree))
            }
            Err(f) => {
                let_go((a, b));
                Ok(Err(f))
            }
        },
        Err(g) => match test {
            Ok(test) => {
                let_go(test);
                Ok(Err(g))
            }
            Err(f) => Ok(Err(sooner(f, g))),
        },
    }
}

// The tree at a size and sign, where there is one.
fn fit_result(
    alloc: Global,
    tree: Result<SizedExpr, Fault>,
    width: u8,
    signed: bool,
) -> Result<Result<SizedExpr, Fault>, AllocError>
    ensures { IfOk result (λ r. FitsTree width signed tree r) }
{
    match tree {
        Ok(e) => {
            let e = fit_tree(alloc, e, width, signed)?;
            Ok(Ok(e))
        }
        Err(f) => Ok(Err(f)),
    }
}

/// What was looked at, with its tree at a size and sign.
pub fn fit(alloc: Global, x: Looked, width: u8, signed: bool) -> Result<Looked, AllocError>
    ensures { IfOk result (λ c. (y : Found) → Sees x y → Refits y → SeesAs c y (y.sized width signed)) }
{
    let tree = fit_result(alloc, x.tree, width, signed)?;
    Ok(Looked {
        place: x.place,
        width: x.width,
        signed: x.signed,
        constant: x.constant,
        tree,
    })
}

/// The same at its own size and sign.
pub fn fit_own(alloc: Global, x: Looked) -> Result<Looked, AllocError>
    ensures { IfOk result (λ c. (y : Found) → Sees x y → Refits y → IsNarrow y → SeesAs c y (own y)) }
{
    let (width, signed) = (x.width, x.signed);
    fit(alloc, x, width, signed)
}

/// Two of them, both at one size and sign.
pub(crate) fn fit_pair(
    alloc: Global,
    a: Looked,
    b: Looked,
    width: u8,
    signed: bool,
) -> Result<(Looked, Looked), AllocError>
    ensures { IfOk result (λ p. ((y : Found) → Sees a y → Refits y → SeesAs p.0 y (y.sized width signed)) × ((y : Found) → Sees b y → Refits y → SeesAs p.1 y (y.sized width signed))) }
{
    match fit(alloc, a, width, signed) {
        Ok(a) => match fit(alloc, b, width, signed) {
            Ok(b) => Ok((a, b)),
            Err(e) => {
                let_go(a);
                Err(e)
            }
        },
        Err(e) => {
            let_go(b);
            Err(e)
        }
    }
}

/// Two of them, each at its own size and sign.
pub fn fit_own_pair(alloc: Global, a: Looked, b: Looked) -> Result<(Looked, Looked), AllocError>
    ensures { IfOk result (λ p. ((y : Found) → Sees a y → Refits y → IsNarrow y → SeesAs p.0 y (own y)) × ((y : Found) → Sees b y → Refits y → IsNarrow y → SeesAs p.1 y (own y))) }
{
    match fit_own(alloc, a) {
        Ok(a) => match fit_own(alloc, b) {
            Ok(b) => Ok((a, b)),
            Err(e) => {
                let_go(a);
                Err(e)
            }
        },
        Err(e) => {
            let_go(b);
            Err(e)
        }
    }
}

// The larger of two widths, and none where one of them is none.
pub(crate) fn larger(a: u8, b: u8) -> u8
    ensures { result ≡ larger a b }
{
    if a.min(b) > 0 { a.max(b) } else { 0 }
}

/// Whether both hold.
pub fn both_hold(a: bool, b: bool) -> bool
    ensures { result ≡ (a && b) }
{
    a && b
}

/// The first fault of a tree.
pub fn fault_of(tree: &Result<SizedExpr, Fault>) -> Option<Fault>
    ensures { result ≡ fault_of tree.now }
{
    match tree {
        Ok(_) => None,
        Err(f) => Some(*f),
    }
}

/// A tree of a kind, unless there is a fault.
pub fn tree_unless(fault: Option<Fault>, kind: SizedKind) -> Result<SizedExpr, Fault>
    ensures { result ≡ tree_unless fault kind }
{
    match fault {
        None => Ok(unsized_node(kind)),
        Some(f) => {
            let_go(kind);
            Err(f)
        }
    }
}
