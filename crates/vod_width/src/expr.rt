//! What an expression is by itself, from its parts up.
ghost use Rattle.std.specs.Prelude.{◌≡◌, Ok, IfOk, map};
ghost use Rattle.vod_width.specs.Names.{declared};
ghost use Rattle.vod_operand.specs.Operands.{first};
ghost use Rattle.vod_width.specs.Sizes.{look, inside, look_index, sized_arguments};
ghost use Rattle.vod_operand.specs.Found.{Sees};
ghost use Rattle.vod_width.specs.View.{SeesKind, SeesParts, TreesAre, faults_of};

use crate::decls::Decls;
use crate::parts::{
    Parts, call, concat, fit_argument, inputs_of, no_parts, replicate, with_part, with_tree,
};
use crate::select::{index, name, range};
use sqlite_items::Items;
use std::alloc::{AllocError, Global};
use vod_design::{Size, SizedExpr};
use vod_operand::{Fault, Looked, at_place, binary, conditional, fit_own, literal, unary};
use vod_tree::{Expr, ExprKind, Ident};

// What an expression is.
#[cycle(look)]
pub(crate) fn look_expr(alloc: Global, decls: &Decls<'_>, e: &Expr) -> Result<Looked, AllocError>
    ensures { IfOk result (λ c. Sees c (look decls.now e.now)) }
{
    let x = look_kind(alloc, decls, e)?;
    Ok(at_place(e.place, x))
}

// What it is apart from its own place and width.
#[cycle(look)]
fn look_kind(alloc: Global, decls: &Decls<'_>, e: &Expr) -> Result<Looked, AllocError>
    ensures { IfOk result (λ c. SeesKind c (inside decls.now e.now)) }
{
    match &e.kind {
        ExprKind::Number(n) => Ok(literal(*n)),
        ExprKind::Name(ident) => Ok(name(e.place, decls, ident)),
        ExprKind::Index(ident, i) => look_index(alloc, decls, e.place, ident, i.get()),
        ExprKind::Range(ident, a, b) => {
            let first = look_expr(alloc, decls, a.get());
            let last = look_expr(alloc, decls, b.get());
            let (msb, lsb) = both_ok(first, last)?;
            range(alloc, e.place, decls, ident, msb, lsb)
        }
        ExprKind::Call(ident, arguments) => {
            let callee = decls.get(ident.name.as_slice());
            let trees = look_arguments(alloc, decls, inputs_of(callee), arguments.as_slice())?;
            Ok(call(e.place, callee, trees))
        }
        ExprKind::Paren(a) => look_expr(alloc, decls, a.get()),
        ExprKind::Concat(parts) => Ok(concat(look_parts(alloc, decls, parts.as_slice())?)),
        ExprKind::Replicate(count, parts) => {
            let times = look_expr(alloc, decls, count.get());
            let concat = look_parts(alloc, decls, parts.as_slice());
            let (count, parts) = both_ok(times, concat)?;
            replicate(alloc, e.place, count, parts)
        }
        ExprKind::Unary(op, a) => unary(alloc, *op, look_expr(alloc, decls, a.get())?),
        ExprKind::Binary(op, a, b) => {
            let left = look_expr(alloc, decls, a.get());
            let right = look_expr(alloc, decls, b.get());
            let (left, right) = both_ok(left, right)?;
            binary(alloc, *op, left, right)
        }
        ExprKind::Conditional(test, a, b) => {
            let tested = look_expr(alloc, decls, test.get());
            let taken = look_expr(alloc, decls, a.get());
            let other = look_expr(alloc, decls, b.get());
            let (test, (taken, other)) = both_ok(tested, both_ok(taken, other))?;
            conditional(alloc, test, taken, other)
        }
    }
}

// A select of one bit or word.
#[cycle(look)]
fn look_index(
    alloc: Global,
    decls: &Decls<'_>,
    place: u32,
    ident: &Ident,
    i: &Expr,
) -> Result<Looked, AllocError>
    ensures { IfOk result (λ c. SeesKind c (look_index place (declared decls.now ident.now.name) (look decls.now i.now))) }
{
    let i = look_expr(alloc, decls, i)?;
    index(alloc, place, decls, ident, i)
}

// The parts of a concatenation.
#[cycle(look)]
fn look_parts(alloc: Global, decls: &Decls<'_>, exprs: &[Expr]) -> Result<Parts, AllocError>
    ensures { IfOk result (λ p. SeesParts p (map (look decls.now) exprs.now)) }
{
    let mut parts = no_parts(alloc);
    for e in exprs {
        let x = look_expr(alloc, decls, e)?;
        let x = fit_own(alloc, x)?;
        parts = with_part(parts, x)?;
    }
    Ok(parts)
}

// The arguments of a call.
#[cycle(look)]
fn look_arguments(
    alloc: Global,
    decls: &Decls<'_>,
    inputs: &[Size],
    exprs: &[Expr],
) -> Result<Result<Items<SizedExpr>, Fault>, AllocError>
    ensures { IfOk result (λ r. TreesAre r (first (faults_of (map (look decls.now) exprs.now))) (sized_arguments inputs.now (map (look decls.now) exprs.now))) }
{
    let mut trees = Ok(Items::new(alloc));
    for (i, e) in exprs.iter().enumerate() {
        let x = look_expr(alloc, decls, e)?;
        let x = fit_argument(alloc, inputs, i, x)?;
        trees = with_tree(trees, x.tree)?;
    }
    Ok(trees)
}

// Both values, where there was memory for both.
pub(crate) fn both_ok<A: Drop, B: Drop>(
    a: Result<A, AllocError>,
    b: Result<B, AllocError>,
) -> Result<(A, B), AllocError>
    ensures { IfOk result (λ p. (a ≡ Ok p.0) × (b ≡ Ok p.1)) }
{
    match a {
        Ok(a) => match b {
            Ok(b) => Ok((a, b)),
            Err(e) => Err(e),
        },
        Err(e) => Err(e),
    }
}
