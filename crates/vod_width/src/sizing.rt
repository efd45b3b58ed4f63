//! What an expression is where it stands, and what a constant one stands for.
ghost use Rattle.std.specs.Prelude.{◌≡◌, ◌≤◌, ◌&&◌, List, [], true, false, Some, MatchResult, All, Contains};
ghost use Rattle.vod_bits.specs.Bit.{BX};
ghost use Rattle.vod_bits.specs.Value.{all_known};
ghost use Rattle.vod_design.specs.Run.{eval, nothing};
ghost use Rattle.vod_operand.specs.declared.fault.Fault.{Fault};
ghost use Rattle.vod_operand.specs.Operands.{first, value, place_of, stands_before};
ghost use Rattle.vod_width.specs.Sizes.{look, in_context, constant_faults};
ghost use Rattle.vod_width.specs.Refusals.{Refused, HasNoValue, IsOwn, refusal_of};

use crate::decls::{Decls, Params};
use crate::expr::look_expr;
use crate::types::{Constant, Own, WidthFault};
use std::alloc::Global;
use vod_bits::WIDTH;
use vod_design::SizedExpr;
use vod_operand::{Fault, fault_beside, fault_of, fit, fit_own, value};
use vod_tree::Expr;

/// The expression as it is evaluated in a context: at its own size or the context's, whichever is larger, by its own sign (5.4.1,
/// 5.5.2). A context of 0 is a self-determined place. The refusal is the first fault of it and its parts.
pub fn size(
    alloc: Global,
    expr: &Expr,
    decls: &Decls<'_>,
    context: u8,
) -> Result<SizedExpr, WidthFault>
    requires { context ≤ WIDTH }
    ensures { MatchResult result (λ e. ((look decls.now expr.now).faults ≡ []) × (e ≡ in_context context (look decls.now expr.now))) (λ f. Refused f (look decls.now expr.now).faults) }
{
    let x = look_expr(alloc, decls, expr)?;
    let width = context.max(x.width);
    let signed = x.signed;
    let x = fit(alloc, x, width, signed)?;
    match x.tree {
        Ok(e) => Ok(e),
        Err(f) => Err(refusal(f)),
    }
}

/// What an expression is by itself: its size and sign, and whether it is constant. The refusal is that of `size`.
pub fn own(alloc: Global, expr: &Expr, decls: &Decls<'_>) -> Result<Own, WidthFault>
    ensures { MatchResult result (λ o. ((look decls.now expr.now).faults ≡ []) × IsOwn o (look decls.now expr.now)) (λ f. Refused f (look decls.now expr.now).faults) }
{
    let x = look_expr(alloc, decls, expr)?;
    match fault_of(&x.tree) {
        None => Ok(Own {
            width: x.width,
            signed: x.signed,
            constant: x.constant,
        }),
        Some(f) => Err(refusal(f)),
    }
}

/// The expression as it is evaluated at a size and sign that its place gives it, as among the expressions of a `case` (9.5): a size
/// that is at least its own. The refusal is that of `size`.
pub fn size_at(
    alloc: Global,
    expr: &Expr,
    decls: &Decls<'_>,
    width: u8,
    signed: bool,
) -> Result<SizedExpr, WidthFault>
    ensures { MatchResult result (λ e. ((look decls.now expr.now).faults ≡ []) × (e ≡ (look decls.now expr.now).sized width signed)) (λ f. Refused f (look decls.now expr.now).faults) }
{
    let x = look_expr(alloc, decls, expr)?;
    let x = fit(alloc, x, width, signed)?;
    match x.tree {
        Ok(e) => Ok(e),
        Err(f) => Err(refusal(f)),
    }
}

/// The value of a constant expression at its own size, and its sign. One that isn't constant, or whose value has x or z bits, is
/// refused at its first token.
pub fn constant(alloc: Global, expr: &Expr, params: &Params<'_>) -> Result<Constant, WidthFault>
    ensures { MatchResult result (λ c. (constant_faults (look params.now expr.now) ≡ []) × (c.value ≡ value (look params.now expr.now)) × (c.signed ≡ (look params.now expr.now).signed)) (λ f. Refused f (constant_faults (look params.now expr.now))) }
{
    let x = look_expr(alloc, params, expr)?;
    let x = fit_own(alloc, x)?;
    let (constant, signed, place) = (x.constant, x.signed, x.place);
    match x.tree {
        Ok(e) => known(alloc, &e, constant, signed, place),
        Err(f) => Err(refusal(fault_beside(f, constant, place))),
    }
}

/// The first fault of several is one of them, and none of them stands before it.
pub fn first_is_least()
    ensures { (faults : List Fault) (f : Fault) → first faults ≡ Some f → Contains faults f × All (λ g. stands_before (place_of g) (place_of f) ≡ false) faults }
{}

// A fault as a refusal.
pub(crate) fn refusal(fault: Fault) -> WidthFault
    ensures { result ≡ refusal_of fault }
{
    match fault {
        Fault::Rule(place) => WidthFault::Rule { place },
        Fault::Width(place) => WidthFault::Width { place },
        Fault::Open => WidthFault::Open,
    }
}

// The value of a tree without faults, where it is constant and known.
fn known(
    alloc: Global,
    e: &SizedExpr,
    constant: bool,
    signed: bool,
    place: u32,
) -> Result<Constant, WidthFault>
    ensures { MatchResult result (λ c. (constant ≡ true) × (all_known (eval BX [] (nothing BX) [] e.now) ≡ true) × (c.value ≡ eval BX [] (nothing BX) [] e.now) × (c.signed ≡ signed)) (λ f. HasNoValue f (constant && all_known (eval BX [] (nothing BX) [] e.now)) place) }
{
    if !constant {
        return Err(WidthFault::Rule { place });
    }
    match value(alloc, e)?.known() {
        Some(value) => Ok(Constant { value, signed }),
        None => Err(WidthFault::Rule { place }),
    }
}
