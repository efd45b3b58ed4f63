//! A tree gets the size and sign at which it is evaluated.
ghost use Rattle.std.specs.Prelude.{IfOk};
ghost use Rattle.vod_operand.specs.Fits.{Fits, FitsKind};

use sqlite_items::Boxed;
use std::alloc::{AllocError, Global};
use vod_design::{SizedExpr, SizedKind};

// The size and sign go into each part that has those of the whole.
#[cycle(fit)]
pub(crate) fn fit_tree(
    alloc: Global,
    e: SizedExpr,
    width: u8,
    signed: bool,
) -> Result<SizedExpr, AllocError>
    ensures { IfOk result (λ r. Fits width signed e r) }
{
    let place = e.place;
    let kind = fit_kind(alloc, e.kind, width, signed)?;
    Ok(SizedExpr {
        place,
        width,
        signed,
        kind,
    })
}

#[cycle(fit)]
fn fit_kind(
    alloc: Global,
    kind: SizedKind,
    width: u8,
    signed: bool,
) -> Result<SizedKind, AllocError>
    ensures { IfOk result (λ r. FitsKind width signed kind r) }
{
    match kind {
        SizedKind::Unary(op, a) => {
            let a = fit_boxed(alloc, a, width, signed)?;
            Ok(SizedKind::Unary(op, a))
        }
        SizedKind::Binary(op, a, b) => {
            let a = fit_boxed(alloc, a, width, signed)?;
            let b = fit_boxed(alloc, b, width, signed)?;
            Ok(SizedKind::Binary(op, a, b))
        }
        SizedKind::Shift(op, a, amount) => {
            let a = fit_boxed(alloc, a, width, signed)?;
            Ok(SizedKind::Shift(op, a, amount))
        }
        SizedKind::Conditional(test, a, b) => {
            let a = fit_boxed(alloc, a, width, signed)?;
            let b = fit_boxed(alloc, b, width, signed)?;
            Ok(SizedKind::Conditional(test, a, b))
        }
        other => Ok(other),
    }
}

#[cycle(fit)]
fn fit_boxed(
    alloc: Global,
    e: Boxed<SizedExpr>,
    width: u8,
    signed: bool,
) -> Result<Boxed<SizedExpr>, AllocError>
    ensures { IfOk result (λ r. Fits width signed e r) }
{
    let e = fit_tree(alloc, e.into_inner(), width, signed)?;
    Boxed::new(alloc, e)
}
