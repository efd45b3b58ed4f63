//! Names in expressions.
ghost use Rattle.std.specs.Prelude.{◌≡◌, flat_map};
ghost use Rattle.vod_places.specs.Places.{least};
ghost use Rattle.vod_uses.specs.Visible.{seen};
ghost use Rattle.vod_uses.specs.Uses.{misuses};

use crate::scope::{Scope, Usage, misused, uncallable};
use vod_places::sooner_of;
use vod_tree::{Expr, ExprKind};

/// The least place of a name in an expression that isn't declared as what it is used for.
#[cycle(misuse)]
pub fn first_misuse(scope: &Scope<'_, '_, '_>, e: &Expr) -> Option<u32>
    ensures { result ≡ least (misuses (seen scope.now) e.now) }
{
    match &e.kind {
        ExprKind::Number(_) => None,
        ExprKind::Name(ident) => misused(scope, Usage::Value, ident),
        ExprKind::Index(ident, a) => {
            let index = first_misuse(scope, a.get());
            sooner_of(misused(scope, Usage::Indexed, ident), index)
        }
        ExprKind::Range(ident, a, b) => {
            let bounds = sooner_of(first_misuse(scope, a.get()), first_misuse(scope, b.get()));
            sooner_of(misused(scope, Usage::Value, ident), bounds)
        }
        ExprKind::Call(ident, arguments) => {
            let inside = first_misuse_of(scope, arguments.as_slice());
            sooner_of(uncallable(scope, ident, arguments.as_slice().len()), inside)
        }
        ExprKind::Paren(a) => first_misuse(scope, a.get()),
        ExprKind::Unary(_, a) => first_misuse(scope, a.get()),
        ExprKind::Concat(parts) => first_misuse_of(scope, parts.as_slice()),
        ExprKind::Replicate(count, parts) => {
            let inside = first_misuse_of(scope, parts.as_slice());
            sooner_of(first_misuse(scope, count.get()), inside)
        }
        ExprKind::Binary(_, a, b) => {
            sooner_of(first_misuse(scope, a.get()), first_misuse(scope, b.get()))
        }
        ExprKind::Conditional(test, a, b) => {
            let branches = sooner_of(first_misuse(scope, a.get()), first_misuse(scope, b.get()));
            sooner_of(first_misuse(scope, test.get()), branches)
        }
    }
}

/// The same of several expressions.
#[cycle(misuse)]
pub fn first_misuse_of(scope: &Scope<'_, '_, '_>, exprs: &[Expr]) -> Option<u32>
    ensures { result ≡ least (flat_map (misuses (seen scope.now)) exprs.now) }
{
    let mut first = None;
    for e in exprs {
        first = sooner_of(first, first_misuse(scope, e));
    }
    first
}
