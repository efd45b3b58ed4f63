//! Names on left sides.
ghost use Rattle.std.specs.Prelude.{◌≡◌, flat_map};
ghost use Rattle.vod_places.specs.Places.{least};
ghost use Rattle.vod_uses.specs.Visible.{seen};
ghost use Rattle.vod_uses.specs.Uses.{left_misuses};

use crate::expr::first_misuse;
use crate::scope::{Scope, Usage, misused};
use vod_places::sooner_of;
use vod_tree::{Lval, LvalKind};

/// The least place of a name in a left side that isn't declared as what it is used for.
#[cycle(left)]
pub fn first_left_misuse(scope: &Scope<'_, '_, '_>, left: &Lval) -> Option<u32>
    ensures { result ≡ least (left_misuses (seen scope.now) left.now) }
{
    match &left.kind {
        LvalKind::Name(ident) => misused(scope, Usage::Target, ident),
        LvalKind::Index(ident, a) => {
            let index = first_misuse(scope, a);
            sooner_of(misused(scope, Usage::IndexedTarget, ident), index)
        }
        LvalKind::Range(ident, a, b) => {
            let bounds = sooner_of(first_misuse(scope, a), first_misuse(scope, b));
            sooner_of(misused(scope, Usage::Target, ident), bounds)
        }
        LvalKind::Concat(parts) => first_left_misuse_of(scope, parts.as_slice()),
    }
}

/// The same of several left sides.
#[cycle(left)]
pub fn first_left_misuse_of(scope: &Scope<'_, '_, '_>, lefts: &[Lval]) -> Option<u32>
    ensures { result ≡ least (flat_map (left_misuses (seen scope.now)) lefts.now) }
{
    let mut first = None;
    for left in lefts {
        first = sooner_of(first, first_left_misuse(scope, left));
    }
    first
}
