//! Names in statements of an `initial`.
ghost use Rattle.std.specs.Prelude.{◌≡◌, ◌++◌, ◌∷◌, [], flat_map, IfOk};
ghost use Rattle.vod_places.specs.Places.{least};
ghost use Rattle.vod_names.specs.declared.entry.Kind.TheVariants.{Integer};
ghost use Rattle.vod_names.specs.Entries.{plain, named};
ghost use Rattle.vod_uses.specs.Visible.{seen, in_loop};
ghost use Rattle.vod_uses.specs.Uses.{misuses};
ghost use Rattle.vod_uses.specs.Statements.{no_index, loop_head_misuses, is_integer, is_integer_kind, is_memory, stands, unassignable, unassignable_at, for_misuses, initial_misuses};

use crate::expr::first_misuse;
use crate::scope::{Scope, is_ram};
use std::alloc::Global;
use vod_names::{Declaration, Kind, Memory, Names};
use vod_places::{place_where, sooner_of};
use vod_tree::{ForLoop, Ident, InitialKind, InitialStatement};

/// The least place of a name in a statement of an `initial` that isn't declared as what it is used for.
#[cycle(initial)]
pub fn first_initial_misuse<'s>(
    alloc: Global,
    scope: &Scope<'_, '_, 's>,
    statement: &'s InitialStatement,
) -> Result<Option<u32>, Memory>
    ensures { IfOk result (λ p. p ≡ least (initial_misuses (seen scope.now) statement.now)) }
{
    match &statement.kind {
        InitialKind::Assign(ident, value) => Ok(sooner_of(
            unassignable(scope, ident),
            first_misuse(scope, value),
        )),
        InitialKind::AssignIndex(ident, index, value) => {
            let inside = sooner_of(first_misuse(scope, index), first_misuse(scope, value));
            Ok(sooner_of(unassignable_at(scope, ident), inside))
        }
        InitialKind::For(it) => first_loop_misuse(alloc, scope, it),
        InitialKind::Block(_, statements) => {
            first_initial_misuse_of(alloc, scope, statements.as_slice())
        }
    }
}

#[cycle(initial)]
fn first_initial_misuse_of<'s>(
    alloc: Global,
    scope: &Scope<'_, '_, 's>,
    statements: &'s [InitialStatement],
) -> Result<Option<u32>, Memory>
    ensures { IfOk result (λ p. p ≡ least (flat_map (initial_misuses (seen scope.now)) statements.now)) }
{
    let mut first = None;
    for statement in statements {
        first = sooner_of(first, first_initial_misuse(alloc, scope, statement)?);
    }
    Ok(first)
}

#[cycle(initial)]
fn first_loop_misuse<'s>(
    alloc: Global,
    scope: &Scope<'_, '_, 's>,
    it: &'s ForLoop,
) -> Result<Option<u32>, Memory>
    ensures { IfOk result (λ p. p ≡ least (for_misuses (seen scope.now) it.now)) }
{
    let head = first_head_misuse(scope, it);
    let inner = with_index(alloc, scope.inner, &it.index)?;
    let body = first_initial_misuse(alloc, &scope.within(&inner), it.body.get())?;
    Ok(sooner_of(head, body))
}

// The same of a loop without its body.
#[tactic(auto, using(crate::proofs::Least::least_append))]
fn first_head_misuse(scope: &Scope<'_, '_, '_>, it: &ForLoop) -> Option<u32>
    ensures { result ≡ least (loop_head_misuses (seen scope.now) it.now) }
{
    let bounds = sooner_of(
        first_misuse(scope, &it.start),
        first_misuse(scope, &it.bound),
    );
    let stepped = sooner_of(no_index(scope, &it.stepped), no_index(scope, &it.from));
    let tested = sooner_of(no_index(scope, &it.index), no_index(scope, &it.tested));
    sooner_of(tested, sooner_of(stepped, bounds))
}

// The inner names in the body of a loop.
fn with_index<'s>(alloc: Global, inner: &Names<'s>, index: &'s Ident) -> Result<Names<'s>, Memory>
    ensures { IfOk result (λ names. names ≡ inner.now ++ named (plain Integer) index.now ∷ []) }
{
    let mut names: Names<'s> = Names::new(alloc);
    for entry in inner.as_slice() {
        names.add(entry.name, entry.declaration)?;
    }
    names.declare(index, Declaration::plain(Kind::Integer))?;
    Ok(names)
}

// The place of a name of a loop that isn't an integer's.
fn no_index(scope: &Scope<'_, '_, '_>, ident: &Ident) -> Option<u32>
    ensures { result ≡ least (no_index (seen scope.now) ident.now) }
{
    let found = is_integer(scope.outer.first_of(ident.name.as_slice()));
    place_where(!found, ident.place)
}

fn is_integer(declaration: Option<Declaration>) -> bool
    ensures { result ≡ is_integer declaration }
{
    match declaration {
        None => false,
        Some(declaration) => is_integer_kind(declaration.kind),
    }
}

fn is_integer_kind(kind: Kind) -> bool
    ensures { result ≡ is_integer_kind kind }
{
    match kind {
        Kind::Integer => true,
        _ => false,
    }
}

// The place of a name that isn't a register's.
fn unassignable(scope: &Scope<'_, '_, '_>, ident: &Ident) -> Option<u32>
    ensures { result ≡ least (unassignable (seen scope.now) ident.now) }
{
    let name = ident.name.as_slice();
    let declared = stands(scope.limit, scope.outer.first_of(name));
    let register = scope.registers.first_of(name).is_some();
    place_where(!(declared && register), ident.place)
}

// The place of a name that is neither a register's nor a memory's.
fn unassignable_at(scope: &Scope<'_, '_, '_>, ident: &Ident) -> Option<u32>
    ensures { result ≡ least (unassignable_at (seen scope.now) ident.now) }
{
    let name = ident.name.as_slice();
    let declared = stands(scope.limit, scope.outer.first_of(name));
    let memory = is_memory(scope.outer.first_of(name));
    let register = scope.registers.first_of(name).is_some();
    place_where(!(declared && (register || memory)), ident.place)
}

// Whether a declaration stands before a place.
fn stands(limit: u32, declaration: Option<Declaration>) -> bool
    ensures { result ≡ stands limit declaration }
{
    match declaration {
        None => false,
        Some(declaration) => declaration.place < limit,
    }
}

fn is_memory(declaration: Option<Declaration>) -> bool
    ensures { result ≡ is_memory declaration }
{
    match declaration {
        None => false,
        Some(declaration) => is_ram(declaration.kind),
    }
}
