//! Declarations in functions.
ghost use Rattle.std.specs.Prelude.{◌≡◌, flat_map, IfOk};
ghost use Rattle.std.specs.List.{list_any};
ghost use Rattle.vod_places.specs.Places.{least};
ghost use Rattle.vod_declared.specs.Faults.{is_input, function_faults, kind_faults, item_faults};

use crate::again::first_declared_again;
use std::alloc::Global;
use vod_names::{Memory, function_declarations};
use vod_places::{place_where, sooner_of};
use vod_tree::{Function, FunctionDeclaration, Item, ItemKind};

/// The least fault in a function among these items.
pub(crate) fn first_item_fault(alloc: Global, items: &[Item]) -> Result<Option<u32>, Memory>
    ensures { IfOk result (λ p. p ≡ least (flat_map item_faults items.now)) }
{
    let mut first = None;
    for item in items {
        first = sooner_of(first, kind_fault(alloc, &item.kind)?);
    }
    Ok(first)
}

fn kind_fault(alloc: Global, kind: &ItemKind) -> Result<Option<u32>, Memory>
    ensures { IfOk result (λ p. p ≡ least (kind_faults kind.now)) }
{
    match kind {
        ItemKind::Function(function) => first_function_fault(alloc, function.get()),
        _ => Ok(None),
    }
}

// A function has inputs in its header or behind it, not both, and declares each name once.
#[tactic(auto, using(crate::proofs::Least::least_append, crate::proofs::Least::least_if))]
fn first_function_fault(alloc: Global, function: &Function) -> Result<Option<u32>, Memory>
    ensures { IfOk result (λ p. p ≡ least (function_faults function.now)) }
{
    let names = function_declarations(alloc, function)?;
    let again = first_declared_again(alloc, names.as_slice())?;
    let header = function.inputs.is_some();
    let behind = has_input(function.declarations.as_slice());
    Ok(sooner_of(place_where(header == behind, function.name.place), again))
}

// Whether there is an input among these.
fn has_input(declarations: &[FunctionDeclaration]) -> bool
    ensures { result ≡ list_any is_input declarations.now }
{
    for declaration in declarations {
        if is_input(declaration) {
            return true;
        }
    }
    false
}

fn is_input(declaration: &FunctionDeclaration) -> bool
    ensures { result ≡ is_input declaration.now }
{
    match declaration {
        FunctionDeclaration::Input(_) => true,
        FunctionDeclaration::Reg(_) => false,
    }
}
