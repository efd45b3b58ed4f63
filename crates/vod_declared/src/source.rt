//! Declarations of whole sources.
ghost use Rattle.std.specs.Prelude.{◌≡◌, None, flat_map, IfOk};
ghost use Rattle.vod_places.specs.Places.{least};
ghost use Rattle.vod_tree.specs.declared.module.Tree.{Tree};
ghost use Rattle.vod_declared.specs.Once.{OfModules, AreOnce};
ghost use Rattle.vod_declared.specs.Faults.{name_faults, module_faults, source_faults, declaration_faults};

use crate::again::{first_declared_again, first_signed_ram};
use crate::function::first_item_fault;
use crate::ports::first_port_fault;
use std::alloc::Global;
use vod_names::{Memory, declarations};
use vod_places::sooner_of;
use vod_tree::{Module, SourceItem, Tree};

/// The least place in a source at which a declaration is one too many, lacks its direction or has one that may not stand there,
/// makes a memory `signed`, or leaves a function without inputs or with inputs in two places; None where there is none.
pub fn first_declaration_fault(alloc: Global, tree: &Tree) -> Result<Option<u32>, Memory>
    ensures { IfOk result (λ p. p ≡ least (declaration_faults tree.now)) }
{
    first_source_fault(alloc, tree.items.as_slice())
}

/// Where no declaration is at fault, the names that a module declares differ, but for a port whose second declaration completes
/// the first.
pub fn names_are_declared_once()
    ensures { (tree : Tree) → least (declaration_faults tree) ≡ None → OfModules tree AreOnce }
{}

fn first_source_fault(alloc: Global, items: &[SourceItem]) -> Result<Option<u32>, Memory>
    ensures { IfOk result (λ p. p ≡ least (flat_map source_faults items.now)) }
{
    let mut first = None;
    for item in items {
        first = sooner_of(first, source_fault(alloc, item)?);
    }
    Ok(first)
}

fn source_fault(alloc: Global, item: &SourceItem) -> Result<Option<u32>, Memory>
    ensures { IfOk result (λ p. p ≡ least (source_faults item.now)) }
{
    match item {
        SourceItem::Directive(_) => Ok(None),
        SourceItem::Module(module) => first_module_fault(alloc, module),
    }
}

#[tactic(auto, using(crate::proofs::Least::least_append, crate::proofs::Least::least_if))]
fn first_module_fault(alloc: Global, module: &Module) -> Result<Option<u32>, Memory>
    ensures { IfOk result (λ p. p ≡ least (module_faults «module».now)) }
{
    let names = first_name_fault(alloc, module)?;
    let ports = first_port_fault(alloc, module)?;
    let functions = first_item_fault(alloc, module.items.as_slice())?;
    Ok(sooner_of(names, sooner_of(ports, functions)))
}

// The least fault among the names that a module declares.
#[tactic(auto, using(crate::proofs::Least::least_append, crate::proofs::Least::least_if))]
fn first_name_fault(alloc: Global, module: &Module) -> Result<Option<u32>, Memory>
    ensures { IfOk result (λ p. p ≡ least (name_faults «module».now)) }
{
    let names = declarations(alloc, module)?;
    let again = first_declared_again(alloc, names.as_slice())?;
    let signed = first_signed_ram(names.as_slice());
    Ok(sooner_of(again, signed))
}
