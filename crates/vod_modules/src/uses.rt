//! The instantiations of a source.
ghost use Rattle.std.specs.Prelude.{◌≡◌, ◌++◌, IfOk, OnOk, option_to_list};
ghost use Rattle.std.specs.Option.{option_copied};
ghost use Rattle.vod_modules.specs.Names.{module_in, number_in, number_of};
ghost use Rattle.vod_modules.specs.Uses.{instances_in, use_in, item_uses, module_uses, uses_in, edge_of, edges_of};

use crate::lists::push_some;
use crate::names::{Names, module_in};
use std::alloc::{AllocError, Global};
use vod_fanout::Feed;
use vod_tree::{Instances, Item, ItemKind, Module, SourceItem};

/// An instantiation: where it names a module, the number of the module where it stands, and that of the module that it names.
#[derive(Clone, Copy)]
pub struct Use {
    pub place: u32,
    pub user: Option<u32>,
    pub used: Option<u32>,
}

/// The instances that an item makes.
pub fn instances_in(kind: &ItemKind) -> Option<&Instances>
    ensures { option_copied result ≡ instances_in kind.now }
{
    match kind {
        ItemKind::Instances(instances) => Some(instances),
        _ => None,
    }
}

/// All instantiations.
pub fn uses_of(
    alloc: Global,
    parts: &[SourceItem],
    names: &Names<'_>,
) -> Result<Vec<Use>, AllocError>
    requires { number_in names.now.numbers.entries ≡ number_of parts.now }
    ensures { IfOk result (λ v. v.items ≡ uses_in parts.now) }
{
    let mut uses = Vec::new(alloc);
    for part in parts {
        add_part(part, names, &mut uses)?;
    }
    Ok(uses)
}

// Adds the instantiations of a part of a source.
fn add_part(part: &SourceItem, names: &Names<'_>, uses: &mut Vec<Use>) -> Result<(), AllocError>
    ensures { OnOk result (uses.new.items ≡ uses.old.items ++ module_uses (number_in names.now.numbers.entries) (module_in part.now)) }
{
    match module_in(part) {
        Some(module) => add_items(module, names, uses),
        None => Ok(()),
    }
}

// Adds the instantiations of a module.
fn add_items(parent: &Module, names: &Names<'_>, uses: &mut Vec<Use>) -> Result<(), AllocError>
    ensures { OnOk result (uses.new.items ≡ uses.old.items ++ item_uses (number_in names.now.numbers.entries) (number_in names.now.numbers.entries parent.now.name.name) parent.now.items) }
{
    let user = names.number(parent.name.name.as_slice());
    for item in parent.items.as_slice() {
        push_some(uses, use_of(item, user, names))?;
    }
    Ok(())
}

// The instantiation that an item is.
fn use_of(item: &Item, user: Option<u32>, names: &Names<'_>) -> Option<Use>
    ensures { option_to_list result ≡ use_in (number_in names.now.numbers.entries) user (instances_in item.now.kind) }
{
    match instances_in(&item.kind) {
        Some(instances) => Some(Use {
            place: instances.module.place,
            user,
            used: names.number(instances.module.name.as_slice()),
        }),
        None => None,
    }
}

/// Which of so many modules instantiates which.
pub fn edges_of(alloc: Global, count: u32, uses: &[Use]) -> Result<Vec<Feed>, AllocError>
    ensures { IfOk result (λ v. v.items ≡ edges_of count uses.now) }
{
    let mut edges = Vec::new(alloc);
    for found in uses {
        push_some(&mut edges, edge_of(count, *found))?;
    }
    Ok(edges)
}

// The edge of an instantiation.
fn edge_of(count: u32, found: Use) -> Option<Feed>
    ensures { option_to_list result ≡ edge_of count found.user found.used }
{
    match (found.user, found.used) {
        (Some(source), Some(reader)) if source < count && reader < count => {
            Some(Feed { source, reader })
        }
        _ => None,
    }
}
