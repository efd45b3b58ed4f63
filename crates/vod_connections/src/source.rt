//! Connections and parameters of the instances of whole sources.
ghost use Rattle.std.specs.Prelude.{◌≡◌, flat_map, IfOk};
ghost use Rattle.vod_places.specs.Places.{least};
ghost use Rattle.vod_connections.specs.Interfaces.{found};
ghost use Rattle.vod_connections.specs.Connections.{instances_faults, kind_faults, item_faults, part_faults, source_faults};

use crate::connection::first_instances_fault;
use crate::interface::{Interfaces, find, interfaces_of};
use std::alloc::Global;
use vod_names::Memory;
use vod_places::sooner_of;
use vod_tree::{Instances, Item, ItemKind, SourceItem, Tree};

/// The least place in a source at which an instance has another number of connections than its module has ports or more parameters
/// than that has, or at which it names a port or a parameter that isn't the module's or stands again; None where there is none.
pub fn first_connection_fault(alloc: Global, tree: &Tree) -> Result<Option<u32>, Memory>
    ensures { IfOk result (λ p. p ≡ least (source_faults tree.now)) }
{
    let parts = tree.items.as_slice();
    let interfaces = interfaces_of(alloc, parts)?;
    let first = first_part_fault(alloc, &interfaces, parts)?;
    Ok(first)
}

#[tactic(auto, using(crate::proofs::Least::each_step))]
fn first_part_fault(
    alloc: Global,
    interfaces: &Interfaces<'_>,
    parts: &[SourceItem],
) -> Result<Option<u32>, Memory>
    ensures { IfOk result (λ p. p ≡ least (flat_map (part_faults (found interfaces.now.names interfaces.now.list.items)) parts.now)) }
{
    let mut first = None;
    for part in parts {
        first = sooner_of(first, part_fault(alloc, interfaces, part)?);
    }
    Ok(first)
}

fn part_fault(
    alloc: Global,
    interfaces: &Interfaces<'_>,
    part: &SourceItem,
) -> Result<Option<u32>, Memory>
    ensures { IfOk result (λ p. p ≡ least (part_faults (found interfaces.now.names interfaces.now.list.items) part.now)) }
{
    match part {
        SourceItem::Directive(_) => Ok(None),
        SourceItem::Module(module) => first_item_fault(alloc, interfaces, module.items.as_slice()),
    }
}

#[tactic(auto, using(crate::proofs::Least::each_step))]
fn first_item_fault(
    alloc: Global,
    interfaces: &Interfaces<'_>,
    items: &[Item],
) -> Result<Option<u32>, Memory>
    ensures { IfOk result (λ p. p ≡ least (flat_map (item_faults (found interfaces.now.names interfaces.now.list.items)) items.now)) }
{
    let mut first = None;
    for item in items {
        first = sooner_of(first, kind_fault(alloc, interfaces, &item.kind)?);
    }
    Ok(first)
}

fn kind_fault(
    alloc: Global,
    interfaces: &Interfaces<'_>,
    kind: &ItemKind,
) -> Result<Option<u32>, Memory>
    ensures { IfOk result (λ p. p ≡ least (kind_faults (found interfaces.now.names interfaces.now.list.items) kind.now)) }
{
    match kind {
        ItemKind::Instances(it) => instances_fault(alloc, interfaces, it),
        _ => Ok(None),
    }
}

fn instances_fault(
    alloc: Global,
    interfaces: &Interfaces<'_>,
    it: &Instances,
) -> Result<Option<u32>, Memory>
    ensures { IfOk result (λ p. p ≡ least (instances_faults (found interfaces.now.names interfaces.now.list.items it.now.«module».name) it.now)) }
{
    match find(interfaces, it.module.name.as_slice()) {
        None => Ok(None),
        Some(child) => first_instances_fault(alloc, child, it),
    }
}
