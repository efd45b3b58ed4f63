//! The instances of a source.
ghost use Rattle.std.specs.Prelude.{◌≡◌, ◌++◌, flat_map, option_to_list, IfOk, OnOk};
ghost use Rattle.vod_modules.specs.Names.{module_in, number_in, number_of};
ghost use Rattle.vod_modules.specs.Uses.{instances_in, edge_of};
ghost use Rattle.vod_counts.specs.Edges.{each_instance, instances_edges, item_edges, module_edges, instance_edges};

use std::alloc::{AllocError, Global};
use vod_fanout::Feed;
use vod_modules::names::{Names, module_in};
use vod_modules::uses::instances_in;
use vod_tree::{Instance, Instances, Item, SourceItem};

/// One edge for each instance of a source of so many modules.
pub(crate) fn instance_edges(
    alloc: Global,
    count: u32,
    parts: &[SourceItem],
    names: &Names<'_>,
) -> Result<Vec<Feed>, AllocError>
    requires { number_in names.now.numbers.entries ≡ number_of parts.now }
    ensures { IfOk result (λ v. v.items ≡ instance_edges count parts.now) }
{
    let mut edges = Vec::new(alloc);
    for part in parts {
        add_part(&mut edges, count, part, names)?;
    }
    Ok(edges)
}

fn add_part(
    edges: &mut Vec<Feed>,
    count: u32,
    part: &SourceItem,
    names: &Names<'_>,
) -> Result<(), AllocError>
    ensures { OnOk result (edges.new.items ≡ edges.old.items ++ module_edges (number_in names.now.numbers.entries) count (module_in part.now)) }
{
    match module_in(part) {
        Some(module) => {
            let user = names.number(module.name.name.as_slice());
            add_items(edges, count, user, module.items.as_slice(), names)
        }
        None => Ok(()),
    }
}

fn add_items(
    edges: &mut Vec<Feed>,
    count: u32,
    user: Option<u32>,
    items: &[Item],
    names: &Names<'_>,
) -> Result<(), AllocError>
    ensures { OnOk result (edges.new.items ≡ edges.old.items ++ flat_map (item_edges (number_in names.now.numbers.entries) count user) items.now) }
{
    for item in items {
        add_item(edges, count, user, item, names)?;
    }
    Ok(())
}

fn add_item(
    edges: &mut Vec<Feed>,
    count: u32,
    user: Option<u32>,
    item: &Item,
    names: &Names<'_>,
) -> Result<(), AllocError>
    ensures { OnOk result (edges.new.items ≡ edges.old.items ++ item_edges (number_in names.now.numbers.entries) count user item.now) }
{
    match instances_in(&item.kind) {
        Some(it) => add_instances(edges, count, user, it, names),
        None => Ok(()),
    }
}

fn add_instances(
    edges: &mut Vec<Feed>,
    count: u32,
    user: Option<u32>,
    it: &Instances,
    names: &Names<'_>,
) -> Result<(), AllocError>
    ensures { OnOk result (edges.new.items ≡ edges.old.items ++ each_instance (edge_of count user (number_in names.now.numbers.entries it.now.«module».name)) it.now.instances) }
{
    let edge = edge_of(count, user, names.number(it.module.name.as_slice()));
    add_each(edges, edge, it.instances.as_slice())
}

// Adds an edge, where there is one, for each of these instances.
fn add_each(
    edges: &mut Vec<Feed>,
    edge: Option<Feed>,
    instances: &[Instance],
) -> Result<(), AllocError>
    ensures { OnOk result (edges.new.items ≡ edges.old.items ++ each_instance (option_to_list edge) instances.now) }
{
    for _instance in instances {
        push(edges, edge)?;
    }
    Ok(())
}

fn push(edges: &mut Vec<Feed>, edge: Option<Feed>) -> Result<(), AllocError>
    ensures { OnOk result (edges.new.items ≡ edges.old.items ++ option_to_list edge) }
{
    match edge {
        Some(edge) => {
            edges.push(edge)?;
            Ok(())
        }
        None => Ok(()),
    }
}

// The edge between two modules, where both are among so many.
fn edge_of(count: u32, user: Option<u32>, used: Option<u32>) -> Option<Feed>
    ensures { option_to_list result ≡ edge_of count user used }
{
    match (user, used) {
        (Some(source), Some(reader)) if source < count && reader < count => {
            Some(Feed { source, reader })
        }
        _ => None,
    }
}
