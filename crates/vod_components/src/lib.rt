//! Which nodes lead to each other, and an order in which no node stands before one that it leads to.
//!
//! Two searches along the edges, the first the other way, give a numbering. It is checked before it is handed out, so that what is
//! said of it rests on the checks alone.
#![tactic(auto)]

mod checks;
mod search;

ghost use Rattle.std.specs.Prelude.{◌≡◌, ◌^◌, ◌<◌, length, reverse, All, IfOk, IsTrue};
ghost use Rattle.vod_components.specs.Components.{IsComponents};
ghost use Rattle.vod_components.specs.Search.{IsSearch};
ghost use Rattle.vod_components.specs.Checks.{turned_edges, IsChecked};

use crate::checks::{are_firsts, are_led, falls};
use crate::search::{Search, search_all};
use std::alloc::{AllocError, Global};
use vod_fanout::{FanOut, Feed};

/// The components of a graph: sets of nodes that lead to each other.
#[derive(Drop)]
pub struct Components {
    /// The number of each node's component; one that leads to another has the higher number.
    pub numbers: Vec<u32>,
    /// A node of each component.
    pub nodes: Vec<u32>,
}

/// The components of so many nodes, where each edge leads from its source to its reader. It takes time in proportion to both.
pub fn components_of(alloc: Global, count: u32, edges: &[Feed]) -> Result<Components, AllocError>
    requires sources { All (λ f. f.source < count) edges.now }
    requires readers { All (λ f. f.reader < count) edges.now }
    requires few { length edges.now < 2 ^ 32 }
    ensures { IfOk result (λ c. IsComponents edges.now count c.numbers.items c.nodes.items) }
{
    let turned = turned(alloc, edges)?;
    let forth = FanOut::new(alloc, count, edges)?;
    let back = FanOut::new(alloc, count, turned.as_slice())?;
    let starts = nodes(alloc, count)?;
    let first = search_all(alloc, count, &back, starts.as_slice())?;
    let starts = backwards(alloc, first.left.as_slice())?;
    let second = search_all(alloc, count, &forth, starts.as_slice())?;
    if !passes(edges, &forth, &back, &first, &second) {
        return Err(AllocError);
    }
    Ok(Components {
        numbers: second.trees,
        nodes: second.firsts,
    })
}

// Whether the trees of the second search are components.
fn passes(edges: &[Feed], forth: &FanOut, back: &FanOut, first: &Search, second: &Search) -> bool
    requires sources { All (λ f. f.source < length forth.now) edges.now }
    requires readers { All (λ f. f.reader < length forth.now) edges.now }
    requires few { length forth.now < 2 ^ 32 }
    requires back { length back.now ≡ length forth.now }
    requires first { IsSearch (length forth.now) first.now }
    requires second { IsSearch (length forth.now) second.now }
    requires inside_forth { All (λ ps. All (λ p. p < length forth.now) ps) forth.now }
    requires inside_back { All (λ ps. All (λ p. p < length back.now) ps) back.now }
    ensures { IsTrue result → IsChecked edges.now forth.now back.now first.now second.now }
{
    let numbers = second.trees.as_slice();
    let nodes = second.firsts.as_slice();
    falls(edges, numbers)
        && are_firsts(numbers, nodes)
        && are_led(forth, numbers, first.found.as_slice(), nodes)
        && are_led(back, numbers, second.found.as_slice(), nodes)
}

// Each edge the other way.
fn turned(alloc: Global, edges: &[Feed]) -> Result<Vec<Feed>, AllocError>
    ensures { IfOk result (λ v. v.items ≡ turned_edges edges.now) }
{
    edges
        .iter()
        .map(|f| Feed {
            source: f.reader,
            reader: f.source,
        })
        .collect(alloc)
}

// All nodes.
fn nodes(alloc: Global, count: u32) -> Result<Vec<u32>, AllocError>
    ensures { IfOk result (λ v. All (λ p. p < count) v.items) }
{
    (0..count).collect(alloc)
}

// Nodes from the last to the first.
fn backwards(alloc: Global, nodes: &[u32]) -> Result<Vec<u32>, AllocError>
    ensures { IfOk result (λ v. v.items ≡ reverse nodes.now) }
{
    nodes.iter().rev().copied().collect(alloc)
}
