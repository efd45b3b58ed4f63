//! The modules of a source: which is the top, which instantiates which, and an order of them; or the least place where the rule on
//! modules is broken.
//!
//! Names of modules differ. Each module that is instantiated is in the source, and none instantiates itself through any chain. Exactly
//! one, the top, is instantiated nowhere (IEEE 1364-2005, 12.1.1).
#![tactic(auto)]

mod faults;
mod lists;
pub mod names;
pub mod uses;

ghost use Rattle.std.specs.Prelude.{◌≡◌, IfOk, MatchResult};
ghost use Rattle.vod_modules.specs.Modules.{IsJudged, IsModules, IsFault};

use crate::faults::{fault_in, tops};
use crate::names::{Head, Names, heads_of};
use crate::uses::{edges_of, uses_of};
use std::alloc::{AllocError, Global};
use vod_components::{Components, components_of};
use vod_tree::Tree;

/// The modules of a source.
#[derive(Drop)]
pub struct Modules<'t> {
    /// Their numbers by name, in the order of the source.
    pub names: Names<'t>,
    /// A module that instantiates another has the higher number here, and each has a number of its own.
    pub components: Components,
    /// The module that is instantiated nowhere.
    pub top: Head,
}

/// Why the modules of a source are refused.
#[derive(Clone, Copy)]
pub enum ModulesFault {
    /// The rule on modules is broken at this place.
    At(u32),
    Memory,
}

// What is known of the modules of a source.
#[derive(Drop)]
struct Judged<'t> {
    names: Names<'t>,
    components: Components,
    tops: Vec<Head>,
    fault: Option<u32>,
}

/// The modules of a source, or the least place where the rule on modules is broken.
pub fn modules_of<'t>(alloc: Global, tree: &'t Tree) -> Result<Modules<'t>, ModulesFault>
    ensures { MatchResult result (IsModules tree.now) (IsFault tree.now) }
{
    match judge(alloc, tree) {
        Err(_) => Err(ModulesFault::Memory),
        Ok(found) => answer(found),
    }
}

// The modules, unless there is a fault.
fn answer<'t>(found: Judged<'t>) -> Result<Modules<'t>, ModulesFault>
    ensures { (tree : Tree) → IsJudged tree found.entry → MatchResult result (IsModules tree) (IsFault tree) }
{
    if let Some(place) = found.fault {
        return Err(ModulesFault::At(place));
    }
    match found.tops.first() {
        None => Err(ModulesFault::At(0)),
        Some(top) => Ok(Modules {
            top: *top,
            names: found.names,
            components: found.components,
        }),
    }
}

// Judges the modules of a source.
fn judge<'t>(alloc: Global, tree: &'t Tree) -> Result<Judged<'t>, AllocError>
    ensures { IfOk result (IsJudged tree.now) }
{
    let parts = tree.items.as_slice();
    if parts.len() > u32::MAX as usize {
        return Err(AllocError);
    }
    let names = Names::new(alloc, parts)?;
    let heads = heads_of(alloc, parts, &names)?;
    let uses = uses_of(alloc, parts, &names)?;
    let count = count_of(heads.len())?;
    let edges = edges_of(alloc, count, uses.as_slice())?;
    let _edge_count = count_of(edges.len())?;
    let components = components_of(alloc, count, edges.as_slice())?;
    let tops = tops(alloc, count, edges.as_slice(), heads.as_slice())?;
    let numbers = components.numbers.as_slice();
    let fault = fault_in(numbers, heads.as_slice(), uses.as_slice(), tops.as_slice());
    Ok(Judged {
        names,
        components,
        tops,
        fault,
    })
}

// How many there are, if memory can hold so many.
fn count_of(len: usize) -> Result<u32, AllocError>
    ensures { IfOk result (λ count. count ≡ len) }
{
    match u32::try_from(len) {
        Ok(count) => Ok(count),
        Err(_) => Err(AllocError),
    }
}
