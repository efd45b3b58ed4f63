//! The rule on names as a whole.
ghost use Rattle.std.specs.Prelude.{◌≡◌, IfOk};
ghost use Rattle.vod_places.specs.Places.{least};
ghost use Rattle.vod_connections.specs.Naming.{name_faults};

use crate::source::first_connection_fault;
use std::alloc::Global;
use vod_declared::first_declaration_fault;
use vod_names::Memory;
use vod_places::sooner_of;
use vod_tree::Tree;
use vod_uses::first_use_fault;

/// The least place in a source where the rule on names is broken, by a declaration, a use of a name, or a connection or a parameter
/// of an instance; None where it is kept. It needs no other rule to be kept.
#[tactic(auto, using(crate::proofs::Least::least_append))]
pub fn first_name_fault(alloc: Global, tree: &Tree) -> Result<Option<u32>, Memory>
    ensures { IfOk result (λ p. p ≡ least (name_faults tree.now)) }
{
    let declarations = first_declaration_fault(alloc, tree)?;
    let uses = first_use_fault(alloc, tree)?;
    let connections = first_connection_fault(alloc, tree)?;
    Ok(sooner_of(declarations, sooner_of(uses, connections)))
}
