//! Directions of ports.
ghost use Rattle.std.specs.Prelude.{◌≡◌, map, flat_map, IfOk};
ghost use Rattle.vod_places.specs.Places.{least};
ghost use Rattle.vod_names.specs.Entries.{shown};
ghost use Rattle.vod_declared.specs.Faults.{unknown_to, port_faults};

use crate::again::first_declared_again;
use std::alloc::Global;
use vod_names::{Entry, Memory, Names, directions, listed_names};
use vod_places::{place_where, sooner_of};
use vod_tree::Module;

/// The least fault among the ports of a module whose header lists names alone, or among the directions in the body of another.
#[tactic(auto, using(crate::proofs::Least::least_append, crate::proofs::Least::least_if))]
pub(crate) fn first_port_fault(alloc: Global, module: &Module) -> Result<Option<u32>, Memory>
    ensures { IfOk result (λ p. p ≡ least (port_faults «module».now)) }
{
    let listed = listed_names(alloc, module)?;
    let directions = directions(alloc, module)?;
    let again = first_declared_again(alloc, listed.as_slice())?;
    let undirected = first_unknown(&directions, listed.as_slice());
    let unlisted = first_unknown(&listed, directions.as_slice());
    Ok(sooner_of(again, sooner_of(undirected, unlisted)))
}

// The least place of an entry whose name isn't among these.
fn first_unknown(names: &Names<'_>, entries: &[Entry<'_>]) -> Option<u32>
    ensures { result ≡ least (flat_map (unknown_to names.now) (map shown entries.now)) }
{
    let mut first = None;
    for entry in entries {
        let unknown = names.first_of(entry.name).is_none();
        first = sooner_of(first, place_where(unknown, entry.declaration.place));
    }
    first
}
