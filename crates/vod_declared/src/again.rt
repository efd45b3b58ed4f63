//! Names that are declared again.
ghost use Rattle.std.specs.Prelude.{◌≡◌, [], map, flat_map, IfOk};
ghost use Rattle.vod_places.specs.Places.{least, each_after};
ghost use Rattle.vod_names.specs.Entries.{shown};
ghost use Rattle.vod_declared.specs.Faults.{is_output, is_ram, may_follow, completes, is_repeated, declared_again, signed_ram};

use std::alloc::Global;
use vod_names::{Declaration, Entry, Kind, Memory, Names};
use vod_places::{place_where, sooner_of};

/// The least place at which a name is declared again, though its declaration completes none.
pub(crate) fn first_declared_again<'s>(
    alloc: Global,
    entries: &[Entry<'s>],
) -> Result<Option<u32>, Memory>
    ensures { IfOk result (λ p. p ≡ least (each_after declared_again [] (map shown entries.now))) }
{
    let mut seen: Names<'s> = Names::new(alloc);
    let mut first = None;
    for entry in entries {
        let repeated = is_repeated(seen.last_of(entry.name), entry.declaration);
        first = sooner_of(first, place_where(repeated, entry.declaration.place));
        seen.add(entry.name, entry.declaration)?;
    }
    Ok(first)
}

/// Whether a declaration is one too many, after the last one of its name (IEEE 1364-2005, 4.11, 12.3.3).
pub fn is_repeated(last: Option<Declaration>, declaration: Declaration) -> bool
    ensures { result ≡ is_repeated last declaration }
{
    match last {
        None => false,
        Some(last) => !completes(last, declaration),
    }
}

// Whether a declaration completes the one before it: `wire` behind a direction or `reg` behind `output`, with a range exactly
// where that has one.
fn completes(first: Declaration, second: Declaration) -> bool
    ensures { result ≡ completes first second }
{
    first.partial && may_follow(first.kind, second.kind) && first.ranged == second.ranged
}

fn may_follow(first: Kind, second: Kind) -> bool
    ensures { result ≡ may_follow first second }
{
    match second {
        Kind::Wire => true,
        Kind::Reg => is_output(first),
        _ => false,
    }
}

fn is_output(kind: Kind) -> bool
    ensures { result ≡ is_output kind }
{
    match kind {
        Kind::Output => true,
        _ => false,
    }
}

/// The least place of a memory that is declared `signed`.
pub(crate) fn first_signed_ram(entries: &[Entry<'_>]) -> Option<u32>
    ensures { result ≡ least (flat_map signed_ram (map shown entries.now)) }
{
    let mut first = None;
    for entry in entries {
        let declaration = entry.declaration;
        let signed = is_ram(declaration.kind) && declaration.signed;
        first = sooner_of(first, place_where(signed, declaration.place));
    }
    first
}

fn is_ram(kind: Kind) -> bool
    ensures { result ≡ is_ram kind }
{
    match kind {
        Kind::Ram => true,
        _ => false,
    }
}
