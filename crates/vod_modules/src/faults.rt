//! The least place where the modules of a source are at fault.
ghost use Rattle.std.specs.Prelude.{◌≡◌, [], ◌∷◌, if◌then◌else◌, option_to_list, ℕ, ◌<◌, ◌^◌, List, Some, length, All, IfOk, slice_index, slice_get};
ghost use Rattle.std.specs.Option.{option_copied};
ghost use Rattle.vod_places.specs.Places.{least};
ghost use Rattle.vod_modules.specs.Faults.{is_marked, again_from, is_number, is_bad, bad_uses, is_used, tops, place_of, or_start, fault_in};

use crate::lists::push_some;
use crate::names::Head;
use crate::uses::Use;
use std::alloc::{AllocError, Global};
use vod_fanout::Feed;
use vod_places::{place_where, sooner_of};

/// The least place at fault, where the component of each module is known, and which modules are instantiated nowhere.
pub fn fault_in(components: &[u32], heads: &[Head], uses: &[Use], roots: &[Head]) -> Option<u32>
    ensures { (edges : List Feed) → roots.now ≡ tops edges heads.now → result ≡ fault_in components.now edges heads.now uses.now }
{
    let fault = sooner_of(again(heads), bad(components, uses));
    let fault = sooner_of(fault, second(roots));
    if fault.is_none() && roots.is_empty() {
        return Some(0);
    }
    fault
}

// The least name that an earlier module has.
fn again(heads: &[Head]) -> Option<u32>
    ensures { result ≡ least (again_from 0 heads.now) }
{
    let mut least = None;
    for (number, head) in heads.iter().enumerate() {
        least = sooner_of(
            least,
            place_where(!is_number(head.number, number), head.place),
        );
    }
    least
}

fn is_number(number: Option<u32>, wanted: usize) -> bool
    ensures { result ≡ is_number number wanted }
{
    match number {
        Some(number) => number as usize == wanted,
        None => false,
    }
}

// The least instantiation of a module that isn't there or leads back.
fn bad(components: &[u32], uses: &[Use]) -> Option<u32>
    ensures { result ≡ least (bad_uses components.now uses.now) }
{
    let mut least = None;
    for found in uses {
        least = sooner_of(least, place_where(is_bad(components, *found), found.place));
    }
    least
}

// Whether an instantiation is of a module that isn't there, or leads back.
fn is_bad(components: &[u32], found: Use) -> bool
    ensures { result ≡ is_bad components.now found.user found.used }
{
    match (found.user, found.used) {
        (_, None) => true,
        (None, Some(_)) => false,
        (Some(user), Some(used)) => component(components, user) == component(components, used),
    }
}

// The component of a module.
fn component(components: &[u32], number: u32) -> u32
    ensures { result ≡ slice_index components.now number }
{
    match components.get(number as usize) {
        Some(component) => *component,
        None => 0,
    }
}

// Where the second module that is instantiated nowhere has its name.
fn second(roots: &[Head]) -> Option<u32>
    ensures { result ≡ place_of (slice_get roots.now 1) }
{
    match roots.get(1) {
        Some(top) => Some(top.place),
        None => None,
    }
}

/// The modules that are instantiated nowhere, of so many.
pub fn tops(
    alloc: Global,
    count: u32,
    edges: &[Feed],
    heads: &[Head],
) -> Result<Vec<Head>, AllocError>
    requires { All (λ e. e.reader < count) edges.now }
    ensures { IfOk result (λ v. v.items ≡ tops edges.now heads.now) }
{
    let used = used(alloc, count, edges)?;
    let mut tops = Vec::new(alloc);
    for head in heads {
        push_some(&mut tops, top_of(used.as_slice(), *head))?;
    }
    Ok(tops)
}

// A module, unless it is marked.
fn top_of(marks: &[bool], head: Head) -> Option<Head>
    ensures { option_to_list result ≡ (if is_marked marks.now head.number then [] else head ∷ []) }
{
    if is_marked(marks, head.number) {
        return None;
    }
    Some(head)
}

// Which modules are instantiated.
fn used(alloc: Global, count: u32, edges: &[Feed]) -> Result<Vec<bool>, AllocError>
    requires { All (λ e. e.reader < count) edges.now }
    ensures { IfOk result (λ v. (k : ℕ) → is_marked v.items (Some k) ≡ is_used edges.now (Some k)) }
{
    let mut used = vec![in alloc; false; count as usize]?;
    for edge in edges {
        used[edge.reader as usize] = true;
    }
    Ok(used)
}

// Whether a module is marked.
fn is_marked(marks: &[bool], number: Option<u32>) -> bool
    ensures { result ≡ is_marked marks.now number }
{
    match number {
        Some(number) => match marks.get(number as usize) {
            Some(mark) => *mark,
            None => false,
        },
        None => false,
    }
}
