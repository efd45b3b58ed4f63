//! How many instances modules have. Numbers past all limits aren't told apart, since there may be more instances than a number has
//! digits for.
ghost use Rattle.std.specs.Prelude.{◌≡◌, ◌<◌, ◌+◌, ◌*◌, ℕ, All, length, slice_index, IfOk};
ghost use Rattle.vod_modules.specs.Faults.{is_number};
ghost use Rattle.vod_counts.specs.Counts.{own, made, instances_of, total, capped, IsTable};

use std::alloc::{AllocError, Global};
use vod_fanout::Feed;

/// More than each limit.
const MOST: u64 = 33_554_432;

fn capped_sum(a: u64, b: u64) -> u64
    ensures { result ≡ capped (a + b) }
{
    a.saturating_add(b).min(MOST)
}

fn capped_product(a: u64, b: u64) -> u64
    ensures { result ≡ capped (a * b) }
{
    a.saturating_mul(b).min(MOST)
}

/// How many instances each of so many modules has.
pub(crate) fn counts_of(
    alloc: Global,
    count: u32,
    top: Option<u32>,
    edges: &[Feed],
) -> Result<Vec<u64>, AllocError>
    requires sources { All (λ e. e.source < count) edges.now }
    requires readers { All (λ e. e.reader < count) edges.now }
    ensures { IfOk result (λ v. IsTable count (instances_of edges.now top count) v.items) }
{
    let mut table = vec![in alloc; 0u64; count as usize]?;
    for _level in 0..count {
        table = one_level_more(alloc, count, top, edges, table.as_slice())?;
    }
    Ok(table)
}

// The counts with one level of instances more.
fn one_level_more(
    alloc: Global,
    count: u32,
    top: Option<u32>,
    edges: &[Feed],
    table: &[u64],
) -> Result<Vec<u64>, AllocError>
    requires size { length table.now ≡ count }
    requires sources { All (λ e. e.source < count) edges.now }
    requires readers { All (λ e. e.reader < count) edges.now }
    ensures { IfOk result (λ v. IsTable count (λ k. own top k + made (slice_index table.now) edges.now k) v.items) }
{
    let mut next = owned(alloc, count, top)?;
    for edge in edges {
        let before = next[edge.reader as usize];
        next[edge.reader as usize] = capped_sum(before, table[edge.source as usize]);
    }
    Ok(next)
}

// The top has one instance of its own.
fn owned(alloc: Global, count: u32, top: Option<u32>) -> Result<Vec<u64>, AllocError>
    ensures { IfOk result (λ v. IsTable count (own top) v.items) }
{
    let mut table = vec![in alloc; 0u64; count as usize]?;
    if let Some(top) = top
        && top < count
    {
        table[top as usize] = 1;
    }
    Ok(table)
}

/// The sum of what each instance has, where modules have these.
pub(crate) fn total(table: &[u64], weights: &[u32]) -> u64
    ensures { capped result ≡ capped (total (slice_index table.now) 0 weights.now) }
{
    let mut sum = 0;
    for (number, weight) in weights.iter().enumerate() {
        let one = capped_product(count_at(table, number), u64::from(*weight));
        sum = capped_sum(sum, one);
    }
    sum
}

fn count_at(table: &[u64], number: usize) -> u64
    ensures { result ≡ slice_index table.now number }
{
    match table.get(number) {
        Some(count) => *count,
        None => 0,
    }
}
