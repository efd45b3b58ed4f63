//! The shortest cycle of the least driver on a cycle.
ghost use Rattle.std.specs.Prelude.{◌≡◌, ◌≢◌, ℕ, ◌+◌, ◌-◌, ◌^◌, ◌<◌, ◌≤◌, ◌==◌, true, length, take, map, List, All, IfOk, MatchOption, OnOk, slice_index, if◌then◌else◌};
ghost use Rattle.vod_level.specs.Cycle.{Chain, IsLeastCycle};
ghost use Rattle.vod_level.specs.Lists.{has, has_feed, feed};
ghost use Rattle.vod_level.specs.Peel.{IsPeeled};
ghost use Rattle.vod_level.specs.Steps.{reached_in, steps_with, reached_with, turned_feeds, IsReached, IsSteps, IsNearest, IsRound, IsFrom};

use crate::peel::{Peeled, peel};
use std::alloc::{AllocError, Global};
use vod_fanout::{FanOut, Feed};

/// The shortest cycle that begins with the least driver on one, and the least of these when compared number by number.
pub fn least_cycle(
    alloc: Global,
    count: u32,
    feeds: &[Feed],
    peeled: &Peeled,
) -> Result<Vec<u32>, AllocError>
    requires few { count < 2 ^ 25 }
    requires sources { All (λ f. f.source < count) feeds.now }
    requires readers { All (λ f. f.reader < count) feeds.now }
    requires short { length feeds.now < 2 ^ 32 }
    requires peeled { IsPeeled feeds.now count peeled.now.levels.items peeled.now.left.items }
    requires stuck { (q : ℕ) × (slice_index peeled.now.left.items q ≢ 0) }
    ensures { IfOk result (λ v. IsLeastCycle (has_feed feeds.now) v.items) }
{
    let turned = turned(alloc, feeds)?;
    let ahead = peel(alloc, count, turned.as_slice())?;
    for driver in 0..count {
        if peeled.left.as_slice()[driver as usize] == 0 {
            continue;
        }
        if ahead.left.as_slice()[driver as usize] == 0 {
            continue;
        }
        if let Some(cycle) = cycle_from(alloc, count, feeds, turned.as_slice(), driver)? {
            return Ok(cycle);
        }
    }
    unreachable!()
}

// The least of the shortest cycles that begin with a driver, if there is one.
fn cycle_from(
    alloc: Global,
    count: u32,
    feeds: &[Feed],
    turned: &[Feed],
    driver: u32,
) -> Result<Option<Vec<u32>>, AllocError>
    requires few { count < 2 ^ 25 }
    requires sources { All (λ f. f.source < count) feeds.now }
    requires readers { All (λ f. f.reader < count) feeds.now }
    requires short { length feeds.now < 2 ^ 32 }
    requires turned { turned.now ≡ turned_feeds feeds.now }
    requires within { driver < count }
    ensures { IfOk result (λ found. MatchOption found ((ds : List ℕ) → Chain (has_feed feeds.now) driver ds driver → ⊥) (λ v. IsFrom feeds.now count driver v.items)) }
{
    let steps = steps_to(alloc, count, turned, driver)?;
    if steps.as_slice()[driver as usize] == 0 {
        return Ok(None);
    }
    let cycle = walk(alloc, count, feeds, steps.as_slice(), driver)?;
    Ok(Some(cycle))
}

// Each feed from its reader to its source.
fn turned(alloc: Global, feeds: &[Feed]) -> Result<Vec<Feed>, AllocError>
    ensures { IfOk result (λ v. v.items ≡ turned_feeds feeds.now) }
{
    feeds
        .iter()
        .map(|f| Feed {
            source: f.reader,
            reader: f.source,
        })
        .collect(alloc)
}

// How many feeds lead from each driver to this one at least, or 0 where none do.
fn steps_to(alloc: Global, count: u32, turned: &[Feed], goal: u32) -> Result<Vec<u32>, AllocError>
    requires few { count < 2 ^ 25 }
    requires sources { All (λ f. f.source < count) turned.now }
    requires readers { All (λ f. f.reader < count) turned.now }
    requires short { length turned.now < 2 ^ 32 }
    requires within { goal < count }
    ensures { IfOk result (λ v. IsSteps turned.now count goal v.items) }
{
    let feeders = FanOut::new(alloc, count, turned)?;
    let mut steps = vec![in alloc; 0; count as usize]?;
    let mut reached = Vec::new(alloc);
    reach(feeders.of(goal), 1, &mut steps, &mut reached)?;
    let mut next = 0;
    while next < reached.len() {
        let driver = reached[next];
        let more = steps[driver as usize] + 1;
        reach(feeders.of(driver), more, &mut steps, &mut reached)?;
        next += 1;
    }
    Ok(steps)
}

// Reaches those of these drivers that weren't reached yet, with so many steps.
fn reach(
    drivers: &[u32],
    count: u32,
    steps: &mut [u32],
    reached: &mut Vec<u32>,
) -> Result<(), AllocError>
    requires inside { All (λ q. q < length steps.old) drivers.now }
    requires some { count ≢ 0 }
    requires before { IsReached steps.old reached.old.items }
    ensures steps { OnOk result ((q : ℕ) → q < length steps.old → slice_index steps.new q ≡ reached_in (has drivers.now q) count (slice_index steps.old q)) }
    ensures after { OnOk result (IsReached steps.new reached.new.items) }
    ensures behind { OnOk result (take (length reached.old.items) reached.new.items ≡ reached.old.items) }
    ensures added { OnOk result ((i : ℕ) → length reached.old.items ≤ i → i < length reached.new.items → slice_index steps.new (slice_index reached.new.items i) ≡ count) }
{
    for driver in drivers {
        reach_one(*driver, count, steps, reached)?;
    }
    Ok(())
}

// Reaches a driver, unless it was reached before.
fn reach_one(
    driver: u32,
    count: u32,
    steps: &mut [u32],
    reached: &mut Vec<u32>,
) -> Result<(), AllocError>
    requires { driver < length steps.old }
    ensures steps { OnOk result (steps.new ≡ steps_with steps.old driver count) }
    ensures reached { OnOk result (reached.new.items ≡ reached_with steps.old driver reached.old.items) }
{
    if steps[driver as usize] != 0 {
        return Ok(());
    }
    reached.push(driver)?;
    steps[driver as usize] = count;
    Ok(())
}

// The cycle that goes from a driver over the least nearer one each time.
fn walk(
    alloc: Global,
    count: u32,
    feeds: &[Feed],
    steps: &[u32],
    goal: u32,
) -> Result<Vec<u32>, AllocError>
    requires few { count < 2 ^ 25 }
    requires sources { All (λ f. f.source < count) feeds.now }
    requires readers { All (λ f. f.reader < count) feeds.now }
    requires short { length feeds.now < 2 ^ 32 }
    requires steps { IsSteps (turned_feeds feeds.now) count goal steps.now }
    requires reached { slice_index steps.now goal ≢ 0 }
    ensures { IfOk result (λ v. IsRound (has_feed feeds.now) steps.now goal v.items) }
{
    let readers = FanOut::new(alloc, count, feeds)?;
    let mut cycle = Vec::new(alloc);
    cycle.push(goal)?;
    let mut driver = goal;
    let mut left = steps[goal as usize];
    while left > 1 {
        left -= 1;
        driver = nearest(readers.of(driver), steps, left);
        cycle.push(driver)?;
    }
    Ok(cycle)
}

// The least of these drivers that has so many steps to go.
fn nearest(drivers: &[u32], steps: &[u32], count: u32) -> u32
    requires inside { All (λ q. q < length steps.now) drivers.now }
    requires few { length steps.now < 2 ^ 25 }
    requires some { (q : ℕ) × (has drivers.now q ≡ true) × (slice_index steps.now q ≡ count) }
    ensures { IsNearest drivers.now steps.now count result }
{
    let mut least = u32::MAX;
    for driver in drivers {
        least = least.min(driver_at(*driver, steps[*driver as usize], count));
    }
    least
}

// A driver that has so many steps to go, else the greatest number.
fn driver_at(driver: u32, steps: u32, count: u32) -> u32
    ensures { result ≡ (if steps == count then driver else 2 ^ 32 - 1) }
{
    if steps == count { driver } else { u32::MAX }
}
