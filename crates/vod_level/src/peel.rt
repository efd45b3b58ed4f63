//! Levels, by taking away each driver once all that feed it are taken away.
ghost use Rattle.std.specs.Prelude.{◌≡◌, ℕ, ◌+◌, ◌^◌, ◌<◌, ◌≤◌, [], length, take, All, IfOk, OnOk, slice_index};
ghost use Rattle.vod_level.specs.Lists.{has};
ghost use Rattle.vod_level.specs.Peel.{times, waits, added_if_none, raised, IsReady, IsPeeled};

use std::alloc::{AllocError, Global};
use vod_fanout::{FanOut, Feed};

/// How far drivers could be taken away.
#[derive(Drop)]
pub struct Peeled {
    /// The level of each driver that could be.
    pub levels: Vec<u32>,
    /// How many feeds each driver still has from drivers that couldn't be.
    pub left: Vec<u32>,
}

/// Takes away each of so many drivers once all that feed it are taken away.
pub fn peel(alloc: Global, count: u32, feeds: &[Feed]) -> Result<Peeled, AllocError>
    requires few { count < 2 ^ 25 }
    requires sources { All (λ f. f.source < count) feeds.now }
    requires readers { All (λ f. f.reader < count) feeds.now }
    requires short { length feeds.now < 2 ^ 32 }
    ensures { IfOk result (λ p. IsPeeled feeds.now count p.levels.items p.left.items) }
{
    let readers = FanOut::new(alloc, count, feeds)?;
    let mut left = waiting(alloc, count, feeds)?;
    let mut levels = vec![in alloc; 0; count as usize]?;
    let mut ready = ready(alloc, left.as_slice())?;
    let mut next = 0;
    while next < ready.len() {
        let driver = ready[next];
        let level = levels[driver as usize];
        raise(readers.of(driver), level, &mut levels);
        release(readers.of(driver), &mut left, &mut ready)?;
        next += 1;
    }
    Ok(Peeled { levels, left })
}

// How many feeds each driver has.
fn waiting(alloc: Global, count: u32, feeds: &[Feed]) -> Result<Vec<u32>, AllocError>
    requires readers { All (λ f. f.reader < count) feeds.now }
    requires short { length feeds.now < 2 ^ 32 }
    ensures size { IfOk result (λ v. length v.items ≡ count) }
    ensures each { IfOk result (λ v. (q : ℕ) → q < count → slice_index v.items q ≡ waits [] feeds.now q) }
{
    let mut waiting = vec![in alloc; 0; count as usize]?;
    for feed in feeds {
        waiting[feed.reader as usize] += 1;
    }
    Ok(waiting)
}

// The drivers that wait for none.
fn ready(alloc: Global, left: &[u32]) -> Result<Vec<u32>, AllocError>
    requires { length left.now < 2 ^ 25 }
    ensures { IfOk result (λ v. IsReady left.now v.items) }
{
    let mut ready = Vec::new(alloc);
    for (driver, feeds) in left.iter().enumerate() {
        add_if_none(driver as u32, *feeds, &mut ready)?;
    }
    Ok(ready)
}

// Drivers that one of a level feeds have a greater one.
fn raise(readers: &[u32], level: u32, levels: &mut [u32])
    requires inside { All (λ q. q < length levels.old) readers.now }
    requires low { level < 2 ^ 25 }
    ensures { (q : ℕ) → q < length levels.old → slice_index levels.new q ≡ raised (has readers.now q) level (slice_index levels.old q) }
{
    for reader in readers {
        let at = *reader as usize;
        levels[at] = levels[at].max(level + 1);
    }
}

// Takes away a feed of each of these readers; those that wait for none more are ready.
fn release(readers: &[u32], left: &mut [u32], ready: &mut Vec<u32>) -> Result<(), AllocError>
    requires inside { All (λ q. q < length left.old) readers.now }
    requires fed { (q : ℕ) → times readers.now q ≤ slice_index left.old q }
    requires before { IsReady left.old ready.old.items }
    ensures left { OnOk result ((q : ℕ) → slice_index left.new q + times readers.now q ≡ slice_index left.old q) }
    ensures after { OnOk result (IsReady left.new ready.new.items) }
    ensures behind { OnOk result (take (length ready.old.items) ready.new.items ≡ ready.old.items) }
{
    for reader in readers {
        let fewer = left[*reader as usize] - 1;
        left[*reader as usize] = fewer;
        add_if_none(*reader, fewer, ready)?;
    }
    Ok(())
}

// Adds a driver that waits for none.
fn add_if_none(driver: u32, left: u32, ready: &mut Vec<u32>) -> Result<(), AllocError>
    ensures { OnOk result (ready.new.items ≡ added_if_none driver left ready.old.items) }
{
    if left == 0 {
        ready.push(driver)?;
    }
    Ok(())
}
