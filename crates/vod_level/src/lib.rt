//! The order of drivers: each behind all that feed it, by levels; or the shortest cycle of the least driver that feeds itself.
#![tactic(auto)]

mod cycle;
mod edges;
mod peel;
mod ranks;
pub mod types;

ghost use Rattle.std.specs.Prelude.{◌≡◌, ◌≢◌, ℕ, true, false, ◌^◌, ◌<◌, List, length, All, IfOk, IfErr, OnOk, slice_index};
ghost use Rattle.vod_design.specs.Feeds.{feeds};
ghost use Rattle.vod_level.specs.Order.{IsOrder};
ghost use Rattle.vod_level.specs.Cycle.{IsCycle, IsCause};
ghost use Rattle.vod_level.specs.Lists.{has_feed};

use crate::cycle::least_cycle;
use crate::edges::edges;
use crate::peel::peel;
use crate::ranks::ranked;
use crate::types::{Order, OrderFault};
use std::alloc::Global;
use vod_bits::WIDTH;
use vod_design::{Driver, Drivers};
use vod_fanout::Feed;

/// The greatest number of signals of a design.
pub const SIGNALS: u32 = 16384;

/// Each driver once, behind all that feed it: by level, then by number. It takes time in proportion to the feeds where each bit has
/// one writer. A driver feeds another where a bit that it writes is a bit that the other reads; an index that isn't constant reads
/// every bit.
pub fn order(alloc: Global, drivers: &[Driver]) -> Result<Order, OrderFault>
    requires few { length drivers.now < 2 ^ 25 }
    requires inside { All (λ d. All (λ b. (b.signal < SIGNALS) × (b.bit < WIDTH)) d.target) drivers.now }
    ensures order { IfOk result (λ order. IsOrder (feeds drivers.now) (length drivers.now) order) }
    ensures acyclic { OnOk result ((ds : List ℕ) → IsCycle (feeds drivers.now) ds → ⊥) }
    ensures cause { IfErr result (IsCause (feeds drivers.now)) }
{
    let edges = edges(alloc, drivers)?;
    of_feeds(alloc, drivers.len() as u32, edges.as_slice())
}

// The order of so many drivers with these feeds.
fn of_feeds(alloc: Global, count: u32, feeds: &[Feed]) -> Result<Order, OrderFault>
    requires few { count < 2 ^ 25 }
    requires sources { All (λ f. f.source < count) feeds.now }
    requires readers { All (λ f. f.reader < count) feeds.now }
    requires short { length feeds.now < 2 ^ 32 }
    ensures order { IfOk result (λ order. IsOrder (has_feed feeds.now) count order) }
    ensures acyclic { OnOk result ((ds : List ℕ) → IsCycle (has_feed feeds.now) ds → ⊥) }
    ensures cause { IfErr result (IsCause (has_feed feeds.now)) }
{
    let peeled = peel(alloc, count, feeds)?;
    if is_done(peeled.left.as_slice()) {
        let ranks = ranked(alloc, peeled.levels.as_slice())?;
        return Ok(Order::new(ranks));
    }
    let cycle = least_cycle(alloc, count, feeds, &peeled)?;
    Err(OrderFault::Cycle(Drivers::new(cycle)))
}

// Whether nothing is left to any driver.
fn is_done(left: &[u32]) -> bool
    ensures yes { result ≡ true → (q : ℕ) → slice_index left.now q ≡ 0 }
    ensures stuck { result ≡ false → (q : ℕ) × (slice_index left.now q ≢ 0) }
{
    for feeds in left {
        if *feeds != 0 {
            return false;
        }
    }
    true
}
