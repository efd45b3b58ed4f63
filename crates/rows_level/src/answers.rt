//! What `order` answers on drivers.
ghost use Rattle.std.specs.Prelude.{◌≡◌, ◌<◌, ◌^◌, length, true, All};

use crate::{drivers, made};
use std::alloc::{AllocError, Global};
use std::io;
use vod_bits::WIDTH;
use vod_design::{Driver, Places};
use vod_level::types::{OrderFault, Rank};
use vod_level::{SIGNALS, order};

/// The drivers of all words, none where one is no driver.
pub fn drivers_of(alloc: Global, words: &[&str]) -> Result<Option<Vec<Driver>>, AllocError> {
    let mut list = Vec::new(alloc);
    for word in words {
        match drivers::driver(alloc, word)? {
            Some(driver) => list.push(driver)?,
            None => return Ok(None),
        }
    }
    Ok(Some(list))
}

/// Whether each bit of a target is one of a signal that there can be.
fn is_inside(target: &Places) -> bool
    ensures { result ≡ true → All (λ b. (b.signal < SIGNALS) × (b.bit < WIDTH)) target.now }
{
    target
        .as_slice()
        .iter()
        .all(|b| b.signal < SIGNALS && b.bit < WIDTH)
}

/// Whether drivers are few, and write such bits.
fn are_inside(drivers: &[Driver]) -> bool
    ensures inside { result ≡ true → All (λ d. All (λ b. (b.signal < SIGNALS) × (b.bit < WIDTH)) d.target) drivers.now }
    ensures few { result ≡ true → length drivers.now < 2 ^ 25 }
{
    if drivers.len() > 1_000_000 {
        return false;
    }
    drivers.iter().all(|driver| is_inside(&driver.target))
}

fn print_rank(rt: &impl Print, rank: Rank) -> io::Result<()> {
    let Rank { driver, level } = rank;
    print!(rt; " {driver}@{level}")
}

/// Prints all ranks, or the first and the last of many.
fn print_ranks(rt: &impl Print, ranks: &[Rank], all: bool) -> io::Result<()> {
    if all {
        for rank in ranks {
            print_rank(rt, *rank)?;
        }
        return Ok(());
    }
    let count = ranks.len();
    print!(rt; " {count} drivers:")?;
    if let Some(rank) = ranks.first() {
        print_rank(rt, *rank)?;
    }
    if let Some(rank) = ranks.last() {
        print_rank(rt, *rank)?;
    }
    Ok(())
}

/// Prints a cycle, or how long it is and its ends.
fn print_cycle(rt: &impl Print, cycle: &[u32], all: bool) -> io::Result<()> {
    rt.print(" cycle")?;
    if all {
        for driver in cycle {
            print!(rt; " {driver}")?;
        }
        return Ok(());
    }
    let count = cycle.len();
    let first = cycle.first().copied().unwrap_or(0);
    let last = cycle.last().copied().unwrap_or(0);
    print!(rt; " of {count}: {first} .. {last}")
}

/// Prints what `order` gives for drivers.
fn print_order(rt: &(impl Print + AllocGlobal), drivers: &[Driver], all: bool) -> io::Result<()> {
    if !are_inside(drivers) {
        return rt.print(" not a row");
    }
    match order(rt.alloc(), drivers) {
        Ok(order) => print_ranks(rt, order.ranks(), all),
        Err(OrderFault::Cycle(cycle)) => print_cycle(rt, cycle.as_slice(), all),
        Err(OrderFault::Memory) => rt.print(" out of memory"),
    }
}

/// Prints the order of the drivers of words.
pub fn order_of(rt: &(impl Print + AllocGlobal), words: &[&str]) -> io::Result<()> {
    match drivers_of(rt.alloc(), words)? {
        Some(drivers) => print_order(rt, drivers.as_slice(), true),
        None => rt.print(" not a row"),
    }
}

/// Prints the ends of the order of a mesh, by its size and its reach.
pub fn mesh(rt: &(impl Print + AllocGlobal), words: &[&str]) -> io::Result<()> {
    let [count, reach] = words else {
        return rt.print(" not a row");
    };
    match (count.parse(), reach.parse()) {
        (Ok(count), Ok(reach)) => {
            let drivers = made::mesh(rt.alloc(), count, reach)?;
            print_order(rt, drivers.as_slice(), false)
        }
        _ => rt.print(" not a row"),
    }
}

/// Prints the ends of the cycle of a ring, by its size.
pub fn ring(rt: &(impl Print + AllocGlobal), words: &[&str]) -> io::Result<()> {
    let [count] = words else {
        return rt.print(" not a row");
    };
    match count.parse() {
        Ok(count) => {
            let drivers = made::ring(rt.alloc(), count)?;
            print_order(rt, drivers.as_slice(), false)
        }
        Err(_) => rt.print(" not a row"),
    }
}
