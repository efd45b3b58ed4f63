//! Times how slots of a dump are written: `bench_vcd COUNT` writes so many slots in which a thousand vectors of 32 bits change, and
//! prints how many millions of bytes are written in a second; then so many in which five vectors of ten thousand change, with all
//! vectors looked at and with those alone that were written, and prints the nanoseconds of a slot. Each is the best of five. Without
//! a count it does nothing.
#![tactic(auto)]

mod sink;

ghost use Rattle.std.specs.Prelude.{◌≡◌, length, vec_len};
ghost use Rattle.vod_vcd.specs.Page.{Covers};

use rows_idle::design;
use rows_written::covers;
use sink::Counter;
use std::alloc::{AllocError, Global};
use std::time::Instant;
use std::{env, io};
use vod_design::{Design, Name, Precision, Scope, Signal, Unit};
use vod_four::Four;
use vod_vcd::Writer;

/// How often each is timed.
const TRIES: u32 = 5;

fn register(alloc: Global) -> Result<Signal, AllocError> {
    Ok(Signal {
        name: Name::new(Vec::from_slice(alloc, b"r")?),
        scope: 0,
        width: 32,
        lsb: 0,
        ranged: true,
        register: true,
    })
}

/// A design of so many registers of 32 bits.
fn registers(alloc: Global, count: usize) -> Result<Option<Design>, AllocError> {
    let mut signals = Vec::with_capacity(alloc, count)?;
    for _ in 0..count {
        signals.push(register(alloc)?)?;
    }
    let name = Name::new(Vec::from_slice(alloc, b"top")?);
    let mut scopes = Vec::with_capacity(alloc, 1)?;
    scopes.push(Scope { name, parent: None })?;
    let precision = Precision {
        count: 1,
        unit: Unit::Ns,
    };
    design(alloc, signals, scopes, precision)
}

fn known(number: u64) -> Four {
    Four {
        width: 32,
        ones: number % 4_294_967_296,
        unks: 0,
    }
}

/// So many values that have their upper bit, or that of each the complement.
fn values(alloc: Global, count: usize, complement: bool) -> Result<Vec<Four>, AllocError> {
    let mut values = Vec::with_capacity(alloc, count)?;
    for place in 0..count {
        let number = (place as u64).wrapping_mul(2_654_435_761) % 1_073_741_824 + 3_221_225_472;
        let flips = if complement { 1_073_741_823 } else { 0 };
        values.push(known(number ^ flips))?;
    }
    Ok(values)
}

/// Writes so many times a slot with the first values, and one with the second.
fn asked(writer: &mut Writer, first: &[Four], second: &[Four], count: u64, out: &mut Counter)
    requires first { length first.now ≡ writer.old.signals }
    requires second { length second.now ≡ writer.old.signals }
    ensures { writer.new.signals ≡ writer.old.signals }
{
    for slot in 0..count {
        if writer.slot(slot, first, out).is_err() {
            return;
        }
        if writer.slot(slot, second, out).is_err() {
            return;
        }
    }
}

/// The same where the numbers of the signals that were written are told.
fn told(
    writer: &mut Writer,
    first: &[Four],
    second: &[Four],
    written: &[u32],
    count: u64,
    out: &mut Counter,
)
    requires size { length first.now ≡ writer.old.signals }
    requires same { length second.now ≡ writer.old.signals }
    requires there { Covers written.now first.now second.now }
    requires back { Covers written.now second.now first.now }
    requires shown { writer.old.shown ≡ second.now }
{
    for slot in 0..count {
        if writer.slot_of(slot, first, written, out).is_err() {
            return;
        }
        if writer.slot_of(slot, second, written, out).is_err() {
            return;
        }
    }
}

/// The nanoseconds of so many pairs of slots in which all vectors are looked at, and how many bytes they are.
fn best_asked(
    rt: &HostRuntime,
    count: u64,
    writer: &mut Writer,
    first: &[Four],
    second: &[Four],
) -> io::Result<(u128, u64)>
    requires first { length first.now ≡ writer.old.signals }
    requires second { length second.now ≡ writer.old.signals }
{
    let mut best = u128::MAX;
    let mut bytes = 0;
    for _ in 0..TRIES {
        let mut out = Counter::new();
        let start = Instant::now(rt)?;
        asked(writer, first, second, count, &mut out);
        best = start.elapsed(rt)?.as_nanos().min(best);
        bytes = out.bytes;
    }
    Ok((best, bytes))
}

/// The nanoseconds of so many pairs of slots in which the vectors that were written are told.
fn told_time(
    rt: &HostRuntime,
    count: u64,
    design: &Design,
    first: &[Four],
    second: &[Four],
    written: &[u32],
) -> io::Result<u128>
    requires first { length first.now ≡ length design.now.netlist.signals }
    requires second { length second.now ≡ length design.now.netlist.signals }
    requires there { Covers written.now first.now second.now }
    requires back { Covers written.now second.now first.now }
{
    let Ok(mut writer) = Writer::new(rt.alloc(), design, b"") else {
        return Ok(0);
    };
    let mut out = Counter::new();
    if writer.opening(0, second, &mut out).is_err() {
        return Ok(0);
    }
    let start = Instant::now(rt)?;
    told(&mut writer, first, second, written, count, &mut out);
    Ok(start.elapsed(rt)?.as_nanos())
}

/// Prints how fast a thousand vectors that all change are written.
fn all_change(rt: &HostRuntime, count: u64) -> io::Result<()> {
    let first = values(rt.alloc(), 1000, false)?;
    let second = values(rt.alloc(), 1000, true)?;
    let Some(design) = registers(rt.alloc(), 1000)? else {
        return Ok(());
    };
    let signals = design.signals().len();
    let Ok(mut writer) = Writer::new(rt.alloc(), &design, b"") else {
        return Ok(());
    };
    if first.len() != signals || second.len() != signals {
        return Ok(());
    }
    let (best, bytes) = best_asked(rt, count, &mut writer, &first, &second)?;
    let rate = u128::from(bytes).saturating_mul(1000) / best.max(1);
    println!(rt; "all of 1000 change: {bytes} bytes, {rate} MB/s")
}

/// The nanoseconds of each of so many pairs of slots.
fn each(nanoseconds: u128, count: u64) -> u128 {
    nanoseconds / u128::from(count.saturating_mul(2).max(1))
}

/// The values with five of them complemented.
fn changed(alloc: Global, values: &[Four], written: &[u32]) -> Result<Vec<Four>, AllocError> {
    let mut changed = values.to_vec(alloc)?;
    for number in written {
        if let Some(value) = changed.get_mut(*number as usize) {
            *value = value.not();
        }
    }
    Ok(changed)
}

/// Prints how fast a slot is in which five of ten thousand vectors change.
fn few_change(rt: &HostRuntime, count: u64) -> io::Result<()> {
    let written = [7777, 5, 9999, 4321, 1234];
    let first = values(rt.alloc(), 10_000, false)?;
    let second = changed(rt.alloc(), &first, &written)?;
    let Some(design) = registers(rt.alloc(), 10_000)? else {
        return Ok(());
    };
    let signals = design.signals().len();
    let Ok(mut writer) = Writer::new(rt.alloc(), &design, b"") else {
        return Ok(());
    };
    if first.len() != signals || second.len() != signals || signals > 10_000 {
        return Ok(());
    }
    let (all, _) = best_asked(rt, count, &mut writer, &first, &second)?;
    if !covers(&written, &first, &second) {
        return Ok(());
    }
    if !covers(&written, &second, &first) {
        return Ok(());
    }
    let mut best = u128::MAX;
    for _ in 0..TRIES {
        best = told_time(rt, count, &design, &first, &second, &written)?.min(best);
    }
    println!(rt;
        "5 of 10000 change: {} ns a slot, {} ns where they are told",
        each(all, count),
        each(best, count)
    )
}

fn both(rt: &HostRuntime, count: u64) -> io::Result<()> {
    all_change(rt, count)?;
    few_change(rt, count)
}

fn main(rt: HostRuntime) -> io::Result<()> {
    let words: Vec<String> = env::args(&rt)?.skip(1).collect(rt.alloc())?;
    match words.first() {
        None => Ok(()),
        Some(word) => match word.parse() {
            Ok(count) => both(&rt, count),
            Err(_) => rt.println("not a count"),
        },
    }
}
