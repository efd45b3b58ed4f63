//! The feeds among drivers, by the bits that they write and read.
ghost use Rattle.std.specs.Prelude.{◌≡◌, ℕ, ◌+◌, ◌*◌, ◌-◌, ◌^◌, ◌<◌, ◌≤◌, ◌&&◌, ◌||◌, ◌==◌, [], ◌++◌, length, map, All, IfOk, OnOk, min, true};
ghost use Rattle.std.specs.List.{list_any};
ghost use Rattle.vod_design.specs.Reads.{reads};
ghost use Rattle.vod_design.specs.Values.{bounded};
ghost use Rattle.vod_design.specs.Feeds.{feeds};
ghost use Rattle.vod_level.specs.Lists.{has, has_feed, is_feed, feed};
ghost use Rattle.vod_level.specs.Bits.{number_of, written_from, span_of, read_span, writes_among, writes_read, feeds_from};
ghost use Rattle.vod_fanout.specs.FanOut.{fan_out};

use crate::SIGNALS;
use std::alloc::{AllocError, Global};
use vod_bits::WIDTH;
use vod_design::{Driver, Place, Places, Read};
use vod_eval::add_reads;
use vod_fanout::{FanOut, Feed};

/// Bits of signals, by their numbers: from the first up to the end.
#[derive(Clone, Copy)]
struct Span {
    first: u32,
    end: u32,
}

/// Each feed of one driver by another.
pub fn edges(alloc: Global, drivers: &[Driver]) -> Result<Vec<Feed>, AllocError>
    requires few { length drivers.now < 2 ^ 25 }
    requires inside { All (λ d. All (λ b. (b.signal < SIGNALS) × (b.bit < WIDTH)) d.target) drivers.now }
    ensures feeds { IfOk result (λ v. (p q : ℕ) → has_feed v.items p q ≡ feeds drivers.now p q) }
    ensures short { IfOk result (λ v. length v.items < 2 ^ 32) }
{
    let written = written(alloc, drivers)?;
    let writers = FanOut::new(alloc, SIGNALS * u32::from(WIDTH), written.as_slice())?;
    let list = feeds_of(alloc, &writers, drivers)?;
    if list.len() > u32::MAX as usize {
        return Err(AllocError);
    }
    Ok(list)
}

// The feeds of all drivers, where it is known who writes each bit.
fn feeds_of(alloc: Global, writers: &FanOut, drivers: &[Driver]) -> Result<Vec<Feed>, AllocError>
    requires few { length drivers.now < 2 ^ 25 }
    requires bits { length writers.now ≡ SIGNALS * WIDTH }
    ensures { IfOk result (λ v. (p q : ℕ) → has_feed v.items p q ≡ feeds_from writers.now 0 drivers.now p q) }
{
    let mut list = Vec::new(alloc);
    for (reader, driver) in drivers.iter().enumerate() {
        let reads = reads_of(alloc, driver)?;
        add_all(writers, reads.as_slice(), reader as u32, &mut list)?;
    }
    Ok(list)
}

// What a driver reads.
fn reads_of(alloc: Global, driver: &Driver) -> Result<Vec<Read>, AllocError>
    ensures { IfOk result (λ v. v.items ≡ reads driver.now.value) }
{
    let mut list = Vec::new(alloc);
    add_reads(&driver.value, &mut list)?;
    Ok(list)
}

// The number of a bit.
fn number(bit: Place) -> u32
    requires signal { bit.signal < SIGNALS }
    requires place { bit.bit < WIDTH }
    ensures { result ≡ number_of bit }
{
    bit.signal * u32::from(WIDTH) + u32::from(bit.bit)
}

// The driver that writes each bit, as its reader; so few that they can be numbered.
fn written(alloc: Global, drivers: &[Driver]) -> Result<Vec<Feed>, AllocError>
    requires few { length drivers.now < 2 ^ 25 }
    requires inside { All (λ d. All (λ b. (b.signal < SIGNALS) × (b.bit < WIDTH)) d.target) drivers.now }
    ensures written { IfOk result (λ v. v.items ≡ written_from 0 drivers.now) }
    ensures short { IfOk result (λ v. length v.items < 2 ^ 32) }
{
    let mut list = Vec::new(alloc);
    for (driver, item) in drivers.iter().enumerate() {
        add_written(driver as u32, &item.target, &mut list)?;
    }
    if list.len() > u32::MAX as usize {
        return Err(AllocError);
    }
    Ok(list)
}

// Adds the bits that a driver writes.
fn add_written(driver: u32, target: &Places, list: &mut Vec<Feed>) -> Result<(), AllocError>
    requires { All (λ b. (b.signal < SIGNALS) × (b.bit < WIDTH)) target.now }
    ensures { OnOk result (list.new.items ≡ list.old.items ++ map (λ b. feed (number_of b) driver) target.now) }
{
    for bit in target.as_slice() {
        list.push(Feed {
            source: number(*bit),
            reader: driver,
        })?;
    }
    Ok(())
}

// The bits that are read.
fn bits_read(read: Read) -> Span
    ensures { result ≡ read_span read }
{
    match read {
        Read::Whole(signal) => bits(signal, 0, u32::from(WIDTH)),
        Read::Bits(signal, low, width) => {
            let low = u32::from(low);
            bits(signal, low, low + u32::from(width.min(WIDTH).max(1)))
        }
        Read::Word(_, _) | Read::Ram(_) => Span { first: 0, end: 0 },
    }
}

// Bits of a signal from one place up to another.
fn bits(signal: u32, low: u32, high: u32) -> Span
    ensures { result ≡ span_of signal low high }
{
    if signal >= SIGNALS {
        return Span { first: 0, end: 0 };
    }
    let width = u32::from(WIDTH);
    let start = signal * width;
    Span {
        first: start + low.min(width),
        end: start + high.min(width),
    }
}

// Adds the feeds of a driver that reads these.
fn add_all(
    writers: &FanOut,
    reads: &[Read],
    reader: u32,
    list: &mut Vec<Feed>,
) -> Result<(), AllocError>
    requires { length writers.now ≡ SIGNALS * WIDTH }
    ensures { OnOk result ((p q : ℕ) → has_feed list.new.items p q ≡ (has_feed list.old.items p q || (list_any (writes_read writers.now p) reads.now && (reader == q)))) }
{
    for read in reads {
        add_span(writers, bits_read(*read), reader, list)?;
    }
    Ok(())
}

// Adds the feeds of a driver that reads these bits.
fn add_span(
    writers: &FanOut,
    span: Span,
    reader: u32,
    list: &mut Vec<Feed>,
) -> Result<(), AllocError>
    requires { span.end ≤ length writers.now }
    ensures { OnOk result ((p q : ℕ) → has_feed list.new.items p q ≡ (has_feed list.old.items p q || (writes_among writers.now span.first (span.end - span.first) p && (reader == q)))) }
{
    for bit in span.first..span.end {
        add_writers(writers.of(bit), reader, list)?;
    }
    Ok(())
}

// Adds the feeds of a driver by each of these.
fn add_writers(writers: &[u32], reader: u32, list: &mut Vec<Feed>) -> Result<(), AllocError>
    ensures { OnOk result ((p q : ℕ) → has_feed list.new.items p q ≡ (has_feed list.old.items p q || (has writers.now p && (reader == q)))) }
{
    for writer in writers {
        add_once(
            Feed {
                source: *writer,
                reader,
            },
            list,
        )?;
    }
    Ok(())
}

// Adds a feed, where it isn't the last one already.
fn add_once(feed: Feed, list: &mut Vec<Feed>) -> Result<(), AllocError>
    ensures { OnOk result ((p q : ℕ) → has_feed list.new.items p q ≡ (has_feed list.old.items p q || is_feed p q feed)) }
{
    if is_last(list.as_slice(), feed) {
        return Ok(());
    }
    list.push(feed)?;
    Ok(())
}

// Whether a feed is the last of a list.
fn is_last(list: &[Feed], feed: Feed) -> bool
    ensures { result ≡ true → (p q : ℕ) → has_feed list.now p q ≡ (has_feed list.now p q || is_feed p q feed) }
{
    match list.last() {
        Some(last) => *last == feed,
        None => false,
    }
}
