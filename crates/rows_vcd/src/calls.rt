//! The calls of a writer, as a row writes them.
ghost use Rattle.std.specs.Prelude.{◌≡◌, IsTrue, IfOk, vec_len};

use crate::parts::cut;
use rows_written::covers;
use std::alloc::{AllocError, Global};
use vod_four::Four;
use vod_io::MemSink;
use vod_vcd::Writer;

/// The most signals of a row.
const MOST: usize = 16_384;

fn values(alloc: Global, words: &str) -> Result<Vec<Four>, AllocError> {
    let mut values = Vec::new(alloc);
    for word in words.split(' ') {
        if let Some(value) = rows_digits::value(word) {
            values.push(value)?;
        }
    }
    Ok(values)
}

fn numbers(alloc: Global, words: &str) -> Result<Vec<u32>, AllocError> {
    let mut numbers = Vec::new(alloc);
    for word in words.split(' ') {
        if let Ok(number) = word.parse() {
            numbers.push(number)?;
        }
    }
    Ok(numbers)
}

fn time(word: &str) -> u64 {
    word.parse().unwrap_or(0)
}

// A slot, and what is shown behind it.
fn slot(
    writer: &mut Writer,
    shown: &mut Vec<Four>,
    time: u64,
    values: &[Four],
    out: &mut MemSink,
) -> bool
    requires shown { writer.old.shown ≡ shown.old.items }
    requires size { writer.old.signals ≡ vec_len shown.old }
    ensures shown { IsTrue result → writer.new.shown ≡ shown.new.items }
    ensures size { IsTrue result → writer.new.signals ≡ vec_len shown.new }
{
    if values.len() != shown.len() {
        return false;
    }
    if writer.slot(time, values, out).is_err() {
        return false;
    }
    shown.copy_from_slice(values);
    true
}

// The same of a slot in which some signals were written.
fn slot_of(
    writer: &mut Writer,
    shown: &mut Vec<Four>,
    time: u64,
    values: &[Four],
    written: &[u32],
    out: &mut MemSink,
) -> bool
    requires shown { writer.old.shown ≡ shown.old.items }
    requires size { writer.old.signals ≡ vec_len shown.old }
    ensures shown { IsTrue result → writer.new.shown ≡ shown.new.items }
    ensures size { IsTrue result → writer.new.signals ≡ vec_len shown.new }
{
    if values.len() != shown.len() || values.len() > MOST {
        return false;
    }
    if !covers(written, shown, values) {
        return false;
    }
    if writer.slot_of(time, values, written, out).is_err() {
        return false;
    }
    shown.copy_from_slice(values);
    true
}

// Makes a call; false where it failed or isn't one.
fn call(
    alloc: Global,
    writer: &mut Writer,
    shown: &mut Vec<Four>,
    text: &str,
    out: &mut MemSink,
) -> Result<bool, AllocError>
    requires shown { writer.old.shown ≡ shown.old.items }
    requires size { writer.old.signals ≡ vec_len shown.old }
    ensures shown { IfOk result (λ fine. IsTrue fine → writer.new.shown ≡ shown.new.items) }
    ensures size { IfOk result (λ fine. IsTrue fine → writer.new.signals ≡ vec_len shown.new) }
{
    let (word, rest) = cut(text, ' ');
    let (at, rest) = cut(rest, ' ');
    let (given, written) = cut(rest, '/');
    let values = values(alloc, given)?;
    let written = numbers(alloc, written)?;
    let fine = match word {
        "slot" => slot(writer, shown, time(at), &values, out),
        "written" => slot_of(writer, shown, time(at), &values, &written, out),
        "close" => writer.close(time(at), out).is_ok(),
        "" => true,
        _ => false,
    };
    Ok(fine)
}

// Makes calls, up to one that failed or isn't one.
fn calls(
    alloc: Global,
    writer: &mut Writer,
    shown: &mut Vec<Four>,
    text: &str,
    out: &mut MemSink,
) -> Result<bool, AllocError>
    requires shown { writer.old.shown ≡ shown.old.items }
    requires size { writer.old.signals ≡ vec_len shown.old }
{
    for part in text.split(',') {
        if !call(alloc, writer, shown, part, out)? {
            return Ok(false);
        }
    }
    Ok(true)
}

/// Makes the opening and the calls behind it, up to one that failed or isn't one.
pub fn written(
    alloc: Global,
    writer: &mut Writer,
    signals: usize,
    opening: &str,
    text: &str,
    out: &mut MemSink,
) -> Result<bool, AllocError>
    requires { writer.old.signals ≡ signals }
{
    let (at, given) = cut(opening, ' ');
    let mut shown = values(alloc, given)?;
    if shown.len() != signals {
        return Ok(false);
    }
    if writer.opening(time(at), &shown, out).is_err() {
        return Ok(false);
    }
    calls(alloc, writer, &mut shown, text, out)
}
