//! Rows over compiled expressions: the name of one (trees.rt has them) and the values of four signals of four bits, with commas
//! between. The answer is its value over known values, where all are, and over values of four states.
#![tactic(auto)]

mod trees;

ghost use Rattle.std.specs.Prelude.{◌≤◌, [], IfOk, vec_len};
ghost use Rattle.vod_compiled.specs.Code.{room};

use rows_digits::{Digits, named, value};
use sqlite_items::Items;
use std::alloc::{AllocError, Global};
use std::io;
use trees::Shape;
use vod_bits::Bits;
use vod_compiled::Compiled;
use vod_design::SizedExpr;
use vod_eval::Lists;
use vod_four::Four;
use vod_value::Value;

/// Cells for the value of an expression that calls nothing.
fn cells<V: Value>(alloc: Global, compiled: &Compiled<'_>) -> Result<Vec<V>, AllocError>
    ensures { IfOk result (λ v. room [] compiled.now ≤ vec_len v) }
{
    let count = compiled.room(&[]);
    let mut cells = Vec::new(alloc);
    for _ in 0..count {
        cells.push(V::nothing())?;
    }
    Ok(cells)
}

/// The value of an expression over signals, by its compiled form.
fn value_over<V: Value>(alloc: Global, signals: &[V], e: &SizedExpr) -> Result<V, AllocError> {
    let compiled = Compiled::of(alloc, e)?;
    let mut words = Items::new(alloc);
    for value in signals {
        words.push(*value)?;
    }
    let memories = [words];
    let tables = Lists {
        signals,
        memories: &memories,
    };
    let mut cells = cells(alloc, &compiled)?;
    Ok(compiled.value(&[], &tables, &mut cells))
}

/// The values as known ones, none where one of them isn't known.
fn known(alloc: Global, values: &[Four]) -> Result<Option<Vec<Bits>>, AllocError> {
    let mut known = Vec::new(alloc);
    for value in values {
        match value.known() {
            Some(bits) => known.push(bits)?,
            None => return Ok(None),
        }
    }
    Ok(Some(known))
}

fn print_value(rt: &(impl Print + AllocGlobal), signals: &[Four], e: &SizedExpr) -> io::Result<()> {
    match known(rt.alloc(), signals)? {
        Some(bits) => {
            let value = value_over(rt.alloc(), &bits, e)?;
            print!(rt; " {}", Digits(Four::of(value)))?;
        }
        None => rt.print(" -")?,
    }
    let value = value_over(rt.alloc(), signals, e)?;
    print!(rt; " {}", Digits(value))
}

fn values(alloc: Global, text: &str) -> Result<Vec<Four>, AllocError> {
    let mut values = Vec::new(alloc);
    for digits in text.split(',') {
        if let Some(value) = value(digits) {
            values.push(value)?;
        }
    }
    Ok(values)
}

const SHAPES: [(&str, Shape); 8] = [
    ("sums", Shape::Sums),
    ("negated", Shape::Negated),
    ("choice", Shape::Choice),
    ("joined", Shape::Joined),
    ("tests", Shape::Tests),
    ("indexed", Shape::Indexed),
    ("words", Shape::Words),
    ("gate", Shape::Gate),
];

/// Prints what the words of a row give.
fn answer(rt: &(impl Print + AllocGlobal), words: &[&str]) -> io::Result<()> {
    let [shape, digits] = words else {
        return rt.print(" not a row");
    };
    let Some(shape) = named(shape, &SHAPES) else {
        return rt.print(" not a row");
    };
    let signals = values(rt.alloc(), digits)?;
    let e = trees::expr(rt.alloc(), shape)?;
    print_value(rt, signals.as_slice(), e.get())
}

/// Prints a line, and behind a row what it gives.
fn row(rt: &(impl Print + AllocGlobal), line: &str) -> io::Result<()> {
    if line.is_empty() || line.starts_with('#') {
        return rt.println(line);
    }
    let words: Vec<&str> = line.split_whitespace().collect(rt.alloc())?;
    print!(rt; "{line} ->")?;
    answer(rt, words.as_slice())?;
    rt.println("")
}

fn main(rt: HostRuntime) -> io::Result<()> {
    for line in rt.lines(rt.alloc()) {
        row(&rt, line?.as_str())?;
    }
    Ok(())
}
