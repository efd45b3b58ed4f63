//! Cells, and the operands of steps. An operand that has its size already is taken as it is: only others are resized, out of line.
ghost use Rattle.std.specs.Prelude.{◌≡◌, map, MatchOption};
ghost use Rattle.vod_bits.specs.Bit.{BX, bit_if};
ghost use Rattle.vod_design.specs.Values.{at_size, value_at};
ghost use Rattle.vod_compiled.specs.Steps.{world, source_bits, input_bits, at_step, truth_of, put};

use crate::step::{Input, Source, Step};
use vod_eval::{Tables, at_size};
use vod_value::Value;

// Puts a value into a cell, where there is one.
#[inline(always)]
#[tactic(auto, using(crate::proofs::Lists::map_put, crate::proofs::Lists::map_put_past))]
pub fn put<V: Value>(cells: &mut [V], to: usize, value: V)
    ensures { map V.bits cells.new ≡ put (map V.bits cells.old) to (V.bits value) }
{
    if to < cells.len() {
        cells[to] = value;
    }
}

// The value at a place, one bit that isn't there where there is none.
#[inline(always)]
#[tactic(auto, using(crate::proofs::Lists::value_at_map, crate::proofs::Lists::value_at_past))]
pub fn value_at<V: Value>(values: &[V], n: usize) -> V
    ensures { V.bits result ≡ value_at V.fill (map V.bits values.now) n }
{
    if n < values.len() {
        values[n]
    } else {
        V::nothing()
    }
}

// The bits of a source.
#[inline(always)]
pub fn source<V: Value, T: Tables<V>>(tables: &T, cells: &[V], source: Source) -> V
    ensures { V.bits result ≡ source_bits (world V.fill (T.values tables.now)) (map V.bits cells.now) source }
{
    match source {
        Source::Signal(n) => tables.signal(n),
        Source::Cell(n) => value_at(cells, n),
        Source::Constant(bits) => V::of(bits),
        Source::Nothing => V::nothing(),
    }
}

// The bits of an operand, where they have its size already.
#[inline(always)]
#[tactic(auto, using(crate::proofs::Cuts::at_size_ready))]
pub fn ready<V: Value, T: Tables<V>>(tables: &T, cells: &[V], operand: &Input) -> Option<V>
    ensures { MatchOption result (Unit {0}) (λ v. V.bits v ≡ input_bits (world V.fill (T.values tables.now)) (map V.bits cells.now) operand.now) }
{
    let value = source(tables, cells, operand.source);
    if value.width() == operand.width {
        Some(value)
    } else {
        None
    }
}

// An operand, resized to its size.
#[inline(never)]
fn resized<V: Value, T: Tables<V>>(tables: &T, cells: &[V], operand: &Input) -> V
    ensures { V.bits result ≡ input_bits (world V.fill (T.values tables.now)) (map V.bits cells.now) operand.now }
{
    at_size(
        source(tables, cells, operand.source),
        operand.width,
        operand.signed,
    )
}

// An operand at its own size and sign.
#[inline(always)]
pub fn input<V: Value, T: Tables<V>>(tables: &T, cells: &[V], operand: &Input) -> V
    ensures { V.bits result ≡ input_bits (world V.fill (T.values tables.now)) (map V.bits cells.now) operand.now }
{
    match ready(tables, cells, operand) {
        Some(value) => value,
        None => resized(tables, cells, operand),
    }
}

// The bits of an operand, where they have the size of the step already.
#[inline(always)]
#[tactic(auto, using(crate::proofs::Cuts::at_size_held))]
pub fn held<V: Value, T: Tables<V>>(
    tables: &T,
    cells: &[V],
    operand: &Input,
    width: u8,
    signed: bool,
) -> Option<V>
    ensures { MatchOption result (Unit {0}) (λ v. V.bits v ≡ at_size width signed (input_bits (world V.fill (T.values tables.now)) (map V.bits cells.now) operand.now)) }
{
    let value = source(tables, cells, operand.source);
    if operand.width == width && value.width() == width {
        Some(value)
    } else {
        None
    }
}

// An operand, resized to its size and then to another one.
#[inline(never)]
pub fn resized_twice<V: Value, T: Tables<V>>(
    tables: &T,
    cells: &[V],
    operand: &Input,
    width: u8,
    signed: bool,
) -> V
    ensures { V.bits result ≡ at_size width signed (input_bits (world V.fill (T.values tables.now)) (map V.bits cells.now) operand.now) }
{
    at_size(resized(tables, cells, operand), width, signed)
}

// An operand at a size and sign.
#[inline(always)]
pub fn fitted<V: Value, T: Tables<V>>(
    tables: &T,
    cells: &[V],
    operand: &Input,
    width: u8,
    signed: bool,
) -> V
    ensures { V.bits result ≡ at_size width signed (input_bits (world V.fill (T.values tables.now)) (map V.bits cells.now) operand.now) }
{
    match held(tables, cells, operand, width, signed) {
        Some(value) => value,
        None => resized_twice(tables, cells, operand, width, signed),
    }
}

// An operand at the size of a step.
#[inline(always)]
pub fn at_step<V: Value, T: Tables<V>>(tables: &T, cells: &[V], step: &Step, operand: &Input) -> V
    ensures { V.bits result ≡ at_step (world V.fill (T.values tables.now)) (map V.bits cells.now) step.now operand.now }
{
    fitted(tables, cells, operand, step.width, step.signed)
}

// The truth of an operand, where it has one.
#[inline(always)]
pub fn truth<V: Value, T: Tables<V>>(tables: &T, cells: &[V], operand: &Input) -> Option<bool>
    ensures { MatchOption result (truth_of (world V.fill (T.values tables.now)) (map V.bits cells.now) operand.now ≡ BX) (λ t. truth_of (world V.fill (T.values tables.now)) (map V.bits cells.now) operand.now ≡ bit_if t) }
{
    if let Some(value) = ready(tables, cells, operand) {
        return value.truth();
    }
    resized(tables, cells, operand).truth()
}
