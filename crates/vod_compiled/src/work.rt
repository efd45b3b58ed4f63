//! What steps put into their cells.
ghost use Rattle.std.specs.Prelude.{◌≡◌, ◌∷◌, [], ◌+◌, false, map};
ghost use Rattle.vod_bits.specs.Value.{upper_bit};
ghost use Rattle.vod_design.specs.Values.{at_size, value_at, bounded, word_or_x, word_at};
ghost use Rattle.vod_design.specs.Eval.{binary_bits};
ghost use Rattle.vod_eval.specs.Pieces.{gate_table};
ghost use Rattle.vod_compiled.specs.Steps.{world, input_bits, at_step, second_bits, op_bits};

use crate::bits::{joined, replicated, upper};
use crate::operand::{at_step, fitted, input, put, source, value_at};
use crate::step::{Input, Op, Step};
use vod_bits::Word;
use vod_design::{BinaryOp, GateOp, NamedMemory};
use vod_eval::{
    Tables, at_size, binary, bit_at_place, compared, gate_output, gate_start, gate_table,
    index_place, logical, reduction, select, shifted, unary, unknown,
};
use vod_value::Value;

// A memory word, none of its bits there where there is no such word.
fn word<V: Value, T: Tables<V>>(tables: &T, memory: NamedMemory, place: Option<Word>) -> V
    ensures { V.bits result ≡ word_or_x V.fill (bounded memory.width) (word_at (world V.fill (T.values tables.now)).values memory.number place) }
{
    let Some(place) = place else {
        return unknown(memory.width);
    };
    match tables.word(memory.number, place) {
        Some(word) => word,
        None => unknown(memory.width),
    }
}

// The operators on two values.
#[inline(always)]
#[tactic(auto, using(crate::proofs::Cuts::at_size_length))]
fn pair<V: Value, T: Tables<V>>(
    tables: &T,
    cells: &[V],
    step: &Step,
    op: BinaryOp,
    a: &Input,
    b: &Input,
) -> V
    ensures { V.bits result ≡ binary_bits op (at_step (world V.fill (T.values tables.now)) (map V.bits cells.now) step.now a.now) (at_step (world V.fill (T.values tables.now)) (map V.bits cells.now) step.now b.now) }
{
    binary(
        op,
        at_step(tables, cells, step, a),
        at_step(tables, cells, step, b),
    )
}

// What a gate makes of what the cell holds and one input more.
#[tactic(auto, using(crate::proofs::Cuts::at_size_length))]
fn gate_input<V: Value, T: Tables<V>>(
    tables: &T,
    cells: &[V],
    step: &Step,
    op: GateOp,
    a: &Input,
) -> V
    ensures { V.bits result ≡ gate_table op (upper_bit (value_at V.fill (map V.bits cells.now) step.now.to)) (upper_bit (at_size 1 false (input_bits (world V.fill (T.values tables.now)) (map V.bits cells.now) a.now))) ∷ [] }
{
    let input = fitted(tables, cells, a, 1, false);
    gate_table(op, upper(value_at(cells, step.to)), input)
}

// The value in the cell behind one.
#[tactic(auto, using(crate::proofs::Lists::value_at_past))]
fn value_behind<V: Value>(cells: &[V], to: usize) -> V
    ensures { V.bits result ≡ value_at V.fill (map V.bits cells.now) (to + 1) }
{
    if to < cells.len() {
        value_at(cells, to + 1)
    } else {
        V::nothing()
    }
}

// The second branch of a conditional, merged with the first one by the test.
#[inline(never)]
#[tactic(auto, using(crate::proofs::Cuts::at_size_length))]
fn merged<V: Value, T: Tables<V>>(
    tables: &T,
    cells: &[V],
    step: &Step,
    test: &Input,
    b: &Input,
) -> V
    ensures { V.bits result ≡ second_bits (world V.fill (T.values tables.now)) (map V.bits cells.now) step.now test.now b.now }
{
    let test = input(tables, cells, test);
    let other = at_step(tables, cells, step, b);
    let one = at_size(value_behind(cells, step.to), step.width, step.signed);
    test.choose(one, other)
}

// The second branch of a conditional, merged with the first one where the test has no truth.
#[inline(always)]
fn second<V: Value, T: Tables<V>>(
    tables: &T,
    cells: &[V],
    step: &Step,
    test: &Input,
    b: &Input,
) -> V
    ensures { V.bits result ≡ second_bits (world V.fill (T.values tables.now)) (map V.bits cells.now) step.now test.now b.now }
{
    if let Some(false) = input(tables, cells, test).truth() {
        return at_step(tables, cells, step, b);
    }
    merged(tables, cells, step, test, b)
}

// What a step puts into its cell, one bit that isn't there where it is a test or a first branch.
#[inline(never)]
pub fn step_value<V: Value, T: Tables<V>>(tables: &T, cells: &[V], step: &Step) -> V
    ensures { V.bits result ≡ op_bits (world V.fill (T.values tables.now)) (map V.bits cells.now) step.now step.now.op }
{
    match &step.op {
        Op::Copy(a) => input(tables, cells, a),
        Op::Select(from, low, count) => select(source(tables, cells, *from), *low, *count),
        Op::Index(from, least, index) => {
            let place = index_place(*least, input(tables, cells, index));
            bit_at_place(source(tables, cells, *from), place)
        }
        Op::Word(memory, place) => word(tables, *memory, Some(Word::from(*place))),
        Op::WordIndex(memory, least, index) => {
            word(
                tables,
                *memory,
                index_place(*least, input(tables, cells, index)),
            )
        }
        Op::Unary(op, a) => unary(*op, at_step(tables, cells, step, a)),
        Op::Binary(op, a, b) => pair(tables, cells, step, *op, a, b),
        Op::Comparison(op, a, b) => {
            let one = input(tables, cells, a);
            compared(*op, one, a.signed, input(tables, cells, b), b.signed)
        }
        Op::LogicalNot(a) => input(tables, cells, a).logic_not(),
        Op::Logical(op, a, b) => logical(*op, input(tables, cells, a), input(tables, cells, b)),
        Op::Reduction(op, a) => reduction(*op, input(tables, cells, a)),
        Op::Shift(op, a, amount) => {
            let a = at_step(tables, cells, step, a);
            shifted(*op, step.signed, input(tables, cells, amount), a)
        }
        Op::Join(a) => joined(value_at(cells, step.to), input(tables, cells, a)),
        Op::Replicate(count, a) => replicated(*count, input(tables, cells, a)),
        Op::GateStart(op) => gate_start(*op),
        Op::GateInput(op, a) => gate_input(tables, cells, step, *op, a),
        Op::GateEnd(op) => gate_output(*op, upper(value_at(cells, step.to))),
        Op::Second(test, b) => second(tables, cells, step, test, b),
        _ => V::nothing(),
    }
}
