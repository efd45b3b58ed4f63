//! Steps done the quick way: their operands have the sizes already at which they are taken, and the value goes straight into its
//! cell. A step that isn't done leaves the cells as they are, and is to be done the general way.
ghost use Rattle.std.specs.Prelude.{◌≡◌, ◌∷◌, [], ◌++◌, ◌&&◌, if◌then◌else◌, map, length};
ghost use Rattle.vod_bits.specs.Bit.{not_bit};
ghost use Rattle.vod_design.specs.Values.{value_at, select_bits, bit_at_place, index_place, word_or_x, word_at, bounded};
ghost use Rattle.vod_design.specs.Eval.{binary_bits, compared, comparison_bit, less, identical_bit};
ghost use Rattle.vod_eval.specs.Pieces.{lowest};
ghost use Rattle.vod_compiled.specs.Steps.{world, source_bits, input_bits, at_step, taken, truth_of, put, second_bits, op_bits};

use crate::operand::{held, put, ready, source, truth, value_at};
use crate::step::{Input, Op, Source, Step};
use vod_bits::{Bits, WIDTH, Word};
use vod_design::{BinaryOp, ComparisonOp, NamedMemory};
use vod_eval::{Tables, bounded, index_place};
use vod_value::Value;

// The operators on two values of one size, put into a cell.
#[inline(always)]
fn put_pair<V: Value>(cells: &mut [V], to: usize, op: BinaryOp, a: V, b: V)
    requires { length (V.bits a) ≡ length (V.bits b) }
    ensures { map V.bits cells.new ≡ put (map V.bits cells.old) to (binary_bits op (V.bits a) (V.bits b)) }
{
    match op {
        BinaryOp::Add => put(cells, to, a.add(b)),
        BinaryOp::Sub => put(cells, to, a.sub(b)),
        BinaryOp::Mul => put(cells, to, a.mul(b)),
        BinaryOp::And => put(cells, to, a.and(b)),
        BinaryOp::Or => put(cells, to, a.or(b)),
        BinaryOp::Xor => put(cells, to, a.xor(b)),
        BinaryOp::Xnor => put(cells, to, a.xor(b).not()),
    }
}

#[inline(always)]
#[tactic(auto, using(crate::proofs::Cuts::at_size_length))]
fn pair<V: Value, T: Tables<V>>(
    tables: &T,
    cells: &mut [V],
    step: &Step,
    op: BinaryOp,
    a: &Input,
    b: &Input,
) -> bool
    ensures { map V.bits cells.new ≡ (if result then put (map V.bits cells.old) step.now.to (binary_bits op (at_step (world V.fill (T.values tables.now)) (map V.bits cells.old) step.now a.now) (at_step (world V.fill (T.values tables.now)) (map V.bits cells.old) step.now b.now)) else map V.bits cells.old) }
{
    let Some(one) = held(tables, cells, a, step.width, step.signed) else {
        return false;
    };
    let Some(other) = held(tables, cells, b, step.width, step.signed) else {
        return false;
    };
    put_pair(cells, step.to, op, one, other);
    true
}

// `<`, put into a cell, and its opposite.
#[inline(always)]
fn put_less<V: Value>(cells: &mut [V], to: usize, signed: bool, a: V, b: V)
    requires { length (V.bits a) ≡ length (V.bits b) }
    ensures { map V.bits cells.new ≡ put (map V.bits cells.old) to (less signed (V.bits a) (V.bits b) ∷ []) }
{
    if signed {
        put(cells, to, a.less_signed(b));
    } else {
        put(cells, to, a.less(b));
    }
}

#[inline(always)]
fn put_not_less<V: Value>(cells: &mut [V], to: usize, signed: bool, a: V, b: V)
    requires { length (V.bits a) ≡ length (V.bits b) }
    ensures { map V.bits cells.new ≡ put (map V.bits cells.old) to (not_bit (less signed (V.bits a) (V.bits b)) ∷ []) }
{
    if signed {
        put(cells, to, a.less_signed(b).not());
    } else {
        put(cells, to, a.less(b).not());
    }
}

// `===`, in one bit.
#[inline(always)]
#[tactic(auto, using(crate::proofs::Identical::identical_is))]
fn identical<V: Value>(a: V, b: V) -> V
    requires { length (V.bits a) ≡ length (V.bits b) }
    ensures { V.bits result ≡ identical_bit (V.bits a) (V.bits b) ∷ [] }
{
    V::of(Bits::bit(a.identical(b)))
}

// A comparison of two values of one size, put into a cell.
#[inline(always)]
fn put_compared<V: Value>(cells: &mut [V], to: usize, op: ComparisonOp, signed: bool, a: V, b: V)
    requires { length (V.bits a) ≡ length (V.bits b) }
    ensures { map V.bits cells.new ≡ put (map V.bits cells.old) to (comparison_bit op signed (V.bits a) (V.bits b) ∷ []) }
{
    match op {
        ComparisonOp::Less => put_less(cells, to, signed, a, b),
        ComparisonOp::LessEqual => put_not_less(cells, to, signed, b, a),
        ComparisonOp::Greater => put_less(cells, to, signed, b, a),
        ComparisonOp::GreaterEqual => put_not_less(cells, to, signed, a, b),
        ComparisonOp::Equal => put(cells, to, a.equal(b)),
        ComparisonOp::NotEqual => put(cells, to, a.equal(b).not()),
        ComparisonOp::CaseEqual => put(cells, to, identical(a, b)),
        ComparisonOp::CaseNotEqual => put(cells, to, identical(a, b).not()),
    }
}

// Whether both tests hold.
fn both(a: bool, b: bool) -> bool
    ensures { result ≡ a && b }
{
    a && b
}

#[inline(always)]
#[tactic(auto, using(crate::proofs::Cuts::compared_alike))]
fn comparison<V: Value, T: Tables<V>>(
    tables: &T,
    cells: &mut [V],
    step: &Step,
    op: ComparisonOp,
    a: &Input,
    b: &Input,
) -> bool
    ensures { map V.bits cells.new ≡ (if result then put (map V.bits cells.old) step.now.to (compared op (taken (world V.fill (T.values tables.now)) (map V.bits cells.old) a.now) (taken (world V.fill (T.values tables.now)) (map V.bits cells.old) b.now) ∷ []) else map V.bits cells.old) }
{
    let Some(one) = ready(tables, cells, a) else {
        return false;
    };
    let Some(other) = ready(tables, cells, b) else {
        return false;
    };
    if one.width() != other.width() {
        return false;
    }
    put_compared(cells, step.to, op, both(a.signed, b.signed), one, other);
    true
}

#[inline(always)]
fn copy<V: Value, T: Tables<V>>(tables: &T, cells: &mut [V], step: &Step, a: &Input) -> bool
    ensures { map V.bits cells.new ≡ (if result then put (map V.bits cells.old) step.now.to (input_bits (world V.fill (T.values tables.now)) (map V.bits cells.old) a.now) else map V.bits cells.old) }
{
    let Some(value) = ready(tables, cells, a) else {
        return false;
    };
    put(cells, step.to, value);
    true
}

#[inline(always)]
#[tactic(auto, using(crate::proofs::Cuts::select_inside))]
fn select<V: Value, T: Tables<V>>(
    tables: &T,
    cells: &mut [V],
    step: &Step,
    from: Source,
    low: u8,
    count: u8,
) -> bool
    ensures { map V.bits cells.new ≡ (if result then put (map V.bits cells.old) step.now.to (select_bits V.fill low (bounded count) (source_bits (world V.fill (T.values tables.now)) (map V.bits cells.old) from)) else map V.bits cells.old) }
{
    let value = source(tables, cells, from);
    let count = bounded(count);
    if u16::from(low) + u16::from(count) > u16::from(value.width()) {
        return false;
    }
    put(cells, step.to, value.slice(low, count));
    true
}

#[inline(always)]
#[tactic(auto, using(crate::proofs::Cuts::select_inside))]
fn bit<V: Value, T: Tables<V>>(
    tables: &T,
    cells: &mut [V],
    step: &Step,
    from: Source,
    least: u16,
    index: &Input,
) -> bool
    ensures { map V.bits cells.new ≡ (if result then put (map V.bits cells.old) step.now.to (bit_at_place V.fill (source_bits (world V.fill (T.values tables.now)) (map V.bits cells.old) from) (index_place least (input_bits (world V.fill (T.values tables.now)) (map V.bits cells.old) index.now))) else map V.bits cells.old) }
{
    let Some(index) = ready(tables, cells, index) else {
        return false;
    };
    let Some(place) = index_place(least, index) else {
        return false;
    };
    let value = source(tables, cells, from);
    if place >= Word::from(value.width()) {
        return false;
    }
    put(cells, step.to, value.slice(place as u8, 1));
    true
}

#[inline(always)]
fn word<V: Value, T: Tables<V>>(
    tables: &T,
    cells: &mut [V],
    step: &Step,
    memory: NamedMemory,
    least: u16,
    index: &Input,
) -> bool
    ensures { map V.bits cells.new ≡ (if result then put (map V.bits cells.old) step.now.to (word_or_x V.fill (bounded memory.width) (word_at (world V.fill (T.values tables.now)).values memory.number (index_place least (input_bits (world V.fill (T.values tables.now)) (map V.bits cells.old) index.now)))) else map V.bits cells.old) }
{
    let Some(index) = ready(tables, cells, index) else {
        return false;
    };
    let Some(place) = index_place(least, index) else {
        return false;
    };
    let Some(word) = tables.word(memory.number, place) else {
        return false;
    };
    put(cells, step.to, word);
    true
}

#[inline(always)]
fn logical_not<V: Value, T: Tables<V>>(tables: &T, cells: &mut [V], step: &Step, a: &Input) -> bool
    ensures { map V.bits cells.new ≡ (if result then put (map V.bits cells.old) step.now.to (not_bit (truth_of (world V.fill (T.values tables.now)) (map V.bits cells.old) a.now) ∷ []) else map V.bits cells.old) }
{
    let Some(value) = ready(tables, cells, a) else {
        return false;
    };
    put(cells, step.to, value.logic_not());
    true
}

#[inline(always)]
#[tactic(auto, using(crate::proofs::Cuts::joined_whole))]
fn join<V: Value, T: Tables<V>>(tables: &T, cells: &mut [V], step: &Step, a: &Input) -> bool
    ensures { map V.bits cells.new ≡ (if result then put (map V.bits cells.old) step.now.to (lowest (value_at V.fill (map V.bits cells.old) step.now.to ++ input_bits (world V.fill (T.values tables.now)) (map V.bits cells.old) a.now)) else map V.bits cells.old) }
{
    let Some(low) = ready(tables, cells, a) else {
        return false;
    };
    let upper = value_at(cells, step.to);
    if u16::from(upper.width()) + u16::from(low.width()) > u16::from(WIDTH) {
        return false;
    }
    put(cells, step.to, upper.concat(low));
    true
}

// The second branch of a conditional whose test is false.
#[inline(always)]
fn second<V: Value, T: Tables<V>>(
    tables: &T,
    cells: &mut [V],
    step: &Step,
    test: &Input,
    b: &Input,
) -> bool
    ensures { map V.bits cells.new ≡ (if result then put (map V.bits cells.old) step.now.to (second_bits (world V.fill (T.values tables.now)) (map V.bits cells.old) step.now test.now b.now) else map V.bits cells.old) }
{
    let Some(false) = truth(tables, cells, test) else {
        return false;
    };
    let Some(other) = held(tables, cells, b, step.width, step.signed) else {
        return false;
    };
    put(cells, step.to, other);
    true
}

// Does a step the quick way, where that can be.
#[inline(always)]
pub fn quickly<V: Value, T: Tables<V>>(tables: &T, cells: &mut [V], step: &Step) -> bool
    ensures { map V.bits cells.new ≡ (if result then put (map V.bits cells.old) step.now.to (op_bits (world V.fill (T.values tables.now)) (map V.bits cells.old) step.now step.now.op) else map V.bits cells.old) }
{
    match &step.op {
        Op::Copy(a) => copy(tables, cells, step, a),
        Op::Select(from, low, count) => select(tables, cells, step, *from, *low, *count),
        Op::Index(from, least, index) => bit(tables, cells, step, *from, *least, index),
        Op::WordIndex(memory, least, index) => word(tables, cells, step, *memory, *least, index),
        Op::Binary(op, a, b) => pair(tables, cells, step, *op, a, b),
        Op::Comparison(op, a, b) => comparison(tables, cells, step, *op, a, b),
        Op::LogicalNot(a) => logical_not(tables, cells, step, a),
        Op::Join(a) => join(tables, cells, step, a),
        Op::Second(test, b) => second(tables, cells, step, test, b),
        _ => false,
    }
}
