//! The operators on values.
ghost use Rattle.std.specs.Prelude.{◌≡◌, ◌∷◌, [], ◌&&◌, length};
ghost use Rattle.vod_design.specs.Eval.{unary_bits, binary_bits, less, identical_bit, comparison_bit, compared, logical_bit, reduction_bit, shift_bits};
ghost use Rattle.vod_bits.specs.Bit.{is_1};
ghost use Rattle.vod_bits.specs.Value.{upper_bit};
ghost use Rattle.vod_design.specs.Values.{at_size};
ghost use Rattle.vod_four.specs.Four.{truth_bit};
ghost use Rattle.vod_eval.specs.Pieces.{gate_start, gate_table, gate_output};
ghost use Rattle.vod_eval.specs.Scenes.{operand};

use crate::bits::{at_size, bit, one, zero};
use crate::labels::both;
use vod_design::{BinaryOp, ComparisonOp, GateOp, LogicalOp, ReductionOp, ShiftOp, Size, UnaryOp};
use vod_value::Value;

/// `-` and `~` (IEEE 1364-2005, 5.1.5, 5.1.10).
pub fn unary<V: Value>(op: UnaryOp, a: V) -> V
    ensures { V.bits result ≡ unary_bits op (V.bits a) }
{
    match op {
        UnaryOp::Minus => a.neg(),
        UnaryOp::Not => a.not(),
    }
}

/// The operators on two values of one size (5.1.5, 5.1.10).
pub fn binary<V: Value>(op: BinaryOp, a: V, b: V) -> V
    requires { length (V.bits a) ≡ length (V.bits b) }
    ensures { V.bits result ≡ binary_bits op (V.bits a) (V.bits b) }
{
    match op {
        BinaryOp::Add => a.add(b),
        BinaryOp::Sub => a.sub(b),
        BinaryOp::Mul => a.mul(b),
        BinaryOp::And => a.and(b),
        BinaryOp::Or => a.or(b),
        BinaryOp::Xor => a.xor(b),
        BinaryOp::Xnor => a.xor(b).not(),
    }
}

// `<`.
fn less<V: Value>(signed: bool, a: V, b: V) -> V
    requires { length (V.bits a) ≡ length (V.bits b) }
    ensures { V.bits result ≡ less signed (V.bits a) (V.bits b) ∷ [] }
{
    if signed { a.less_signed(b) } else { a.less(b) }
}

// `===`.
#[tactic(auto, using(crate::proofs::Cuts::identical_is))]
fn identical<V: Value>(a: V, b: V) -> V
    requires { length (V.bits a) ≡ length (V.bits b) }
    ensures { V.bits result ≡ identical_bit (V.bits a) (V.bits b) ∷ [] }
{
    bit(a.identical(b))
}

// A comparison of two values of one size.
fn comparison<V: Value>(op: ComparisonOp, signed: bool, a: V, b: V) -> V
    requires { length (V.bits a) ≡ length (V.bits b) }
    ensures { V.bits result ≡ comparison_bit op signed (V.bits a) (V.bits b) ∷ [] }
{
    match op {
        ComparisonOp::Less => less(signed, a, b),
        ComparisonOp::LessEqual => less(signed, b, a).not(),
        ComparisonOp::Greater => less(signed, b, a),
        ComparisonOp::GreaterEqual => less(signed, a, b).not(),
        ComparisonOp::Equal => a.equal(b),
        ComparisonOp::NotEqual => a.equal(b).not(),
        ComparisonOp::CaseEqual => identical(a, b),
        ComparisonOp::CaseNotEqual => identical(a, b).not(),
    }
}

/// A comparison of two operands, at the larger of their sizes, as signed ones only where both are; in one bit (5.1.7, 5.1.8).
#[tactic(auto, using(crate::proofs::Cuts::at_size_length), unfolding(vod_design::specs::Eval::compared))]
pub fn compared<V: Value>(op: ComparisonOp, a: V, a_signed: bool, b: V, b_signed: bool) -> V
    ensures { V.bits result ≡ compared op (operand (V.bits a) a_signed) (operand (V.bits b) b_signed) ∷ [] }
{
    let size = a.width().max(b.width());
    let signed = both(a_signed, b_signed);
    comparison(
        op,
        signed,
        widened(a, size, signed),
        widened(b, size, signed),
    )
}

// A value at a size that it may have already.
#[inline(always)]
#[tactic(auto, using(crate::proofs::Cuts::at_size_own))]
fn widened<V: Value>(value: V, width: u8, signed: bool) -> V
    ensures { V.bits result ≡ at_size width signed (V.bits value) }
{
    if value.width() == width {
        return value;
    }
    at_size(value, width, signed)
}

/// `&&` and `||`, in one bit (5.1.9).
pub fn logical<V: Value>(op: LogicalOp, a: V, b: V) -> V
    ensures { V.bits result ≡ logical_bit op (truth_bit (V.bits a)) (truth_bit (V.bits b)) ∷ [] }
{
    match op {
        LogicalOp::And => a.logic_and(b),
        LogicalOp::Or => a.logic_or(b),
    }
}

/// The reductions, in one bit (5.1.11).
pub fn reduction<V: Value>(op: ReductionOp, a: V) -> V
    ensures { V.bits result ≡ reduction_bit op (V.bits a) ∷ [] }
{
    match op {
        ReductionOp::And => a.all(),
        ReductionOp::Nand => a.all().not(),
        ReductionOp::Or => a.any(),
        ReductionOp::Nor => a.any().not(),
        ReductionOp::Xor => a.parity(),
        ReductionOp::Xnor => a.parity().not(),
    }
}

/// The shifts, given whether the value is signed, and the amount of any width (5.1.12).
pub fn shifted<V: Value>(op: ShiftOp, signed: bool, amount: V, a: V) -> V
    ensures { V.bits result ≡ shift_bits op signed (V.bits amount) (V.bits a) }
{
    match op {
        ShiftOp::Left => a.shift_left(amount),
        ShiftOp::Right => a.shift_right(amount),
        ShiftOp::ArithmeticRight => right(signed, amount, a),
    }
}

// `>>>`, with copies of the upper bit where the value is signed.
fn right<V: Value>(signed: bool, amount: V, a: V) -> V
    ensures { V.bits result ≡ shift_bits ShiftOp.ArithmeticRight signed (V.bits amount) (V.bits a) }
{
    if signed {
        a.shift_signed(amount)
    } else {
        a.shift_right(amount)
    }
}

// Whether two values are the same at a size, x and z included.
#[tactic(auto, using(crate::proofs::Cuts::at_size_length))]
pub fn is_identical<V: Value>(size: Size, a: V, b: V) -> bool
    ensures { result ≡ is_1 (identical_bit (at_size size.width size.signed (V.bits a)) (at_size size.width size.signed (V.bits b))) }
{
    let one = at_size(a, size.width, size.signed);
    let other = at_size(b, size.width, size.signed);
    one.identical(other)
}

/// What a gate begins with, before its first input (7.2, 7.3).
pub fn gate_start<V: Value>(op: GateOp) -> V
    ensures { V.bits result ≡ gate_start V.fill op ∷ [] }
{
    match op {
        GateOp::And => one(),
        GateOp::Nand => one(),
        GateOp::Or => zero(),
        GateOp::Nor => zero(),
        GateOp::Xor => zero(),
        GateOp::Xnor => zero(),
        GateOp::Buf => V::nothing(),
        GateOp::Not => V::nothing(),
    }
}

/// What a gate makes of its inputs so far and one more, each of one bit.
#[tactic(auto, using(crate::proofs::Gates::zip_one, crate::proofs::Gates::one_bit))]
pub fn gate_table<V: Value>(op: GateOp, so_far: V, input: V) -> V
    requires so_far { length (V.bits so_far) ≡ 1 }
    requires input { length (V.bits input) ≡ 1 }
    ensures { V.bits result ≡ gate_table op (upper_bit (V.bits so_far)) (upper_bit (V.bits input)) ∷ [] }
{
    match op {
        GateOp::And => so_far.and(input),
        GateOp::Nand => so_far.and(input),
        GateOp::Or => so_far.or(input),
        GateOp::Nor => so_far.or(input),
        GateOp::Xor => so_far.xor(input),
        GateOp::Xnor => so_far.xor(input),
        GateOp::Buf => input,
        GateOp::Not => input,
    }
}

/// What a gate makes of all its inputs together, in one bit.
#[tactic(auto, using(crate::proofs::Gates::map_one, crate::proofs::Gates::map_twice, crate::proofs::Gates::one_bit))]
pub fn gate_output<V: Value>(op: GateOp, folded: V) -> V
    requires { length (V.bits folded) ≡ 1 }
    ensures { V.bits result ≡ gate_output op (upper_bit (V.bits folded)) ∷ [] }
{
    match op {
        GateOp::And => folded,
        GateOp::Nand => folded.not(),
        GateOp::Or => folded,
        GateOp::Nor => folded.not(),
        GateOp::Xor => folded,
        GateOp::Xnor => folded.not(),
        GateOp::Buf => folded.not().not(),
        GateOp::Not => folded.not(),
    }
}
