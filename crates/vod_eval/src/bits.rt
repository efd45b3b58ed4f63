//! Values at sizes, and bits taken out of them and put into them.
ghost use Rattle.std.specs.Prelude.{◌≡◌, ◌+◌, ◌-◌, ◌≤◌, ◌∷◌, [], ◌++◌, length, take, drop, option_map};
ghost use Rattle.vod_bits.specs.Bit.{B0, B1, bit_if};
ghost use Rattle.vod_design.specs.Values.{unknown, bounded, at_size, select_bits, index_place, bit_at_place};
ghost use Rattle.vod_design.specs.Run.{replace_bits};
ghost use Rattle.vod_design.specs.Eval.{repeated};
ghost use Rattle.vod_eval.specs.Pieces.{bits_of_option, filled_bits, lowest};

use vod_bits::{Bits, WIDTH, Word};
use vod_value::Value;

/// A size from 1 to `WIDTH`, the nearest to the one given.
pub fn bounded(width: u8) -> u8
    ensures { result ≡ bounded width }
{
    width.min(WIDTH).max(1)
}

/// The value at a size: extended by its sign where it is signed, else by zeros, or its lower bits (IEEE 1364-2005, 5.4, 5.5).
#[tactic(auto, unfolding(vod_design::specs::Values::at_size))]
pub fn at_size<V: Value>(value: V, width: u8, signed: bool) -> V
    ensures { V.bits result ≡ at_size width signed (V.bits value) }
{
    value.resize(bounded(width), signed)
}

// One bit, 1 where the test holds, else 0.
pub fn bit<V: Value>(test: bool) -> V
    ensures { V.bits result ≡ bit_if test ∷ [] }
{
    V::of(Bits::bit(test))
}

// One bit of 1.
pub fn one<V: Value>() -> V
    ensures { V.bits result ≡ B1 ∷ [] }
{
    bit(true)
}

// One bit of 0.
pub fn zero<V: Value>() -> V
    ensures { V.bits result ≡ B0 ∷ [] }
{
    bit(false)
}

/// A value whose bits aren't there, at a size.
#[tactic(auto, using(crate::proofs::Cuts::stretch))]
pub fn unknown<V: Value>(width: u8) -> V
    ensures { V.bits result ≡ unknown V.fill (bounded width) }
{
    V::nothing().resize(bounded(width), true)
}

/// Bits from a place up, none of them there where they aren't all inside (5.2.1).
#[tactic(auto, using(crate::proofs::Cuts::select_inside, crate::proofs::Cuts::select_outside))]
pub fn select<V: Value>(value: V, low: u8, count: u8) -> V
    ensures { V.bits result ≡ select_bits V.fill low (bounded count) (V.bits value) }
{
    let count = bounded(count);
    if u16::from(low) + u16::from(count) <= u16::from(value.width()) {
        value.slice(low, count)
    } else {
        unknown(count)
    }
}

/// The place that an index names above the least index: none where a bit of it is x or z, or where it is less (5.2.1).
pub fn index_place<V: Value>(least: u16, index: V) -> Option<Word>
    ensures { result ≡ index_place least (V.bits index) }
{
    let number = index.number()?;
    number.checked_sub(Word::from(least))
}

/// The bit at a place, one that isn't there where the place is none or outside.
pub fn bit_at_place<V: Value>(value: V, place: Option<Word>) -> V
    ensures { V.bits result ≡ bit_at_place V.fill (V.bits value) place }
{
    match place {
        None => V::nothing(),
        Some(place) => bit_from(value, place),
    }
}

// The bit from a place up.
#[tactic(auto, using(crate::proofs::Cuts::select_outside))]
fn bit_from<V: Value>(value: V, place: Word) -> V
    ensures { V.bits result ≡ select_bits V.fill place 1 (V.bits value) }
{
    if place < Word::from(value.width()) {
        select(value, place as u8, 1)
    } else {
        V::nothing()
    }
}

// The upper bits of a value, so many of them.
#[tactic(auto, using(crate::proofs::Cuts::upper_slice))]
fn upper_part<V: Value>(value: V, count: u8) -> Option<V>
    requires { count ≤ length (V.bits value) }
    ensures { bits_of_option (option_map V.bits result) ≡ take count (V.bits value) }
{
    if count == 0 {
        None
    } else {
        Some(value.slice(value.width() - count, count))
    }
}

// The lower bits of a value, so many of them.
#[tactic(auto, using(crate::proofs::Cuts::lower_slice))]
fn lower_part<V: Value>(value: V, count: u8) -> Option<V>
    requires { count ≤ length (V.bits value) }
    ensures { bits_of_option (option_map V.bits result) ≡ drop (length (V.bits value) - count) (V.bits value) }
{
    if count == 0 {
        None
    } else {
        Some(value.slice(0, count))
    }
}

// The lower bits, at most so many of them.
fn cut<V: Value>(bits: Option<V>, count: u8) -> Option<V>
    ensures { bits_of_option (option_map V.bits result) ≡ drop (length (bits_of_option (option_map V.bits bits)) - count) (bits_of_option (option_map V.bits bits)) }
{
    match bits {
        None => None,
        Some(value) => lower_part(value, count.min(value.width())),
    }
}

// A value behind other bits.
fn behind<V: Value>(upper: Option<V>, low: V) -> V
    requires { length (bits_of_option (option_map V.bits upper)) + length (V.bits low) ≤ WIDTH }
    ensures { V.bits result ≡ bits_of_option (option_map V.bits upper) ++ V.bits low }
{
    match upper {
        None => low,
        Some(upper) => upper.concat(low),
    }
}

// A value before other bits.
fn before<V: Value>(upper: V, low: Option<V>) -> V
    requires { length (V.bits upper) + length (bits_of_option (option_map V.bits low)) ≤ WIDTH }
    ensures { V.bits result ≡ V.bits upper ++ bits_of_option (option_map V.bits low) }
{
    match low {
        None => upper,
        Some(low) => upper.concat(low),
    }
}

// A value behind other bits, cut to the lowest `WIDTH` bits.
#[tactic(auto, using(crate::proofs::Cuts::lowest_joined))]
pub fn joined<V: Value>(upper: Option<V>, low: V) -> V
    ensures { V.bits result ≡ lowest (bits_of_option (option_map V.bits upper) ++ V.bits low) }
{
    behind(cut(upper, WIDTH - low.width()), low)
}

// A value so many times one behind the other, cut to the lowest `WIDTH` bits, or none at all.
#[tactic(auto, using(crate::proofs::Cuts::repeated_more, crate::proofs::Cuts::repeated_none))]
pub fn repeated<V: Value>(count: u8, value: V) -> Option<V>
    ensures { bits_of_option (option_map V.bits result) ≡ lowest (repeated count (V.bits value)) }
{
    let mut bits = None;
    for _ in 0..count {
        bits = Some(joined(bits, value));
    }
    bits
}

// The bits, which count as a 0 where there are none.
pub fn filled<V: Value>(bits: Option<V>) -> V
    ensures { V.bits result ≡ filled_bits (option_map V.bits bits) }
{
    match bits {
        None => zero(),
        Some(value) => value,
    }
}

// A value with bits from a place up replaced, where they are inside.
#[tactic(auto, using(crate::proofs::Cuts::replace_outside))]
pub fn replaced<V: Value>(old: V, low: Word, new: V) -> V
    ensures { V.bits result ≡ replace_bits low (V.bits new) (V.bits old) }
{
    let end = low.saturating_add(Word::from(new.width()));
    if end > Word::from(old.width()) {
        return old;
    }
    replaced_inside(old, low as u8, new)
}

// The same, of bits that are inside.
#[tactic(auto, using(crate::proofs::Cuts::replace_inside))]
fn replaced_inside<V: Value>(old: V, low: u8, new: V) -> V
    requires { low + length (V.bits new) ≤ length (V.bits old) }
    ensures { V.bits result ≡ replace_bits low (V.bits new) (V.bits old) }
{
    let upper = upper_part(old, old.width() - low - new.width());
    before(behind(upper, new), lower_part(old, low))
}
