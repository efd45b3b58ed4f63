//! One bit of a value, read and replaced.
ghost use Rattle.std.specs.Prelude.{◌≡◌, ◌+◌, ◌-◌, ◌<◌, ◌≤◌, ◌∷◌, [], ◌++◌, ◌↔◌, IsTrue, length, take, drop, not};
ghost use Rattle.vod_bits.specs.Value.{upper_bit};
ghost use Rattle.vod_bits.specs.declared.TheConstants.{WIDTH};
ghost use Rattle.vod_design.specs.Eval.{same_bit};
ghost use Rattle.vod_cells.specs.Wide.{bit_of_wide};
ghost use Rattle.vod_slot.specs.Store.{bit_in, bit_replaced, same_bits};

use vod_bits::{Bits, Word};
use vod_eval::bit_at_place;
use vod_four::Four;
use vod_value::Value;

/// The bit at a place of a value, counted from its lowest bit; x where it has none there (5.2.1).
#[tactic(auto, using(crate::proofs::OneBit::one_selected))]
pub fn bit_in(value: Four, place: Word) -> Four
    ensures { result ≡ bit_in value place ∷ [] }
{
    bit_at_place(value, Some(place))
}

/// The bit at a place of a value that is extended by zeros (5.5.2).
#[tactic(auto, using(crate::proofs::OneBit::wide_inside, crate::proofs::OneBit::wide_past))]
pub fn bit_or_zero(value: Four, place: usize) -> Four
    ensures { result ≡ bit_of_wide value place ∷ [] }
{
    if place < value.width() as usize {
        bit_in(value, place as Word)
    } else {
        Four::of(Bits::bit(false))
    }
}

/// A value with one bit replaced. A place that it hasn't changes nothing (9.2.1).
#[tactic(auto, using(crate::proofs::OneBit::replaced_past, crate::proofs::OneBit::replaced_parts))]
pub fn replaced(value: Four, place: Word, bit: Four) -> Four
    requires { length bit ≡ 1 }
    ensures { result ≡ bit_replaced place (upper_bit bit) value }
{
    if place >= Word::from(value.width()) {
        return value;
    }
    let place = place as u8;
    below_upper(value, place, before_lower(value, place, bit))
}

// A bit before the lower bits of a value, so many of them.
#[tactic(auto, using(vod_eval::proofs::Cuts::lower_slice))]
fn before_lower(value: Four, count: u8, bit: Four) -> Four
    requires one { length bit ≡ 1 }
    requires inside { count < length value }
    requires within { length value ≤ WIDTH }
    ensures { result ≡ bit ++ drop (length value - count) value }
{
    if count == 0 {
        bit
    } else {
        bit.concat(value.slice(0, count))
    }
}

// The bits of a value above a place, before others that reach up to it.
#[tactic(auto, using(crate::proofs::OneBit::upper_part))]
fn below_upper(value: Four, place: u8, low: Four) -> Four
    requires inside { place < length value }
    requires reaches { length low ≡ place + 1 }
    requires within { length value ≤ WIDTH }
    ensures { result ≡ take (length value - (place + 1)) value ++ low }
{
    let count = value.width() - (place + 1);
    if count == 0 {
        low
    } else {
        value.slice(place + 1, count).concat(low)
    }
}

/// Whether two values differ, x and z included.
#[tactic(auto, using(crate::proofs::OneBit::differ, crate::proofs::OneBit::differ_in_size))]
pub fn differ(one: Four, other: Four) -> bool
    ensures { result ≡ not (same_bits one other) }
{
    if one.size() != other.size() {
        return true;
    }
    !one.case_eq(other)
}
