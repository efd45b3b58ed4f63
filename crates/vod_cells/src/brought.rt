//! What drivers bring their targets.
ghost use Rattle.std.specs.Prelude.{◌≡◌, ◌<◌, ◌≤◌, [], false, length, map, All, option_map, if◌then◌else◌, None, Some};
ghost use Rattle.vod_bits.specs.Bit.{BX};
ghost use Rattle.vod_bits.specs.Value.{resize_bits};
ghost use Rattle.vod_design.specs.declared.statement.Place.{Place};
ghost use Rattle.vod_design.specs.Run.{eval};
ghost use Rattle.vod_design.specs.Values.{value_at};
ghost use Rattle.vod_eval.specs.Listed.{values_of};
ghost use Rattle.vod_eval.specs.Room.{room_of};
ghost use Rattle.vod_slot.specs.Step.{pending};
ghost use Rattle.vod_slot.specs.Store.{bit_in, same_bits};

use crate::bits::{bit_in, bit_or_zero, differ};
use sqlite_items::Items;
use vod_bits::Word;
use vod_design::{Function, Place, SizedExpr};
use vod_eval::{Lists, value_of};
use vod_four::Four;

/// The value of an expression that stands in no function.
pub fn expression_value(
    functions: &[Function],
    signals: &[Four],
    memories: &[Items<Four>],
    e: &SizedExpr,
    room: &mut [Four],
) -> Four
    requires { room_of functions.now e.now ≤ length room.old }
    ensures { result ≡ eval BX functions.now (values_of BX signals.now memories.now) [] e.now }
{
    let lists = Lists { signals, memories };
    value_of(functions, &lists, e, room)
}

/// A value as the pending one of these bits: none where they have it already.
pub fn pending_value(signals: &[Four], places: &[Place], value: Four) -> Option<Four>
    requires { All (λ (p : Place). p.signal < length signals.now) places.now }
    ensures { option_map (resize_bits (length places.now) false) result ≡ pending (resize_bits (length places.now) false value) (map (λ p. bit_in (value_at BX signals.now p.signal) p.bit) places.now) }
{
    if has_value(signals, places, value) {
        None
    } else {
        Some(value)
    }
}

// Whether bits have a value, extended by zeros or its lower bits.
fn has_value(signals: &[Four], places: &[Place], value: Four) -> bool
    requires { All (λ (p : Place). p.signal < length signals.now) places.now }
    ensures { result ≡ same_bits (map (λ p. bit_in (value_at BX signals.now p.signal) p.bit) places.now) (resize_bits (length places.now) false value) }
{
    for (i, place) in places.iter().enumerate() {
        let old = bit_in(signals[place.signal as usize], Word::from(place.bit));
        let new = bit_or_zero(value, places.len() - 1 - i);
        if differ(old, new) {
            return false;
        }
    }
    true
}
