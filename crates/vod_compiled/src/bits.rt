//! Bits put together, of either kind of value.
ghost use Rattle.std.specs.Prelude.{◌≡◌, ◌∷◌, [], ◌++◌};
ghost use Rattle.vod_bits.specs.Value.{upper_bit};
ghost use Rattle.vod_eval.specs.Pieces.{lowest};
ghost use Rattle.vod_compiled.specs.Steps.{replicated};

use vod_bits::{Bits, WIDTH};
use vod_value::Value;

// A value behind another one, cut to the lowest `WIDTH` bits.
#[inline(always)]
#[tactic(auto, using(crate::proofs::Cuts::lowest_joined, crate::proofs::Cuts::none_joined, vod_bits::specs::Lengths::slice_length))]
pub fn joined<V: Value>(upper: V, low: V) -> V
    ensures { V.bits result ≡ lowest (V.bits upper ++ V.bits low) }
{
    let room = WIDTH - low.width();
    if room == 0 {
        return low;
    }
    upper.slice(0, room.min(upper.width())).concat(low)
}

// A value so many times one behind the other, cut to the lowest `WIDTH` bits; a 0 where there is none.
#[tactic(auto, using(crate::proofs::Cuts::repeated_once, crate::proofs::Cuts::repeated_more, crate::proofs::Cuts::replicated_some))]
pub fn replicated<V: Value>(count: u8, value: V) -> V
    ensures { V.bits result ≡ replicated count (V.bits value) }
{
    if count == 0 {
        return V::of(Bits::bit(false));
    }
    let _size = value.width();
    let mut bits = value;
    for _ in 1..count {
        bits = joined(bits, value);
    }
    bits
}

// The upper bit of a value.
#[tactic(auto, using(crate::proofs::Gates::upper_is))]
pub fn upper<V: Value>(value: V) -> V
    ensures { V.bits result ≡ upper_bit (V.bits value) ∷ [] }
{
    value.slice(value.width() - 1, 1)
}
