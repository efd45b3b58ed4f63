//! What known values and values of four states have in common, so that one evaluator serves both.
#![tactic(auto)]

mod known;
mod states;

ghost use Rattle.std.specs.Prelude.{◌≡◌, ◌+◌, ◌≤◌, ◌∷◌, [], ◌++◌, ◌↔◌, IsTrue, true, false, List, length, map, MatchOption};
ghost use Rattle.vod_bits.specs.Bit.{Bit, B0, B1, BX, bit_if, not_bit, and_bit, or_bit, xor_bit};
ghost use Rattle.vod_bits.specs.Value.{number_of, all_known, zip_with, fold_bits, resize_bits, slice_bits};
ghost use Rattle.vod_bits.specs.declared.TheConstants.{WIDTH};
ghost use Rattle.vod_four.specs.Four.{sum_bits, difference_bits, product_bits, negative_bits, less_bit, less_signed_bit, equal_bit, truth_bit, shift_left_by, shift_right_by, shift_signed_by, choose_bits};

use vod_bits::{Bits, Word};

/// A value of 1 to `WIDTH` bits: `Bits`, each bit 0 or 1, or `Four`, each bit 0, 1, x or z. Each method gives what the table of
/// its operator says of four states (IEEE 1364-2005, 5.1); on known bits that is the operator on numbers.
pub trait Value: Copy {
    /// The bits, the upper one first.
    ghost bits: { Self → List Bit };

    /// What stands for a bit that isn't there: x in four states, else 0.
    ghost fill: { Bit };

    /// How many bits there are.
    fn width(self) -> u8
        ensures size { result ≡ length (bits self) }
        ensures some { 1 ≤ result }
        ensures within { result ≤ WIDTH };

    /// A known value.
    fn of(known: Bits) -> Self
        ensures { bits result ≡ known };

    /// One bit that isn't there.
    fn nothing() -> Self
        ensures { bits result ≡ fill ∷ [] };

    /// The number that the value stands for, where each bit is known.
    fn number(self) -> Option<Word>
        ensures { MatchOption result (all_known (bits self) ≡ false) (λ n. (all_known (bits self) ≡ true) × (n ≡ number_of (bits self))) };

    /// The truth of the value, where it has one (5.1.9).
    fn truth(self) -> Option<bool>
        ensures { MatchOption result (truth_bit (bits self) ≡ BX) (λ t. truth_bit (bits self) ≡ bit_if t) };

    /// `&`, bit by bit. The operands have one width, here and below.
    fn and(self, other: Self) -> Self
        requires { length (bits self) ≡ length (bits other) }
        ensures { bits result ≡ zip_with and_bit (bits self) (bits other) };

    /// `|`, bit by bit.
    fn or(self, other: Self) -> Self
        requires { length (bits self) ≡ length (bits other) }
        ensures { bits result ≡ zip_with or_bit (bits self) (bits other) };

    /// `^`, bit by bit.
    fn xor(self, other: Self) -> Self
        requires { length (bits self) ≡ length (bits other) }
        ensures { bits result ≡ zip_with xor_bit (bits self) (bits other) };

    /// `~`, bit by bit.
    fn not(self) -> Self
        ensures { bits result ≡ map not_bit (bits self) };

    /// `+`, modulo 2^width.
    fn add(self, other: Self) -> Self
        requires { length (bits self) ≡ length (bits other) }
        ensures { bits result ≡ sum_bits (bits self) (bits other) };

    /// `-`, modulo 2^width.
    fn sub(self, other: Self) -> Self
        requires { length (bits self) ≡ length (bits other) }
        ensures { bits result ≡ difference_bits (bits self) (bits other) };

    /// `*`, modulo 2^width.
    fn mul(self, other: Self) -> Self
        requires { length (bits self) ≡ length (bits other) }
        ensures { bits result ≡ product_bits (bits self) (bits other) };

    /// Unary `-`, modulo 2^width.
    fn neg(self) -> Self
        ensures { bits result ≡ negative_bits (bits self) };

    /// `==`, in one bit.
    fn equal(self, other: Self) -> Self
        requires { length (bits self) ≡ length (bits other) }
        ensures { bits result ≡ equal_bit (bits self) (bits other) ∷ [] };

    /// `===`: whether the values are the same, x and z included.
    fn identical(self, other: Self) -> bool
        requires { length (bits self) ≡ length (bits other) }
        ensures { IsTrue result ↔ (bits self ≡ bits other) };

    /// `<` of unsigned values, in one bit.
    fn less(self, other: Self) -> Self
        requires { length (bits self) ≡ length (bits other) }
        ensures { bits result ≡ less_bit (bits self) (bits other) ∷ [] };

    /// `<` of signed values, in one bit.
    fn less_signed(self, other: Self) -> Self
        requires { length (bits self) ≡ length (bits other) }
        ensures { bits result ≡ less_signed_bit (bits self) (bits other) ∷ [] };

    /// The reduction `&`, in one bit.
    fn all(self) -> Self
        ensures { bits result ≡ fold_bits and_bit B1 (bits self) ∷ [] };

    /// The reduction `|`, in one bit.
    fn any(self) -> Self
        ensures { bits result ≡ fold_bits or_bit B0 (bits self) ∷ [] };

    /// The reduction `^`, in one bit.
    fn parity(self) -> Self
        ensures { bits result ≡ fold_bits xor_bit B0 (bits self) ∷ [] };

    /// `!`, in one bit.
    fn logic_not(self) -> Self
        ensures { bits result ≡ not_bit (truth_bit (bits self)) ∷ [] };

    /// `&&` of two values of any width, in one bit.
    fn logic_and(self, other: Self) -> Self
        ensures { bits result ≡ and_bit (truth_bit (bits self)) (truth_bit (bits other)) ∷ [] };

    /// `||` of two values of any width, in one bit.
    fn logic_or(self, other: Self) -> Self
        ensures { bits result ≡ or_bit (truth_bit (bits self)) (truth_bit (bits other)) ∷ [] };

    /// `<<`, by an amount of any width.
    fn shift_left(self, amount: Self) -> Self
        ensures { bits result ≡ shift_left_by (bits amount) (bits self) };

    /// `>>`, likewise.
    fn shift_right(self, amount: Self) -> Self
        ensures { bits result ≡ shift_right_by (bits amount) (bits self) };

    /// `>>>` of a signed value, likewise.
    fn shift_signed(self, amount: Self) -> Self
        ensures { bits result ≡ shift_signed_by (bits amount) (bits self) };

    /// The value at another width: extended by its upper bit where it is signed, else by zeros, or its lower bits.
    fn resize(self, width: u8, signed: bool) -> Self
        requires some { 1 ≤ width }
        requires within { width ≤ WIDTH }
        ensures { bits result ≡ resize_bits width signed (bits self) };

    /// The `width` bits from the place `low` up.
    fn slice(self, low: u8, width: u8) -> Self
        requires some { 1 ≤ width }
        requires inside { low + width ≤ length (bits self) }
        ensures { bits result ≡ slice_bits low width (bits self) };

    /// The concatenation, with `low` behind this value.
    fn concat(self, low: Self) -> Self
        requires { length (bits self) + length (bits low) ≤ WIDTH }
        ensures { bits result ≡ bits self ++ bits low };

    /// `?:` by this value's truth, between two values of one width (5.1.13).
    fn choose(self, yes: Self, no: Self) -> Self
        requires { length (bits yes) ≡ length (bits no) }
        ensures { bits result ≡ choose_bits (truth_bit (bits self)) (bits yes) (bits no) };
}
