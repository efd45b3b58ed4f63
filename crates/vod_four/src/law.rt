//! The law that on known values each method of `Four` gives what the method of `Bits` of that name gives. The contracts of
//! `and`, `or`, `xor`, `not`, `all`, `any`, `parity`, `resize`, `slice` and `concat` are the same in both types. What the other
//! methods of `Four` are said to give is, on known values, what those of `Bits` are said to give.

ghost use Rattle.std.specs.Prelude.{◌≡◌, ◌≢◌, ◌+◌, ◌-◌, ◌*◌, ◌^◌, true, List, length, nat_lt, int_lt};
ghost use Rattle.vod_bits.specs.Bit.{Bit, B0, B1, or_bit, bit_if};
ghost use Rattle.vod_bits.specs.Value.{bits_of, number_of, signed_of, upper_bit, all_known, fold_bits, shift_left, shift_right};
ghost use Rattle.vod_four.specs.Four.{sum_bits, difference_bits, product_bits, negative_bits, less_bit, less_signed_bit, equal_bit, truth_bit, shift_left_by, shift_right_by, shift_signed_by};

use crate::Four;
use vod_bits::Bits;

/// The operators on two known values of one width.
pub fn agree_on_pairs(a: Bits, b: Bits)
    requires { length a ≡ length b }
    ensures sum { sum_bits a b ≡ bits_of (length a) (number_of a + number_of b) }
    ensures difference { difference_bits a b ≡ bits_of (length a) (number_of a + (2 ^ length a - number_of b)) }
    ensures product { product_bits a b ≡ bits_of (length a) (number_of a * number_of b) }
    ensures less { less_bit a b ≡ bit_if (nat_lt (number_of a) (number_of b)) }
    ensures less_signed { less_signed_bit a b ≡ bit_if (int_lt (signed_of a) (signed_of b)) }
    ensures equal { a ≡ b → equal_bit a b ≡ B1 }
    ensures different { a ≢ b → equal_bit a b ≡ B0 }
{
    // These two bring that every bit of the operands is known.
    let _a = Four::of(a);
    let _b = Four::of(b);
}

/// Unary `-` of a known value, and its shifts by known amounts of any width.
pub fn agree_on_shifts(a: Bits, amount: Bits)
    ensures known { all_known a ≡ true }
    ensures negative { negative_bits a ≡ bits_of (length a) (2 ^ length a - number_of a) }
    ensures left { shift_left_by amount a ≡ shift_left (number_of amount) a }
    ensures right { shift_right_by amount a ≡ shift_right B0 (number_of amount) a }
    ensures signed { shift_signed_by amount a ≡ shift_right (upper_bit a) (number_of amount) a }
{
    // These two bring that every bit of the value and of the amount is known.
    let _a = Four::of(a);
    let _amount = Four::of(amount);
}

/// The truth of a value is the reduction `|` of its bits (5.1.9, 5.1.11).
pub fn truth_is_any()
    ensures { (a : List Bit) → truth_bit a ≡ fold_bits or_bit B0 a }
{}
