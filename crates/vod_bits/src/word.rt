//! Machine words: the lower bits of a word, and words of ones.

ghost use Rattle.std.specs.Prelude.{◌≡◌, ◌-◌, ◌*◌, ◌/◌, ◌%◌, ◌^◌, ◌<◌, ◌≤◌, if◌then◌else◌, pos, ◌+ℤ◌};
ghost use Rattle.std.specs.Int.{bit_at};
ghost use Rattle.vod_bits.specs.Bit.{B0, bit_if};
ghost use Rattle.vod_bits.specs.Value.{bits_of, digit_bit, signed_of};
ghost use Rattle.vod_bits.specs.Word.{word_bits};

use crate::{WIDTH, Word};

// A word whose lower `width` bits are 1.
pub fn ones(width: u8) -> Word
    requires low { 1 ≤ width }
    requires high { width ≤ WIDTH }
    ensures { result ≡ 2 ^ width - 1 }
{
    Word::MAX >> (Word::BITS - u32::from(width))
}

// The lower `width` bits of the word.
pub fn low_bits(word: Word, width: u8) -> Word
    requires low { 1 ≤ width }
    requires high { width ≤ WIDTH }
    ensures { result ≡ word % 2 ^ width }
{
    word & ones(width)
}

// The word with its bits moved up by any amount.
pub fn shifted_left(word: Word, amount: Word) -> Word
    ensures { result ≡ word * 2 ^ amount % 2 ^ word_bits }
{
    if amount < Word::from(Word::BITS) {
        word << amount
    } else {
        0
    }
}

// The word with its bits moved down by any amount.
pub fn shifted_right(word: Word, amount: Word) -> Word
    ensures { result ≡ word / 2 ^ amount }
{
    if amount < Word::from(Word::BITS) {
        word >> amount
    } else {
        0
    }
}

// Whether the upper one of `width` bits is 1.
pub fn has_upper_bit(word: Word, width: u8) -> bool
    requires low { 1 ≤ width }
    requires high { width ≤ WIDTH }
    ensures { bit_if result ≡ digit_bit (bit_at word (width - 1)) }
{
    word >> (width - 1) & 1 == 1
}

// The same of a signed value; an unsigned one has no sign.
pub fn has_sign(word: Word, width: u8, signed: bool) -> bool
    requires low { 1 ≤ width }
    requires high { width ≤ WIDTH }
    ensures { bit_if result ≡ (if signed then digit_bit (bit_at word (width - 1)) else B0) }
{
    if signed {
        has_upper_bit(word, width)
    } else {
        false
    }
}

// A word whose lower `width` bits are copies of the digit.
pub fn copies(digit: bool, width: u8) -> Word
    requires low { 1 ≤ width }
    requires high { width ≤ WIDTH }
    ensures { result ≡ (if digit then 2 ^ width - 1 else 0) }
{
    if digit { ones(width) } else { 0 }
}

// How far the signed number of `width` bits is above the least one.
pub fn from_least(word: Word, width: u8) -> Word
    requires low { 1 ≤ width }
    requires high { width ≤ WIDTH }
    requires within { word < 2 ^ width }
    ensures { pos result ≡ signed_of (bits_of width word) +ℤ pos (2 ^ (width - 1)) }
{
    word ^ (1 << (width - 1))
}
