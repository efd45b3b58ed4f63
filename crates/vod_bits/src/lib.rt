//! Known values of Verilog: 1 to `WIDTH` bits, each 0 or 1, and the operators on them.
#![tactic(auto)]

mod word;

ghost use Rattle.std.specs.Prelude.{◌∷◌, [], ◌≡◌, ◌+◌, ◌-◌, ◌*◌, ◌^◌, ◌≤◌, ◌++◌, ◌↔◌, IsTrue, length, map, nat_lt, int_lt};
ghost use Rattle.vod_bits.specs.Bit.{B0, B1, bit_if, not_bit, and_bit, or_bit, xor_bit};
ghost use Rattle.vod_bits.specs.Value.{bits_of, number_of, signed_of, upper_bit, zip_with, fold_bits, shift_left, shift_right, resize_bits, slice_bits};

use std::marker::Model;
use word::{
    copies, from_least, has_sign, has_upper_bit, low_bits, ones, shifted_left, shifted_right,
};

/// The greatest width of a value, in bits.
pub const WIDTH: u8 = 64;

/// The machine word that holds the bits of a value.
pub type Word = u64;

/// A known value: `width` bits, from 1 to `WIDTH`, and the number that they stand for, below 2^width.
#[derive(Clone, Copy)]
pub struct Bits {
    pub width: u8,
    pub word: Word,
}

impl Model for Bits {
    ghost use Rattle.std.specs.Prelude.{List, ◌<◌, ◌≤◌, ◌^◌, length};
    ghost use Rattle.vod_bits.specs.Bit.{Bit};

    ghost Value = { List Bit };

    ghost use Rattle.vod_bits.specs.Value.{bits_of, number_of};
    ghost use Rattle.vod_bits.specs.declared.TheConstants.{WIDTH};
    ghost use Rattle.vod_bits.specs.Fields.{fields_back};

    ghost view = { λ b. bits_of b.width b.word };

    ghost invariant = { λ b. (1 ≤ b.width) × (b.width ≤ WIDTH) × (b.word < 2 ^ b.width) };

    ghost inverse = { λ bs. record { width = length bs; word = number_of bs } };

    ghost inverse_ok = { λ b h. fields_back (λ w n. record { width = w; word = n }) b.width b.word h.2 };
}

impl Bits {
    /// One bit: 1 where the test holds, else 0.
    pub fn bit(test: bool) -> Bits
        ensures { result ≡ bit_if test ∷ [] }
    {
        Bits {
            width: 1,
            word: Word::from(test),
        }
    }

    /// How many bits there are.
    pub fn size(self) -> u8
        ensures { result ≡ length self }
    {
        self.width
    }

    /// The number that the bits stand for.
    pub fn number(self) -> Word
        ensures { result ≡ number_of self }
    {
        self.word
    }

    /// `&`, bit by bit. The operands have one width, here and below.
    pub fn and(self, other: Bits) -> Bits
        requires { length self ≡ length other }
        ensures { result ≡ zip_with and_bit self other }
    {
        Bits {
            width: self.width,
            word: self.word & other.word,
        }
    }

    /// `|`, bit by bit.
    pub fn or(self, other: Bits) -> Bits
        requires { length self ≡ length other }
        ensures { result ≡ zip_with or_bit self other }
    {
        Bits {
            width: self.width,
            word: self.word | other.word,
        }
    }

    /// `^`, bit by bit.
    pub fn xor(self, other: Bits) -> Bits
        requires { length self ≡ length other }
        ensures { result ≡ zip_with xor_bit self other }
    {
        Bits {
            width: self.width,
            word: self.word ^ other.word,
        }
    }

    /// `~`, bit by bit.
    pub fn not(self) -> Bits
        ensures { result ≡ map not_bit self }
    {
        Bits {
            width: self.width,
            word: self.word ^ ones(self.width),
        }
    }

    /// The sum, modulo 2^width.
    pub fn add(self, other: Bits) -> Bits
        requires { length self ≡ length other }
        ensures { result ≡ bits_of (length self) (number_of self + number_of other) }
    {
        Bits {
            width: self.width,
            word: low_bits(self.word.wrapping_add(other.word), self.width),
        }
    }

    /// The difference, modulo 2^width.
    pub fn sub(self, other: Bits) -> Bits
        requires { length self ≡ length other }
        ensures { result ≡ bits_of (length self) (number_of self + (2 ^ length self - number_of other)) }
    {
        Bits {
            width: self.width,
            word: low_bits(self.word.wrapping_sub(other.word), self.width),
        }
    }

    /// The product, modulo 2^width.
    pub fn mul(self, other: Bits) -> Bits
        requires { length self ≡ length other }
        ensures { result ≡ bits_of (length self) (number_of self * number_of other) }
    {
        Bits {
            width: self.width,
            word: low_bits(self.word.wrapping_mul(other.word), self.width),
        }
    }

    /// Unary `-`, modulo 2^width.
    pub fn neg(self) -> Bits
        ensures { result ≡ bits_of (length self) (2 ^ length self - number_of self) }
    {
        Bits {
            width: self.width,
            word: low_bits((0 as Word).wrapping_sub(self.word), self.width),
        }
    }

    /// `==`.
    pub fn eq(self, other: Bits) -> bool
        requires { length self ≡ length other }
        ensures { IsTrue result ↔ (self ≡ other) }
    {
        self.word == other.word
    }

    /// `<` of unsigned values.
    pub fn lt(self, other: Bits) -> bool
        requires { length self ≡ length other }
        ensures { result ≡ nat_lt (number_of self) (number_of other) }
    {
        self.word < other.word
    }

    /// `<` of signed values.
    pub fn lt_signed(self, other: Bits) -> bool
        requires { length self ≡ length other }
        ensures { result ≡ int_lt (signed_of self) (signed_of other) }
    {
        from_least(self.word, self.width) < from_least(other.word, other.width)
    }

    /// The reduction `&`: whether all bits are 1.
    pub fn all(self) -> bool
        ensures { bit_if result ≡ fold_bits and_bit B1 self }
    {
        self.word == ones(self.width)
    }

    /// The reduction `|`: whether a bit is 1.
    pub fn any(self) -> bool
        ensures { bit_if result ≡ fold_bits or_bit B0 self }
    {
        self.word != 0
    }

    /// The reduction `^`: whether an odd number of bits is 1.
    pub fn parity(self) -> bool
        ensures { bit_if result ≡ fold_bits xor_bit B0 self }
    {
        self.word.count_ones() % 2 == 1
    }

    /// `<<`, by any amount: zeros move in.
    pub fn shl(self, amount: Word) -> Bits
        ensures { result ≡ shift_left amount self }
    {
        Bits {
            width: self.width,
            word: low_bits(shifted_left(self.word, amount), self.width),
        }
    }

    /// `>>`, by any amount: zeros move in.
    pub fn shr(self, amount: Word) -> Bits
        ensures { result ≡ shift_right B0 amount self }
    {
        Bits {
            width: self.width,
            word: shifted_right(self.word, amount),
        }
    }

    /// `>>>` of a signed value, by any amount: copies of the upper bit move in.
    pub fn sar(self, amount: Word) -> Bits
        ensures { result ≡ shift_right (upper_bit self) amount self }
    {
        let flip = copies(has_upper_bit(self.word, self.width), self.width);
        Bits {
            width: self.width,
            word: shifted_right(self.word ^ flip, amount) ^ flip,
        }
    }

    /// The value at another width: extended by its sign where it is signed, else by zeros, or its lower bits.
    pub fn resize(self, width: u8, signed: bool) -> Bits
        requires some { 1 ≤ width }
        requires within { width ≤ WIDTH }
        ensures { result ≡ resize_bits width signed self }
    {
        if width <= self.width {
            return Bits {
                width,
                word: low_bits(self.word, width),
            };
        }
        let fill = has_sign(self.word, self.width, signed);
        Bits {
            width,
            word: self.word ^ copies(fill, self.width) ^ copies(fill, width),
        }
    }

    /// The `width` bits from the place `low` up.
    pub fn slice(self, low: u8, width: u8) -> Bits
        requires some { 1 ≤ width }
        requires inside { low + width ≤ length self }
        ensures { result ≡ slice_bits low width self }
    {
        Bits {
            width,
            word: low_bits(self.word >> low, width),
        }
    }

    /// The concatenation, with `low` behind this value.
    pub fn concat(self, low: Bits) -> Bits
        requires { length self + length low ≤ WIDTH }
        ensures { result ≡ self ++ low }
    {
        Bits {
            width: self.width + low.width,
            word: self.word << low.width | low.word,
        }
    }
}
