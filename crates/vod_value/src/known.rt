//! Known values.
ghost use Rattle.vod_bits.specs.Bit.{B0};

use crate::Value;
use vod_bits::{Bits, Word};
use vod_four::{agree_on_pairs, agree_on_shifts, truth_is_any};

impl Value for Bits {
    ghost bits = { λ b. b };

    ghost fill = { B0 };

    fn width(self) -> u8 {
        self.size()
    }

    fn of(known: Bits) -> Bits {
        known
    }

    fn nothing() -> Bits {
        Bits::bit(false)
    }

    fn number(self) -> Option<Word> {
        agree_on_shifts(self, self);
        Some(self.number())
    }

    fn truth(self) -> Option<bool> {
        truth_is_any();
        Some(self.any())
    }

    fn and(self, other: Bits) -> Bits {
        self.and(other)
    }

    fn or(self, other: Bits) -> Bits {
        self.or(other)
    }

    fn xor(self, other: Bits) -> Bits {
        self.xor(other)
    }

    fn not(self) -> Bits {
        self.not()
    }

    fn add(self, other: Bits) -> Bits {
        agree_on_pairs(self, other);
        self.add(other)
    }

    fn sub(self, other: Bits) -> Bits {
        agree_on_pairs(self, other);
        self.sub(other)
    }

    fn mul(self, other: Bits) -> Bits {
        agree_on_pairs(self, other);
        self.mul(other)
    }

    fn neg(self) -> Bits {
        agree_on_shifts(self, self);
        self.neg()
    }

    fn equal(self, other: Bits) -> Bits {
        agree_on_pairs(self, other);
        Bits::bit(self.eq(other))
    }

    fn identical(self, other: Bits) -> bool {
        self.eq(other)
    }

    fn less(self, other: Bits) -> Bits {
        agree_on_pairs(self, other);
        Bits::bit(self.lt(other))
    }

    fn less_signed(self, other: Bits) -> Bits {
        agree_on_pairs(self, other);
        Bits::bit(self.lt_signed(other))
    }

    fn all(self) -> Bits {
        Bits::bit(self.all())
    }

    fn any(self) -> Bits {
        Bits::bit(self.any())
    }

    fn parity(self) -> Bits {
        Bits::bit(self.parity())
    }

    fn logic_not(self) -> Bits {
        truth_is_any();
        Bits::bit(self.any()).not()
    }

    fn logic_and(self, other: Bits) -> Bits {
        truth_is_any();
        Bits::bit(self.any()).and(Bits::bit(other.any()))
    }

    fn logic_or(self, other: Bits) -> Bits {
        truth_is_any();
        Bits::bit(self.any()).or(Bits::bit(other.any()))
    }

    fn shift_left(self, amount: Bits) -> Bits {
        agree_on_shifts(self, amount);
        self.shl(amount.number())
    }

    fn shift_right(self, amount: Bits) -> Bits {
        agree_on_shifts(self, amount);
        self.shr(amount.number())
    }

    fn shift_signed(self, amount: Bits) -> Bits {
        agree_on_shifts(self, amount);
        self.sar(amount.number())
    }

    fn resize(self, width: u8, signed: bool) -> Bits {
        self.resize(width, signed)
    }

    fn slice(self, low: u8, width: u8) -> Bits {
        self.slice(low, width)
    }

    fn concat(self, low: Bits) -> Bits {
        self.concat(low)
    }

    fn choose(self, yes: Bits, no: Bits) -> Bits {
        truth_is_any();
        if self.any() { yes } else { no }
    }
}
