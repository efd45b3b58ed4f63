//! Values of four states.
ghost use Rattle.std.specs.Prelude.{◌≡◌, true, false, MatchOption};
ghost use Rattle.vod_bits.specs.Bit.{BX, bit_if};
ghost use Rattle.vod_bits.specs.Value.{number_of, all_known};
ghost use Rattle.vod_four.specs.Four.{truth_bit};

use crate::Value;
use vod_bits::{Bits, Word};
use vod_four::{Four, truth_is_any};

// The number that a value stands for, where each bit is known.
fn number(value: Four) -> Option<Word>
    ensures { MatchOption result (all_known value ≡ false) (λ n. (all_known value ≡ true) × (n ≡ number_of value)) }
{
    let bits = value.known()?;
    Some(bits.number())
}

// The truth of a value, where it has one.
fn truth(value: Four) -> Option<bool>
    ensures { MatchOption result (truth_bit value ≡ BX) (λ t. truth_bit value ≡ bit_if t) }
{
    truth_is_any();
    let bit = value.any().known()?;
    Some(bit.any())
}

impl Value for Four {
    ghost bits = { λ v. v };

    ghost fill = { BX };

    fn width(self) -> u8 {
        self.size()
    }

    fn of(known: Bits) -> Four {
        Four::of(known)
    }

    fn nothing() -> Four {
        Four::unknown()
    }

    fn number(self) -> Option<Word> {
        number(self)
    }

    fn truth(self) -> Option<bool> {
        truth(self)
    }

    fn and(self, other: Four) -> Four {
        self.and(other)
    }

    fn or(self, other: Four) -> Four {
        self.or(other)
    }

    fn xor(self, other: Four) -> Four {
        self.xor(other)
    }

    fn not(self) -> Four {
        self.not()
    }

    fn add(self, other: Four) -> Four {
        self.add(other)
    }

    fn sub(self, other: Four) -> Four {
        self.sub(other)
    }

    fn mul(self, other: Four) -> Four {
        self.mul(other)
    }

    fn neg(self) -> Four {
        self.neg()
    }

    fn equal(self, other: Four) -> Four {
        self.eq(other)
    }

    fn identical(self, other: Four) -> bool {
        self.case_eq(other)
    }

    fn less(self, other: Four) -> Four {
        self.lt(other)
    }

    fn less_signed(self, other: Four) -> Four {
        self.lt_signed(other)
    }

    fn all(self) -> Four {
        self.all()
    }

    fn any(self) -> Four {
        self.any()
    }

    fn parity(self) -> Four {
        self.parity()
    }

    fn logic_not(self) -> Four {
        self.logic_not()
    }

    fn logic_and(self, other: Four) -> Four {
        self.logic_and(other)
    }

    fn logic_or(self, other: Four) -> Four {
        self.logic_or(other)
    }

    fn shift_left(self, amount: Four) -> Four {
        self.shl(amount)
    }

    fn shift_right(self, amount: Four) -> Four {
        self.shr(amount)
    }

    fn shift_signed(self, amount: Four) -> Four {
        self.sar(amount)
    }

    fn resize(self, width: u8, signed: bool) -> Four {
        self.resize(width, signed)
    }

    fn slice(self, low: u8, width: u8) -> Four {
        self.slice(low, width)
    }

    fn concat(self, low: Four) -> Four {
        self.concat(low)
    }

    fn choose(self, yes: Four, no: Four) -> Four {
        self.choose(yes, no)
    }
}
