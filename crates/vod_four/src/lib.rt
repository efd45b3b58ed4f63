//! Values of Verilog: 1 to `WIDTH` bits, each 0, 1, x or z, and the operators on them.
#![tactic(auto)]

mod law;

ghost use Rattle.std.specs.Prelude.{◌≡◌, ◌+◌, ◌≤◌, ◌&&◌, if◌then◌else◌, ◌∷◌, [], ◌++◌, ◌↔◌, IsTrue, true, false, length, map, replicate, MatchOption};
ghost use Rattle.vod_bits.specs.Bit.{B0, B1, BX, is_1, bit_if, not_bit, and_bit, or_bit, xor_bit};
ghost use Rattle.vod_bits.specs.Value.{number_of, all_known, zip_with, fold_bits, resize_bits, slice_bits};
ghost use Rattle.vod_four.specs.Four.{four_bit, sum_bits, difference_bits, product_bits, negative_bits, less_bit, less_signed_bit, equal_bit, truth_bit, shift_left_by, shift_right_by, shift_signed_by, merge_bit, choose_bits};
ghost use Rattle.vod_four.specs.Fields.{one_bit, unk_bit, sure_bit, possible_bit, bounded_bit};

pub use law::{agree_on_pairs, agree_on_shifts, truth_is_any};
use std::marker::Model;
use vod_bits::{Bits, WIDTH, Word};

/// A value: `width` bits, from 1 to `WIDTH`. A bit is 0, 1, x or z where it is set in `ones` and in `unks` as 00, 10, 01 or 11.
#[derive(Clone, Copy)]
pub struct Four {
    pub width: u8,
    pub ones: Word,
    pub unks: Word,
}

impl Model for Four {
    ghost use Rattle.std.specs.Prelude.{List, ◌<◌, ◌≤◌, ◌^◌, length};
    ghost use Rattle.vod_bits.specs.Bit.{Bit};

    ghost Value = { List Bit };

    ghost use Rattle.vod_bits.specs.declared.TheConstants.{WIDTH};
    ghost use Rattle.vod_four.specs.Four.{four_of};
    ghost use Rattle.vod_four.specs.Fields.{ones_of, unks_of, fields_back};

    ghost view = { λ v. four_of v.width v.ones v.unks };

    ghost invariant = { λ v. (1 ≤ v.width) × (v.width ≤ WIDTH) × (v.ones < 2 ^ v.width) × (v.unks < 2 ^ v.width) };

    ghost inverse = { λ bs. record { width = length bs; ones = ones_of bs; unks = unks_of bs } };

    ghost inverse_ok = { λ v h. fields_back (λ w o u. record { width = w; ones = o; unks = u }) v.width v.ones v.unks h.2 h.3 };
}

// The branch of `?:` that a known truth takes.
fn chosen(truth: Bits, yes: Four, no: Four) -> Four
    ensures { result ≡ (if is_1 (fold_bits or_bit B0 truth) then yes else no) }
{
    if truth.any() { yes } else { no }
}

// The planes of a value, each a known value.
impl Four {
    // Where a bit is set in `ones`.
    fn one_plane(self) -> Bits
        ensures { result ≡ map one_bit self }
    {
        Bits {
            width: self.width,
            word: self.ones,
        }
    }

    // Where a bit is x or z.
    fn unk_plane(self) -> Bits
        ensures { result ≡ map unk_bit self }
    {
        Bits {
            width: self.width,
            word: self.unks,
        }
    }

    // Where a bit is 1.
    fn sure_plane(self) -> Bits
        ensures { result ≡ map sure_bit self }
    {
        self.one_plane().and(self.unk_plane().not())
    }

    // Where a bit isn't 0.
    fn possible_plane(self) -> Bits
        ensures { result ≡ map possible_bit self }
    {
        self.one_plane().or(self.unk_plane())
    }

    // The value with these planes.
    fn from_planes(ones: Bits, unks: Bits) -> Four
        requires { length ones ≡ length unks }
        ensures { result ≡ zip_with four_bit ones unks }
    {
        Four {
            width: ones.width,
            ones: ones.word,
            unks: unks.word,
        }
    }

    // The value that is 1 where `sure` is, else x where `possible` is, else 0.
    fn from_bounds(sure: Bits, possible: Bits) -> Four
        requires { length sure ≡ length possible }
        ensures { result ≡ zip_with bounded_bit sure possible }
    {
        Four::from_planes(sure, possible.and(sure.not()))
    }

    /// One x.
    pub fn unknown() -> Four
        ensures { result ≡ BX ∷ [] }
    {
        Four {
            width: 1,
            ones: 0,
            unks: 1,
        }
    }

    // The operands as known values, if they are known.
    fn known_pair(self, other: Four) -> Option<(Bits, Bits)>
        ensures { MatchOption result ((all_known self && all_known other) ≡ false) (λ p. (p.0 ≡ self) × (p.1 ≡ other) × ((all_known self && all_known other) ≡ true)) }
    {
        let one = self.known()?;
        let another = other.known()?;
        Some((one, another))
    }

    // The bits that are equal and known, else x.
    fn merge(self, other: Four) -> Four
        requires { length self ≡ length other }
        ensures { result ≡ zip_with merge_bit self other }
    {
        Four::from_bounds(
            self.sure_plane().and(other.sure_plane()),
            self.possible_plane().or(other.possible_plane()),
        )
    }

    // As many bits of x as this value has bits.
    fn all_unknown(self) -> Four
        ensures { result ≡ replicate (length self) BX }
    {
        let none = Bits {
            width: self.width,
            word: 0,
        };
        Four::from_planes(none, none.not())
    }
}

impl Four {
    /// How many bits there are.
    pub fn size(self) -> u8
        ensures { result ≡ length self }
    {
        self.width
    }

    /// `&`, bit by bit. The operands have one width, here and below.
    pub fn and(self, other: Four) -> Four
        requires { length self ≡ length other }
        ensures { result ≡ zip_with and_bit self other }
    {
        Four::from_bounds(
            self.sure_plane().and(other.sure_plane()),
            self.possible_plane().and(other.possible_plane()),
        )
    }

    /// `|`, bit by bit.
    pub fn or(self, other: Four) -> Four
        requires { length self ≡ length other }
        ensures { result ≡ zip_with or_bit self other }
    {
        Four::from_bounds(
            self.sure_plane().or(other.sure_plane()),
            self.possible_plane().or(other.possible_plane()),
        )
    }

    /// `^`, bit by bit.
    pub fn xor(self, other: Four) -> Four
        requires { length self ≡ length other }
        ensures { result ≡ zip_with xor_bit self other }
    {
        let unks = self.unk_plane().or(other.unk_plane());
        Four::from_planes(
            self.one_plane().xor(other.one_plane()).and(unks.not()),
            unks,
        )
    }

    /// `~`, bit by bit.
    pub fn not(self) -> Four
        ensures { result ≡ map not_bit self }
    {
        Four::from_bounds(self.possible_plane().not(), self.sure_plane().not())
    }

    /// The sum modulo 2^width, or x in each bit where a bit of an operand is x or z.
    pub fn add(self, other: Four) -> Four
        requires { length self ≡ length other }
        ensures { result ≡ sum_bits self other }
    {
        match self.known_pair(other) {
            Some(pair) => Four::of(pair.0.add(pair.1)),
            None => self.all_unknown(),
        }
    }

    /// The difference, likewise.
    pub fn sub(self, other: Four) -> Four
        requires { length self ≡ length other }
        ensures { result ≡ difference_bits self other }
    {
        match self.known_pair(other) {
            Some(pair) => Four::of(pair.0.sub(pair.1)),
            None => self.all_unknown(),
        }
    }

    /// The product, likewise.
    pub fn mul(self, other: Four) -> Four
        requires { length self ≡ length other }
        ensures { result ≡ product_bits self other }
    {
        match self.known_pair(other) {
            Some(pair) => Four::of(pair.0.mul(pair.1)),
            None => self.all_unknown(),
        }
    }

    /// Unary `-`, likewise.
    pub fn neg(self) -> Four
        ensures { result ≡ negative_bits self }
    {
        match self.known() {
            Some(a) => Four::of(a.neg()),
            None => self.all_unknown(),
        }
    }

    /// `==`, in one bit: 0 where two known bits differ, else x where a bit is x or z, else 1.
    pub fn eq(self, other: Four) -> Four
        requires { length self ≡ length other }
        ensures { result ≡ equal_bit self other ∷ [] }
    {
        self.xor(other).not().all()
    }

    /// `===`: whether the values are the same, x and z included.
    pub fn case_eq(self, other: Four) -> bool
        requires { length self ≡ length other }
        ensures { IsTrue result ↔ (self ≡ other) }
    {
        if !self.one_plane().eq(other.one_plane()) {
            return false;
        }
        self.unk_plane().eq(other.unk_plane())
    }

    /// `<` of unsigned values, in one bit: x where a bit is x or z.
    pub fn lt(self, other: Four) -> Four
        requires { length self ≡ length other }
        ensures { result ≡ less_bit self other ∷ [] }
    {
        match self.known_pair(other) {
            Some(pair) => Four::of(Bits::bit(pair.0.lt(pair.1))),
            None => Four::unknown(),
        }
    }

    /// `<` of signed values, likewise.
    pub fn lt_signed(self, other: Four) -> Four
        requires { length self ≡ length other }
        ensures { result ≡ less_signed_bit self other ∷ [] }
    {
        match self.known_pair(other) {
            Some(pair) => Four::of(Bits::bit(pair.0.lt_signed(pair.1))),
            None => Four::unknown(),
        }
    }

    /// The reduction `&`, in one bit.
    pub fn all(self) -> Four
        ensures { result ≡ fold_bits and_bit B1 self ∷ [] }
    {
        Four::from_bounds(
            Bits::bit(self.sure_plane().all()),
            Bits::bit(self.possible_plane().all()),
        )
    }

    /// The reduction `|`, in one bit.
    pub fn any(self) -> Four
        ensures { result ≡ fold_bits or_bit B0 self ∷ [] }
    {
        Four::from_bounds(
            Bits::bit(self.sure_plane().any()),
            Bits::bit(self.possible_plane().any()),
        )
    }

    /// The reduction `^`, in one bit.
    pub fn parity(self) -> Four
        ensures { result ≡ fold_bits xor_bit B0 self ∷ [] }
    {
        match self.known() {
            Some(a) => Four::of(Bits::bit(a.parity())),
            None => Four::unknown(),
        }
    }

    /// `!`, in one bit: `~` of the value's truth.
    pub fn logic_not(self) -> Four
        ensures { result ≡ not_bit (truth_bit self) ∷ [] }
    {
        self.any().not()
    }

    /// `&&`, in one bit: `&` of the truths of two values of any width.
    pub fn logic_and(self, other: Four) -> Four
        ensures { result ≡ and_bit (truth_bit self) (truth_bit other) ∷ [] }
    {
        self.any().and(other.any())
    }

    /// `||`, in one bit: `|` of the truths of two values of any width.
    pub fn logic_or(self, other: Four) -> Four
        ensures { result ≡ or_bit (truth_bit self) (truth_bit other) ∷ [] }
    {
        self.any().or(other.any())
    }

    /// `<<`, by an amount of any width: zeros move in. z comes out as x, and all is x where the amount has an x or z.
    pub fn shl(self, amount: Four) -> Four
        ensures { result ≡ shift_left_by amount self }
    {
        match amount.known() {
            Some(by) => Four::from_planes(
                self.sure_plane().shl(by.number()),
                self.unk_plane().shl(by.number()),
            ),
            None => self.all_unknown(),
        }
    }

    /// `>>`, likewise.
    pub fn shr(self, amount: Four) -> Four
        ensures { result ≡ shift_right_by amount self }
    {
        match amount.known() {
            Some(by) => Four::from_planes(
                self.sure_plane().shr(by.number()),
                self.unk_plane().shr(by.number()),
            ),
            None => self.all_unknown(),
        }
    }

    /// `>>>` of a signed value, likewise: copies of the upper bit move in.
    pub fn sar(self, amount: Four) -> Four
        ensures { result ≡ shift_signed_by amount self }
    {
        match amount.known() {
            Some(by) => Four::from_planes(
                self.sure_plane().sar(by.number()),
                self.unk_plane().sar(by.number()),
            ),
            None => self.all_unknown(),
        }
    }

    /// The value at another width: extended by its upper bit, x and z too, where it is signed, else by zeros, or its lower bits.
    pub fn resize(self, width: u8, signed: bool) -> Four
        requires some { 1 ≤ width }
        requires within { width ≤ WIDTH }
        ensures { result ≡ resize_bits width signed self }
    {
        Four::from_planes(
            self.one_plane().resize(width, signed),
            self.unk_plane().resize(width, signed),
        )
    }

    /// The `width` bits from the place `low` up.
    pub fn slice(self, low: u8, width: u8) -> Four
        requires some { 1 ≤ width }
        requires inside { low + width ≤ length self }
        ensures { result ≡ slice_bits low width self }
    {
        Four::from_planes(
            self.one_plane().slice(low, width),
            self.unk_plane().slice(low, width),
        )
    }

    /// The concatenation, with `low` behind this value.
    pub fn concat(self, low: Four) -> Four
        requires { length self + length low ≤ WIDTH }
        ensures { result ≡ self ++ low }
    {
        Four::from_planes(
            self.one_plane().concat(low.one_plane()),
            self.unk_plane().concat(low.unk_plane()),
        )
    }

    /// `?:` by this value's truth: 1 and 0 take `yes` and `no` as they are; x gives the bits that are equal and known, else x.
    pub fn choose(self, yes: Four, no: Four) -> Four
        requires { length yes ≡ length no }
        ensures { result ≡ choose_bits (truth_bit self) yes no }
    {
        match self.any().known() {
            Some(truth) => chosen(truth, yes, no),
            None => yes.merge(no),
        }
    }

    /// The known value, or `None` exactly where a bit is x or z.
    pub fn known(self) -> Option<Bits>
        ensures { MatchOption result (all_known self ≡ false) (λ bits. (bits ≡ self) × (all_known self ≡ true)) }
    {
        if self.unk_plane().any() {
            None
        } else {
            Some(self.one_plane())
        }
    }

    /// The value of a known value.
    pub fn of(bits: Bits) -> Four
        ensures value { result ≡ bits }
        ensures known { all_known bits ≡ true }
    {
        Four {
            width: bits.width,
            ones: bits.word,
            unks: 0,
        }
    }
}
