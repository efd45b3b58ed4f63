//! Rows on known values: `bits`, an operator, what it needs besides, and the values that it is tried on, each by itself.
ghost use Rattle.std.specs.Prelude.{◌≡◌, length};

use rows_digits::{joined, named, print, truth, value};
use std::io;
use vod_bits::{Bits, WIDTH, Word};
use vod_four::Four;

/// An operator on two values of one width.
#[derive(Clone, Copy)]
enum Equal {
    And,
    Or,
    Xor,
    Add,
    Sub,
    Mul,
    Eq,
    Lt,
    LtSigned,
}

/// An operator on one value.
#[derive(Clone, Copy)]
enum Single {
    Not,
    Neg,
    All,
    Any,
    Parity,
}

/// A shift of a value by a number.
#[derive(Clone, Copy)]
enum Shift {
    Left,
    Right,
    Signed,
}

#[derive(Clone, Copy)]
enum Operator {
    Equal(Equal),
    Single(Single),
    Shift(Shift),
    Resize(bool),
    Slice,
    Concat,
}

/// An operator with all that it needs but the last operand.
#[derive(Clone, Copy)]
enum Call {
    Equal(Equal, Bits),
    Single(Single),
    Shift(Shift, Bits),
    Resize(u8, bool),
    Slice(u8, u8),
    Concat(Bits),
}

const OPERATORS: [(&str, Operator); 21] = [
    ("and", Operator::Equal(Equal::And)),
    ("or", Operator::Equal(Equal::Or)),
    ("xor", Operator::Equal(Equal::Xor)),
    ("add", Operator::Equal(Equal::Add)),
    ("sub", Operator::Equal(Equal::Sub)),
    ("mul", Operator::Equal(Equal::Mul)),
    ("eq", Operator::Equal(Equal::Eq)),
    ("lt", Operator::Equal(Equal::Lt)),
    ("lt_signed", Operator::Equal(Equal::LtSigned)),
    ("not", Operator::Single(Single::Not)),
    ("neg", Operator::Single(Single::Neg)),
    ("all", Operator::Single(Single::All)),
    ("any", Operator::Single(Single::Any)),
    ("parity", Operator::Single(Single::Parity)),
    ("shl", Operator::Shift(Shift::Left)),
    ("shr", Operator::Shift(Shift::Right)),
    ("sar", Operator::Shift(Shift::Signed)),
    ("resize", Operator::Resize(false)),
    ("resize_signed", Operator::Resize(true)),
    ("slice", Operator::Slice),
    ("concat", Operator::Concat),
];

/// How many bits a value has.
#[tactic(auto, using(vod_bits::specs::Fields::width_back))]
fn width(bits: Bits) -> u8
    ensures { result ≡ length bits }
{
    bits.width
}

/// The known value that the digits of a word stand for.
fn known(word: &str) -> Option<Bits> {
    value(word)?.known()
}

fn of_one_width(op: Equal, a: Bits, b: Bits) -> Option<Four> {
    if width(a) == width(b) {
        Some(compared(op, a, b))
    } else {
        None
    }
}

fn compared(op: Equal, a: Bits, b: Bits) -> Four
    requires { length a ≡ length b }
{
    match op {
        Equal::And => Four::of(a.and(b)),
        Equal::Or => Four::of(a.or(b)),
        Equal::Xor => Four::of(a.xor(b)),
        Equal::Add => Four::of(a.add(b)),
        Equal::Sub => Four::of(a.sub(b)),
        Equal::Mul => Four::of(a.mul(b)),
        Equal::Eq => truth(a.eq(b)),
        Equal::Lt => truth(a.lt(b)),
        Equal::LtSigned => truth(a.lt_signed(b)),
    }
}

fn of_one(op: Single, a: Bits) -> Four {
    match op {
        Single::Not => Four::of(a.not()),
        Single::Neg => Four::of(a.neg()),
        Single::All => truth(a.all()),
        Single::Any => truth(a.any()),
        Single::Parity => truth(a.parity()),
    }
}

fn shifted(op: Shift, a: Bits, amount: Word) -> Four {
    match op {
        Shift::Left => Four::of(a.shl(amount)),
        Shift::Right => Four::of(a.shr(amount)),
        Shift::Signed => Four::of(a.sar(amount)),
    }
}

fn resized(a: Bits, width: u8, signed: bool) -> Option<Four> {
    if width == 0 || width > WIDTH {
        None
    } else {
        Some(Four::of(a.resize(width, signed)))
    }
}

fn slice(a: Bits, low: u8, count: u8) -> Option<Four> {
    if count == 0 || u16::from(low) + u16::from(count) > u16::from(width(a)) {
        None
    } else {
        Some(Four::of(a.slice(low, count)))
    }
}

fn concat(a: Bits, low: Bits) -> Option<Four> {
    if u16::from(width(a)) + u16::from(width(low)) > u16::from(WIDTH) {
        None
    } else {
        Some(Four::of(a.concat(low)))
    }
}

/// What an operator gives for one of a row's last words.
fn given(call: &Call, word: &str) -> Option<Four> {
    if let Call::Shift(op, first) = call {
        return Some(shifted(*op, *first, word.parse().ok()?));
    }
    let last = known(word)?;
    match call {
        Call::Equal(op, first) => of_one_width(*op, *first, last),
        Call::Single(op) => Some(of_one(*op, last)),
        Call::Resize(width, signed) => resized(last, *width, *signed),
        Call::Slice(low, count) => slice(last, *low, *count),
        Call::Concat(first) => concat(*first, last),
        Call::Shift(_, _) => None,
    }
}

/// An operator with the first of these words, and how many these are.
fn prepared(op: Operator, words: &[&str]) -> Option<(Call, usize)> {
    let first = words.first()?;
    match op {
        Operator::Equal(op) => Some((Call::Equal(op, known(first)?), 1)),
        Operator::Single(op) => Some((Call::Single(op), 0)),
        Operator::Shift(op) => Some((Call::Shift(op, known(first)?), 1)),
        Operator::Resize(signed) => Some((Call::Resize(first.parse().ok()?, signed), 1)),
        Operator::Slice => {
            let count = words.get(1)?.parse().ok()?;
            Some((Call::Slice(first.parse().ok()?, count), 2))
        }
        Operator::Concat => Some((Call::Concat(known(first)?), 1)),
    }
}

/// Prints what a call gives for each of the words behind those that it has.
fn print_each(rt: &impl Print, call: &Call, words: &[&str], count: usize) -> io::Result<()> {
    for word in words.iter().skip(count) {
        print(rt, given(call, word))?;
    }
    Ok(())
}

fn print_calls(rt: &impl Print, op: Operator, words: &[&str]) -> io::Result<()> {
    match prepared(op, words) {
        Some((call, count)) => print_each(rt, &call, words, count),
        None => print(rt, None),
    }
}

/// Prints what the words behind `bits` give.
pub fn answer(rt: &impl Print, words: &[&str]) -> io::Result<()> {
    let [first, rest @ ..] = words else {
        return rt.print(" unknown row");
    };
    match named(first, &OPERATORS) {
        Some(op) => print_calls(rt, op, rest),
        None => rt.print(" unknown row"),
    }
}
