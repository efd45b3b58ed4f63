//! Rows on values of four states: `four`, an operator, what it needs besides, and the values that it is tried on, each by itself.
ghost use Rattle.std.specs.Prelude.{◌≡◌, length};

use rows_digits::{joined, named, print, truth, value, width};
use std::io;
use vod_bits::WIDTH;
use vod_four::Four;

/// An operator on two values of one width.
#[derive(Clone, Copy)]
enum Equal {
    And,
    Or,
    Xor,
    Add,
    Sub,
    Mul,
    Eq,
    CaseEq,
    Lt,
    LtSigned,
}

/// An operator on two values of any widths.
#[derive(Clone, Copy)]
enum Pair {
    LogicAnd,
    LogicOr,
    Shl,
    Shr,
    Sar,
    Concat,
}

/// An operator on one value.
#[derive(Clone, Copy)]
enum Single {
    Not,
    Neg,
    All,
    Any,
    Parity,
    LogicNot,
    Of,
}

#[derive(Clone, Copy)]
enum Operator {
    Equal(Equal),
    Pair(Pair),
    Single(Single),
    Resize(bool),
    Slice,
    Choose,
    Known,
}

/// An operator with all that it needs but the last operand.
#[derive(Clone, Copy)]
enum Call {
    Equal(Equal, Four),
    Pair(Pair, Four),
    Single(Single),
    Resize(u8, bool),
    Slice(u8, u8),
    Choose(Four),
}

const OPERATORS: [(&str, Operator); 28] = [
    ("and", Operator::Equal(Equal::And)),
    ("or", Operator::Equal(Equal::Or)),
    ("xor", Operator::Equal(Equal::Xor)),
    ("add", Operator::Equal(Equal::Add)),
    ("sub", Operator::Equal(Equal::Sub)),
    ("mul", Operator::Equal(Equal::Mul)),
    ("eq", Operator::Equal(Equal::Eq)),
    ("case_eq", Operator::Equal(Equal::CaseEq)),
    ("lt", Operator::Equal(Equal::Lt)),
    ("lt_signed", Operator::Equal(Equal::LtSigned)),
    ("logic_and", Operator::Pair(Pair::LogicAnd)),
    ("logic_or", Operator::Pair(Pair::LogicOr)),
    ("shl", Operator::Pair(Pair::Shl)),
    ("shr", Operator::Pair(Pair::Shr)),
    ("sar", Operator::Pair(Pair::Sar)),
    ("concat", Operator::Pair(Pair::Concat)),
    ("not", Operator::Single(Single::Not)),
    ("neg", Operator::Single(Single::Neg)),
    ("all", Operator::Single(Single::All)),
    ("any", Operator::Single(Single::Any)),
    ("parity", Operator::Single(Single::Parity)),
    ("logic_not", Operator::Single(Single::LogicNot)),
    ("of", Operator::Single(Single::Of)),
    ("resize", Operator::Resize(false)),
    ("resize_signed", Operator::Resize(true)),
    ("slice", Operator::Slice),
    ("choose", Operator::Choose),
    ("known", Operator::Known),
];

fn of_one_width(op: Equal, a: Four, b: Four) -> Option<Four> {
    if width(a) == width(b) {
        Some(compared(op, a, b))
    } else {
        None
    }
}

fn compared(op: Equal, a: Four, b: Four) -> Four
    requires { length a ≡ length b }
{
    match op {
        Equal::And => a.and(b),
        Equal::Or => a.or(b),
        Equal::Xor => a.xor(b),
        Equal::Add => a.add(b),
        Equal::Sub => a.sub(b),
        Equal::Mul => a.mul(b),
        Equal::Eq => a.eq(b),
        Equal::CaseEq => truth(a.case_eq(b)),
        Equal::Lt => a.lt(b),
        Equal::LtSigned => a.lt_signed(b),
    }
}

fn of_two(op: Pair, a: Four, b: Four) -> Option<Four> {
    match op {
        Pair::LogicAnd => Some(a.logic_and(b)),
        Pair::LogicOr => Some(a.logic_or(b)),
        Pair::Shl => Some(a.shl(b)),
        Pair::Shr => Some(a.shr(b)),
        Pair::Sar => Some(a.sar(b)),
        Pair::Concat => joined(a, b),
    }
}

fn of_one(op: Single, a: Four) -> Option<Four> {
    match op {
        Single::Not => Some(a.not()),
        Single::Neg => Some(a.neg()),
        Single::All => Some(a.all()),
        Single::Any => Some(a.any()),
        Single::Parity => Some(a.parity()),
        Single::LogicNot => Some(a.logic_not()),
        Single::Of => Some(Four::of(a.known()?)),
    }
}

/// The value at another width, where it is one that a value may have.
fn resized(a: Four, width: u8, signed: bool) -> Option<Four> {
    if width == 0 || width > WIDTH {
        None
    } else {
        Some(a.resize(width, signed))
    }
}

fn slice(a: Four, low: u8, count: u8) -> Option<Four> {
    if count == 0 || u16::from(low) + u16::from(count) > u16::from(width(a)) {
        None
    } else {
        Some(a.slice(low, count))
    }
}

/// `?:` with branches that are written `yes:no`.
fn chosen(test: Four, branches: &str) -> Option<Four> {
    let (yes, no) = branches.split_once(':')?;
    let (yes, no) = (value(yes)?, value(no)?);
    if width(yes) == width(no) {
        Some(test.choose(yes, no))
    } else {
        None
    }
}

/// What an operator gives for one of a row's last words.
fn given(call: &Call, word: &str) -> Option<Four> {
    if let Call::Choose(test) = call {
        return chosen(*test, word);
    }
    let last = value(word)?;
    match call {
        Call::Equal(op, first) => of_one_width(*op, *first, last),
        Call::Pair(op, first) => of_two(*op, *first, last),
        Call::Single(op) => of_one(*op, last),
        Call::Resize(width, signed) => resized(last, *width, *signed),
        Call::Slice(low, count) => slice(last, *low, *count),
        Call::Choose(_) => None,
    }
}

/// An operator with the first of these words, and how many these are.
fn prepared(op: Operator, words: &[&str]) -> Option<(Call, usize)> {
    let first = words.first()?;
    match op {
        Operator::Equal(op) => Some((Call::Equal(op, value(first)?), 1)),
        Operator::Pair(op) => Some((Call::Pair(op, value(first)?), 1)),
        Operator::Single(op) => Some((Call::Single(op), 0)),
        Operator::Resize(signed) => Some((Call::Resize(first.parse().ok()?, signed), 1)),
        Operator::Slice => {
            let count = words.get(1)?.parse().ok()?;
            Some((Call::Slice(first.parse().ok()?, count), 2))
        }
        Operator::Choose => Some((Call::Choose(value(first)?), 1)),
        Operator::Known => None,
    }
}

/// Prints the known values among some, and which aren't.
fn print_known(rt: &impl Print, words: &[&str]) -> io::Result<()> {
    for word in words {
        match value(word).map(|value| value.known()) {
            Some(None) => rt.print(" none")?,
            Some(Some(bits)) => print(rt, Some(Four::of(bits)))?,
            None => print(rt, None)?,
        }
    }
    Ok(())
}

/// Prints what a call gives for each of the words behind those that it has.
fn print_each(rt: &impl Print, call: &Call, words: &[&str], count: usize) -> io::Result<()> {
    for word in words.iter().skip(count) {
        print(rt, given(call, word))?;
    }
    Ok(())
}

fn print_calls(rt: &impl Print, op: Operator, words: &[&str]) -> io::Result<()> {
    match prepared(op, words) {
        Some((call, count)) => print_each(rt, &call, words, count),
        None => print(rt, None),
    }
}

/// Prints what the words behind `four` give.
pub fn answer(rt: &impl Print, words: &[&str]) -> io::Result<()> {
    let [first, rest @ ..] = words else {
        return rt.print(" unknown row");
    };
    match named(first, &OPERATORS) {
        Some(Operator::Known) => print_known(rt, rest),
        Some(op) => print_calls(rt, op, rest),
        None => rt.print(" unknown row"),
    }
}
