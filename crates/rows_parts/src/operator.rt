//! Rows on the interface of values.
ghost use Rattle.std.specs.Prelude.{◌≡◌, length};

use rows_digits::{Digits, named, value};
use std::io;
use vod_four::Four;
use vod_value::Value;

/// An operator on two values.
#[derive(Clone, Copy)]
enum Operator {
    And,
    Or,
    Xor,
    Add,
    Sub,
    Mul,
    Equal,
    Less,
    LessSigned,
    LogicAnd,
    LogicOr,
    ShiftLeft,
    ShiftRight,
    ShiftSigned,
    Choose,
}

const OPERATORS: [(&str, Operator); 15] = [
    ("and", Operator::And),
    ("or", Operator::Or),
    ("xor", Operator::Xor),
    ("add", Operator::Add),
    ("sub", Operator::Sub),
    ("mul", Operator::Mul),
    ("equal", Operator::Equal),
    ("less", Operator::Less),
    ("less_signed", Operator::LessSigned),
    ("logic_and", Operator::LogicAnd),
    ("logic_or", Operator::LogicOr),
    ("shift_left", Operator::ShiftLeft),
    ("shift_right", Operator::ShiftRight),
    ("shift_signed", Operator::ShiftSigned),
    ("choose", Operator::Choose),
];

/// What an operator gives. `choose` takes the first value or the second, by the truth of the first.
fn applied<V: Value>(operator: Operator, a: V, b: V) -> V
    requires { length (V.bits a) ≡ length (V.bits b) }
{
    match operator {
        Operator::And => a.and(b),
        Operator::Or => a.or(b),
        Operator::Xor => a.xor(b),
        Operator::Add => a.add(b),
        Operator::Sub => a.sub(b),
        Operator::Mul => a.mul(b),
        Operator::Equal => a.equal(b),
        Operator::Less => a.less(b),
        Operator::LessSigned => a.less_signed(b),
        Operator::LogicAnd => a.logic_and(b),
        Operator::LogicOr => a.logic_or(b),
        Operator::ShiftLeft => a.shift_left(b),
        Operator::ShiftRight => a.shift_right(b),
        Operator::ShiftSigned => a.shift_signed(b),
        Operator::Choose => a.choose(a, b),
    }
}

/// Prints what an operator gives for two values of one width.
fn print_both(rt: &impl Print, operator: Operator, a: Four, b: Four) -> io::Result<()>
    requires { length a ≡ length b }
{
    match (a.known(), b.known()) {
        (Some(one), Some(other)) => {
            print!(rt; " {}", Digits(Four::of(applied(operator, one, other))))?;
        }
        _ => rt.print(" -")?,
    }
    print!(rt; " {}", Digits(applied(operator, a, b)))
}

/// Prints what the operator of a row's words gives.
pub fn answer(rt: &impl Print, words: &[&str]) -> io::Result<()> {
    let [name, a, b] = words else {
        return rt.print(" not a row");
    };
    match (named(name, &OPERATORS), value(a), value(b)) {
        (Some(operator), Some(a), Some(b)) if a.size() == b.size() => {
            print_both(rt, operator, a, b)
        }
        _ => rt.print(" not a row"),
    }
}
