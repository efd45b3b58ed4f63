//! Rows on single bits of the thin design: `thin`, an operator, its left operand, and the right ones that it is tried on.
use rows_digits::named;
use std::io;
use vod_thin_design::Bit;

#[derive(Clone, Copy)]
enum Operator {
    And,
    Or,
    Xor,
    Not,
}

const OPERATORS: [(&str, Operator); 4] = [
    ("and", Operator::And),
    ("or", Operator::Or),
    ("xor", Operator::Xor),
    ("not", Operator::Not),
];

const DIGITS: [(&str, Bit); 4] = [
    ("0", Bit::Zero),
    ("1", Bit::One),
    ("x", Bit::X),
    ("z", Bit::Z),
];

fn digit(bit: Bit) -> &'static str {
    match bit {
        Bit::Zero => "0",
        Bit::One => "1",
        Bit::X => "x",
        Bit::Z => "z",
    }
}

/// What the operator gives of a row's first operand and a further one.
fn given(op: Operator, first: Bit, last: Bit) -> Bit {
    match op {
        Operator::And => first.and(last),
        Operator::Or => first.or(last),
        Operator::Xor => first.xor(last),
        Operator::Not => last.not(),
    }
}

fn print_given(rt: &impl Print, op: Operator, first: &str, last: &str) -> io::Result<()> {
    match (named(first, &DIGITS), named(last, &DIGITS)) {
        (Some(first), Some(last)) => print!(rt; " {}", digit(given(op, first, last))),
        _ => rt.print(" not a row"),
    }
}

/// Prints what the words behind `thin` give. `not` has no left operand.
pub fn answer(rt: &impl Print, words: &[&str]) -> io::Result<()> {
    let [name, first, ..] = words else {
        return rt.print(" unknown row");
    };
    let Some(op) = named(name, &OPERATORS) else {
        return rt.print(" unknown row");
    };
    let before = match op {
        Operator::Not => 1,
        Operator::And | Operator::Or | Operator::Xor => 2,
    };
    for last in words.iter().skip(before) {
        print_given(rt, op, first, last)?;
    }
    Ok(())
}
