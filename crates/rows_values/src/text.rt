//! Rows on numbers as text. `""` stands for no text.
ghost use Rattle.std.specs.Prelude.{◌≡◌, ◌⊎◌, IfSome};

use std::{fmt, io};
use vod_text::{NumberFault, based, decimal, hexadecimal, put_decimal};

/// The calls of such rows.
#[derive(Clone, Copy)]
pub enum Call {
    Decimal,
    Hexadecimal,
    Based,
    PutDecimal,
    Message,
}

/// The bytes that a word of a row stands for.
fn bytes<'w>(word: &&'w str) -> &'w [u8] {
    if *word == "\"\"" {
        b""
    } else {
        word.as_bytes()
    }
}

/// Prints a number or why there is none.
fn print_number<T: fmt::Display + Drop>(
    rt: &impl Print,
    number: Result<T, NumberFault>,
) -> io::Result<()> {
    match number {
        Ok(number) => print!(rt; " {number}"),
        Err(NumberFault::Spelling { at }) => print!(rt; " wrong at {at}"),
        Err(NumberFault::Range) => rt.print(" out of range"),
    }
}

/// The base of a based number.
fn base(word: &str) -> Option<u8>
    ensures { IfSome result (λ b. (b ≡ 2) ⊎ (b ≡ 8) ⊎ (b ≡ 10) ⊎ (b ≡ 16)) }
{
    match word.parse() {
        Ok(2) => Some(2),
        Ok(8) => Some(8),
        Ok(10) => Some(10),
        Ok(16) => Some(16),
        _ => None,
    }
}

/// Prints the length that is answered, and the room behind the text too.
fn print_decimal(rt: &impl Print, number: u64) -> io::Result<()> {
    let mut out = [b'.'; 20];
    let length = put_decimal(number, &mut out);
    print!(rt; " {length} ")?;
    for byte in out {
        rt.print(char::from(byte))?;
    }
    Ok(())
}

/// Prints what a fault says.
fn print_message(rt: &impl Print, words: &[&str]) -> io::Result<()> {
    let fault = match words {
        ["range"] => NumberFault::Range,
        ["wrong", "at", at] => match at.parse() {
            Ok(at) => NumberFault::Spelling { at },
            Err(_) => return rt.print(" not a row"),
        },
        _ => return rt.print(" not a row"),
    };
    print!(rt; " {fault}")
}

/// Prints what a call gives for the words behind its name.
pub fn answer(rt: &impl Print, call: Call, words: &[&str]) -> io::Result<()> {
    match (call, words) {
        (Call::Decimal, [text, max]) => match max.parse() {
            Ok(max) => print_number(rt, decimal(bytes(text), max)),
            Err(_) => rt.print(" not a row"),
        },
        (Call::Hexadecimal, [text]) => print_number(rt, hexadecimal(bytes(text))),
        (Call::Based, [digits, text]) => match base(digits) {
            Some(base) => print_number(rt, based(bytes(text), base)),
            None => rt.print(" not a row"),
        },
        (Call::PutDecimal, [number]) => match number.parse() {
            Ok(number) => print_decimal(rt, number),
            Err(_) => rt.print(" not a row"),
        },
        (Call::Message, words) => print_message(rt, words),
        _ => rt.print(" not a row"),
    }
}
