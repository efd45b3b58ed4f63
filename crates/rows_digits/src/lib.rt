//! Values and words as the rows of programs write them.
#![tactic(auto)]

ghost use Rattle.std.specs.Prelude.{◌≡◌, ◌≤◌, length};

use std::{fmt, io};
use vod_bits::WIDTH;
use vod_four::Four;

/// A value that is printed as its digits, the upper one first.
#[derive(Clone, Copy)]
pub struct Digits(pub Four);

impl fmt::Display for Digits {
    fn fmt<W: fmt::Write>(&self, f: &mut fmt::Formatter<W>) -> fmt::Result {
        for place in (0..self.0.width).rev() {
            f.write_char(digit_at(self.0, place))?;
        }
        Ok(())
    }
}

fn digit_at(value: Four, place: u8) -> char {
    let one = value.ones.checked_shr(u32::from(place)).unwrap_or(0) & 1;
    let unk = value.unks.checked_shr(u32::from(place)).unwrap_or(0) & 1;
    match (one, unk) {
        (0, 0) => '0',
        (_, 0) => '1',
        (0, _) => 'x',
        _ => 'z',
    }
}

/// How many bits a value has.
#[tactic(auto, using(vod_four::specs::Fields::four_width))]
pub fn width(value: Four) -> u8
    ensures exact { result ≡ length value }
    ensures within { result ≤ WIDTH }
{
    value.width
}

/// One bit, by its digit.
fn bit(digit: u8) -> Option<Four> {
    let (ones, unks) = match digit {
        b'0' => (0, 0),
        b'1' => (1, 0),
        b'x' => (0, 1),
        b'z' => (1, 1),
        _ => return None,
    };
    Some(Four {
        width: 1,
        ones,
        unks,
    })
}

/// One bit, 1 where the test holds.
pub fn truth(test: bool) -> Four {
    Four {
        width: 1,
        ones: u64::from(test),
        unks: 0,
    }
}

/// The concatenation, where it has a width that a value may have.
pub fn joined(high: Four, low: Four) -> Option<Four> {
    if width(high) + width(low) > WIDTH {
        None
    } else {
        Some(high.concat(low))
    }
}

/// The value that the digits of a word stand for, none where they are none or too many.
pub fn value(word: &str) -> Option<Four> {
    let mut value = None;
    for digit in word.bytes() {
        let digit = bit(digit)?;
        value = match value {
            None => Some(digit),
            Some(value) => Some(joined(value, digit)?),
        };
    }
    value
}

/// What a word names, by a table.
pub fn named<T: Copy>(word: &str, table: &[(&str, T)]) -> Option<T> {
    for (name, item) in table {
        if *name == word {
            return Some(*item);
        }
    }
    None
}

/// Prints a value, or that there is none.
pub fn print(rt: &impl Print, value: Option<Four>) -> io::Result<()> {
    match value {
        Some(value) => print!(rt; " {}", Digits(value)),
        None => rt.print(" not a row"),
    }
}
