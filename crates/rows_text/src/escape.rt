//! How a row writes bytes: `\n` is a line feed, `\t` a tab, `\xHH` a byte, `\(COUNT TEXT\)` a text so many times, which has no
//! such sign in it; any other byte behind `\` is that byte.
ghost use Rattle.std.specs.Prelude.{◌≤◌, length};

use std::alloc::{AllocError, Global};

/// A part of a row.
enum Piece<'a> {
    Byte(u8),
    Repeated(u64, &'a [u8]),
}

/// The greatest count of a repeated text.
const MOST: u64 = 2_097_152;

/// The bytes that a text stands for.
pub fn unescaped(alloc: Global, text: &[u8]) -> Result<Vec<u8>, AllocError> {
    let mut bytes = Vec::new(alloc);
    let mut rest = text;
    for _ in 0..text.len() {
        let Some((piece, behind)) = piece_at(rest) else {
            return Ok(bytes);
        };
        add(&mut bytes, piece)?;
        rest = behind;
    }
    Ok(bytes)
}

fn add(bytes: &mut Vec<u8>, piece: Piece<'_>) -> Result<(), AllocError> {
    match piece {
        Piece::Byte(byte) => bytes.extend_from_slice(&[byte]),
        Piece::Repeated(count, part) => add_repeated(bytes, count, part),
    }
}

fn add_repeated(bytes: &mut Vec<u8>, count: u64, part: &[u8]) -> Result<(), AllocError> {
    for _ in 0..count {
        bytes.extend_from_slice(part)?;
    }
    Ok(())
}

/// The part at the front, and what stands behind it.
fn piece_at(text: &[u8]) -> Option<(Piece<'_>, &[u8])> {
    match text {
        [] => None,
        [b'\\', b'n', rest @ ..] => Some((Piece::Byte(b'\n'), rest)),
        [b'\\', b't', rest @ ..] => Some((Piece::Byte(b'\t'), rest)),
        [b'\\', b'x', high, low, rest @ ..] => Some((Piece::Byte(byte_of(*high, *low)), rest)),
        [b'\\', b'(', rest @ ..] => Some(repeated_at(rest)),
        [b'\\', byte, rest @ ..] => Some((Piece::Byte(*byte), rest)),
        [byte, rest @ ..] => Some((Piece::Byte(*byte), rest)),
    }
}

fn byte_of(high: u8, low: u8) -> u8 {
    (digit_of(high) << 4) | digit_of(low)
}

/// The value of a hexadecimal digit.
fn digit_of(byte: u8) -> u8 {
    match byte {
        b'0'..=b'9' => byte - b'0',
        b'a'..=b'f' => byte - b'a' + 10,
        b'A'..=b'F' => byte - b'A' + 10,
        _ => 0,
    }
}

/// A text with its count before it, which ends at `\)`.
fn repeated_at(text: &[u8]) -> (Piece<'_>, &[u8]) {
    let (count, behind) = number_at(text);
    let (part, rest) = behind.split_at(place_of(behind, b'\\'));
    (Piece::Repeated(count.min(MOST), part), without(rest, 2))
}

/// The decimal number at the front, which one space ends, and what stands behind that.
pub fn number_at(text: &[u8]) -> (u64, &[u8]) {
    let (digits, rest) = text.split_at(place_of(text, b' '));
    let mut number = 0u64;
    for digit in digits {
        number = number
            .saturating_mul(10)
            .saturating_add(u64::from(digit_of(*digit)));
    }
    (number, without(rest, 1))
}

/// Where a byte stands first, or the length.
fn place_of(text: &[u8], byte: u8) -> usize
    ensures { result ≤ length text.now }
{
    text.iter().position(|b| *b == byte).unwrap_or(text.len())
}

/// What stands behind so many bytes.
fn without(text: &[u8], count: usize) -> &[u8] {
    &text[count.min(text.len())..]
}
