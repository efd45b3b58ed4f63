//! Plain and based numbers.

ghost use Rattle.std.specs.Prelude.{◌≡◌, ◌≤◌, ◌<◌, ◌⊎◌, ◌+◌, ◌-◌, ◌^◌, length, min, slice_index, IfNone, IfSome};
ghost use Rattle.std.specs.Option.{SomeIff};
ghost use Rattle.vod_text.specs.Numeral.{based_len, based_value};
ghost use Rattle.vod_token.specs.Form.{base_of, size_of};
ghost use Rattle.vod_token.specs.Cut.{literal_fault};
ghost use Rattle.vod_token.specs.Scan.{number_at, number_judged, plain_judged, based_at, checked, tail_len, sign_len};
ghost use Rattle.vod_token.specs.Digits.{AreDigits};

use crate::bytes::{Class, digits_len, rest_from, run};
use crate::{LITERAL_BITS, LexFault, TokenKind};
use vod_text::based;

// The values of plain numbers are below this: they have 32 bits and are signed.
const PLAIN_END: u128 = 0x8000_0000;

// The greatest value of the digits of a based number.
const LITERAL_MAX: u128 = u128::MAX >> (u128::BITS - LITERAL_BITS);

// The digits behind the `'` of a based number.
#[derive(Clone, Copy)]
pub(crate) struct Digits {
    pub(crate) base: u8,
    pub(crate) start: usize,
    pub(crate) end: usize,
}

// The number at the front, and its length.
pub(crate) fn number_at(bytes: &[u8], at: u32) -> Result<(TokenKind, usize), LexFault>
    ensures { result ≡ number_judged at (number_at bytes.now) }
{
    let size = digits_len(bytes, 10);
    let quote = size + run(Class::White, rest_from(bytes, size));
    if byte_at(bytes, quote) == b'\'' {
        based_number(&bytes[..size], rest_from(bytes, quote + 1), quote + 1, at)
    } else {
        plain(&bytes[..size], at)
    }
}

// The byte at a place, 0 past the end.
pub(crate) fn byte_at(bytes: &[u8], place: usize) -> u8
    ensures value { result ≡ slice_index bytes.now place }
    ensures within { 0 < result → place < length bytes.now }
{
    bytes.get(place).copied().unwrap_or(0)
}

// A plain number: its value is below 2^31.
fn plain(text: &[u8], at: u32) -> Result<(TokenKind, usize), LexFault>
    requires { based_len 10 text.now ≡ length text.now }
    ensures { result ≡ plain_judged at text.now }
{
    match based(text, 10) {
        Ok(value) if value < PLAIN_END => Ok((TokenKind::Number, text.len())),
        _ => Err(LexFault::At(at)),
    }
}

// A based number of this size, from behind its `'` on, with the bytes that stand before.
#[tactic(auto, unfolding(crate::specs::Scan::based_at))]
fn based_number(
    size: &[u8],
    tail: &[u8],
    before: usize,
    at: u32,
) -> Result<(TokenKind, usize), LexFault>
    requires size { based_len 10 size.now ≡ length size.now }
    requires fits { before + length tail.now < 2 ^ 64 }
    ensures { result ≡ number_judged at (based_at size.now before tail.now) }
{
    match digits_behind(tail) {
        Some(digits) => {
            check_literal(size, &tail[digits.start..digits.end], digits.base, at)?;
            Ok((TokenKind::Number, before + digits.end))
        }
        None => Err(LexFault::At(at)),
    }
}

// The digits behind a `'`: a sign, the letter of the base and white space stand before them.
pub(crate) fn digits_behind(tail: &[u8]) -> Option<Digits>
    ensures none { IfNone result (tail_len tail.now ≡ 0) }
    ensures some { IfSome result (AreDigits tail.now) }
{
    let sign = sign_len(tail);
    let base = base_of(byte_at(tail, sign))?;
    let start = sign + 1 + run(Class::White, rest_from(tail, sign + 1));
    let len = digits_len(rest_from(tail, start), base);
    if len == 0 {
        None
    } else {
        Some(Digits {
            base,
            start,
            end: start + len,
        })
    }
}

pub(crate) fn sign_len(tail: &[u8]) -> usize
    ensures value { result ≡ sign_len tail.now }
    ensures within { result ≤ length tail.now }
{
    match tail {
        [b's' | b'S', ..] => 1,
        _ => 0,
    }
}

// The base of a letter.
fn base_of(letter: u8) -> Option<u8>
    ensures { SomeIff result (0 < base_of letter) (base_of letter) }
{
    match letter {
        b'b' | b'B' => Some(2),
        b'o' | b'O' => Some(8),
        b'd' | b'D' => Some(10),
        b'h' | b'H' => Some(16),
        _ => None,
    }
}

// Refuses a based number of size 0, and one whose size or value is past the limit.
fn check_literal(size: &[u8], digits: &[u8], base: u8, at: u32) -> Result<(), LexFault>
    requires size { based_len 10 size.now ≡ length size.now }
    requires digits { based_len base digits.now ≡ length digits.now }
    requires some { 0 < length digits.now }
    requires base { (base ≡ 2) ⊎ (base ≡ 8) ⊎ (base ≡ 10) ⊎ (base ≡ 16) }
    ensures { result ≡ checked tt (literal_fault at (size_of size.now) (based_value base digits.now)) }
{
    let size = size_of(size);
    if size == 0 {
        return Err(LexFault::At(at));
    }
    match based(digits, base) {
        Ok(value) if size <= u128::from(LITERAL_BITS) && value <= LITERAL_MAX => Ok(()),
        _ => Err(LexFault::Literal(at)),
    }
}

// The size in bits that the digits give, 2^128 - 1 for a greater one, and 32 where there are none.
pub(crate) fn size_of(size: &[u8]) -> u128
    requires { based_len 10 size.now ≡ length size.now }
    ensures { result ≡ min (size_of size.now) (2 ^ 128 - 1) }
{
    if size.is_empty() {
        32
    } else {
        based(size, 10).unwrap_or(u128::MAX)
    }
}
