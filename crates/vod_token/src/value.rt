//! What the tokens of numbers stand for.

ghost use Rattle.std.specs.Prelude.{◌≡◌, ◌≤◌, ◌<◌, ◌⊎◌, ◌%◌, ◌^◌, List, ℕ, length, None};
ghost use Rattle.vod_text.specs.Numeral.{based_len, based_value};
ghost use Rattle.vod_token.specs.Cut.{literal_fault};
ghost use Rattle.vod_token.specs.Form.{size_of};
ghost use Rattle.vod_token.specs.Literal.{literal, literal_of, found_literal, IsRight, StandsFor};
ghost use Rattle.vod_token.specs.Scan.{based_at, number_at, plain_at};
ghost use Rattle.vod_token.specs.Span.{IsTokenText};
ghost use Rattle.vod_token.specs.declared.value.Literal.{Literal};

use crate::TokenKind;
use crate::bytes::{Class, digits_len, rest_from, run};
use crate::number::{byte_at, digits_behind, sign_len, size_of};
use vod_text::based;

/// A number: its size in bits, 1 to `LITERAL_BITS`, whether it is signed, and its value, which is below 2^size.
#[derive(Clone, Copy, PartialEq, Eq)]
pub struct Literal {
    pub size: u8,
    pub signed: bool,
    pub value: u64,
}

/// The number that a token of this spelling stands for (IEEE 1364-2005, 3.5.1). A plain number has 32 bits and is signed; of
/// the value of a based one the bits past its size are lost.
pub fn literal_of(text: &[u8]) -> Literal
    requires { IsTokenText text.now TokenKind.Number }
    ensures stands { StandsFor text.now result }
    ensures sized { (0 < result.size) × (result.size ≤ 64) }
    ensures within { result.value < 2 ^ result.size }
{
    literal_in(text)
}

/// A text stands for one number at most.
pub fn one_literal()
    ensures { (text : List ℕ) (n : Literal) → StandsFor text n → literal_of text ≡ n }
{}

// The number that a text is.
fn literal_in(text: &[u8]) -> Literal
    requires { IsRight (number_at text.now) }
    ensures { result ≡ found_literal (number_at text.now) }
{
    let size = digits_len(text, 10);
    let quote = size + run(Class::White, rest_from(text, size));
    if byte_at(text, quote) == b'\'' {
        based_literal(&text[..size], rest_from(text, quote + 1))
    } else {
        plain_literal(&text[..size])
    }
}

fn plain_literal(text: &[u8]) -> Literal
    requires digits { based_len 10 text.now ≡ length text.now }
    requires right { IsRight (plain_at text.now) }
    ensures { result ≡ found_literal (plain_at text.now) }
{
    Literal {
        size: 32,
        signed: true,
        value: value_of(text, 10),
    }
}

// A based number of this size, from behind its `'` on.
#[tactic(auto, unfolding(crate::specs::Scan::based_at))]
fn based_literal(size: &[u8], tail: &[u8]) -> Literal
    requires size { based_len 10 size.now ≡ length size.now }
    requires right { IsRight (based_at size.now 0 tail.now) }
    ensures { result ≡ found_literal (based_at size.now 0 tail.now) }
{
    match digits_behind(tail) {
        Some(digits) => sized_literal(
            size,
            sign_len(tail) > 0,
            &tail[digits.start..digits.end],
            digits.base,
        ),
        None => unreachable!(),
    }
}

// A based number of this size and sign, with these digits.
fn sized_literal(size: &[u8], signed: bool, digits: &[u8], base: u8) -> Literal
    requires size { based_len 10 size.now ≡ length size.now }
    requires digits { based_len base digits.now ≡ length digits.now }
    requires some { 0 < length digits.now }
    requires base { (base ≡ 2) ⊎ (base ≡ 8) ⊎ (base ≡ 10) ⊎ (base ≡ 16) }
    requires right { literal_fault 0 (size_of size.now) (based_value base digits.now) ≡ None }
    ensures { result ≡ literal (size_of size.now) signed (based_value base digits.now % (2 ^ size_of size.now)) }
{
    let size = size_of(size) as u8;
    Literal {
        size,
        signed,
        value: low_bits(value_of(digits, base), size),
    }
}

// The value of digits.
fn value_of(digits: &[u8], base: u8) -> u64
    requires digits { based_len base digits.now ≡ length digits.now }
    requires some { 0 < length digits.now }
    requires base { (base ≡ 2) ⊎ (base ≡ 8) ⊎ (base ≡ 10) ⊎ (base ≡ 16) }
    requires fits { based_value base digits.now < 2 ^ 64 }
    ensures { result ≡ based_value base digits.now }
{
    match based(digits, base) {
        Ok(value) => value as u64,
        Err(_) => unreachable!(),
    }
}

// The lower bits of a value.
fn low_bits(value: u64, size: u8) -> u64
    requires { size ≤ 64 }
    ensures { result ≡ value % (2 ^ size) }
{
    (u128::from(value) % (1 << size)) as u64
}
