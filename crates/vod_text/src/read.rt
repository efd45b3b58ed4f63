//! From a text to the number that it writes.

ghost use Rattle.std.specs.Prelude.{◌≡◌, ℕ, ◌+◌, ◌-◌, ◌*◌, ◌^◌, ◌<◌, ◌≤◌, ◌↔◌, ◌⊎◌, ◌&&◌, ◌==◌, if◌then◌else◌, nat_lt, not, length, position, IfOk};
ghost use Rattle.std.specs.List.{filter, prefix_len};
ghost use Rattle.std.specs.Char.{digit_value, is_digit};
ghost use Rattle.std.specs.Option.{SomeIff};
ghost use Rattle.std.specs.Str.Parse.{digits_value};
ghost use Rattle.vod_text.specs.Numeral.{IsDecimal, IsHexadecimal, IsBased, IsFirstWrong, based_value, digits_len, based_len, answer_of, decimal_of, hexadecimal_of, based_of, is_further};

use std::fmt;

/// Why a text is no number.
#[derive(Clone, Copy, PartialEq, Eq)]
pub enum NumberFault {
    /// The text isn't of the form: at its first wrong byte, or at its length where it ends too early.
    Spelling { at: usize },
    /// The text is of the form, and its value is too large.
    Range,
}

impl fmt::Display for NumberFault {
    fn fmt<W: fmt::Write>(&self, f: &mut fmt::Formatter<W>) -> fmt::Result {
        match self {
            NumberFault::Spelling { at } => write!(f, "a digit was expected at byte {at}"),
            NumberFault::Range => f.write_str("the value is past the greatest that is allowed"),
        }
    }
}

/// The value of 1 to 19 decimal digits, where it is at most `max`.
pub fn decimal(text: &[u8], max: u64) -> Result<u64, NumberFault>
    ensures number { IfOk result (λ n. IsDecimal text.now × (n ≡ digits_value 10 text.now) × (n ≤ max)) }
    ensures accepts { IsDecimal text.now → digits_value 10 text.now ≤ max → result ≡ Ok (digits_value 10 text.now) }
    ensures spelling { (at : ℕ) → (result ≡ Err (NumberFault.Spelling at)) ↔ IsFirstWrong IsDecimal text.now at }
    ensures range { (result ≡ Err NumberFault.Range) ↔ (IsDecimal text.now × (max < digits_value 10 text.now)) }

    // The same as one equation.
    ensures exact { result ≡ decimal_of text.now max }
{
    decimal_answer(digits_len(text, 10, 19), text, max)
}

/// The value of 1 to 32 hexadecimal digits in either case.
pub fn hexadecimal(text: &[u8]) -> Result<u128, NumberFault>
    ensures number { IfOk result (λ n. IsHexadecimal text.now × (n ≡ digits_value 16 text.now)) }
    ensures accepts { IsHexadecimal text.now → result ≡ Ok (digits_value 16 text.now) }
    ensures spelling { (at : ℕ) → (result ≡ Err (NumberFault.Spelling at)) ↔ IsFirstWrong IsHexadecimal text.now at }
    ensures exact { result ≡ hexadecimal_of text.now }
{
    answer(digits_len(text, 16, 32), text, 16)
}

/// The value of the digits of a based number, where it is below 2^128: a digit of the base, which is 2, 8, 10 or 16, and
/// then digits and underscores (IEEE 1364-2005, 3.5.1).
pub fn based(text: &[u8], base: u8) -> Result<u128, NumberFault>
    requires { (base ≡ 2) ⊎ (base ≡ 8) ⊎ (base ≡ 10) ⊎ (base ≡ 16) }
    ensures number { IfOk result (λ n. IsBased base text.now × (n ≡ based_value base text.now)) }
    ensures accepts { IsBased base text.now → based_value base text.now < 2 ^ 128 → result ≡ Ok (based_value base text.now) }
    ensures spelling { (at : ℕ) → (result ≡ Err (NumberFault.Spelling at)) ↔ IsFirstWrong (IsBased base) text.now at }
    ensures range { (result ≡ Err NumberFault.Range) ↔ (IsBased base text.now × (2 ^ 128 ≤ based_value base text.now)) }
    ensures exact { result ≡ based_of text.now base }
{
    let base = u32::from(base);
    answer(based_len(text, base), text, base)
}

// The value of a digit of the base, none where the byte is no such digit.
fn digit(byte: u8, base: u32) -> Option<u32>
    requires { (2 ≤ base) × (base ≤ 36) }
    ensures { SomeIff result (digit_value byte < base) (digit_value byte) }
{
    char::from(byte).to_digit(base)
}

fn is_digit(byte: u8, base: u32) -> bool
    requires { (2 ≤ base) × (base ≤ 36) }
    ensures { result ≡ is_digit byte base }
{
    digit(byte, base).is_some()
}

// How many bytes from the front on are digits, `most` at most.
fn digits_len(text: &[u8], base: u32, most: usize) -> usize
    requires { (2 ≤ base) × (base ≤ 36) }
    ensures { result ≡ digits_len base most text.now }
{
    other_than_digit(text, base).unwrap_or(text.len()).min(most)
}

// The place of the first byte that is no digit.
fn other_than_digit(text: &[u8], base: u32) -> Option<usize>
    requires { (2 ≤ base) × (base ≤ 36) }
    ensures { result ≡ position (λ b. not (is_digit b base)) text.now }
{
    text.iter().position(|b| !is_digit(*b, base))
}

// The place of the first byte that may not stand behind a digit.
fn other_than_further(text: &[u8], base: u32) -> Option<usize>
    requires { (2 ≤ base) × (base ≤ 36) }
    ensures { result ≡ position (λ b. not (is_further base b)) text.now }
{
    text.iter().position(|b| !is_further(*b, base))
}

// How many bytes from the front on are a digit, and then digits and underscores.
fn based_len(text: &[u8], base: u32) -> usize
    requires { (2 ≤ base) × (base ≤ 36) }
    ensures { result ≡ based_len base text.now }
{
    match text {
        [first, rest @ ..] if is_digit(*first, base) => {
            1 + other_than_further(rest, base).unwrap_or(rest.len())
        }
        _ => 0,
    }
}

fn is_further(byte: u8, base: u32) -> bool
    requires { (2 ≤ base) × (base ≤ 36) }
    ensures { result ≡ is_further base byte }
{
    is_digit(byte, base) || byte == b'_'
}

// Refuses a text of which only a front, or nothing, is right.
fn check_len(right: usize, len: usize) -> Result<(), NumberFault>
    ensures { result ≡ (if nat_lt 0 right && right == len then Ok tt else Err (NumberFault.Spelling right)) }
{
    if right > 0 && right == len {
        Ok(())
    } else {
        Err(NumberFault::Spelling { at: right })
    }
}

// The answer on a text of which this many bytes are decimal digits.
fn decimal_answer(right: usize, text: &[u8], max: u64) -> Result<u64, NumberFault>
    requires { right ≡ digits_len 10 19 text.now }
    ensures { result ≡ answer_of right (digits_value 10 text.now) max text.now }
{
    check_len(right, text.len())?;
    let number = decimal_number(text);
    if number > max {
        Err(NumberFault::Range)
    } else {
        Ok(number)
    }
}

// The answer on a text of which this many bytes are right.
fn answer(right: usize, text: &[u8], base: u32) -> Result<u128, NumberFault>
    requires { (2 ≤ base) × (base ≤ 36) }
    ensures { result ≡ answer_of right (based_value base text.now) (2 ^ 128 - 1) text.now }
{
    check_len(right, text.len())?;
    number(text, base).ok_or(NumberFault::Range)
}

// The number that at most 19 decimal digits write.
fn decimal_number(text: &[u8]) -> u64
    requires { IsDecimal text.now }
    ensures { result ≡ digits_value 10 text.now }
{
    let mut number = 0;
    for digit in text {
        number = number * 10 + u64::from(*digit - b'0');
    }
    number
}

// The number that the digits among the bytes write, none from 2^128 on.
fn number(text: &[u8], base: u32) -> Option<u128>
    requires { (2 ≤ base) × (base ≤ 36) }
    ensures { SomeIff result (based_value base text.now < 2 ^ 128) (based_value base text.now) }
{
    let mut number: u128 = 0;
    for byte in text {
        if let Some(digit) = digit(*byte, base) {
            number = with_digit(number, base, digit)?;
        }
    }
    Some(number)
}

// The number with one more digit, none from 2^128 on.
fn with_digit(number: u128, base: u32, digit: u32) -> Option<u128>
    ensures { SomeIff result (number * base + digit < 2 ^ 128) (number * base + digit) }
{
    number
        .checked_mul(u128::from(base))?
        .checked_add(u128::from(digit))
}
