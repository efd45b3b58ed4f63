//! Classes of bytes, and how long runs of them are.

ghost use Rattle.std.specs.Prelude.{◌≡◌, ◌≤◌, ◌⊎◌, not, drop, length, position};
ghost use Rattle.std.specs.List.{prefix_len};
ghost use Rattle.vod_text.specs.Numeral.{based_len};
ghost use Rattle.vod_token.specs.Form.{is_white, is_blank, is_letter, is_word_byte};
ghost use Rattle.vod_token.specs.Scan.{is_in};

use vod_text::{NumberFault, based};

#[derive(Clone, Copy, PartialEq, Eq)]
pub(crate) enum Class {
    White,
    Blank,
    Word,
    Line,
}

/// Whether a byte is white space: space, tab, line feed, form feed or carriage return (3.2).
pub fn is_white(byte: u8) -> bool
    ensures { result ≡ is_white byte }
{
    matches!(byte, b' ' | b'\t' | b'\n' | 12 | b'\r')
}

fn is_blank(byte: u8) -> bool
    ensures { result ≡ is_blank byte }
{
    byte == b' ' || byte == b'\t'
}

// The first byte of a word.
pub(crate) fn is_letter(byte: u8) -> bool
    ensures { result ≡ is_letter byte }
{
    byte.is_ascii_alphabetic() || byte == b'_'
}

fn is_word_byte(byte: u8) -> bool
    ensures { result ≡ is_word_byte byte }
{
    is_letter(byte) || byte.is_ascii_digit() || byte == b'$'
}

fn is_in(class: Class, byte: u8) -> bool
    ensures { result ≡ is_in class byte }
{
    match class {
        Class::White => is_white(byte),
        Class::Blank => is_blank(byte),
        Class::Word => is_word_byte(byte),
        Class::Line => byte != b'\n',
    }
}

// The place of the first byte that isn't of the class.
fn other_than(class: Class, bytes: &[u8]) -> Option<usize>
    ensures { result ≡ position (λ b. not (is_in class b)) bytes.now }
{
    bytes.iter().position(|b| !is_in(class, *b))
}

// How many bytes of the class stand at the front.
pub(crate) fn run(class: Class, bytes: &[u8]) -> usize
    ensures value { result ≡ prefix_len (is_in class) bytes.now }
    ensures within { result ≤ length bytes.now }
{
    other_than(class, bytes).unwrap_or(bytes.len())
}

// How many bytes from the front on are a digit of the base, and then digits and underscores.
pub(crate) fn digits_len(bytes: &[u8], base: u8) -> usize
    requires { (base ≡ 2) ⊎ (base ≡ 8) ⊎ (base ≡ 10) ⊎ (base ≡ 16) }
    ensures value { result ≡ based_len base bytes.now }
    ensures within { result ≤ length bytes.now }
{
    match based(bytes, base) {
        Err(NumberFault::Spelling { at }) => at,
        _ => bytes.len(),
    }
}

// The bytes from a place on.
pub(crate) fn rest_from(bytes: &[u8], place: usize) -> &[u8]
    requires { place ≤ length bytes.now }
    ensures { result.now ≡ drop place bytes.now }
{
    &bytes[place..]
}
