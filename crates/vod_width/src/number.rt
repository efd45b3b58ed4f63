//! Numbers that constant parts stand for, as parts of a tree.
ghost use Rattle.std.specs.Prelude.{◌≡◌, ◌-◌, min};
ghost use Rattle.vod_width.specs.Sizes.{or_zero};
ghost use Rattle.vod_width.specs.View.{is_found};

use vod_bits::Word;

// How far a number lies above the least one.
pub(crate) fn above(number: Option<Word>, least: u16) -> Word
    ensures { result ≡ or_zero number - least }
{
    number.unwrap_or(0).saturating_sub(Word::from(least))
}

// A number that fits one byte, which is the greatest for those that don't.
pub(crate) fn byte(number: Word) -> u8
    ensures { result ≡ min number 255 }
{
    if number < 255 { number as u8 } else { 255 }
}

// The same for two bytes.
pub(crate) fn two_bytes(number: Word) -> u16
    ensures { result ≡ min number 65535 }
{
    if number < 65535 { number as u16 } else { 65535 }
}

// Whether a number was found.
pub(crate) fn is_found(number: Option<Word>) -> bool
    ensures { result ≡ is_found number }
{
    match number {
        Some(_) => true,
        None => false,
    }
}
