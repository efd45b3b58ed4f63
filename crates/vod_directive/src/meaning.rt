//! What the text of a directive stands for.
ghost use Rattle.std.specs.Prelude.{◌≡◌};
ghost use Rattle.vod_token.specs.Span.{IsTokenText};
ghost use Rattle.vod_directive.specs.Meaning.{StandsFor, count_in, directive_of, from_first, has_times, is_mark, net_in, time_of, unit_in};

use crate::laws::directives_are_exact;
use vod_token::TokenKind;
use vod_tree::{DirectiveKind, NetType, Time, TimeCount, TimeUnit};

// By which bytes the parts of a directive are told apart.
#[derive(Clone, Copy, PartialEq, Eq)]
pub(crate) enum Mark {
    Digit,
    Letter,
    Blank,
    Slash,
}

/// The unit and the precision of `` `timescale `` (IEEE 1364-2005, 19.8), or the net type of `` `default_nettype `` (19.2).
pub fn directive_of(text: &[u8]) -> DirectiveKind
    requires { IsTokenText text.now TokenKind.Directive }
    ensures { StandsFor text.now result }
{
    // What the text of a directive stands for is the value of `directive_of`.
    directives_are_exact();
    meaning(text)
}

// The same of any text.
#[tactic(auto, unfolding(crate::specs::Meaning::directive_of))]
pub(crate) fn meaning(text: &[u8]) -> DirectiveKind
    ensures { result ≡ directive_of text.now }
{
    if has_times(text) {
        let unit = time_of(text);
        let precision = time_of(from_first(Mark::Slash, text));
        return DirectiveKind::Timescale(unit, precision);
    }
    let gap = from_first(Mark::Blank, text);
    DirectiveKind::DefaultNettype(net_in(from_first(Mark::Letter, gap)))
}

// The time at the first digit.
fn time_of(text: &[u8]) -> Time
    ensures { result ≡ time_of text.now }
{
    let count = from_first(Mark::Digit, text);
    let unit = from_first(Mark::Letter, count);
    Time {
        count: count_in(count),
        unit: unit_in(unit),
    }
}

fn is_mark(mark: Mark, byte: u8) -> bool
    ensures { result ≡ is_mark mark byte }
{
    match mark {
        Mark::Digit => byte.is_ascii_digit(),
        Mark::Letter => byte.is_ascii_alphabetic() || byte == b'_',
        Mark::Blank => byte == b' ' || byte == b'\t',
        Mark::Slash => byte == b'/',
    }
}

// The bytes from the first such mark on.
fn from_first(mark: Mark, bytes: &[u8]) -> &[u8]
    ensures { result.now ≡ from_first mark bytes.now }
{
    for (place, byte) in bytes.iter().enumerate() {
        if is_mark(mark, *byte) {
            return &bytes[place..];
        }
    }
    &[]
}

// The text begins as `` `timescale `` does, and not as `` `default_nettype ``.
fn has_times(text: &[u8]) -> bool
    ensures { result ≡ has_times text.now }
{
    match text {
        [_, second, ..] => *second == b't',
        _ => false,
    }
}

// The count that these digits are.
fn count_in(digits: &[u8]) -> TimeCount
    ensures { result ≡ count_in digits.now }
{
    match digits {
        [_, b'0', b'0', ..] => TimeCount::Hundred,
        [_, b'0', ..] => TimeCount::Ten,
        _ => TimeCount::One,
    }
}

// The unit that these letters are.
fn unit_in(letters: &[u8]) -> TimeUnit
    ensures { result ≡ unit_in letters.now }
{
    match letters {
        [b'm', ..] => TimeUnit::Ms,
        [b'u', ..] => TimeUnit::Us,
        [b'n', ..] => TimeUnit::Ns,
        [b'p', ..] => TimeUnit::Ps,
        [b'f', ..] => TimeUnit::Fs,
        _ => TimeUnit::S,
    }
}

// The net type that these letters are.
fn net_in(letters: &[u8]) -> NetType
    ensures { result ≡ net_in letters.now }
{
    match letters {
        [b'w', ..] => NetType::Wire,
        _ => NetType::None,
    }
}
