//! The line `ack N TIME`.
ghost use Rattle.std.specs.Prelude.{◌≡◌, ◌+◌, ◌≤◌, ◌++◌, decimal, length, take, OnOk};
ghost use Rattle.vod_io.specs.Faults.{HasCause};
ghost use Rattle.vod_deck.specs.Outcomes.{Says, IsSaid, Elapses};
ghost use Rattle.vod_thin_code.specs.Held.{ack};

use vod_deck::Deck;
use vod_io::Failed;
use vod_text::put_decimal;

/// Writes a piece behind the first `at` bytes, and answers where it ends.
fn put(out: &mut [u8; 46], at: usize, piece: &[u8]) -> usize
    requires { at + length piece.now ≤ 46 }
    ensures text { take result out.new ≡ take at out.old ++ piece.now }
    ensures end { result ≡ at + length piece.now }
{
    let end = at + piece.len();
    out[at..end].copy_from_slice(piece);
    end
}

/// Writes a number behind the first `at` bytes, and answers where it ends.
fn put_number(out: &mut [u8; 46], at: usize, number: u64) -> usize
    requires { at ≤ 26 }
    ensures text { take result out.new ≡ take at out.old ++ decimal number }
    ensures most { result ≤ at + 20 }
{
    let mut digits = [0; 20];
    let len = put_decimal(number, &mut digits);
    put(out, at, &digits[..len])
}

/// Writes the line, and answers how long it is.
fn put_ack(out: &mut [u8; 46], vectors: u64, last: u64) -> usize
    ensures text { take result out.new ≡ ack vectors last }
    ensures most { result ≤ 46 }
{
    let number = put(out, 0, b"ack ");
    let space = put_number(out, number, vectors);
    let time = put(out, space, b" ");
    let end = put_number(out, time, last);
    put(out, end, b"\n")
}

/// Says that so many vectors are held, the last at this time.
pub fn say_ack<L: Deck>(deck: &mut L, vectors: u64, last: u64) -> Result<(), Failed>
    ensures whole { OnOk result (L.tells → IsSaid (L.view deck.old) (L.view deck.new) (ack vectors last)) }
    ensures bytes { L.tells → (L.view deck.new).bytes ≡ (L.view deck.old).bytes }
    ensures outcomes { L.tells → Elapses (L.view deck.old) (L.view deck.new) (Says (L.view deck.old).may_leave (ack vectors last)) }
    ensures caused { HasCause (L.view deck.old).faults (L.view deck.new).faults result }
{
    let mut text = [0; 46];
    let len = put_ack(&mut text, vectors, last);
    deck.say(&text[..len])
}
