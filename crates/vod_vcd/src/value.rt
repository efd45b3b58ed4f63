// The line of a signal's value.
ghost use Rattle.std.specs.Prelude.{◌≡◌, ◌+◌, ◌<◌, ◌≤◌, ◌++◌, ◌∷◌, [], length, drop, map};
ghost use Rattle.arrayvec.specs.ArrayVec.{array_vec_len};
ghost use Rattle.vod_bits.specs.Value.{bits_from};
ghost use Rattle.vod_bits.specs.declared.TheConstants.{WIDTH};
ghost use Rattle.vod_four.specs.Four.{four_of};
ghost use Rattle.vod_vcd.specs.Values.{digit, digits, written_bits};
ghost use Rattle.vod_vcd.specs.Text.{code, value_text, value_line};
ghost use Rattle.vod_vcd.specs.Places.{bit_there, upper_falls, falls_before};

use arrayvec::ArrayVec;
use vod_bits::{WIDTH, Word};
use vod_four::Four;

// How many digits the code of a signal has at most: there are at most 16,384 signals.
const CODE_DIGITS: usize = 3;

const BASE: usize = 94;

/// The most bytes of a value line: `b`, the digits, a space, the code and LF.
pub const VALUE_LINE: usize = 70;

/// The code of a signal: its number in base 94, least digit first.
pub fn code_of(signal: usize) -> ArrayVec<u8, CODE_DIGITS>
    requires { signal < 16384 }
    ensures { result.items ≡ code signal }
{
    let mut digits = ArrayVec::new();
    let mut left = signal;
    while left >= BASE {
        digits.push(b'!' + (left % BASE) as u8);
        left /= BASE;
    }
    digits.push(b'!' + left as u8);
    digits
}

// The digit of the bit at a place.
fn digit_at(ones: Word, unks: Word, place: u8) -> u8
    requires { place < WIDTH }
    ensures { result ≡ digit (bit_there ones unks place) }
{
    let one = (ones >> place & 1) as u8;
    let unk = (unks >> place & 1) as u8;
    b'0' + one + unk * (b'x' - b'0' + one)
}

// Whether a leading digit is dropped before the next one: 0 before 0 or 1, x before x, z before z.
fn falls_before(leading: u8, next: u8) -> bool
    ensures { result ≡ falls_before leading next }
{
    if leading == b'0' {
        next <= b'1'
    } else {
        leading == next && leading != b'1'
    }
}

// Whether the upper one of so many digits is dropped.
fn upper_falls(ones: Word, unks: Word, left: u8) -> bool
    requires { left ≤ WIDTH }
    ensures { result ≡ upper_falls (bit_there ones unks) left }
{
    if left < 2 {
        return false;
    }
    falls_before(
        digit_at(ones, unks, left - 1),
        digit_at(ones, unks, left - 2),
    )
}

// How many digits of a value may be written: the zeros that a known one begins with do not count.
fn used_digits(ones: Word, unks: Word, width: u8) -> u8
    requires { width ≤ WIDTH }
    ensures same { written_bits (bits_from (bit_there ones unks) result) ≡ written_bits (four_of width ones unks) }
    ensures within { result ≤ width }
{
    if unks != 0 {
        return width;
    }
    let used = WIDTH - ones.leading_zeros() as u8;
    used.max(1).min(width)
}

// How many digits of a value are written.
fn digit_count(ones: Word, unks: Word, width: u8) -> u8
    requires { width ≤ WIDTH }
    ensures digits { digits (four_of width ones unks) ≡ map digit (bits_from (bit_there ones unks) result) }
    ensures within { result ≤ width }
{
    let mut left = used_digits(ones, unks, width);
    while upper_falls(ones, unks, left) {
        left -= 1;
    }
    left
}

// Puts the digits of a value.
fn put_digits(line: &mut ArrayVec<u8, VALUE_LINE>, ones: Word, unks: Word, width: u8)
    requires within { width ≤ WIDTH }
    requires room { array_vec_len line.old ≤ 1 }
    ensures put { line.new.items ≡ line.old.items ++ digits (four_of width ones unks) }
    ensures len { array_vec_len line.new ≤ array_vec_len line.old + width }
{
    let mut left = digit_count(ones, unks, width);
    while left > 0 {
        left -= 1;
        line.push(digit_at(ones, unks, left));
    }
}

// Puts a value as it stands before the code.
fn put_value(line: &mut ArrayVec<u8, VALUE_LINE>, value: Four)
    requires { array_vec_len line.old ≡ 0 }
    ensures put { line.new.items ≡ line.old.items ++ value_text value }
    ensures len { array_vec_len line.new ≤ 66 }
{
    if value.width == 1 {
        put_digits(line, value.ones, value.unks, value.width);
        return;
    }
    line.push(b'b');
    put_digits(line, value.ones, value.unks, value.width);
    line.push(b' ');
}

// Puts the code of a signal and LF.
fn put_code(line: &mut ArrayVec<u8, VALUE_LINE>, signal: usize)
    requires few { signal < 16384 }
    requires room { array_vec_len line.old ≤ 66 }
    ensures put { line.new.items ≡ line.old.items ++ code signal ++ 10 ∷ [] }
{
    match line.try_extend_from_slice(code_of(signal).as_slice()) {
        Ok(()) => line.push(b'\n'),
        Err(_) => unreachable!(),
    }
}

/// The line of a signal's value.
pub fn line_of(signal: usize, value: Four) -> ArrayVec<u8, VALUE_LINE>
    requires { signal < 16384 }
    ensures { result.items ≡ value_line signal value }
{
    let mut line = ArrayVec::new();
    put_value(&mut line, value);
    put_code(&mut line, signal);
    line
}

/// Puts the line of a signal's value at the front of `line`, and answers its length (IEEE 1364-2005, 18.2.1).
pub fn value_line(signal: u32, value: Four, line: &mut [u8; 160]) -> usize
    requires { signal < 16384 }
    ensures text { line.new ≡ value_line signal value ++ drop result line.old }
    ensures len { result ≡ length (value_line signal value) }
{
    let text = line_of(signal as usize, value);
    line[..text.len()].copy_from_slice(text.as_slice());
    text.len()
}
