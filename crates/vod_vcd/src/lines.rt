// Lines of a dump, put behind a text that has room for them.
ghost use Rattle.std.specs.Prelude.{◌≡◌, ◌+◌, ◌<◌, ◌≤◌, ◌++◌, ◌*◌, length, vec_len, vec_capacity};
ghost use Rattle.std.specs.List.{enumerate_from};
ghost use Rattle.vod_vcd.specs.Text.{time_line, value_line, value_lines, opening_text};
ghost use Rattle.vod_vcd.specs.Dump.{differing, same_value};
ghost use Rattle.vod_vcd.specs.Page.{most_bytes};

use crate::value::{VALUE_LINE, line_of};
use itoa::Buffer;
use vod_four::Four;

// The most bytes of a time line: `#`, twenty digits and LF.
const TIME_LINE: usize = 22;

/// Whether two values have the same bits.
pub fn is_same(a: Four, b: Four) -> bool
    ensures { result ≡ same_value a b }
{
    if a.width != b.width {
        return false;
    }
    if a.ones != b.ones {
        return false;
    }
    a.unks == b.unks
}

/// The most bytes of an opening or a slot: a time line, `$dumpvars`, a line of each signal, `$end`.
pub fn most_bytes_of(signals: usize) -> usize
    requires { signals ≤ 16384 }
    ensures { result ≡ most_bytes signals }
{
    TIME_LINE + 10 + VALUE_LINE * signals + 5
}

// Puts bytes behind the text.
fn put(text: &mut Vec<u8>, bytes: &[u8])
    requires { vec_len text.old + length bytes.now ≤ vec_capacity text.old }
    ensures put { text.new.items ≡ text.old.items ++ bytes.now }
    ensures len { vec_len text.new ≡ vec_len text.old + length bytes.now }
    ensures room { vec_capacity text.old ≤ vec_capacity text.new }
{
    match text.extend_from_slice(bytes) {
        Ok(()) => {}
        Err(_) => unreachable!(),
    }
}

/// Puts the line of a time.
pub fn put_time_line(text: &mut Vec<u8>, time: u64)
    requires { vec_len text.old + TIME_LINE ≤ vec_capacity text.old }
    ensures put { text.new.items ≡ text.old.items ++ time_line time }
    ensures len { vec_len text.new ≤ vec_len text.old + TIME_LINE }
    ensures room { vec_capacity text.old ≤ vec_capacity text.new }
{
    text.push_reserved(b'#');
    put(text, Buffer::new().format(time).as_bytes());
    text.push_reserved(b'\n');
}

/// Puts the line of a signal's value.
pub fn put_value_line(text: &mut Vec<u8>, signal: usize, value: Four)
    requires few { signal < 16384 }
    requires room { vec_len text.old + VALUE_LINE ≤ vec_capacity text.old }
    ensures put { text.new.items ≡ text.old.items ++ value_line signal value }
    ensures len { vec_len text.new ≤ vec_len text.old + VALUE_LINE }
    ensures room { vec_capacity text.old ≤ vec_capacity text.new }
{
    put(text, line_of(signal, value).as_slice());
}

// Puts the line of each signal's value.
fn put_values(text: &mut Vec<u8>, values: &[Four])
    requires few { length values.now ≤ 16384 }
    requires room { vec_len text.old + VALUE_LINE * length values.now ≤ vec_capacity text.old }
    ensures put { text.new.items ≡ text.old.items ++ value_lines (enumerate_from 0 values.now) }
    ensures len { vec_len text.new ≤ vec_len text.old + VALUE_LINE * length values.now }
    ensures room { vec_capacity text.old ≤ vec_capacity text.new }
{
    for (signal, value) in values.iter().enumerate() {
        put_value_line(text, signal, *value);
    }
}

/// Puts a time and the value of each signal.
pub fn put_opening(text: &mut Vec<u8>, time: u64, values: &[Four])
    requires few { length values.now ≤ 16384 }
    requires room { vec_len text.old + most_bytes (length values.now) ≤ vec_capacity text.old }
    ensures put { text.new.items ≡ text.old.items ++ opening_text time values.now }
    ensures room { vec_capacity text.old ≤ vec_capacity text.new }
{
    put_time_line(text, time);
    put(text, b"$dumpvars\n");
    put_values(text, values);
    put(text, b"$end\n");
}

/// Puts the line of each signal whose value differs from that before.
pub fn put_changes(text: &mut Vec<u8>, before: &[Four], now: &[Four])
    requires few { length now.now ≤ 16384 }
    requires same { length before.now ≡ length now.now }
    requires room { vec_len text.old + VALUE_LINE * length now.now ≤ vec_capacity text.old }
    ensures put { text.new.items ≡ text.old.items ++ value_lines (differing before.now now.now) }
    ensures room { vec_capacity text.old ≤ vec_capacity text.new }
{
    for (signal, value) in now.iter().enumerate() {
        if !is_same(before[signal], *value) {
            put_value_line(text, signal, *value);
        }
    }
}
