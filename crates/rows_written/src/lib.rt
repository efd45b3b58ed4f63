//! Whether numbers of signals that were written in a slot cover what differs, for programs of rows that tell a writer of them.
#![tactic(auto)]

ghost use Rattle.std.specs.Prelude.{◌≡◌, ◌≢◌, ◌<◌, ◌^◌, IsTrue, All, AllPairs, Contains, ℕ, [], length, slice_index_or};
ghost use Rattle.vod_vcd.specs.Page.{Covers};

use vod_four::Four;

fn are_below(numbers: &[u32], count: usize) -> bool
    ensures { IsTrue result → All (λ n. n < count) numbers.now }
{
    for number in numbers {
        if *number as usize >= count {
            return false;
        }
    }
    true
}

fn are_once(numbers: &[u32]) -> bool
    ensures { IsTrue result → AllPairs (λ m n. m ≢ n) numbers.now }
{
    let mut rest = numbers;
    while let Some((first, more)) = rest.split_first() {
        if more.contains(first) {
            return false;
        }
        rest = more;
    }
    true
}

fn is_same(a: Four, b: Four) -> bool
    ensures { IsTrue result → a ≡ b }
{
    if rows_digits::width(a) != rows_digits::width(b) {
        return false;
    }
    a.case_eq(b)
}

fn has_change(before: Four, now: Four, signal: u32, numbers: &[u32]) -> bool
    ensures { IsTrue result → before ≢ now → Contains numbers.now signal }
{
    if is_same(before, now) {
        return true;
    }
    numbers.contains(&signal)
}

fn has_changes(before: &[Four], now: &[Four], numbers: &[u32]) -> bool
    requires same { length before.now ≡ length now.now }
    requires few { length now.now < 2 ^ 32 }
    ensures { IsTrue result → (n : ℕ) → n < length now.now → slice_index_or before.now n [] ≢ slice_index_or now.now n [] → Contains numbers.now n }
{
    for (signal, value) in now.iter().enumerate() {
        if !has_change(before[signal], *value, signal as u32, numbers) {
            return false;
        }
    }
    true
}

/// Whether they are numbers of signals, each once, among them each signal whose value differs.
pub fn covers(written: &[u32], before: &[Four], now: &[Four]) -> bool
    requires same { length before.now ≡ length now.now }
    requires few { length now.now < 2 ^ 32 }
    ensures { IsTrue result → Covers written.now before.now now.now }
{
    if !are_below(written, now.len()) {
        return false;
    }
    if !are_once(written) {
        return false;
    }
    has_changes(before, now, written)
}
