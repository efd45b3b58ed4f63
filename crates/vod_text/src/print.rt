//! From a number to its text.

ghost use Rattle.std.specs.Prelude.{◌≡◌, ◌<◌, length, take, drop, decimal, slice_index};
ghost use Rattle.std.specs.Str.Parse.{IsNumeral, digits_value};

use itoa::write_digits;

/// Writes the shortest decimal at the front of `out` and answers its length. The bytes behind it stay.
pub fn put_decimal(n: u64, out: &mut [u8; 20]) -> usize
    ensures text { take result out.new ≡ decimal n }
    ensures length { result ≡ length (decimal n) }
    ensures rest { drop result out.new ≡ drop result out.old }

    // These are digits of the number, and the first is 0 for 0 alone: so no shorter text has this value.
    ensures digits { IsNumeral 10 (take result out.new) }
    ensures value { digits_value 10 (take result out.new) ≡ n }
    ensures shortest { 0 < n → 48 < slice_index out.new 0 }
{
    let mut digits = [0; 20];
    let start = write_digits(n, &mut digits, 20);
    let text = &digits[start..];
    let (front, _) = out.split_at_mut(text.len());
    front.copy_from_slice(text);
    text.len()
}
