// Numbers in decimal, read and written.
ghost use Rattle.std.specs.Prelude.{◌+◌, ◌≤◌, length};
ghost use Rattle.text.specs.Laid.{Laid};
ghost use Rattle.script_decimal.specs.Numerals.{ValueSays, NumberSays, decimal};

use crate::{Sort, byte_ok};

// The number that digits are, where it is at most 4,294,967,295.
fn value(digits: &[u8]) -> Option<u32>
    ensures { ValueSays digits.now result }
{
    let mut v: u32 = 0;
    for b in digits {
        if !byte_ok(Sort::Digit, *b) {
            return None;
        }
        v = v.checked_mul(10)?.checked_add(u32::from(*b - b'0'))?;
    }
    Some(v)
}

// The number that `digits` spell without leading zeros.
pub fn numeral(digits: &[u8]) -> Option<u32>
    ensures { NumberSays digits.now result }
{
    match digits {
        [] => None,
        [b'0', _, ..] => None,
        _ => value(digits),
    }
}

// Writes the digits of `n`, the first one first.
// It calls itself once a digit, ten times at most: a loop would write the last digit first, and count the digits before.
fn put_digits(out: &mut [u8], at: usize, n: u32) -> usize
    requires { at + length (decimal n) ≤ length out.old }
    ensures { Laid out.old out.new at result (decimal n) }
{
    if n < 10 {
        out[at] = b'0' + n as u8;
        return at + 1;
    }
    let e = put_digits(out, at, n / 10);
    out[e] = b'0' + (n % 10) as u8;
    e + 1
}

// Writes `n` in decimal.
pub fn put_number(out: &mut [u8], at: usize, n: u32) -> usize
    requires { at + 10 ≤ length out.old }
    ensures { Laid out.old out.new at result (decimal n) × (result ≤ at + 10) }
{
    put_digits(out, at, n)
}
