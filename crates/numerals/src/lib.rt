// Numbers laid into a lent buffer by their digits, as crate `text` lays bytes.
// Buffer and place stay two parameters: the C interface (gpmf_put_decimal, gpmf_put_hex, gpmf_put_signed) has them so.

#![tactic(auto)]

ghost use Rattle.std.specs.Prelude.{◌≡◌, ◌∷◌, ◌+◌, ◌<◌, ◌≤◌, length, get_or};
ghost use Rattle.foundation.specs.Digits.{digits};
ghost use Rattle.text.specs.Lay.{over, Lays};
ghost use Rattle.numerals.specs.Numerals.{last_digits, decimal, signed_decimal};

use text::{FULL, has_room};

// Lays a number in decimal.
pub fn put_decimal(out: &mut [u8], at: usize, n: u64) -> usize
    ensures { Lays (decimal n) out.old at result out.new }
{
    put_digits(out, at, n, 10, decimal_places(n))
}

// Lays the last digits of a number in small hex, as many as are asked: all of a key in eight.
pub fn put_hex(out: &mut [u8], at: usize, n: u64, count: usize) -> usize
    ensures { Lays (last_digits 16 count n) out.old at result out.new }
{
    put_digits(out, at, n, 16, count)
}

// Lays a signed number in decimal.
pub fn put_signed(out: &mut [u8], at: usize, n: i64) -> usize
    ensures { Lays (signed_decimal n) out.old at result out.new }
{
    if n < 0 {
        return put_negative(out, at, n.unsigned_abs());
    }
    put_decimal(out, at, n.unsigned_abs())
}

// Lays a minus and a number in decimal: both fit, or neither is laid.
fn put_negative(out: &mut [u8], at: usize, n: u64) -> usize
    ensures { Lays (45 ∷ decimal n) out.old at result out.new }
{
    if out.len() <= at {
        return FULL;
    }
    let count = decimal_places(n);
    if has_room(out.len(), at + 1, count) {
        out[at] = b'-';
        return put_digits(out, at + 1, n, 10, count);
    }
    FULL
}

fn put_digits(out: &mut [u8], at: usize, n: u64, base: u64, count: usize) -> usize
    requires { (1 < base) × (base ≤ 16) }
    ensures { Lays (last_digits base count n) out.old at result out.new }
{
    if has_room(out.len(), at, count) {
        spell(out, at, n, base, count);
        return at + count;
    }
    FULL
}

// The digits from the last to the first: what is left of the number has the rest.
fn spell(out: &mut [u8], at: usize, n: u64, base: u64, count: usize)
    requires lt_base { (1 < base) × (base ≤ 16) }
    requires count_in_bounds { at + count ≤ length out.old }
    ensures { out.new ≡ over out.old at (last_digits base count n) }
{
    let mut rest = n;
    for left in (0..count).rev() {
        out[at + left] = digit((rest % base) as usize);
        rest /= base;
    }
}

fn digit(value: usize) -> u8
    requires { value < 16 }
    ensures { result ≡ get_or digits value 0 }
{
    let digits = b"0123456789abcdef";
    digits[value]
}

// How many digits a number has in decimal.
fn decimal_places(n: u64) -> usize
    ensures { result ≡ length (decimal n) }
{
    let mut rest = n;
    let mut count: usize = 1;
    // no range: what is left of the number ends it
    while rest >= 10 {
        rest /= 10;
        count += 1;
    }
    count
}
