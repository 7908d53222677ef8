// Elements: what the bytes of one number stand for, by the letter of its type.

#![tactic(auto)]

ghost use Rattle.std.specs.Prelude.{◌≡◌, ◌+◌, ◌/◌, ◌%◌, ◌^◌, ◌<◌, ◌≤◌};
ghost use Rattle.std.specs.Float.{binary32, binary64};
ghost use Rattle.std.specs.Float.Ieee.{of_bits};
ghost use Rattle.fixed.specs.Fixed.{q15_16, q31_32};
ghost use Rattle.elements.specs.Types.{width_of};
ghost use Rattle.elements.specs.Element.{signed_of, element_of, element_at, exact_of, exact_at};

use fixed::Exact;
use foundation::big_endian;

// One element of a value.
#[derive(Clone, Copy)]
pub enum Element {
    Signed(i64),
    Unsigned(u64),
    Single(f32),
    Double(f64),
}

// The bytes that an element of a type has, and 0 for a letter that reads nothing.
pub fn width(letter: u8) -> usize
    ensures { (result ≡ width_of letter) × (result ≤ 8) }
{
    match letter {
        b'b' | b'B' => 1,
        b's' | b'S' => 2,
        b'l' | b'L' | b'f' | b'q' => 4,
        b'd' | b'j' | b'J' | b'Q' => 8,
        _ => 0,
    }
}

// The f32 of a bit pattern; each pattern of a NaN is the one NaN.
fn single(n: u32) -> f32
    ensures { result ≡ of_bits binary32 n }
{
    if n % 0x8000_0000 > 0x7f80_0000 {
        0.0 / 0.0
    } else {
        f32::from_bits(n)
    }
}

// The f64 of a bit pattern; each pattern of a NaN is the one NaN. One function for both would be no plainer: std has no
// trait with `from_bits`.
fn double(n: u64) -> f64
    ensures { result ≡ of_bits binary64 n }
{
    if n % 0x8000_0000_0000_0000 > 0x7ff0_0000_0000_0000 {
        0.0 / 0.0
    } else {
        f64::from_bits(n)
    }
}

// The signed number of a width whose first bit weighs `half`.
fn signed(n: u64, half: u64) -> i64
    requires { (half ≤ 2 ^ 63) × (n < half + half) }
    ensures { result ≡ signed_of half n }
{
    if n < half {
        n as i64
    } else {
        -1 - ((half - 1 - (n - half)) as i64)
    }
}

// q: the upper 16 bits, signed, and the lower 16.
fn fixed_single(n: u64) -> f32
    requires { n < 2 ^ 32 }
    ensures { result ≡ q15_16 (signed_of 0x8000 (n / 0x1_0000)) (n % 0x1_0000) }
{
    fixed::q15_16(signed(n / 0x1_0000, 0x8000) as i16, (n % 0x1_0000) as u16)
}

// The upper 32 bits, signed.
fn upper(n: u64) -> i32
    ensures { result ≡ signed_of 0x8000_0000 (n / 0x1_0000_0000) }
{
    signed(n / 0x1_0000_0000, 0x8000_0000) as i32
}

// Q: the upper 32 bits, signed, and the lower 32.
fn fixed_double(n: u64) -> f64
    ensures { result ≡ q31_32 (signed_of 0x8000_0000 (n / 0x1_0000_0000)) (n % 0x1_0000_0000) }
{
    fixed::q31_32(upper(n), (n % 0x1_0000_0000) as u32)
}

// Q with nothing rounded.
fn fixed_exact(n: u64) -> Exact
    ensures { result ≡ exact_of n }
{
    fixed::q31_32_exact(upper(n), (n % 0x1_0000_0000) as u32)
}

// The element whose bytes give the number n.
fn element_of(letter: u8, n: u64) -> Element
    requires { n < 256 ^ width_of letter }
    ensures { result ≡ element_of letter n }
{
    match letter {
        b'b' => Element::Signed(signed(n, 0x80)),
        b's' => Element::Signed(signed(n, 0x8000)),
        b'l' => Element::Signed(signed(n, 0x8000_0000)),
        b'j' => Element::Signed(signed(n, 0x8000_0000_0000_0000)),
        b'B' | b'S' | b'L' | b'J' => Element::Unsigned(n),
        b'f' => Element::Single(single(n as u32)),
        b'd' => Element::Double(double(n)),
        b'q' => Element::Single(fixed_single(n)),
        b'Q' => Element::Double(fixed_double(n)),
        _ => Element::Unsigned(0),
    }
}

// The element at a place; 0 where its bytes are not all there, or where the letter reads nothing.
pub fn element_at(s: &[u8], at: usize, letter: u8) -> Element
    ensures { result ≡ element_at s.now at letter }
{
    let width = width(letter);
    // `get(at..)` and `get(..width)`: tried, and slower by a tenth to two thirds.
    if s.len() < width || s.len() - width < at {
        return Element::Unsigned(0);
    }
    element_of(letter, big_endian(&s[at..at + width]))
}

// The Q number at a place with nothing rounded; 0 where its bytes are not all there.
pub fn exact_at(s: &[u8], at: usize) -> Exact
    ensures { result ≡ exact_at s.now at }
{
    if s.len() < 8 || s.len() - 8 < at {
        return fixed_exact(0);
    }
    fixed_exact(big_endian(&s[at..at + 8]))
}
