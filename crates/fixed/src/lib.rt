// Fixed-point numbers of a high and a low part: q in f32; Q in f64 and, with nothing rounded, as two whole numbers.

#![tactic(auto)]

ghost use Rattle.std.specs.Prelude.{◌≡◌};
ghost use Rattle.fixed.specs.Fixed.{q15_16, q31_32, q31_32_exact};

// What Q's low part is divided by: the Rust's number, one less than the description's.
const DIVISOR: i64 = 4294967295;

// A fraction.
#[repr(C)]
#[derive(Clone, Copy)]
pub struct Exact {
    pub numerator: i64,
    pub denominator: u64,
}

// q: one exact division and one rounded sum.
pub fn q15_16(high: i16, low: u16) -> f32
    ensures { result ≡ q15_16 high low }
{
    high as f32 + low as f32 / 65536.0
}

// Q: both operations rounded.
pub fn q31_32(high: i32, low: u32) -> f64
    ensures { result ≡ q31_32 high low }
{
    high as f64 + low as f64 / DIVISOR as f64
}

// Q with nothing rounded.
pub fn q31_32_exact(high: i32, low: u32) -> Exact
    ensures { result ≡ q31_32_exact high low }
{
    Exact {
        numerator: high as i64 * DIVISOR + low as i64,
        denominator: DIVISOR as u64,
    }
}
