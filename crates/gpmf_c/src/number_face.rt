// Numbers of a value.
ghost use Rattle.std.specs.Prelude.{◌≡◌, ◌≤◌};
ghost use Rattle.fixed.specs.Fixed.{q15_16, q31_32, q31_32_exact};
ghost use Rattle.elements.specs.Types.{width_of};
ghost use Rattle.elements.specs.Element.{element_at, exact_at};
ghost use Rattle.float_bits.specs.FloatBits.{single_bits, double_bits};
ghost use Rattle.value_answers.specs.Answers.{of_element};

use fixed::Exact;
use value_answers::Number;

// A number of 15 and 16 bits.
#[unsafe(no_mangle)]
pub extern "C" fn gpmf_q15_16(high: i16, low: u16) -> f32
    ensures { result ≡ q15_16 high low }
{
    gpmf_basics::number_face::gpmf_q15_16(high, low)
}

// A number of 31 and 32 bits.
#[unsafe(no_mangle)]
pub extern "C" fn gpmf_q31_32(high: i32, low: u32) -> f64
    ensures { result ≡ q31_32 high low }
{
    gpmf_basics::number_face::gpmf_q31_32(high, low)
}

// The same with nothing rounded.
#[unsafe(no_mangle)]
pub extern "C" fn gpmf_q31_32_exact(high: i32, low: u32) -> Exact
    ensures { result ≡ q31_32_exact high low }
{
    gpmf_basics::number_face::gpmf_q31_32_exact(high, low)
}

// The bytes of one element of a type, 0 for a letter that reads nothing.
#[unsafe(no_mangle)]
pub extern "C" fn gpmf_width(letter: u8) -> usize
    ensures { (result ≡ width_of letter) × (result ≤ 8) }
{
    gpmf_basics::number_face::gpmf_width(letter)
}

// The number at a place of some bytes.
#[unsafe(no_mangle)]
pub extern "C" fn gpmf_element_at(s: &[u8], at: usize, letter: u8) -> Number
    ensures { result ≡ of_element (element_at s.now at letter) }
{
    gpmf_basics::number_face::gpmf_element_at(s, at, letter)
}

// The exact form of the Q number at a place.
#[unsafe(no_mangle)]
pub extern "C" fn gpmf_exact_at(s: &[u8], at: usize) -> Exact
    ensures { result ≡ exact_at s.now at }
{
    gpmf_basics::number_face::gpmf_exact_at(s, at)
}

// The bits of an f32, one pattern for every NaN.
#[unsafe(no_mangle)]
pub extern "C" fn gpmf_single_bits(x: f32) -> u32
    ensures { result ≡ single_bits x }
{
    gpmf_basics::number_face::gpmf_single_bits(x)
}

// The bits of an f64, one pattern for every NaN.
#[unsafe(no_mangle)]
pub extern "C" fn gpmf_double_bits(x: f64) -> u64
    ensures { result ≡ double_bits x }
{
    gpmf_basics::number_face::gpmf_double_bits(x)
}
