// The bits of floats, with one pattern for every NaN. Two functions stay: a trait for both types would hold the same two bodies.

#![tactic(auto)]

ghost use Rattle.std.specs.Prelude.{◌≡◌};
ghost use Rattle.float_bits.specs.FloatBits.{single_bits, double_bits};

// The bits of an f32.
#[tactic(auto, unfolding(crate::specs::FloatBits::single_bits))]
pub fn single_bits(x: f32) -> u32
    ensures { result ≡ single_bits x }
{
    if x.is_nan() { 0x7fc0_0000 } else { x.to_bits() }
}

// The bits of an f64.
#[tactic(auto, unfolding(crate::specs::FloatBits::double_bits))]
pub fn double_bits(x: f64) -> u64
    ensures { result ≡ double_bits x }
{
    if x.is_nan() {
        0x7ff8_0000_0000_0000
    } else {
        x.to_bits()
    }
}
