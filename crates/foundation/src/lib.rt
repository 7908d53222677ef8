// The ground that the other crates stand on: recursion by fuel, texts, their pieces and digits (definitions only),
// refusals, and big-endian numbers.

#![tactic(auto)]

pub mod refusal;

ghost use Rattle.std.specs.Prelude.{◌≡◌, take};
ghost use Rattle.foundation.specs.BigEndian.{big_endian};

// The number that the bytes of a part stand for: all of them, or the first eight where there are more.
pub fn big_endian(part: &[u8]) -> u64
    ensures { result ≡ big_endian (take 8 part.now) }
{
    let width = part.len().min(8);
    let mut number: u64 = 0;
    for b in &part[..width] {
        number = number * 256 + u64::from(*b);
    }
    number
}
