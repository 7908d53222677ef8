// What is read out of a piece of a line: numbers, bytes in hex.

#![tactic(auto)]

ghost use Rattle.std.specs.Prelude.{◌≡◌, true, ◌+◌, ◌*◌, ◌<◌, ◌≤◌, length};
ghost use Rattle.text.specs.Lay.{over};
ghost use Rattle.foundation.specs.Digits.{worth_of, are_digits};
ghost use Rattle.line.specs.Read.{worth_in64, number_in, bytes_in, Decodes};

// Why a text of hex is not decoded.
#[derive(Clone, Copy, PartialEq, Eq, Debug)]
pub enum HexError {
    NoRoom,
    NotHex,
}

// The number in a text of decimal digits, where it is one of 64 bits.
pub fn decimal_number(s: &[u8]) -> Option<u64>
    ensures { result ≡ number_in 10 s.now }
{
    number_in(s, 10)
}

// The same of small hex digits.
pub fn hex_number(s: &[u8]) -> Option<u64>
    ensures { result ≡ number_in 16 s.now }
{
    number_in(s, 16)
}

fn number_in(s: &[u8], base: u64) -> Option<u64>
    requires { (1 < base) × (base ≤ 16) }
    ensures { result ≡ number_in base s.now }
{
    if s.len() == 0 {
        return None;
    }
    if are_digits(s, base) {
        return worth(s, base);
    }
    None
}

// What digits are worth together, if 64 bits hold it.
fn worth(s: &[u8], base: u64) -> Option<u64>
    requires { 1 < base }
    ensures { result ≡ worth_in64 base s.now }
{
    let mut value: u64 = 0;
    for c in s {
        value = value.checked_mul(base)?.checked_add(digit_worth(*c))?;
    }
    Some(value)
}

fn are_digits(s: &[u8], base: u64) -> bool
    ensures { result ≡ are_digits base s.now }
{
    s.iter().all(|c| digit_worth(*c) < base)
}

// What a digit is worth, as many as stand before it; 16 for a character that is none.
fn digit_worth(c: u8) -> u64
    ensures { (result ≡ worth_of c) × (result ≤ 16) }
{
    let digits = b"0123456789abcdef";
    digits.iter().position(|digit| *digit == c).unwrap_or(16) as u64
}

// How many bytes are in a text of small hex digits, which are laid at the front of a lent buffer.
pub fn unhex(s: &[u8], out: &mut [u8]) -> Result<usize, HexError>
    ensures { Decodes s.now out.old result out.new }
{
    if s.len() % 2 == 1 {
        return Err(HexError::NotHex);
    }
    if are_digits(s, 16) {
        let count = s.len() / 2;
        if out.len() < count {
            return Err(HexError::NoRoom);
        }
        decode(s, out, count);
        return Ok(count);
    }
    Err(HexError::NotHex)
}

fn decode(s: &[u8], out: &mut [u8], count: usize)
    requires s_value { are_digits 16 s.now ≡ true }
    requires s_len { length s.now ≡ 2 * count }
    requires count_in_bounds { count ≤ length out.old }
    ensures { out.new ≡ over out.old 0 (bytes_in s.now) }
{
    for i in 0..count {
        out[i] = byte_of(s[2 * i], s[2 * i + 1]);
    }
}

fn byte_of(high: u8, low: u8) -> u8
    requires { (worth_of high < 16) × (worth_of low < 16) }
    ensures { result ≡ worth_of high * 16 + worth_of low }
{
    (digit_worth(high) * 16 + digit_worth(low)) as u8
}
