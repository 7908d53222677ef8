// What is laid as text into a lent buffer, and what is read out of a line.
ghost use Rattle.std.specs.Prelude.{◌≡◌, [], ◌∷◌, length};
ghost use Rattle.text.specs.Lay.{Lays};
ghost use Rattle.numerals.specs.Numerals.{decimal, last_digits, signed_decimal};
ghost use Rattle.foundation.specs.Pieces.{pieces_of};
ghost use Rattle.line.specs.Read.{number_in};
ghost use Rattle.answers.specs.Answers.{of_number};
ghost use Rattle.gpmf_basics.specs.Lent.{DecodesAs};

use answers::WholeAnswer;

// Lays one byte.
#[unsafe(no_mangle)]
pub extern "C" fn gpmf_put(out: &mut [u8], at: usize, b: u8) -> usize
    ensures { Lays (b ∷ []) out.old at result out.new }
{
    gpmf_basics::print_face::gpmf_put(out, at, b)
}

// Lays bytes.
#[unsafe(no_mangle)]
pub extern "C" fn gpmf_put_bytes(out: &mut [u8], at: usize, text: &[u8]) -> usize
    ensures { Lays text.now out.old at result out.new }
{
    gpmf_basics::print_face::gpmf_put_bytes(out, at, text)
}

// Lays a number in decimal.
#[unsafe(no_mangle)]
pub extern "C" fn gpmf_put_decimal(out: &mut [u8], at: usize, n: u64) -> usize
    ensures { Lays (decimal n) out.old at result out.new }
{
    gpmf_basics::print_face::gpmf_put_decimal(out, at, n)
}

// Lays the last digits of a number in hex.
#[unsafe(no_mangle)]
pub extern "C" fn gpmf_put_hex(out: &mut [u8], at: usize, n: u64, count: usize) -> usize
    ensures { Lays (last_digits 16 count n) out.old at result out.new }
{
    gpmf_basics::print_face::gpmf_put_hex(out, at, n, count)
}

// Lays a signed number in decimal.
#[unsafe(no_mangle)]
pub extern "C" fn gpmf_put_signed(out: &mut [u8], at: usize, n: i64) -> usize
    ensures { Lays (signed_decimal n) out.old at result out.new }
{
    gpmf_basics::print_face::gpmf_put_signed(out, at, n)
}

// How many pieces a text falls into.
#[unsafe(no_mangle)]
pub extern "C" fn gpmf_pieces(s: &[u8], b: u8) -> usize
    ensures { result ≡ length (pieces_of b s.now) }
{
    gpmf_basics::print_face::gpmf_pieces(s, b)
}

// The number in decimal digits.
#[unsafe(no_mangle)]
pub extern "C" fn gpmf_decimal_number(s: &[u8]) -> WholeAnswer
    ensures { result ≡ of_number (number_in 10 s.now) }
{
    gpmf_basics::print_face::gpmf_decimal_number(s)
}

// The number in hex digits.
#[unsafe(no_mangle)]
pub extern "C" fn gpmf_hex_number(s: &[u8]) -> WholeAnswer
    ensures { result ≡ of_number (number_in 16 s.now) }
{
    gpmf_basics::print_face::gpmf_hex_number(s)
}

// The bytes in hex digits.
#[unsafe(no_mangle)]
pub extern "C" fn gpmf_unhex(s: &[u8], out: &mut [u8]) -> WholeAnswer
    ensures { DecodesAs s.now out.old result out.new }
{
    gpmf_basics::print_face::gpmf_unhex(s, out)
}
