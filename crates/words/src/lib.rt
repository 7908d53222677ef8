// What a program takes out of its input: a line of it, a part of a text, and the bytes that a word is in hex.

#![tactic(auto)]

ghost use Rattle.std.specs.Prelude.{◌≡◌, take, drop};
ghost use Rattle.words.specs.Words.{line_from, DecodesWord};

use line::HexError;

// So many bytes from a place on, as far as there are.
pub fn part(s: &[u8], from: usize, count: usize) -> &[u8]
    ensures { result.now ≡ take count (drop from s.now) }
{
    let rest = s.get(from..).unwrap_or(&[]);
    &rest[..count.min(rest.len())]
}

// The line that starts at a place, without what ends it; nothing at a place past the end.
pub fn line_from(s: &[u8], from: usize) -> &[u8]
    ensures { result.now ≡ line_from s.now from }
{
    pieces::piece(part(s, from, s.len()), b'\n', 0)
}

// How many bytes a word is in hex, which are laid at the front of a lent buffer: `-` is none, and a word of no characters is no hex.
pub fn unhex_word(word: &[u8], out: &mut [u8]) -> Result<usize, HexError>
    ensures { DecodesWord word.now out.old result out.new }
{
    if word.len() == 0 {
        return Err(HexError::NotHex);
    }
    if word == b"-".as_slice() {
        return Ok(0);
    }
    line::unhex(word, out)
}
