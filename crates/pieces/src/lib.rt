// The pieces of a text, as the words of a line.

#![tactic(auto)]

ghost use Rattle.std.specs.Prelude.{◌≡◌, [], length, get_or};
ghost use Rattle.foundation.specs.Pieces.{pieces_of};

// How many pieces a text falls into, each ended by a byte or by the end: the words of a line, where the byte is a space.
pub fn pieces(s: &[u8], b: u8) -> usize
    ensures { result ≡ length (pieces_of b s.now) }
{
    let mut count: usize = 1;
    for c in s {
        count += usize::from(*c == b);
    }
    count
}

// A piece of a text, counted from 0; nothing where there is none.
pub fn piece(s: &[u8], b: u8, index: usize) -> &[u8]
    ensures { result.now ≡ get_or (pieces_of b s.now) index [] }
{
    s.split(|c| *c == b).nth(index).unwrap_or(&[])
}
