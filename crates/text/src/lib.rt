// Text laid into a lent buffer at a place. Each call answers the place behind its text, so that calls follow one another;
// what does not fit leaves the buffer as it was and is answered FULL, at which nothing fits any more: one look at the last
// answer tells whether all of them fitted.
// Buffer and place stay two parameters: the C interface (gpmf_put, gpmf_put_bytes) has them so.

#![tactic(auto)]

ghost use Rattle.std.specs.Prelude.{◌≡◌, [], ◌∷◌, ◌+◌, leb};
ghost use Rattle.text.specs.Lay.{Lays};

pub const FULL: usize = usize::MAX;

// Lays one byte.
pub fn put(out: &mut [u8], at: usize, b: u8) -> usize
    ensures { Lays (b ∷ []) out.old at result out.new }
{
    if out.len() <= at {
        return FULL;
    }
    out[at] = b;
    at + 1
}

// Lays bytes as they are. One by one: `copy_from_slice` becomes a call of memmove, which the library would need from
// outside.
pub fn put_bytes(out: &mut [u8], at: usize, text: &[u8]) -> usize
    ensures { Lays text.now out.old at result out.new }
{
    if has_room(out.len(), at, text.len()) {
        for (i, b) in text.iter().enumerate() {
            out[at + i] = *b;
        }
        return at + text.len();
    }
    FULL
}

// Whether a buffer of some length holds some bytes at a place.
pub fn has_room(len: usize, at: usize, count: usize) -> bool
    ensures { result ≡ leb (at + count) len }
{
    at <= len && count <= len - at
}
