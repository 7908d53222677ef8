// Items: a header of eight bytes at a place, the length that it gives its payload, and the padding behind that.

#![tactic(auto)]

ghost use Rattle.std.specs.Prelude.{◌≡◌, ◌≤◌, ◌<◌, length};
ghost use Rattle.klv.specs.Item.{header_of, data_len, aligned};
ghost use Rattle.klv.specs.Header.{header_of_first, header_at};
ghost use Rattle.klv.specs.OneText.{one_text, type_text};

use foundation::big_endian;

// An item's header: its key as one number, its type byte, and the size and the repeat of its samples.
#[repr(C)]
#[derive(Clone, Copy, PartialEq, Eq, Debug)]
pub struct KLV {
    pub key: u32,
    pub data_type: u8,
    pub size: u8,
    pub repeat: u16,
}

// A size as a number of bytes. It stays beside usize::from: a public function that docs/PROMISES.md promises.
pub fn wide(size: u8) -> usize
    ensures { (result ≡ size) × (result < 256) }
{
    usize::from(size)
}

// A repeat as a number of samples. It stays, as `wide` does.
pub fn wider(repeat: u16) -> usize
    ensures { (result ≡ repeat) × (result < 65536) }
{
    usize::from(repeat)
}

impl KLV {
    // The payload's length: size times repeat.
    pub fn data_len(self) -> usize
        ensures { (result ≡ data_len self) × (result < 16777216) }
    {
        wide(self.size) * wider(self.repeat)
    }

    // The same with its padding.
    pub fn aligned_data_len(self) -> usize
        ensures { (result ≡ aligned (data_len self)) × (result < 16777220) }
    {
        self.data_len().next_multiple_of(Cursor::ALIGNMENT)
    }
}

// The most bytes that a payload may have.
pub const MOST_BYTES: usize = 1048576;

// The key of the item that describes structures.
pub const TYPE: u32 = 0x54595045;

impl KLV {
    // One text: F, or c with repeat 1 or size 1.
    pub fn is_one_text(self) -> bool
        ensures { result ≡ one_text self }
    {
        self.data_type == b'F' || self.data_type == b'c' && (self.repeat == 1 || self.size == 1)
    }

    // A TYPE item whose value is one text.
    pub fn is_type_text(self) -> bool
        ensures { result ≡ type_text self }
    {
        self.key == TYPE && self.is_one_text()
    }
}

// Why no item stands at a place.
#[derive(Clone, Copy, PartialEq, Eq, Debug)]
pub enum Broken {
    // fewer than eight bytes
    Short,
    // a header whose payload runs past the end
    Past,
}

// The header of eight bytes. The key by `big_endian` tried and slower: read byte by byte, where one load serves.
fn read_header(s: &[u8]) -> KLV
    requires { 8 ≤ length s.now }
    ensures { result ≡ header_of s.now }
{
    KLV {
        key: u32::from_be_bytes([s[0], s[1], s[2], s[3]]),
        data_type: s[4],
        size: s[5],
        repeat: big_endian(&s[6..8]) as u16,
    }
}

// What stands first in some bytes.
fn first_header(s: &[u8]) -> Result<KLV, Broken>
    ensures { result ≡ header_of_first s.now }
{
    if s.len() < Cursor::HEADER {
        return Err(Broken::Short);
    }
    let klv = read_header(s);
    if klv.data_len() <= s.len() - Cursor::HEADER {
        Ok(klv)
    } else {
        Err(Broken::Past)
    }
}

// A place in a payload.
#[repr(C)]
#[derive(Clone, Copy)]
pub struct Cursor {
    pub at: usize,
}

impl Cursor {
    pub const HEADER: usize = 8;

    pub const ALIGNMENT: usize = 4;

    pub const DEPTH: u32 = 16;

    pub fn new(at: usize) -> Self
        ensures { result.at ≡ at }
    {
        Cursor { at }
    }

    // What stands here in a level, given as the payload up to the level's end.
    pub fn parse_header(self, s: &[u8]) -> Result<KLV, Broken>
        ensures { result ≡ header_at s.now self.at }
    {
        let at = self.at;
        if s.len() < at {
            return Err(Broken::Short);
        }
        first_header(&s[at..])
    }
}
