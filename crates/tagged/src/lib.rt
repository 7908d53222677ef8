// The item of a group and tag, found through rows: its header, and where it stands in the payload.

#![tactic(auto)]

ghost use Rattle.std.specs.Prelude.{◌≡◌};
ghost use Rattle.tagged.specs.Tagged.{tagged_at, tagged_of, one_number};

use foundation::refusal::{Fault, Refusal};
use klv::KLV;

// An item that a group has: its header, and where it stands.
#[derive(Clone, Copy, PartialEq, Eq, Debug)]
pub struct Tagged {
    pub klv: KLV,
    pub place: u32,
}

// The item at a place that a row names, which is something.
#[tactic(auto, unfolding(crate::specs::Tagged::tagged_at))]
fn item_at(s: &[u8], place: u32) -> Result<Option<Tagged>, Refusal>
    ensures { result ≡ tagged_at s.now place }
{
    let klv = values::klv_at(s, place as usize, items::NO_TYPE)?;
    Ok(Some(Tagged { klv, place }))
}

// A group of a packet: the payload, the rows of which so many were written, and what the group is named by in them.
#[derive(Clone, Copy)]
pub struct Group<'a> {
    pub payload: &'a [u8],
    pub rows: &'a [u32],
    pub count: usize,
    pub kind: u32,
    pub key: u32,
}

impl<'a> Group<'a> {
    // The item of the last of its rows that is of a tag, and under tag 0 of a key.
    #[tactic(auto, using(std::proofs::lemmas::Bool::Decides::nat_tests, crate::proofs::Laws::row_there), unfolding(crate::specs::Tagged::tagged_of))]
    pub fn tagged(self, tag: u32, key: u32) -> Result<Option<Tagged>, Refusal>
        ensures { result ≡ tagged_of self.entry.payload.now self.entry.rows.now self.entry.count self.entry.kind self.entry.key tag key }
    {
        if klv::MOST_BYTES < self.payload.len() {
            return Err(Fault::TooLong.at(0));
        }
        let Some(n) = rows::lookup(self.rows, self.count, self.kind, self.key, tag, key)? else {
            return Ok(None);
        };
        let Some(row) = rows::row_at(self.rows, n) else {
            return Ok(None);
        };
        item_at(self.payload, row.place)
    }
}

// Whether a header's type, size and repeat are those of one number of a letter; its key, by which `s` may be quaternions, is not looked at.
#[tactic(auto, using(std::proofs::lemmas::Bool::Decides::nat_tests), unfolding(crate::specs::Tagged::one_number))]
pub fn is_one_number(klv: KLV, letter: u8) -> bool
    ensures { result ≡ one_number klv letter }
{
    let width = elements::width(letter);
    klv.data_type == letter && klv.repeat == 1 && width != 0 && usize::from(klv.size) / width == 1
}
