// The item at a place, with its payload and the TYPE text that it asks for.

#![tactic(auto)]

ghost use Rattle.std.specs.Prelude.{◌≡◌, ◌+◌, drop, Ok};
ghost use Rattle.klv.specs.Item.{first_item};
ghost use Rattle.klv.specs.Header.{header_at};
ghost use Rattle.items.specs.At.{type_of, type_named_at, type_for, found_by, found_at, over_if};
ghost use Rattle.items.specs.Parts.{between, text_at, text_for, TypeIs, ItemIs};

use foundation::refusal::{Fault, Refusal};
use klv::{Broken, Cursor, KLV, MOST_BYTES};

// The place of a TYPE where none is in force.
pub const NO_TYPE: usize = 4294967295;

// Where a part of what was lent starts, and where it ends.
#[derive(Clone, Copy, PartialEq, Eq, Debug)]
pub struct Span {
    pub start: usize,
    pub end: usize,
}

impl Span {
    // Its bytes, as many as are there.
    pub fn of(self, s: &[u8]) -> &[u8]
        ensures { result.now ≡ between self.start self.end s.now }
    {
        let end = self.end.min(s.len());
        let start = self.start.min(end);
        &s[start..end]
    }
}

// An item: its header, and where its payload and its TYPE text stand. The header in front tried and slower: there it lies
// over a refusal's number, so it is written in two halves, and to read it whole waits for both.
#[derive(Clone, Copy, PartialEq, Eq, Debug)]
pub struct Item {
    pub type_text: Span,
    pub payload: Span,
    pub klv: KLV,
}

// The text of an item that stands whole at a place, if it is a TYPE.
fn type_of(klv: KLV, s: &[u8], at: usize) -> Option<Span>
    requires { header_at s.now at ≡ Ok klv }
    ensures { TypeIs s.now (type_of (first_item (drop at s.now))) (at + 8) result }
{
    let len = klv.data_len();
    if len == 0 {
        return None;
    }
    if !klv.is_type_text() {
        return None;
    }
    let start = at + Cursor::HEADER;
    let end = start + len;
    Some(Span {
        start,
        end: start + texts::latin1_len(&s[start..end]),
    })
}

// The text of the TYPE item at a place.
fn type_text(s: &[u8], at: usize) -> Option<Span>
    ensures { TypeIs s.now (type_named_at s.now at) (text_at at) result }
{
    if at == NO_TYPE {
        return Some(Span { start: 0, end: 0 });
    }
    match Cursor::new(at).parse_header(s) {
        Ok(klv) => type_of(klv, s, at),
        Err(_) => None,
    }
}

// The TYPE text that an item asks for: only a structure does.
fn type_for(letter: u8, s: &[u8], at: usize) -> Option<Span>
    ensures { TypeIs s.now (type_for letter s.now at) (text_for letter at) result }
{
    if letter == b'?' {
        return type_text(s, at);
    }
    Some(Span { start: 0, end: 0 })
}

// An item whose payload runs past the end.
fn over(letter: u8, s: &[u8], at: usize, type_at: usize) -> Result<Item, Refusal>
    ensures { ItemIs s.now (over_if (type_for letter s.now type_at) at) at type_at result }
{
    match type_for(letter, s, type_at) {
        Some(_) => Err(Fault::PastEnd.at(at)),
        None => Err(Fault::NoItem.at(at)),
    }
}

// An item whose payload is all there.
fn whole(klv: KLV, s: &[u8], at: usize, type_at: usize) -> Result<Item, Refusal>
    requires { header_at s.now at ≡ Ok klv }
    ensures { ItemIs s.now (found_by (first_item (drop at s.now)) s.now at type_at) at type_at result }
{
    let len = klv.data_len();
    if len == 0 {
        return Err(Fault::NoItem.at(at));
    }
    let type_text = type_for(klv.data_type, s, type_at).ok_or(Fault::NoItem.at(at))?;
    let start = at + Cursor::HEADER;
    let end = start + len;
    Ok(Item {
        klv,
        payload: Span { start, end },
        type_text,
    })
}

// Where the item at a place has its payload and, if it is a structure, the text of its TYPE, which stands at another place.
pub fn item_at(s: &[u8], at: usize, type_at: usize) -> Result<Item, Refusal>
    ensures { ItemIs s.now (found_at s.now at type_at) at type_at result }
{
    if MOST_BYTES < s.len() {
        return Err(Fault::TooLong.at(0));
    }
    match Cursor::new(at).parse_header(s) {
        Ok(klv) => whole(klv, s, at, type_at),
        Err(Broken::Short) => Err(Fault::NoItem.at(at)),
        Err(Broken::Past) => over(s[at + 4], s, at, type_at),
    }
}
