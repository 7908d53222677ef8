// Parts of what was lent: the bytes of an item, and a text of its value, each by where it starts and how many bytes it has.

#![tactic(auto)]

ghost use Rattle.std.specs.Prelude.{◌≡◌, ◌≤◌, Ok};
ghost use Rattle.items.specs.At.{found_at};
ghost use Rattle.parts.specs.Parts.{bytes_of_found, text_of_found, text_by, SmallRow, cut, bytes_from};

use foundation::refusal::{Fault, Refusal};
use klv::{Cursor, KLV, wide};

// A part of what was lent: where it starts, and how many bytes it has.
#[derive(Clone, Copy, PartialEq, Eq, Debug)]
pub struct Part {
    pub start: usize,
    pub length: usize,
}

// The bytes of the item at a place, whose TYPE stands at another.
pub fn bytes_at(s: &[u8], at: usize, type_at: usize) -> Result<Part, Refusal>
    ensures { result ≡ bytes_of_found (found_at s.now at type_at) at }
{
    let klv = values::klv_at(s, at, type_at)?;
    Ok(Part {
        start: at + Cursor::HEADER,
        length: klv.data_len(),
    })
}

// The text of a row, by the columns of that row.
fn text_by(klv: KLV, length: usize, at: usize, row: usize) -> Result<Part, Refusal>
    requires at_bound { at ≤ 1048576 }
    requires small_row { SmallRow klv (Ok length) row }
    ensures { result ≡ text_by klv (Ok length) at row }
{
    let start = at + Cursor::HEADER;
    if klv.is_one_text() {
        return Ok(Part { start, length });
    }
    if klv.data_type == b'c' {
        return Ok(Part {
            start: start + row * wide(klv.size),
            length,
        });
    }
    Err(Fault::Outside.at(at))
}

// The kept bytes of the text of a row of the item at a place.
pub fn text_at(s: &[u8], at: usize, type_at: usize, row: usize) -> Result<Part, Refusal>
    ensures { result ≡ text_of_found (found_at s.now at type_at) at row }
{
    let klv = values::klv_at(s, at, type_at)?;
    let columns = values::columns_at(s, at, type_at, row)?;
    text_by(klv, columns, at, row)
}

// The bytes from a start on, so many as are there of those asked.
fn bytes_from(s: &[u8], start: usize, length: usize) -> &[u8]
    ensures { result.now ≡ bytes_from start length s.now }
{
    let rest = &s[start.min(s.len())..];
    &rest[..length.min(rest.len())]
}

// A part cut out of what was lent; nothing where it is refused.
pub fn part_of(s: &[u8], part: Result<Part, Refusal>) -> &[u8]
    ensures { result.now ≡ cut part s.now }
{
    match part {
        Ok(part) => bytes_from(s, part.start, part.length),
        Err(_) => &[],
    }
}
