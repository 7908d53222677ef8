// Values that are several UTF-8 texts.

#![tactic(auto)]

ghost use Rattle.std.specs.Prelude.{◌≡◌, ◌*◌, cond, Ok, take, drop};
ghost use Rattle.foundation.specs.Refusals.{refuse, unreadable};
ghost use Rattle.texts.specs.Texts.{are_well_formed};
ghost use Rattle.value.specs.Value.{text_of, texts};
ghost use Rattle.value.specs.Answer.{element_in, shape_in, columns_in};

use elements::Element;
use foundation::refusal::{Fault, Refusal};
use klv::{KLV, wide, wider};
use value::{Kind, Shape};

// The room of the text of a row, as far as the payload goes.
fn room_of(klv: KLV, payload: &[u8], row: u32) -> &[u8]
    ensures { result.now ≡ take klv.size (drop (row * klv.size) payload.now) }
{
    let size = wide(klv.size);
    let start = row as usize * size;
    if payload.len() < start {
        return &payload[..0];
    }
    if payload.len() - start < size {
        return &payload[start..];
    }
    &payload[start..start + size]
}

// The text of a row: the bytes that it keeps.
pub fn row_text(klv: KLV, payload: &[u8], row: u32) -> &[u8]
    ensures { result.now ≡ text_of klv payload.now row }
{
    let room = room_of(klv, payload, row);
    let kept = texts::utf8_len(room);
    &room[..kept]
}

// Refuses texts of which one is not UTF-8.
fn readable(place: usize, klv: KLV, payload: &[u8]) -> Result<(), Refusal>
    ensures { result ≡ cond (are_well_formed klv.size payload.now) (Ok tt) (refuse unreadable place) }
{
    if utf8::are_utf8(payload, wide(klv.size)) {
        Ok(())
    } else {
        Err(Fault::Unreadable.at(place))
    }
}

// An element of several texts: a byte of the text of a row.
#[tactic(auto, using(crate::proofs::SeveralTexts::text_element))]
pub fn element(
    place: usize,
    klv: KLV,
    payload: &[u8],
    row: usize,
    column: usize,
) -> Result<Element, Refusal>
    ensures { result ≡ element_in place (texts klv payload.now) row column }
{
    readable(place, klv, payload)?;
    if wider(klv.repeat) <= row {
        return Err(Fault::Outside.at(place));
    }
    let text = row_text(klv, payload, row as u32);
    if text.len() <= column {
        return Err(Fault::Outside.at(place));
    }
    Ok(elements::element_at(text, column, b'B'))
}

// The columns of a row of several texts: the bytes that its text keeps.
pub fn columns(place: usize, klv: KLV, payload: &[u8], row: usize) -> Result<usize, Refusal>
    ensures { result ≡ columns_in place (texts klv payload.now) row }
{
    readable(place, klv, payload)?;
    if wider(klv.repeat) <= row {
        return Err(Fault::Outside.at(place));
    }
    let kept = row_text(klv, payload, row as u32);
    Ok(kept.len())
}

// The shape of several texts, with the columns of the first.
pub fn shape(place: usize, klv: KLV, payload: &[u8]) -> Result<Shape, Refusal>
    ensures { result ≡ shape_in place (texts klv payload.now) }
{
    readable(place, klv, payload)?;
    let first = row_text(klv, payload, 0);
    Ok(Shape {
        kind: Kind::Texts,
        rows: wider(klv.repeat),
        columns: first.len(),
    })
}
