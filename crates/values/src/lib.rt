// Values: the shape of the value of an item at a place, and its elements by row and column.

#![tactic(auto)]

ghost use Rattle.std.specs.Prelude.{◌≡◌};
ghost use Rattle.items.specs.At.{found_at};
ghost use Rattle.values.specs.At.{klv_of_found, element_of_found, shape_of_found, columns_of_found};

use elements::Element;
use foundation::refusal::Refusal;
use klv::KLV;
use value::Shape;

// The header of the item at a place, whose TYPE stands at another.
pub fn klv_at(s: &[u8], at: usize, type_at: usize) -> Result<KLV, Refusal>
    ensures { result ≡ klv_of_found (found_at s.now at type_at) }
{
    let klv = items::item_at(s, at, type_at)?.klv;
    Ok(klv)
}

// The element at a row and a column of the item at a place, whose TYPE stands at another.
pub fn element(
    s: &[u8],
    at: usize,
    type_at: usize,
    row: usize,
    column: usize,
) -> Result<Element, Refusal>
    ensures { result ≡ element_of_found (found_at s.now at type_at) at row column }
{
    let item = items::item_at(s, at, type_at)?;
    payload_values::element_of(
        at,
        item.klv,
        item.payload.of(s),
        item.type_text.of(s),
        row,
        column,
    )
}

// The shape of the value of the item at a place.
pub fn shape_at(s: &[u8], at: usize, type_at: usize) -> Result<Shape, Refusal>
    ensures { result ≡ shape_of_found (found_at s.now at type_at) at }
{
    let found = items::item_at(s, at, type_at)?;
    payload_values::shape_of(at, found.klv, found.payload.of(s), found.type_text.of(s))
}

// The columns of a row of the value of the item at a place: of a text, its kept bytes.
pub fn columns_at(s: &[u8], at: usize, type_at: usize, row: usize) -> Result<usize, Refusal>
    ensures { result ≡ columns_of_found (found_at s.now at type_at) at row }
{
    let asked = items::item_at(s, at, type_at)?;
    payload_values::columns_of(
        at,
        asked.klv,
        asked.payload.of(s),
        asked.type_text.of(s),
        row,
    )
}
