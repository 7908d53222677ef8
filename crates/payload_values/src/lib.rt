// The value of a header, a payload and a TYPE text: its shape, and its elements by row and column.

#![tactic(auto)]

mod grid;
mod plan;

ghost use Rattle.std.specs.Prelude.{◌≡◌};
ghost use Rattle.value.specs.Value.{is_quaternions, value_of};
ghost use Rattle.value.specs.Answer.{element_in, shape_in, columns_in, columns_by_shape};

use elements::Element;
use foundation::refusal::{Fault, Refusal};
use klv::KLV;
use value::{Plan, Shape};

// Whether the value under a header is quaternions.
#[tactic(auto, unfolding(value::specs::Value::is_quaternions))]
pub fn is_quaternions(klv: KLV) -> bool
    ensures { result ≡ is_quaternions klv }
{
    klv.data_type == b's' && (klv.key == keys::names::CORI || klv.key == keys::names::IORI)
}

// An element of the value of a header, a payload and the TYPE text in force.
pub fn element_of(
    place: usize,
    klv: KLV,
    payload: &[u8],
    type_text: &[u8],
    row: usize,
    column: usize,
) -> Result<Element, Refusal>
    ensures { result ≡ element_in place (value_of klv payload.now type_text.now) row column }
{
    match plan::plan_of(klv, payload) {
        Plan::Even(grid) => grid::element(grid, place, payload, row, column),
        Plan::Texts => text_values::element(place, klv, payload, row, column),
        Plan::Date => date_values::date_element(place, payload, row, column),
        Plan::Structures => structures::element(place, klv, payload, type_text, row, column),
    }
}

// The shape of the same value.
pub fn shape_of(place: usize, klv: KLV, payload: &[u8], type_text: &[u8]) -> Result<Shape, Refusal>
    ensures { result ≡ shape_in place (value_of klv payload.now type_text.now) }
{
    match plan::plan_of(klv, payload) {
        Plan::Even(grid) => grid::shape(grid, place, payload),
        Plan::Texts => text_values::shape(place, klv, payload),
        Plan::Date => date_values::date_shape(place, payload),
        Plan::Structures => structures::shape(place, klv, payload, type_text),
    }
}

// The columns of a row, of a value all of whose rows have as many.
fn columns_by(shaped: Result<Shape, Refusal>, place: usize, row: usize) -> Result<usize, Refusal>
    ensures { result ≡ columns_by_shape shaped place row }
{
    let shape = shaped?;
    if shape.rows <= row {
        return Err(Fault::Outside.at(place));
    }
    Ok(shape.columns)
}

// The columns of a row of the same value.
pub fn columns_of(
    place: usize,
    klv: KLV,
    payload: &[u8],
    type_text: &[u8],
    row: usize,
) -> Result<usize, Refusal>
    ensures { result ≡ columns_in place (value_of klv payload.now type_text.now) row }
{
    match plan::plan_of(klv, payload) {
        Plan::Even(grid) => columns_by(grid::shape(grid, place, payload), place, row),
        Plan::Texts => text_values::columns(place, klv, payload, row),
        Plan::Date => columns_by(date_values::date_shape(place, payload), place, row),
        Plan::Structures => columns_by(
            structures::shape(place, klv, payload, type_text),
            place,
            row,
        ),
    }
}
