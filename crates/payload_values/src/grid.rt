// Rows of elements that are all of one letter.
ghost use Rattle.std.specs.Prelude.{◌≡◌};
ghost use Rattle.value.specs.Value.{gridded};
ghost use Rattle.value.specs.Answer.{element_in, shape_in};
ghost use Rattle.payload_values.specs.Small.{Counted};

use elements::Element;
use foundation::refusal::{Fault, Refusal};
use value::{Grid, Shape};

// Its shape: the bytes of all its cells must be there.
pub(crate) fn shape(grid: Grid, place: usize, payload: &[u8]) -> Result<Shape, Refusal>
    requires { Counted grid }
    ensures { result ≡ shape_in place (gridded grid payload.now) }
{
    let width = elements::width(grid.letter);
    if payload.len() < grid.rows * grid.columns * width {
        return Err(Fault::TooFew.at(place));
    }
    Ok(Shape {
        kind: grid.kind,
        rows: grid.rows,
        columns: grid.columns,
    })
}

// The element at a row and a column: first the whole shape must be there.
pub(crate) fn element(
    grid: Grid,
    place: usize,
    payload: &[u8],
    row: usize,
    column: usize,
) -> Result<Element, Refusal>
    requires { Counted grid }
    ensures { result ≡ element_in place (gridded grid payload.now) row column }
{
    shape(grid, place, payload)?;
    if grid.rows <= row || grid.columns <= column {
        return Err(Fault::Outside.at(place));
    }
    let width = elements::width(grid.letter);
    Ok(elements::element_at(payload, (row * grid.columns + column) * width, grid.letter))
}
