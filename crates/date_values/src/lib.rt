// Values that are a date.

#![tactic(auto)]

ghost use Rattle.std.specs.Prelude.{◌≡◌};
ghost use Rattle.dates.specs.Date.{date_of};
ghost use Rattle.value.specs.Value.{dated};
ghost use Rattle.value.specs.Answer.{element_in, shape_in};

use elements::Element;
use foundation::refusal::{Fault, Refusal};
use value::{Kind, Shape};

// The element of a date, which is one row of one column.
pub fn date_element(
    place: usize,
    payload: &[u8],
    row: usize,
    column: usize,
) -> Result<Element, Refusal>
    ensures { result ≡ element_in place (dated (date_of payload.now)) row column }
{
    let milliseconds = dates::parse_utcdate(payload).map_err(|fault| fault.at(place))?;
    if 0 < row || 0 < column {
        return Err(Fault::Outside.at(place));
    }
    Ok(Element::Unsigned(milliseconds))
}

// The shape of a date.
pub fn date_shape(place: usize, payload: &[u8]) -> Result<Shape, Refusal>
    ensures { result ≡ shape_in place (dated (date_of payload.now)) }
{
    dates::parse_utcdate(payload).map_err(|fault| fault.at(place))?;
    Ok(Shape {
        kind: Kind::DateTime,
        rows: 1,
        columns: 1,
    })
}
