// A view of an item: the payload that was lent, with the places that a row has. Its methods take it apart and call functions on slice and places.

#![tactic(auto)]

ghost use Rattle.std.specs.Prelude.{◌≡◌};
ghost use Rattle.items.specs.At.{found_at};
ghost use Rattle.values.specs.At.{klv_of_found, shape_of_found, columns_of_found, element_of_found};
ghost use Rattle.parts.specs.Parts.{bytes_of_found, text_of_found, cut};
ghost use Rattle.view.specs.View.{found_in};

use elements::Element;
use foundation::refusal::Refusal;
use klv::KLV;
use parts::Part;
use value::Shape;

// An item in a payload: its place, and that of the TYPE in force.
#[derive(Clone, Copy)]
pub struct View<'a> {
    pub payload: &'a [u8],
    pub at: usize,
    pub type_at: usize,
}

impl<'a> View<'a> {
    pub fn new(payload: &'a [u8], at: usize, type_at: usize) -> View<'a>
        ensures { (result.payload ≡ payload.entry) × (result.at ≡ at) × (result.type_at ≡ type_at) }
    {
        View {
            payload,
            at,
            type_at,
        }
    }

    // Its key, type, size and repeat.
    pub fn klv(self) -> Result<KLV, Refusal>
        ensures { result ≡ klv_of_found (found_in self.entry) }
    {
        values::klv_at(self.payload, self.at, self.type_at)
    }

    pub fn shape(self) -> Result<Shape, Refusal>
        ensures { result ≡ shape_of_found (found_in self.entry) self.entry.at }
    {
        values::shape_at(self.payload, self.at, self.type_at)
    }

    pub fn columns(self, row: usize) -> Result<usize, Refusal>
        ensures { result ≡ columns_of_found (found_in self.entry) self.entry.at row }
    {
        values::columns_at(self.payload, self.at, self.type_at, row)
    }

    pub fn element(self, row: usize, column: usize) -> Result<Element, Refusal>
        ensures { result ≡ element_of_found (found_in self.entry) self.entry.at row column }
    {
        values::element(self.payload, self.at, self.type_at, row, column)
    }

    // Its bytes, as a part of the payload.
    pub fn bytes(self) -> Result<Part, Refusal>
        ensures { result ≡ bytes_of_found (found_in self.entry) self.entry.at }
    {
        parts::bytes_at(self.payload, self.at, self.type_at)
    }

    // The kept bytes of the text of a row, as a part of the payload.
    pub fn text(self, row: usize) -> Result<Part, Refusal>
        ensures { result ≡ text_of_found (found_in self.entry) self.entry.at row }
    {
        parts::text_at(self.payload, self.at, self.type_at, row)
    }

    // A part cut out of the payload, as `bytes` and `text` tell it; nothing where it is refused.
    pub fn part(self, part: Result<Part, Refusal>) -> &'a [u8]
        ensures { result.now ≡ cut part self.entry.payload.now }
    {
        parts::part_of(self.payload, part)
    }
}

// The element at a row and a column of the item at a place, by way of a view.
pub fn viewed_element(
    s: &[u8],
    at: usize,
    type_at: usize,
    row: usize,
    column: usize,
) -> Result<Element, Refusal>
    ensures { result ≡ element_of_found (found_at s.now at type_at) at row column }
{
    View::new(s, at, type_at).element(row, column)
}
