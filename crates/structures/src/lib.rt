// Structures: rows whose columns have letters of their own, as the TYPE text lists them.

#![tactic(auto)]

ghost use Rattle.std.specs.Prelude.{◌≡◌, ◌≤◌, length};
ghost use Rattle.value.specs.Value.{column_letters, structured, structures};
ghost use Rattle.value.specs.Answer.{element_in, shape_in};
ghost use Rattle.structures.specs.Row.{RowIs, LetterIs};

use elements::Element;
use foundation::refusal::{Fault, Refusal};
use klv::{KLV, wider};
use value::{Kind, Shape};

// A row as its letters make it: the columns, and their bytes.
#[derive(Clone, Copy)]
pub struct Row {
    pub columns: usize,
    pub width: usize,
}

// A column of a row: its letter, and the bytes before it.
#[derive(Clone, Copy)]
pub struct Letter {
    pub letter: u8,
    pub before: usize,
}

// The row of letters: each that reads something is a column.
fn row_of(letters: &[u8]) -> Row
    requires { length letters.now ≤ 256 }
    ensures { RowIs letters.now result }
{
    let mut columns: usize = 0;
    let mut width: usize = 0;
    for letter in letters {
        let bytes = elements::width(*letter);
        width += bytes;
        if 0 < bytes {
            columns += 1;
        }
    }
    Row { columns, width }
}

// A column's letter, and a zero where there is no such column.
fn letter_of(letters: &[u8], column: usize) -> Letter
    requires { length letters.now ≤ 256 }
    ensures { LetterIs letters.now column result }
{
    let mut left = column;
    let mut before: usize = 0;
    for letter in letters {
        let bytes = elements::width(*letter);
        if 0 < bytes {
            if left == 0 {
                return Letter {
                    letter: *letter,
                    before,
                };
            }
            left -= 1;
        }
        before += bytes;
    }
    Letter { letter: 0, before }
}

// An element of rows of letters.
fn element_by(
    place: usize,
    klv: KLV,
    payload: &[u8],
    letters: &[u8],
    row: usize,
    column: usize,
) -> Result<Element, Refusal>
    requires { length letters.now ≤ 256 }
    ensures { result ≡ element_in place (structured (column_letters letters.now) klv payload.now) row column }
{
    let rows = wider(klv.repeat);
    let all = row_of(letters);
    if payload.len() < rows * all.width {
        return Err(Fault::TooFew.at(place));
    }
    if rows <= row {
        return Err(Fault::Outside.at(place));
    }
    if all.columns <= column {
        return Err(Fault::Outside.at(place));
    }
    let its = letter_of(letters, column);
    Ok(elements::element_at(payload, row * all.width + its.before, its.letter))
}

fn shape_by(place: usize, klv: KLV, payload: &[u8], letters: &[u8]) -> Result<Shape, Refusal>
    requires { length letters.now ≤ 256 }
    ensures { result ≡ shape_in place (structured (column_letters letters.now) klv payload.now) }
{
    let rows = wider(klv.repeat);
    let all = row_of(letters);
    if payload.len() < rows * all.width {
        return Err(Fault::TooFew.at(place));
    }
    Ok(Shape {
        kind: Kind::Structures,
        rows,
        columns: all.columns,
    })
}

// An element of a structure: without TYPE, or with an empty one, it has none.
pub fn element(
    place: usize,
    klv: KLV,
    payload: &[u8],
    type_text: &[u8],
    row: usize,
    column: usize,
) -> Result<Element, Refusal>
    ensures { result ≡ element_in place (structures type_text.now klv payload.now) row column }
{
    if type_text.len() == 0 {
        return Err(Fault::Outside.at(place));
    }
    let mut letters = [0u8; 256];
    let written = custom_type::resolve_custom_type(type_text, &mut letters);
    let n = written.map_err(|fault| fault.at(place))?;
    element_by(place, klv, payload, &letters[..n], row, column)
}

// The shape of a structure: without TYPE, or with an empty one, it is unknown.
pub fn shape(place: usize, klv: KLV, payload: &[u8], type_text: &[u8]) -> Result<Shape, Refusal>
    ensures { result ≡ shape_in place (structures type_text.now klv payload.now) }
{
    if type_text.len() == 0 {
        return Ok(Shape {
            kind: Kind::Unknown,
            rows: 0,
            columns: 0,
        });
    }
    let mut letters = [0u8; 256];
    let resolved = custom_type::resolve_custom_type(type_text, &mut letters);
    let n = resolved.map_err(|fault| fault.at(place))?;
    shape_by(place, klv, payload, &letters[..n])
}
