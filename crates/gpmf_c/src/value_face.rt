// Values of the item at a place.
ghost use Rattle.std.specs.Prelude.{◌≡◌};
ghost use Rattle.items.specs.At.{found_at};
ghost use Rattle.values.specs.At.{klv_of_found, element_of_found, shape_of_found, columns_of_found};
ghost use Rattle.parts.specs.Parts.{bytes_of_found, text_of_found};
ghost use Rattle.gpmf_values.specs.Lent.{ElementsAs};
ghost use Rattle.answers.specs.Answers.{of_headed, of_count, of_part};
ghost use Rattle.value_answers.specs.Answers.{of_read, of_shaped};

use answers::{ItemAnswer, PartAnswer, WholeAnswer};
use value_answers::{ElementAnswer, ShapeAnswer};

// The element at a row and a column, by way of a view.
#[unsafe(no_mangle)]
pub extern "C" fn gpmf_element(
    s: &[u8],
    at: usize,
    type_at: usize,
    row: usize,
    column: usize,
) -> ElementAnswer
    ensures { result ≡ of_read (element_of_found (found_at s.now at type_at) at row column) }
{
    gpmf_values::value_face::gpmf_element(s, at, type_at, row, column)
}

// What a value is called, its rows, and the columns of its first row.
#[unsafe(no_mangle)]
pub extern "C" fn gpmf_shape_at(s: &[u8], at: usize, type_at: usize) -> ShapeAnswer
    ensures { result ≡ of_shaped (shape_of_found (found_at s.now at type_at) at) }
{
    gpmf_values::value_face::gpmf_shape_at(s, at, type_at)
}

// The columns of a row.
#[unsafe(no_mangle)]
pub extern "C" fn gpmf_columns_at(s: &[u8], at: usize, type_at: usize, row: usize) -> WholeAnswer
    ensures { result ≡ of_count (columns_of_found (found_at s.now at type_at) at row) }
{
    gpmf_values::value_face::gpmf_columns_at(s, at, type_at, row)
}

// The header of the item at a place.
#[unsafe(no_mangle)]
pub extern "C" fn gpmf_klv_at(s: &[u8], at: usize, type_at: usize) -> ItemAnswer
    ensures { result ≡ of_headed at (klv_of_found (found_at s.now at type_at)) }
{
    gpmf_values::value_face::gpmf_klv_at(s, at, type_at)
}

// Which part of the bytes the payload of the item at a place is.
#[unsafe(no_mangle)]
pub extern "C" fn gpmf_bytes_at(s: &[u8], at: usize, type_at: usize) -> PartAnswer
    ensures { result ≡ of_part (bytes_of_found (found_at s.now at type_at) at) }
{
    gpmf_values::value_face::gpmf_bytes_at(s, at, type_at)
}

// Which part of the bytes the text of a row is.
#[unsafe(no_mangle)]
pub extern "C" fn gpmf_text_at(s: &[u8], at: usize, type_at: usize, row: usize) -> PartAnswer
    ensures { result ≡ of_part (text_of_found (found_at s.now at type_at) at row) }
{
    gpmf_values::value_face::gpmf_text_at(s, at, type_at, row)
}

// All elements of the value, by their bits, into the lent numbers.
#[unsafe(no_mangle)]
pub extern "C" fn gpmf_elements_at(
    s: &[u8],
    at: usize,
    type_at: usize,
    numbers: &mut [u64],
) -> WholeAnswer
    ensures { ElementsAs (found_at s.now at type_at) at numbers.old result numbers.new }
{
    gpmf_values::value_face::gpmf_elements_at(s, at, type_at, numbers)
}
