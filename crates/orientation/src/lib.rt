// Orientation: the axes of a group's readings, by its MTRX, or by its ORIN and ORIO where it has no MTRX.

#![tactic(auto)]

ghost use Rattle.std.specs.Prelude.{◌≡◌, ◌/◌, Ok, Some};
ghost use Rattle.foundation.specs.Text.{key};
ghost use Rattle.keys.specs.Tags.{orientation_in_tag, orientation_out_tag};
ghost use Rattle.klv.specs.Header.{header_at};
ghost use Rattle.tagged.specs.Tagged.{tagged_of};
ghost use Rattle.orientation.specs.Matrix.{is_single, serves, single_of, singles_of, first_row, by_matrix};
ghost use Rattle.orientation.specs.Texts.{TextEnd, by_orientations, by_texts};
ghost use Rattle.orientation.specs.Group.{by_pair, orientation_of_group};

use axes::{Axes, Orientations};
use elements::Element;
use foundation::refusal::{Fault, Refusal};
use keys::names::{MTRX, ORIN, ORIO};
use keys::tags::{MATRIX, ORIENTATION_IN, ORIENTATION_OUT};
use klv::{Cursor, KLV};
use tagged::{Group, Tagged};

// A number of a matrix: 0 for what is no f32.
fn single_of(read: Result<Element, Refusal>) -> f32
    ensures { result ≡ single_of read }
{
    if let Ok(Element::Single(x)) = read {
        x
    } else {
        0.0
    }
}

// A number of the first row of the item at a place.
fn number(s: &[u8], at: usize, column: usize) -> f32
    ensures { result ≡ single_of (first_row s.now at column) }
{
    single_of(values::element(s, at, items::NO_TYPE, 0, column))
}

// The first nine numbers of the first row of the item at a place.
fn nine(s: &[u8], at: usize) -> [f32; 9]
    ensures { result ≡ singles_of (first_row s.now at) 9 }
{
    let mut numbers = [0.0; 9];
    for column in 0..9 {
        numbers[column] = number(s, at, column);
    }
    numbers
}

// Whether numbers of a letter are f32.
#[tactic(auto, using(std::proofs::lemmas::Bool::Decides::nat_tests))]
fn is_single(letter: u8) -> bool
    ensures { result ≡ is_single letter }
{
    letter == b'f' || letter == b'q'
}

// Whether so many numbers in a row make a value nested, and name something.
fn serves(columns: usize) -> bool
    ensures { result ≡ serves columns }
{
    columns == 2 || 4 < columns
}

// How many numbers of four bytes a row has.
fn columns_of(klv: KLV) -> usize
    ensures { result ≡ klv.size / 4 }
{
    usize::from(klv.size) / 4
}

// MTRX, an item at a place, which must be nested f32 numbers: those of the first row.
fn by_matrix(s: &[u8], at: usize, klv: KLV) -> Result<Option<Axes>, Refusal>
    ensures { result ≡ by_matrix klv (first_row s.now at) }
{
    let columns = columns_of(klv);
    if is_single(klv.data_type) {
        if serves(columns) {
            if columns == 9 {
                let axes = matrix_to_axes::mtrx_to_orientation(&nine(s, at))?;
                return Ok(Some(axes));
            }
            return Err(Fault::NoMatrix.at(0));
        }
    }
    Ok(None)
}

// The matrix of ORIN and ORIO, read back.
fn by_orientations(orientations: Result<Orientations, Refusal>) -> Result<Option<Axes>, Refusal>
    ensures { result ≡ by_orientations orientations }
{
    let named = orientations?;
    let matrix = axes_to_matrix::orientations_to_matrix(named.orin, named.orio);
    let axes = matrix_to_axes::matrix_to_orientation(matrix)?;
    Ok(Some(axes))
}

// Where the text of an item that stands whole at a place ends: before its trailing zeros.
fn text_end(s: &[u8], at: usize, klv: KLV) -> usize
    requires { header_at s.now at ≡ Ok klv }
    ensures { TextEnd s.now at klv result }
{
    let start = at + Cursor::HEADER;
    let end = start + klv.data_len();
    start + texts::latin1_len(&s[start..end])
}

// ORIN and ORIO, items that stand whole at their places, of which each must be one text.
fn by_texts(s: &[u8], orin: Tagged, orio: Tagged) -> Result<Option<Axes>, Refusal>
    requires orin { header_at s.now orin.place ≡ Ok orin.klv }
    requires orio { header_at s.now orio.place ≡ Ok orio.klv }
    ensures { result ≡ by_texts s.now orin.place orin.klv orio.place orio.klv }
{
    let i = orin.place as usize;
    let o = orio.place as usize;
    if orin.klv.is_one_text() {
        if orio.klv.is_one_text() {
            let i_end = text_end(s, i, orin.klv);
            let o_end = text_end(s, o, orio.klv);
            return by_orientations(axes_to_matrix::orientations_of(
                &s[i + Cursor::HEADER..i_end],
                &s[o + Cursor::HEADER..o_end],
            ));
        }
    }
    Ok(None)
}

// The group's ORIN and ORIO.
fn by_pair(group: Group) -> Result<Option<Axes>, Refusal>
    ensures { result ≡ by_pair group.entry.payload.now (tagged_of group.entry.payload.now group.entry.rows.now group.entry.count group.entry.kind group.entry.key orientation_in_tag (key "ORIN")) (tagged_of group.entry.payload.now group.entry.rows.now group.entry.count group.entry.kind group.entry.key orientation_out_tag (key "ORIO")) }
{
    let Some(orin) = group.tagged(ORIENTATION_IN, ORIN)? else {
        return Ok(None);
    };
    let Some(orio) = group.tagged(ORIENTATION_OUT, ORIO)? else {
        return Ok(None);
    };
    by_texts(group.payload, orin, orio)
}

// The axes of a group's readings: by its MTRX, or by its ORIN and ORIO where it has no MTRX.
#[tactic(auto, unfolding(crate::specs::Group::orientation_of_group))]
pub fn orientation_of_group(group: Group) -> Result<Option<Axes>, Refusal>
    ensures { result ≡ orientation_of_group group.entry.payload.now group.entry.rows.now group.entry.count group.entry.kind group.entry.key }
{
    match group.tagged(MATRIX, MTRX)? {
        Some(mtrx) => by_matrix(group.payload, mtrx.place as usize, mtrx.klv),
        None => by_pair(group),
    }
}
