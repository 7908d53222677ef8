// A matrix to axes: those that it names.

#![tactic(auto)]

ghost use Rattle.std.specs.Prelude.{◌≡◌, ◌<◌};
ghost use Rattle.axes.specs.Back.{beyond, axis_of, lettered, orientation_of, orientation_in};
ghost use Rattle.matrix_to_axes.specs.Letters.{told};

use axes::Axes;
use foundation::refusal::{Fault, Refusal};

// The letter of a column beyond 0.5 in size, the small one if it is negative; else what the next columns name. 0 stands
// for none: as an `Option` each column would be compared twice, for the letter and for whether there is one.
fn beyond_half(x: f32, letter: u8, less: u8, next: u8) -> u8
    requires { (0 < letter) × (0 < less) }
    ensures { told result ≡ beyond x letter less (told next) }
{
    if x > 0.5 {
        return letter;
    }
    if x < -0.5 { less } else { next }
}

// The axis that a row names.
fn axis(row: [f32; 3]) -> Option<u8>
    ensures { result ≡ axis_of row }
{
    let letter = beyond_half(
        row[0],
        b'X',
        b'x',
        beyond_half(row[1], b'Y', b'y', beyond_half(row[2], b'Z', b'z', 0)),
    );
    if letter == 0 { None } else { Some(letter) }
}

// The axes of three letters, of which none is missing.
#[tactic(auto, unfolding(axes::specs::Back::lettered))]
fn lettered_by(first: Option<u8>, second: Option<u8>, third: Option<u8>) -> Result<Axes, Refusal>
    ensures { result ≡ lettered first second third }
{
    match (first, second, third) {
        (Some(first), Some(second), Some(third)) => Ok(Axes {
            first,
            second,
            third,
        }),
        _ => Err(Fault::NoMatrix.at(0)),
    }
}

// The axes that a matrix names, one for each row.
pub fn matrix_to_orientation(matrix: [[f32; 3]; 3]) -> Result<Axes, Refusal>
    ensures { result ≡ orientation_of matrix }
{
    lettered_by(axis(matrix[0]), axis(matrix[1]), axis(matrix[2]))
}

// The same of nine numbers, three to a row.
#[tactic(auto, using(axes::proofs::Lengths::not_nine), unfolding(axes::specs::Back::orientation_in))]
pub fn mtrx_to_orientation(mtrx: &[f32]) -> Result<Axes, Refusal>
    ensures { result ≡ orientation_in mtrx.now }
{
    if mtrx.len() != 9 {
        return Err(Fault::NoMatrix.at(0));
    }
    matrix_to_orientation([
        [mtrx[0], mtrx[1], mtrx[2]],
        [mtrx[3], mtrx[4], mtrx[5]],
        [mtrx[6], mtrx[7], mtrx[8]],
    ])
}
