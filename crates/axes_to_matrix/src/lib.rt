// Axes to a matrix: what the texts of ORIN and ORIO name, and the matrix that they give.

#![tactic(auto)]

ghost use Rattle.std.specs.Prelude.{◌≡◌, length};
ghost use Rattle.axes.specs.Matrix.{three_ascii, axes_of, orientations_of, entry_of, row_of, matrix_of};

use axes::{Axes, Orientations};
use foundation::refusal::{Fault, Refusal};

// Whether a text is three ASCII characters.
fn is_three_ascii(text: &[u8]) -> bool
    ensures { result ≡ three_ascii text.now }
{
    text.len() == 3 && text.is_ascii()
}

// The axes of a text of three characters.
fn axes_of(text: &[u8]) -> Axes
    requires { length text.now ≡ 3 }
    ensures { result ≡ axes_of text.now }
{
    Axes {
        first: text[0],
        second: text[1],
        third: text[2],
    }
}

// The axes that the texts of ORIN and ORIO name.
#[tactic(auto, using(axes::proofs::Lengths::three_long), unfolding(axes::specs::Matrix::orientations_of))]
pub fn orientations_of(orin: &[u8], orio: &[u8]) -> Result<Orientations, Refusal>
    ensures { result ≡ orientations_of orin.now orio.now }
{
    if is_three_ascii(orin) && is_three_ascii(orio) {
        return Ok(Orientations {
            orin: axes_of(orin),
            orio: axes_of(orio),
        });
    }
    Err(Fault::NoAxes.at(0))
}

// What stands where the row of an ORIO letter meets the column of an ORIN letter.
fn entry(o: u8, i: u8) -> f32
    ensures { result ≡ entry_of o i }
{
    if i == o {
        return 1.0;
    }
    if i.eq_ignore_ascii_case(&o) {
        -1.0
    } else {
        0.0
    }
}

// The row of an ORIO letter: a column for each ORIN letter.
fn row(o: u8, orin: Axes) -> [f32; 3]
    ensures { result ≡ row_of orin o }
{
    [
        entry(o, orin.first),
        entry(o, orin.second),
        entry(o, orin.third),
    ]
}

// The matrix from ORIN to ORIO: a row for each ORIO letter, a column for each ORIN letter.
pub fn orientations_to_matrix(orin: Axes, orio: Axes) -> [[f32; 3]; 3]
    ensures { result ≡ matrix_of orin orio }
{
    [
        row(orio.first, orin),
        row(orio.second, orin),
        row(orio.third, orin),
    ]
}
