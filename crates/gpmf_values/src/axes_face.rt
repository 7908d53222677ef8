// Axes.
ghost use Rattle.std.specs.Prelude.{◌≡◌};
ghost use Rattle.axes.specs.Matrix.{orientations_of, matrix_of};
ghost use Rattle.axes.specs.Back.{orientation_of, orientation_in};
ghost use Rattle.orientation.specs.Group.{orientation_of_group};
ghost use Rattle.matrix_answers.specs.Answers.{of_matrix, to_matrix};
ghost use Rattle.orientation_answers.specs.Answers.{of_orientations, of_orientation, of_oriented};

use axes::Axes;
use matrix_answers::Matrix;
use orientation_answers::{AxesAnswer, OrientationsAnswer};

// The axes of the texts of ORIN and ORIO.
#[unsafe(no_mangle)]
pub extern "C" fn gpmf_orientations_of(orin: &[u8], orio: &[u8]) -> OrientationsAnswer
    ensures { result ≡ of_orientations (orientations_of orin.now orio.now) }
{
    orientation_answers::of_orientations(axes_to_matrix::orientations_of(orin, orio))
}

// The matrix from ORIN to ORIO.
#[unsafe(no_mangle)]
pub extern "C" fn gpmf_orientations_to_matrix(orin: Axes, orio: Axes) -> Matrix
    ensures { result ≡ of_matrix (matrix_of orin orio) }
{
    matrix_answers::of_matrix(axes_to_matrix::orientations_to_matrix(orin, orio))
}

// The axes that a matrix names.
#[unsafe(no_mangle)]
pub extern "C" fn gpmf_matrix_to_orientation(matrix: Matrix) -> AxesAnswer
    ensures { result ≡ of_orientation (orientation_of (to_matrix matrix)) }
{
    orientation_answers::of_orientation(matrix_to_axes::matrix_to_orientation(
        matrix_answers::to_matrix(matrix),
    ))
}

// The same of the nine numbers of an MTRX.
#[unsafe(no_mangle)]
pub extern "C" fn gpmf_mtrx_to_orientation(mtrx: &[f32]) -> AxesAnswer
    ensures { result ≡ of_orientation (orientation_in mtrx.now) }
{
    orientation_answers::of_orientation(matrix_to_axes::mtrx_to_orientation(mtrx))
}

// The axes of a group's readings.
#[unsafe(no_mangle)]
pub extern "C" fn gpmf_orientation_of_group(
    payload: &[u8],
    rows: &[u32],
    count: usize,
    group_kind: u32,
    group_key: u32,
) -> AxesAnswer
    ensures { result ≡ of_oriented (orientation_of_group payload.now rows.now count group_kind group_key) }
{
    let group = tagged::Group {
        payload,
        rows,
        count,
        kind: group_kind,
        key: group_key,
    };
    orientation_answers::of_oriented(orientation::orientation_of_group(group))
}
