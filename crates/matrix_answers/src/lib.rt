// Matrices as plain records of numbers, for callers in other languages.

#![tactic(auto)]

ghost use Rattle.std.specs.Prelude.{◌≡◌};
ghost use Rattle.matrix_answers.specs.Answers as tells;

// Nine numbers, row by row.
#[repr(C)]
#[derive(Clone, Copy)]
pub struct Matrix {
    pub entries: [f32; 9],
}

pub fn of_matrix(m: [[f32; 3]; 3]) -> Matrix
    ensures { result ≡ tells.of_matrix m }
{
    let first = m[0];
    let second = m[1];
    let third = m[2];
    Matrix {
        entries: [
            first[0], first[1], first[2], second[0], second[1], second[2], third[0], third[1],
            third[2],
        ],
    }
}

// The same back.
pub fn to_matrix(m: Matrix) -> [[f32; 3]; 3]
    ensures { result ≡ tells.to_matrix m }
{
    let e = m.entries;
    [[e[0], e[1], e[2]], [e[3], e[4], e[5]], [e[6], e[7], e[8]]]
}
