// The Rust's names for the kinds of values, with the type where it is a part of the name.
use rows::Row;
use std::io;
use value::{Kind, Shape};

// The lent numbers and how many rows they hold, as `row_at` and `lookup` of `rows` take them: the C interface.
pub(crate) fn write_kinds(
    rt: &impl Print,
    payload: &[u8],
    rows: &[u32],
    count: usize,
) -> io::Result<()> {
    for row in (0..count).filter_map(|n| rows::row_at(rows, n)) {
        write_kind(rt, payload, row)?;
    }
    Ok(())
}

// VARIANT of a row's value, with a space before it; the letter of its type stands in the row
fn write_kind(rt: &impl Print, payload: &[u8], row: Row) -> io::Result<()> {
    match values::shape_at(payload, row.place as usize, row.type_place as usize) {
        Ok(shape) => write_name(rt, shape, (row.shape / 0x100_0000) as u8),
        Err(_) => rt.write_all(b" -"),
    }
}

fn write_name(rt: &impl Print, shape: Shape, letter: u8) -> io::Result<()> {
    let kind = kind_name(shape);
    let number = number_name(shape.kind, letter);
    print!(rt; " {kind}{number}")
}

fn kind_name(shape: Shape) -> &'static str {
    match shape.kind {
        Kind::Single => "",
        Kind::List => "Vec_",
        Kind::Vector => "Vec_Vector3_",
        Kind::TimedVector => "Vec_TimeVector3_",
        Kind::Nested => "Vec_Vec_",
        Kind::Text => "String",
        Kind::Texts => "Vec_String",
        Kind::Identifier => "Uuid",
        Kind::DateTime => "u64",
        Kind::Quaternions => "Vec_Quaternioni16",
        Kind::Structures => if shape.rows == 1 {
            "Vec_Scalar"
        } else {
            "Vec_Vec_Scalar"
        }
        Kind::Unknown => "Unknown",
    }
}

// The Rust's type of a letter's numbers: only kinds of numbers of one letter are named with it.
fn number_name(kind: Kind, letter: u8) -> &'static str {
    match kind {
        Kind::Single | Kind::List | Kind::Vector | Kind::TimedVector | Kind::Nested => {
            type_name(letter)
        }
        _ => "",
    }
}

fn type_name(letter: u8) -> &'static str {
    match letter {
        b'b' => "i8",
        b'B' => "u8",
        b's' => "i16",
        b'S' => "u16",
        b'l' => "i32",
        b'L' => "u32",
        b'j' => "i64",
        b'J' => "u64",
        b'f' | b'q' => "f32",
        b'd' | b'Q' => "f64",
        _ => "",
    }
}
