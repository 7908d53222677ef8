// The questions, a function each: the answer is written, without the end of its line.
use axes::{Axes, Orientations};
use elements::Element;
use foundation::refusal::Refusal;
use std::{array, io};

// The first word behind the name is in hex.
pub(crate) fn answer(rt: &impl Print, question: &[u8]) -> io::Result<()> {
    let mut bytes = [0u8; 8192];
    match words::unhex_word(word(question, 1), &mut bytes) {
        Ok(count) => answer_of(rt, question, words::part(&bytes, 0, count)),
        Err(_) => write_unknown(rt),
    }
}

fn word(question: &[u8], index: usize) -> &[u8] {
    pieces::piece(question, b' ', index)
}

fn write_unknown(rt: &impl Print) -> io::Result<()> {
    rt.write_all(b"unknown")
}

fn answer_of(rt: &impl Print, question: &[u8], bytes: &[u8]) -> io::Result<()> {
    match word(question, 0) {
        b"matrix" => answer_matrix(rt, bytes, word(question, 2)),
        b"back" => answer_back(rt, bytes),
        _ => write_unknown(rt),
    }
}

// matrix ORIN ORIO
fn answer_matrix(rt: &impl Print, orin: &[u8], hex: &[u8]) -> io::Result<()> {
    let mut orio = [0u8; 64];
    match words::unhex_word(hex, &mut orio) {
        Ok(count) => write_matrix(
            rt,
            axes_to_matrix::orientations_of(orin, words::part(&orio, 0, count)),
        ),
        Err(_) => write_unknown(rt),
    }
}

fn write_matrix(rt: &impl Print, orientations: Result<Orientations, Refusal>) -> io::Result<()> {
    match orientations {
        Ok(Orientations { orin, orio }) => write_rows(
            rt,
            axes_to_matrix::orientations_to_matrix(orin, orio),
        ),
        Err(_) => rt.write_all(b"none"),
    }
}

fn write_rows(rt: &impl Print, [first, second, third]: [[f32; 3]; 3]) -> io::Result<()> {
    rt.write_all(b"ok [")?;
    write_row(rt, first)?;
    rt.write_all(b";")?;
    write_row(rt, second)?;
    rt.write_all(b";")?;
    write_row(rt, third)?;
    rt.write_all(b"]")
}

// Each by its bits.
fn write_row(rt: &impl Print, row: [f32; 3]) -> io::Result<()> {
    let [x, y, z] = row.map(float_bits::single_bits);
    print!(rt; "f{x:08x};f{y:08x};f{z:08x}")
}

// back HEX
fn answer_back(rt: &impl Print, bytes: &[u8]) -> io::Result<()> {
    let numbers: [f32; 16] = array::from_fn(|i| number_at(bytes, i));
    let count = (bytes.len() / 4).min(numbers.len());
    write_back(rt, matrix_to_axes::mtrx_to_orientation(&numbers[..count]))
}

fn write_back(rt: &impl Print, axes: Result<Axes, Refusal>) -> io::Result<()> {
    match axes {
        Ok(axes) => {
            let letters = [axes.first, axes.second, axes.third];
            rt.write_all(b"ok ")?;
            rt.write_all(&letters)
        }
        Err(_) => rt.write_all(b"panic"),
    }
}

// The number at an index, 0 where its bytes are not there.
fn number_at(bytes: &[u8], i: usize) -> f32 {
    match elements::element_at(bytes, i.saturating_mul(4), b'f') {
        Element::Single(x) => x,
        _ => 0.0,
    }
}
