// Values as the oracle prints them: row by row, each element behind a letter for its form.
use elements::Element;
use rows::Row;
use std::io;
use view::View;

// The lent numbers and how many rows they hold, as `row_at` and `lookup` of `rows` take them: the C interface.
pub(crate) fn write_items(
    rt: &impl Print,
    payload: &[u8],
    rows: &[u32],
    count: usize,
) -> io::Result<()> {
    for row in (0..count).filter_map(|n| rows::row_at(rows, n)) {
        write_item(rt, payload, row)?;
    }
    Ok(())
}

// The value of a row's item, with a space before it
fn write_item(rt: &impl Print, payload: &[u8], row: Row) -> io::Result<()> {
    let value = View::new(payload, row.place as usize, row.type_place as usize);
    match value.shape() {
        Ok(shape) => {
            let rows = shape.rows;
            print!(rt; " {rows}")?;
            write_rows(rt, value, rows)
        }
        Err(_) => rt.write_all(b" err"),
    }
}

fn write_rows(rt: &impl Print, value: View, rows: usize) -> io::Result<()> {
    for row in 0..rows {
        rt.write_all(b"/")?;
        write_columns(rt, value, row)?;
    }
    Ok(())
}

fn write_columns(rt: &impl Print, value: View, row: usize) -> io::Result<()> {
    // none where there is no such row
    let columns = value.columns(row).unwrap_or(0);
    for element in (0..columns).filter_map(|column| value.element(row, column).ok()) {
        write_element(rt, element)?;
    }
    Ok(())
}

// Bits in hex, whole numbers in decimal, behind a letter for their form.
fn write_element(rt: &impl Print, element: Element) -> io::Result<()> {
    match element {
        Element::Signed(n) => {
            let mut shown = [b'i'; 21];
            let end = numerals::put_signed(&mut shown, 1, n);
            rt.write_all(words::part(&shown, 0, end))
        }
        Element::Unsigned(n) => print!(rt; "u{n}"),
        Element::Single(x) => {
            let bits = float_bits::single_bits(x);
            print!(rt; "f{bits:08x}")
        }
        Element::Double(x) => {
            let bits = float_bits::double_bits(x);
            print!(rt; "d{bits:016x}")
        }
    }
}
