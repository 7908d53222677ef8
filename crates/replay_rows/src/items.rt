// The rows of a payload as the oracle prints the items that the Rust puts in, and which of them its map has.
use klv::{Cursor, KLV};
use rows::Row;
use std::io;

// The lent numbers and how many rows they hold, as `row_at` and `lookup` of `rows` take them: the C interface.
pub(crate) fn write_rows(
    rt: &impl Print,
    payload: &[u8],
    rows: &[u32],
    count: usize,
) -> io::Result<()> {
    for n in 0..count {
        if let Some(row) = rows::row_at(rows, n) {
            write_row(rt, payload, row, is_kept(rows, count, row, n))?;
        }
    }
    Ok(())
}

// GROUP,TAG,KEY,RAW,KEPT, with a space before them
fn write_row(rt: &impl Print, payload: &[u8], row: Row, kept: bool) -> io::Result<()> {
    write_group(rt, row)?;
    print!(rt; ",{},{:08x},", row.tag, row.key)?;
    write_raw(rt, payload, row)?;
    print!(rt; ",{}", u8::from(kept))
}

fn write_group(rt: &impl Print, row: Row) -> io::Result<()> {
    if row.group_kind == 0 {
        rt.write_all(b" -")
    } else {
        print!(rt; " {:08x}", row.group_key)
    }
}

// The bytes of a row's item, its header first: its size and its repeat stand in the row.
fn write_raw(rt: &impl Print, payload: &[u8], row: Row) -> io::Result<()> {
    let klv = KLV {
        key: row.key,
        data_type: 0,
        size: (row.shape / 65536 % 256) as u8,
        repeat: (row.shape % 65536) as u16,
    };
    for b in words::part(payload, row.place as usize, Cursor::HEADER + klv.data_len()) {
        print!(rt; "{b:02x}")?;
    }
    Ok(())
}

// Whether a row is the one that lookup finds for its group, tag and key.
fn is_kept(rows: &[u32], count: usize, row: Row, n: usize) -> bool {
    let found = rows::lookup(rows, count, row.group_kind, row.group_key, row.tag, row.key);
    found == Ok(Some(n))
}
