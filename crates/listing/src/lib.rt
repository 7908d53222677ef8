// The listing of a payload, laid into a lent buffer: its first line, and a line for each row.

#![tactic(auto)]

ghost use Rattle.std.specs.Prelude.{false, length};
ghost use Rattle.reading.specs.Walk.{reading_of, room_of};
ghost use Rattle.rows.specs.Row.{row_at};
ghost use Rattle.listing_line.specs.Lines.{LaysLines};
ghost use Rattle.listing.specs.Listing.{line_at, row_lines, Lists};

use foundation::refusal::Fault;

// Lays the listing of a payload; its rows go into the lent numbers.
pub fn list(payload: &[u8], rows: &mut [u32], out: &mut [u8], at: usize) -> usize
    ensures { Lists (reading_of false payload.now (room_of (length rows.old))) rows.old out.old at result rows.new out.new }
{
    let answer = metadata::parse_metadata(payload, false, rows);
    let first = listing_line::put_answer(out, at, answer);
    match answer {
        Ok(read) => put_rows(out, first, rows, read.rows),
        Err(_) => first,
    }
}

// Lays the lines of the first `count` rows, or the refusal where the lent numbers have no room for so many.
pub fn put_rows(out: &mut [u8], at: usize, rows: &[u32], count: usize) -> usize
    ensures { LaysLines (row_lines rows.now count) out.old at result out.new }
{
    if rows::room(rows.len()) < count {
        return listing_line::put_answer(out, at, Err(Fault::NoRoom.at(0)));
    }
    let mut end = at;
    for n in 0..count {
        end = put_row_at(out, end, rows, n);
    }
    end
}

// Lays the line of the n-th row, if there is room for such a row in the lent numbers.
fn put_row_at(out: &mut [u8], at: usize, rows: &[u32], n: usize) -> usize
    ensures { LaysLines (line_at (row_at rows.now n)) out.old at result out.new }
{
    match rows::row_at(rows, n) {
        Some(row) => listing_line::put_line(out, at, row),
        None => at,
    }
}
