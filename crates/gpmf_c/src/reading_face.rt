// The reading of a payload, and its rows.
ghost use Rattle.std.specs.Prelude.{◌≡◌, length, drop};
ghost use Rattle.klv.specs.Level.{items_of};
ghost use Rattle.reading.specs.Last.{last_item, last_reading};
ghost use Rattle.reading.specs.Walk.{reading_of, room_of};
ghost use Rattle.last_item.specs.LastItem.{told};
ghost use Rattle.rows.specs.Row.{row_at, Put};
ghost use Rattle.rows.specs.Lookup.{lookup_of};
ghost use Rattle.answers.specs.Answers.{of_last_item, of_found};
ghost use Rattle.reading_answers.specs.Answers.{of_row_at};
ghost use Rattle.gpmf_reading.specs.Lent.{ReadAs};

use answers::{ItemAnswer, WholeAnswer};
use reading_answers::{MetadataAnswer, RowAnswer};
use rows::Row;

// What a payload is read as; its rows go into the lent numbers.
#[unsafe(no_mangle)]
pub extern "C" fn gpmf_parse_metadata(
    payload: &[u8],
    forced: bool,
    rows: &mut [u32],
) -> MetadataAnswer
    ensures { ReadAs (reading_of forced payload.now (room_of (length rows.old))) rows.old result rows.new }
{
    gpmf_reading::reading_face::gpmf_parse_metadata(payload, forced, rows)
}

// The last item of the level from a place on.
#[unsafe(no_mangle)]
pub extern "C" fn gpmf_last_item(s: &[u8], at: usize) -> ItemAnswer
    ensures { result ≡ of_last_item (told (last_item (items_of (drop at s.now)) at)) }
{
    gpmf_reading::reading_face::gpmf_last_item(s, at)
}

// The last item of a payload.
#[unsafe(no_mangle)]
pub extern "C" fn gpmf_get_last_klv(payload: &[u8]) -> ItemAnswer
    ensures { result ≡ of_last_item (told (last_reading payload.now)) }
{
    gpmf_reading::reading_face::gpmf_get_last_klv(payload)
}

// How many rows lent numbers have room for.
#[unsafe(no_mangle)]
pub extern "C" fn gpmf_room(numbers: usize) -> usize
    ensures { result ≡ room_of numbers }
{
    gpmf_reading::reading_face::gpmf_room(numbers)
}

// Stores a row as the n-th.
#[unsafe(no_mangle)]
pub extern "C" fn gpmf_put_row(out: &mut [u32], n: usize, row: Row) -> bool
    ensures { Put out.old n row result out.new }
{
    gpmf_reading::reading_face::gpmf_put_row(out, n, row)
}

// The n-th row.
#[unsafe(no_mangle)]
pub extern "C" fn gpmf_row_at(rows: &[u32], n: usize) -> RowAnswer
    ensures { result ≡ of_row_at (row_at rows.now n) }
{
    gpmf_reading::reading_face::gpmf_row_at(rows, n)
}

// The index of the last row of a group and a tag; with tag 0, of a key.
#[unsafe(no_mangle)]
pub extern "C" fn gpmf_lookup(
    rows: &[u32],
    count: usize,
    group_kind: u32,
    group_key: u32,
    tag: u32,
    key: u32,
) -> WholeAnswer
    ensures { result ≡ of_found (lookup_of group_kind group_key tag key rows.now count) }
{
    gpmf_reading::reading_face::gpmf_lookup(rows, count, group_kind, group_key, tag, key)
}
