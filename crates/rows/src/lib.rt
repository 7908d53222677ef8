// Rows in lent numbers: the room for them, one stored, one read, and the last one of a group and tag.

#![tactic(auto)]

ghost use Rattle.std.specs.Prelude.{◌≡◌, ◌<◌, length};
ghost use Rattle.reading.specs.Walk.{room_of};
ghost use Rattle.rows.specs.Row.{row_of, row_at, Put};
ghost use Rattle.rows.specs.Lookup.{matching, lookup_of};

use foundation::refusal::{Fault, Refusal};

// What the walk says of an item.
#[repr(C)]
#[derive(Clone, Copy, PartialEq, Eq, Debug)]
pub struct Row {
    pub place: u32,
    pub group_kind: u32,
    pub group_key: u32,
    pub tag: u32,
    pub key: u32,
    pub shape: u32,
    pub type_place: u32,
    pub depth: u32,
}

impl Row {
    // How many numbers a row takes.
    pub const WIDTH: usize = 8;
}

// The most rows of a call, whatever is lent.
const MOST_ROWS: usize = 4096;

// How many rows there is room for in so many lent numbers.
pub fn room(numbers: usize) -> usize
    ensures { result ≡ room_of numbers }
{
    (numbers / Row::WIDTH).min(MOST_ROWS)
}

// Stores a row as the n-th where there is room for it, and says whether there is.
pub fn put_row(out: &mut [u32], n: usize, row: Row) -> bool
    ensures { Put out.old n row result out.new }
{
    if n < room(out.len()) {
        let at = n * Row::WIDTH;
        let numbers = [
            row.place,
            row.group_kind,
            row.group_key,
            row.tag,
            row.key,
            row.shape,
            row.type_place,
            row.depth,
        ];
        out[at..at + Row::WIDTH].copy_from_slice(&numbers);
        return true;
    }
    false
}

// The n-th row, which is there.
fn take_row(rows: &[u32], n: usize) -> Row
    requires { n < room_of (length rows.now) }
    ensures { result ≡ row_of rows.now n }
{
    let at = n * Row::WIDTH;
    Row {
        place: rows[at],
        group_kind: rows[at + 1],
        group_key: rows[at + 2],
        tag: rows[at + 3],
        key: rows[at + 4],
        shape: rows[at + 5],
        type_place: rows[at + 6],
        depth: rows[at + 7],
    }
}

// The n-th row, where the lent numbers have room for it.
pub fn row_at(rows: &[u32], n: usize) -> Option<Row>
    ensures { result ≡ row_at rows.now n }
{
    if n < room(rows.len()) {
        return Some(take_row(rows, n));
    }
    None
}

// Whether a row is one of the group and the tag asked for: under tag 0 the key decides.
#[tactic(auto, using(std::proofs::lemmas::Bool::Decides::nat_tests), unfolding(crate::specs::Lookup::matching))]
fn matches(row: Row, group_kind: u32, group_key: u32, tag: u32, key: u32) -> bool
    ensures { result ≡ matching group_kind group_key tag key row }
{
    if row.group_kind != group_kind || row.group_key != group_key || row.tag != tag {
        return false;
    }
    tag != 0 || row.key == key
}

// The index of the last of the first `count` rows that is of a group and a tag, and under tag 0 of a key.
pub fn lookup(
    rows: &[u32],
    count: usize,
    group_kind: u32,
    group_key: u32,
    tag: u32,
    key: u32,
) -> Result<Option<usize>, Refusal>
    ensures { result ≡ lookup_of group_kind group_key tag key rows.now count }
{
    if room(rows.len()) < count {
        return Err(Fault::NoRoom.at(0));
    }
    for n in (0..count).rev() {
        if matches(take_row(rows, n), group_kind, group_key, tag, key) {
            return Ok(Some(n));
        }
    }
    Ok(None)
}
