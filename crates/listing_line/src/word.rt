// The words of a line, laid one behind the other into a buffer that holds the longest line.
ghost use Rattle.std.specs.Prelude.{[], ◌∷◌, ◌++◌, ◌/◌, ◌%◌, ◌^◌};
ghost use Rattle.numerals.specs.Numerals.{decimal};
ghost use Rattle.shown_key.specs.Key.{shown_key};
ghost use Rattle.listing_line.specs.Line.{spaced, shown_group, group_in, answer_line, row_line};
ghost use Rattle.listing_line.specs.Lines.{Joins, Makes};

use foundation::refusal::Refusal;
use rows::Row;
use walk::Metadata;

// The first line of an answer.
pub(crate) fn make_answer(line: &mut [u8; 64], answer: Result<Metadata, Refusal>) -> usize
    ensures { Makes (answer_line answer) result line.new }
{
    match answer {
        Ok(Metadata { rows, headers }) => {
            put_pairs(line, b"rows ", rows as u64, b"headers ", headers as u64)
        }
        Err(Refusal { number, place }) => {
            put_pairs(line, b"refused ", number as u64, b"at ", place as u64)
        }
    }
}

// The line of a row.
pub(crate) fn make_row(line: &mut [u8; 64], row: Row) -> usize
    ensures { Makes (row_line row) result line.new }
{
    let place = put_number(line, 0, row.place as u64, b' ');
    let keys = put_keys(line, place, row);
    let shape = put_shape(line, keys, row.shape);
    put_number(line, shape, row.depth as u64, b'\n')
}

// A line of two words, each with its number.
fn put_pairs(out: &mut [u8], word: &[u8], n: u64, next: &[u8], m: u64) -> usize
    ensures { Joins ((word.now ++ spaced (decimal n)) ++ (next.now ++ (decimal m ++ 10 ∷ []))) out.old 0 result out.new }
{
    let first = put_pair(out, 0, word, n, b' ');
    put_pair(out, first, next, m, b'\n')
}

// A word and a number, with what ends the number.
fn put_pair(out: &mut [u8], at: usize, word: &[u8], n: u64, end: u8) -> usize
    ensures { Joins (word.now ++ (decimal n ++ end ∷ [])) out.old at result out.new }
{
    let named = text::put_bytes(out, at, word);
    put_number(out, named, n, end)
}

// A number, with what ends it.
fn put_number(out: &mut [u8], at: usize, n: u64, end: u8) -> usize
    ensures { Joins (decimal n ++ end ∷ []) out.old at result out.new }
{
    let number = numerals::put_decimal(out, at, n);
    text::put(out, number, end)
}

// Type, size and repeat.
fn put_shape(out: &mut [u8], at: usize, shape: u32) -> usize
    ensures { Joins (spaced (decimal (shape / 2 ^ 24)) ++ (spaced (decimal (shape / 2 ^ 16 % 256)) ++ spaced (decimal (shape % 2 ^ 16)))) out.old at result out.new }
{
    let letter = put_number(out, at, (shape / 0x100_0000) as u64, b' ');
    let size = put_number(out, letter, (shape / 0x1_0000 % 256) as u64, b' ');
    put_number(out, size, (shape % 0x1_0000) as u64, b' ')
}

// Group and key.
fn put_keys(out: &mut [u8], at: usize, row: Row) -> usize
    ensures { Joins (spaced (shown_group (group_in row)) ++ spaced (shown_key row.key)) out.old at result out.new }
{
    let group = put_group(out, at, row);
    let space = text::put(out, group, b' ');
    let key = shown_key::put_key(out, space, row.key);
    text::put(out, key, b' ')
}

// A group by the key that names it, or a hyphen for the caller's.
fn put_group(out: &mut [u8], at: usize, row: Row) -> usize
    ensures { Joins (shown_group (group_in row)) out.old at result out.new }
{
    if row.group_kind == 0 {
        return text::put(out, at, b'-');
    }
    shown_key::put_key(out, at, row.group_key)
}
