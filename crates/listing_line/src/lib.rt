// A line of a listing, laid into a lent buffer whole or not at all: the first line of an answer, and the line of a row.

#![tactic(auto)]

mod word;

ghost use Rattle.std.specs.Prelude.{[], ◌∷◌};
ghost use Rattle.listing_line.specs.Line.{answer_line, row_line};
ghost use Rattle.listing_line.specs.Lines.{LaysLines};

use foundation::refusal::Refusal;
use rows::Row;
use walk::Metadata;

// Lays the first line of an answer.
pub fn put_answer(out: &mut [u8], at: usize, answer: Result<Metadata, Refusal>) -> usize
    ensures { LaysLines (answer_line answer ∷ []) out.old at result out.new }
{
    let mut line = [0u8; 64];
    let end = word::make_answer(&mut line, answer);
    text::put_bytes(out, at, &line[..end])
}

// Lays the line of a row.
pub fn put_line(out: &mut [u8], at: usize, row: Row) -> usize
    ensures { LaysLines (row_line row ∷ []) out.old at result out.new }
{
    let mut line = [0u8; 64];
    let end = word::make_row(&mut line, row);
    text::put_bytes(out, at, &line[..end])
}
