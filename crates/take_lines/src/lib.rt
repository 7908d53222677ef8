// The lines of a take, laid into a lent buffer: that of a packet, those of a packet over what is held, and the counts.

#![tactic(auto)]

ghost use Rattle.std.specs.Prelude.{[], ◌∷◌};
ghost use Rattle.numerals.specs.Numerals.{decimal};
ghost use Rattle.take_lines.specs.Lines.{counts_line, packet_line, totals_line, long_packet, LaysAll};

use foundation::refusal::Fault;
use walk::Metadata;

// A word, and the number behind it.
#[derive(Clone, Copy)]
struct Count<'a> {
    word: &'a [u8],
    number: u64,
}

// Lays the line of a packet, by its number, its start in the file and its length.
pub fn put_packet_line(out: &mut [u8], at: usize, number: u64, place: u64, bytes: u64) -> usize
    ensures { LaysAll (packet_line number place bytes) out.old at result out.new }
{
    put_counts(
        out,
        at,
        Count {
            word: b"packet ",
            number,
        },
        Count {
            word: b" at ",
            number: place,
        },
        Count {
            word: b" bytes ",
            number: bytes,
        },
    )
}

// Lays a packet of more bytes than are held: refused with 1 at 0.
pub fn put_long_packet(
    number: u64,
    place: u64,
    bytes: u64,
    whole: bool,
    out: &mut [u8],
    at: usize,
) -> usize
    ensures { LaysAll (long_packet whole number place bytes) out.old at result out.new }
{
    if whole {
        return at;
    }
    let line = put_packet_line(out, at, number, place, bytes);
    let refused = listing_line::put_answer(out, line, Err(Fault::TooLong.at(0)));
    let front = text::put_bytes(out, refused, b"front ");
    listing_line::put_answer(
        out,
        front,
        Ok(Metadata {
            rows: 0,
            headers: 0,
        }),
    )
}

// Lays the last line of a take.
pub fn put_totals(out: &mut [u8], at: usize, packets: u64, read: u64, refused: u64) -> usize
    ensures { LaysAll (totals_line packets read refused) out.old at result out.new }
{
    put_counts(
        out,
        at,
        Count {
            word: b"packets ",
            number: packets,
        },
        Count {
            word: b" read ",
            number: read,
        },
        Count {
            word: b" refused ",
            number: refused,
        },
    )
}

// A line of three numbers, each behind its word.
fn put_counts(out: &mut [u8], at: usize, one: Count, two: Count, three: Count) -> usize
    ensures { LaysAll (counts_line one.entry.word.now one.entry.number two.entry.word.now two.entry.number three.entry.word.now three.entry.number) out.old at result out.new }
{
    let first = put_count(out, at, one);
    let second = put_count(out, first, two);
    let third = put_count(out, second, three);
    text::put(out, third, b'\n')
}

// A word and its number.
fn put_count(out: &mut [u8], at: usize, count: Count) -> usize
    ensures { LaysAll (count.entry.word.now ∷ decimal count.entry.number ∷ []) out.old at result out.new }
{
    let end = text::put_bytes(out, at, count.word);
    numerals::put_decimal(out, end, count.number)
}
