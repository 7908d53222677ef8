// What is printed of a packet of a take, laid into a lent buffer: its line, and its listing or that of its front.

#![tactic(auto)]

ghost use Rattle.std.specs.Prelude.{◌≡◌, false, length};
ghost use Rattle.reading.specs.Walk.{reading_of, room_of};
ghost use Rattle.take.specs.Take.{left_out, Fronts, Takes};

use foundation::refusal::Refusal;
use metadata::Metadata;

// A packet that was laid: the place behind it, and whether it was accepted.
#[repr(C)]
#[derive(Clone, Copy)]
pub struct Taken {
    pub end: usize,
    pub accepted: bool,
}

// Lays a packet of a file, by its number, its start in the file and its bytes; lent in parts, as `gpmf_put_packet` takes
// them: the C interface.
pub fn put_packet(
    payload: &[u8],
    number: u64,
    place: u64,
    whole: bool,
    rows: &mut [u32],
    out: &mut [u8],
    at: usize,
) -> Taken
    ensures { Takes whole number place payload.now (reading_of false payload.now (room_of (length rows.old))) rows.old out.old at result.end result.accepted rows.new out.new }
{
    let answer = metadata::parse_metadata(payload, false, rows);
    if left_out(whole, answer) {
        return Taken {
            end: at,
            accepted: false,
        };
    }
    let line = take_lines::put_packet_line(out, at, number, place, payload.len() as u64);
    let first = listing_line::put_answer(out, line, answer);
    match answer {
        Ok(read) => Taken {
            end: listing::put_rows(out, first, rows, read.rows),
            accepted: true,
        },
        Err(refusal) => Taken {
            end: put_front(payload, refusal.place, rows, out, first),
            accepted: false,
        },
    }
}

// Whether a packet is left out: a refused one, of the whole take.
fn left_out(whole: bool, answer: Result<Metadata, Refusal>) -> bool
    ensures { result ≡ left_out whole answer }
{
    answer.is_err() && whole
}

// Lays the listing of a payload's front: the bytes before a place.
fn put_front(payload: &[u8], place: usize, rows: &mut [u32], out: &mut [u8], at: usize) -> usize
    ensures { Fronts payload.now place rows.old out.old at result rows.new out.new }
{
    let word = text::put_bytes(out, at, b"front ");
    let front = &payload[..place.min(payload.len())];
    listing::list(front, rows, out, word)
}
