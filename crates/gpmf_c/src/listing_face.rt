// Listings and takes, laid into a lent buffer.
ghost use Rattle.std.specs.Prelude.{false, [], ◌∷◌, length};
ghost use Rattle.reading.specs.Walk.{reading_of, room_of};
ghost use Rattle.listing_line.specs.Line.{answer_line};
ghost use Rattle.listing.specs.Listing.{row_lines, Lists};
ghost use Rattle.listing_line.specs.Lines.{LaysLines};
ghost use Rattle.take_lines.specs.Lines.{LaysAll, long_packet, totals_line};
ghost use Rattle.take.specs.Take.{Takes};
ghost use Rattle.reading_answers.specs.Answers.{to_metadata};

use reading_answers::MetadataAnswer;
use take::Taken;

// Lays the listing of a payload.
#[unsafe(no_mangle)]
pub extern "C" fn gpmf_list(payload: &[u8], rows: &mut [u32], out: &mut [u8], at: usize) -> usize
    ensures { Lists (reading_of false payload.now (room_of (length rows.old))) rows.old out.old at result rows.new out.new }
{
    gpmf_reading::listing_face::gpmf_list(payload, rows, out, at)
}

// Lays the first line of a listing.
#[unsafe(no_mangle)]
pub extern "C" fn gpmf_put_answer(out: &mut [u8], at: usize, answer: MetadataAnswer) -> usize
    ensures { LaysLines (answer_line (to_metadata answer) ∷ []) out.old at result out.new }
{
    gpmf_reading::listing_face::gpmf_put_answer(out, at, answer)
}

// Lays a line for each row.
#[unsafe(no_mangle)]
pub extern "C" fn gpmf_put_rows(out: &mut [u8], at: usize, rows: &[u32], count: usize) -> usize
    ensures { LaysLines (row_lines rows.now count) out.old at result out.new }
{
    gpmf_reading::listing_face::gpmf_put_rows(out, at, rows, count)
}

// Lays a packet of a take.
#[unsafe(no_mangle)]
pub extern "C" fn gpmf_put_packet(
    payload: &[u8],
    number: u64,
    place: u64,
    whole: bool,
    rows: &mut [u32],
    out: &mut [u8],
    at: usize,
) -> Taken
    ensures { Takes whole number place payload.now (reading_of false payload.now (room_of (length rows.old))) rows.old out.old at result.end result.accepted rows.new out.new }
{
    gpmf_reading::listing_face::gpmf_put_packet(payload, number, place, whole, rows, out, at)
}

// Lays a packet of more bytes than are held.
#[unsafe(no_mangle)]
pub extern "C" fn gpmf_put_long_packet(
    number: u64,
    place: u64,
    bytes: u64,
    whole: bool,
    out: &mut [u8],
    at: usize,
) -> usize
    ensures { LaysAll (long_packet whole number place bytes) out.old at result out.new }
{
    gpmf_reading::listing_face::gpmf_put_long_packet(number, place, bytes, whole, out, at)
}

// Lays the counts of a take.
#[unsafe(no_mangle)]
pub extern "C" fn gpmf_put_totals(
    out: &mut [u8],
    at: usize,
    packets: u64,
    read: u64,
    refused: u64,
) -> usize
    ensures { LaysAll (totals_line packets read refused) out.old at result out.new }
{
    gpmf_reading::listing_face::gpmf_put_totals(out, at, packets, read, refused)
}
