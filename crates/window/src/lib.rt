// A window of a raw file that is read piece by piece: what is done next with it.

#![tactic(auto)]

ghost use Rattle.std.specs.Prelude.{◌≡◌, ◌+◌, ◌-◌, ◌<◌, min, max, length, if◌then◌else◌, nat_lt};
ghost use Rattle.search.specs.Search.{find_from};
ghost use Rattle.window.specs.Steps.{over_held, in_file, read_from, tell_packet, overlapping, read_past, tell_long, seek_end, next_step, Keeps};

use raw_file::{InWindow, Packet, Packets};

// The most bytes that are held of a packet.
pub const MOST_HELD: usize = 65536;

// The last bytes of a window, in which a DEVC may begin that ends in what is read next.
const LAST_BYTES: usize = 3;

// How many bytes of a window say that a packet is over what is held, and the one that may overlap it too: a DEVC and four bytes, the most bytes,
// the last ones, in which its end may begin, and seven by which the other may start later.
const OVER: usize = Packets::HEADER + MOST_HELD + LAST_BYTES + 7;

// The place of the window's first byte in the file, where the cutting or the search goes on in the window, and where the packets start in
// the file whose end is sought: 0 for none. At most two overlap.
#[repr(C)]
#[derive(Clone, Copy, PartialEq, Eq, Debug)]
pub struct Places {
    pub base: u64,
    pub at: usize,
    pub first: u64,
    pub second: u64,
}

// What is done next, with the places afterwards.
#[derive(Clone, Copy, PartialEq, Eq, Debug)]
pub enum Step {
    // a packet is told, which the window holds: its places there, and its start in the file
    Held {
        packet: Packet,
        start: u64,
        rest: Places,
    },
    // a packet over what is held is told, by its start in the file and its length
    Long {
        start: u64,
        bytes: u64,
        rest: Places,
    },
    // more is read: the bytes in front of this place are done with
    Read {
        from: usize,
        rest: Places,
    },
    End,
}

// The next step, by the bytes of the window, and whether more of the file follows.
pub fn next_step(places: Places, window: &[u8], more: bool) -> Step
    ensures { result ≡ next_step window.now more places }
{
    if 0 < places.first {
        return seek_end(places, window, more);
    }
    match Packets::new(places.at).next_in(window, more) {
        InWindow::Next(next) => tell_packet(places, next.packet, next.rest.at),
        InWindow::More { from } => read_on(places, window, from),
        InWindow::End => Step::End,
    }
}

// Tells a packet that is known, and goes on at a place.
fn tell_packet(places: Places, packet: Packet, rest: usize) -> Step
    ensures { result ≡ tell_packet places packet rest }
{
    let start = in_file(places.base, packet.start);
    let bytes = packet.end.saturating_sub(packet.start) as u64;
    let rest = Places {
        at: rest,
        first: 0,
        second: 0,
        ..places
    };
    if bytes > MOST_HELD as u64 {
        return Step::Long { start, bytes, rest };
    }
    Step::Held {
        packet,
        start,
        rest,
    }
}

// More is wanted for a packet, whose DEVC stands at a place or behind it.
fn read_on(places: Places, window: &[u8], from: usize) -> Step
    ensures { result ≡ (if nat_lt (from + over_held) (length window.now) then read_past window.now places from else read_from places from) }
{
    if from < window.len().saturating_sub(OVER) {
        return read_past(places, window, from);
    }
    read_from(places, from)
}

// Seeks the end of a packet over what is held, whose DEVC stands at a place, and of the one that overlaps it.
fn read_past(places: Places, window: &[u8], from: usize) -> Step
    requires { from + over_held < length window.now }
    ensures { result ≡ read_past window.now places from }
{
    let first = in_file(in_file(places.base, from), Packets::HEADER);
    let second = overlapping(places.base, search::find_devc(window, from + 1));
    let sought = Places {
        first,
        second,
        ..places
    };
    read_from(sought, window.len() - LAST_BYTES)
}

// Where the packet starts whose DEVC was found behind another.
fn overlapping(base: u64, found: Option<usize>) -> u64
    ensures { result ≡ overlapping base found }
{
    match found {
        Some(at) => in_file(in_file(base, at), Packets::HEADER),
        None => 0,
    }
}

// Keeps the bytes from a place on, behind which more is read.
fn read_from(places: Places, from: usize) -> Step
    ensures { result ≡ read_from places from }
{
    Step::Read {
        from,
        rest: Places {
            base: in_file(places.base, from),
            at: 0,
            ..places
        },
    }
}

// Seeks the end of the packets over what is held: the next DEVC, or the end of the file.
fn seek_end(places: Places, window: &[u8], more: bool) -> Step
    ensures { result ≡ seek_end window.now more places (find_from window.now places.at) }
{
    match search::find_devc(window, places.at) {
        Some(end) => tell_long(places, end),
        None => {
            if more {
                let from = places.at.max(window.len().saturating_sub(LAST_BYTES));
                return read_from(places, from);
            }
            tell_long(places, window.len())
        }
    }
}

// Tells the first packet whose end was sought; the second is the next.
fn tell_long(places: Places, end: usize) -> Step
    ensures { result ≡ tell_long places end }
{
    let start = places.first;
    let bytes = in_file(places.base, end).saturating_sub(start);
    Step::Long {
        start,
        bytes,
        rest: Places {
            base: places.base,
            at: end,
            first: places.second,
            second: 0,
        },
    }
}

// The place in the file of a place in the window.
fn in_file(base: u64, at: usize) -> u64
    ensures { result ≡ in_file base at }
{
    base.wrapping_add(at as u64)
}

// Moves the bytes from a place on to the front, of so many, and answers how many they are.
pub fn keep(bytes: &mut [u8], count: usize, from: usize) -> usize
    ensures { Keeps bytes.old count from result bytes.new }
{
    let end = count.min(bytes.len());
    if end <= from {
        return 0;
    }
    bytes.copy_within(from..end, 0);
    end - from
}
