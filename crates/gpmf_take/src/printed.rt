// What is printed of the packets, and how many of them there were.
use crate::held;
use take::Taken;

// More than a packet takes: two lines, and those of the most rows, 2,049 of at most 56 bytes.
const MOST_PRINTED: usize = 131072;

// The packets that were read, and those that were refused, so far, and the bytes laid that are to be written; none before
// the first packet.
#[derive(Clone, Copy, Default)]
pub(crate) struct Counts {
    read: u64,
    refused: u64,
    laid: usize,
}

impl Counts {
    // Prints a packet, by its bytes and its start in the file.
    pub(crate) fn put_packet(
        self,
        rt: &(impl Print + Eprint),
        payload: &[u8],
        place: u64,
        whole: bool,
        rows: &mut [u32],
        out: &mut [u8],
    ) -> Counts {
        let laid = self.make_room(rt, out);
        self.counted(take::put_packet(payload, self.next_number(), place, whole, rows, out, laid))
    }

    // Prints a packet over what is held, by its start in the file and its length.
    pub(crate) fn put_long(
        self,
        rt: &(impl Print + Eprint),
        place: u64,
        bytes: u64,
        whole: bool,
        out: &mut [u8],
    ) -> Counts {
        let laid = self.make_room(rt, out);
        self.counted(Taken {
            end: take_lines::put_long_packet(self.next_number(), place, bytes, whole, out, laid),
            accepted: false,
        })
    }

    // Prints the last line, and writes all that is laid.
    pub(crate) fn put_totals(self, rt: &(impl Print + Eprint), out: &mut [u8]) {
        let laid = self.make_room(rt, out);
        let end = take_lines::put_totals(out, laid, self.packets(), self.read, self.refused);
        write(rt, out, end);
    }

    // One more read, or one more refused, and so much laid.
    fn counted(self, taken: Taken) -> Counts {
        let accepted = u64::from(taken.accepted);
        Counts {
            read: self.read.wrapping_add(accepted),
            refused: self.refused.wrapping_add(1 - accepted),
            laid: taken.end,
        }
    }

    // How many packets there were.
    fn packets(self) -> u64 {
        self.read.wrapping_add(self.refused)
    }

    // The number of the next packet.
    fn next_number(self) -> u64 {
        self.packets().wrapping_add(1)
    }

    // Writes what is laid where less room is left than a packet may take, and answers where the next one goes.
    fn make_room(self, rt: &(impl Print + Eprint), out: &[u8]) -> usize {
        if self.laid < MOST_PRINTED {
            return self.laid;
        }
        write(rt, out, self.laid)
    }
}

// Writes what is laid, and answers where the next goes: from a write that fails on, which is said, nothing is laid.
fn write(rt: &(impl Print + Eprint), out: &[u8], laid: usize) -> usize {
    if laid == text::FULL {
        return laid;
    }
    if rt.write_all(held::first(out, laid)).is_ok() {
        return 0;
    }
    let _ = rt.eprintln("gpmf_take: writing failed");
    text::FULL
}
