// The bytes of the file that are held.
use raw_file::Packet;
use std::io;
use std::io::{Cursor, Read};

// How many they are, and whether the file ends with them; none before the first read.
#[derive(Clone, Copy, Default)]
pub(crate) struct Held {
    pub count: usize,
    pub ended: bool,
}

// Lets go of the bytes in front of a place, and reads on behind the rest.
pub(crate) fn read_on(
    rt: &(impl Input + Eprint),
    held: Held,
    from: usize,
    bytes: &mut [u8],
) -> Held {
    let kept = window::keep(bytes, held.count, from);
    let mut chunk = [0u8; 65536];
    let got = read_chunk(rt, &mut chunk);
    Held {
        count: text::put_bytes(bytes, kept, first(&chunk, got)),
        ended: got < chunk.len(),
    }
}

// Reads until the chunk is full, the input ends or a read fails, which is said, and answers how many bytes came.
fn read_chunk(rt: &(impl Input + Eprint), chunk: &mut [u8]) -> usize {
    let mut reader = rt.reader().take(chunk.len() as u64);
    let mut read = Cursor::new(chunk);
    if io::copy(&mut reader, &mut read).is_err() {
        let _ = rt.eprintln("gpmf_take: reading failed");
    }
    read.position() as usize
}

// The first bytes of some, or all where there are not so many.
pub(crate) fn first(s: &[u8], count: usize) -> &[u8] {
    &s[..count.min(s.len())]
}

// The bytes of a packet; none where it does not lie among them.
pub(crate) fn part(s: &[u8], packet: Packet) -> &[u8] {
    s.get(packet.start..packet.end).unwrap_or_default()
}
