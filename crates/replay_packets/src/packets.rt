// The packets of a raw file: where each lies, or how it is read.
use raw_file::{Packet, Packets};
use raw_metadata::NextMetadata;
use std::io;

// cuts HEX, or packets HEX
pub(crate) fn answer_file(rt: &impl Print, file: &[u8], cuts: bool) -> io::Result<()> {
    let mut rows = [0u32; 16384];
    rt.write_all(b"ok")?;
    write_packets(rt, file, cuts, &mut rows)
}

// A packet starts at every fourth byte at most.
fn write_packets(rt: &impl Print, file: &[u8], cuts: bool, rows: &mut [u32]) -> io::Result<()> {
    let mut packets = Packets::new(0);
    for _ in 0..file.len() {
        let Some(next) = raw_metadata::next_metadata(packets, file, false, rows) else {
            break;
        };
        write_packet(rt, cuts, next)?;
        packets = next.rest;
    }
    Ok(())
}

fn write_packet(rt: &impl Print, cuts: bool, next: NextMetadata) -> io::Result<()> {
    if cuts {
        let Packet { start, end } = next.packet;
        return print!(rt; " {start}-{end}");
    }
    match next.metadata {
        Ok(read) => print!(rt; " {}", read.headers),
        Err(_) => rt.write_all(b" err"),
    }
}
