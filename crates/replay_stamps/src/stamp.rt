// The one question: stamp GROUPKEY HEX. The answer is written, without the end of its line.
use foundation::refusal::Refusal;
use std::io;
use tagged::Group;

// The key takes eight bytes, with one more behind it.
pub(crate) fn answer(rt: &impl Print, question: &[u8]) -> io::Result<()> {
    match question.strip_prefix(b"stamp ".as_slice()) {
        Some(asked) => answer_stamp(
            rt,
            words::part(asked, 0, 8),
            words::part(asked, 9, asked.len()),
        ),
        None => write_unknown(rt),
    }
}

fn write_unknown(rt: &impl Print) -> io::Result<()> {
    rt.write_all(b"unknown")
}

fn answer_stamp(rt: &impl Print, key: &[u8], hex: &[u8]) -> io::Result<()> {
    let mut payload = [0u8; 8192];
    match words::unhex_word(hex, &mut payload) {
        Ok(count) => write_reading(rt, words::part(&payload, 0, count), key_of(key)),
        Err(_) => write_unknown(rt),
    }
}

fn write_reading(rt: &impl Print, payload: &[u8], key: u32) -> io::Result<()> {
    let mut rows = [0u32; 16384];
    match metadata::parse_metadata(payload, false, &mut rows) {
        Ok(reading) => {
            let group = Group {
                payload,
                rows: &rows,
                count: reading.rows,
                kind: 1,
                key,
            };
            write_stamp(rt, stamps::stamp_us(group))
        }
        Err(_) => rt.write_all(b"err"),
    }
}

// The key that a word is in hex.
fn key_of(word: &[u8]) -> u32 {
    (line::hex_number(word).unwrap_or(0) % 0x1_0000_0000) as u32
}

fn write_stamp(rt: &impl Print, stamp: Result<Option<u64>, Refusal>) -> io::Result<()> {
    match stamp {
        Ok(Some(us)) => print!(rt; "ok {us}"),
        Ok(None) => rt.write_all(b"none"),
        Err(_) => rt.write_all(b"refused"),
    }
}
