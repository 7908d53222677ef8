// The one question: values FORCED HEX. The answer is written, without the end of its line.
use crate::shown;
use std::io;

pub(crate) fn answer(rt: &impl Print, question: &[u8]) -> io::Result<()> {
    if let Some(hex) = question.strip_prefix(b"values 0 ".as_slice()) {
        answer_values(rt, hex, false)
    } else if let Some(hex) = question.strip_prefix(b"values 1 ".as_slice()) {
        answer_values(rt, hex, true)
    } else {
        write_unknown(rt)
    }
}

fn write_unknown(rt: &impl Print) -> io::Result<()> {
    rt.write_all(b"unknown")
}

fn answer_values(rt: &impl Print, hex: &[u8], forced: bool) -> io::Result<()> {
    let mut payload = [0u8; 8192];
    match words::unhex_word(hex, &mut payload) {
        Ok(count) => write_reading(rt, words::part(&payload, 0, count), forced),
        Err(_) => write_unknown(rt),
    }
}

fn write_reading(rt: &impl Print, payload: &[u8], forced: bool) -> io::Result<()> {
    // room for 1,024 rows: more than the bytes of a question have
    let mut rows = [0u32; 8192];
    match metadata::parse_metadata(payload, forced, &mut rows) {
        Ok(reading) => {
            rt.write_all(b"ok")?;
            shown::write_items(rt, payload, &rows, reading.rows)
        }
        Err(_) => rt.write_all(b"err"),
    }
}
