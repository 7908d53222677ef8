// The questions, a function each: the answer is written, without the end of its line.
use keys::GroupId;
use klv::{Cursor, KLV};
use std::io;

// The last word of every question is in hex.
pub(crate) fn answer(rt: &impl Print, question: &[u8]) -> io::Result<()> {
    let words = pieces::pieces(question, b' ');
    let mut bytes = [0u8; 8192];
    match words::unhex_word(word(question, if words == 3 { 2 } else { 1 }), &mut bytes) {
        Ok(count) => answer_of(rt, words, question, words::part(&bytes, 0, count)),
        Err(_) => write_unknown(rt),
    }
}

fn word(question: &[u8], index: usize) -> &[u8] {
    pieces::piece(question, b' ', index)
}

fn write_unknown(rt: &impl Print) -> io::Result<()> {
    rt.write_all(b"unknown")
}

fn write_err(rt: &impl Print) -> io::Result<()> {
    rt.write_all(b"err")
}

fn answer_of(rt: &impl Print, words: usize, question: &[u8], bytes: &[u8]) -> io::Result<()> {
    match words {
        2 => answer_of_one(rt, word(question, 0), bytes),
        3 => answer_of_two(rt, word(question, 0), word(question, 1), bytes),
        _ => write_unknown(rt),
    }
}

fn answer_of_two(rt: &impl Print, name: &[u8], place: &[u8], bytes: &[u8]) -> io::Result<()> {
    if name == b"header".as_slice() {
        answer_header(rt, place, bytes)
    } else {
        write_unknown(rt)
    }
}

fn answer_of_one(rt: &impl Print, name: &[u8], bytes: &[u8]) -> io::Result<()> {
    match name {
        b"tag" => answer_tag(rt, bytes),
        b"group" => answer_group(rt, bytes),
        b"last" => answer_last(rt, bytes),
        b"expand" => answer_expand(rt, bytes),
        _ => write_unknown(rt),
    }
}

// header PLACE HEX
fn answer_header(rt: &impl Print, place: &[u8], payload: &[u8]) -> io::Result<()> {
    match line::decimal_number(place) {
        Some(asked) => write_header(rt, payload, asked as usize),
        None => write_unknown(rt),
    }
}

fn write_header(rt: &impl Print, payload: &[u8], place: usize) -> io::Result<()> {
    match Cursor::new(place).parse_header(payload) {
        Ok(klv) => write_item(rt, klv),
        Err(_) => write_err(rt),
    }
}

// ok KEY TYPE SIZE REPEAT LENGTH ALIGNED
fn write_item(rt: &impl Print, klv: KLV) -> io::Result<()> {
    let KLV {
        key,
        data_type,
        size,
        repeat,
    } = klv;
    let length = klv.data_len();
    let aligned = klv.aligned_data_len();
    print!(rt; "ok {key:08x} {data_type} {size} {repeat} {length} {aligned}")
}

// tag KEY
fn answer_tag(rt: &impl Print, bytes: &[u8]) -> io::Result<()> {
    if bytes.len() == 4 {
        let tag = keys::tag_id(key_of(bytes));
        print!(rt; "{tag}")
    } else {
        write_unknown(rt)
    }
}

// group KEY
fn answer_group(rt: &impl Print, bytes: &[u8]) -> io::Result<()> {
    if bytes.len() == 4 {
        let GroupId { number, key } = keys::group_from_key(key_of(bytes));
        print!(rt; "{number} {key:08x}")
    } else {
        write_unknown(rt)
    }
}

fn key_of(bytes: &[u8]) -> u32 {
    (foundation::big_endian(bytes) % 0x1_0000_0000) as u32
}

// last HEX
fn answer_last(rt: &impl Print, payload: &[u8]) -> io::Result<()> {
    match last_item::get_last_klv(payload) {
        Ok(last) => write_slice(rt, last.map_or(0, |last| last.place), payload.len()),
        Err(_) => write_err(rt),
    }
}

// ok PLACE LENGTH, of the slice from a place to the end
fn write_slice(rt: &impl Print, place: usize, end: usize) -> io::Result<()> {
    print!(rt; "ok {place}")?;
    if place <= end {
        let length = end - place;
        print!(rt; " {length}")?;
    }
    Ok(())
}

// expand HEX
fn answer_expand(rt: &impl Print, type_text: &[u8]) -> io::Result<()> {
    let mut written = [0u8; 256];
    match custom_type::resolve_custom_type(type_text, &mut written) {
        Ok(length) => write_characters(rt, words::part(&written, 0, length)),
        Err(_) => rt.write_all(b"long"),
    }
}

// The characters in hex.
fn write_characters(rt: &impl Print, written: &[u8]) -> io::Result<()> {
    rt.write_all(b"ok t")?;
    for b in written {
        print!(rt; "{b:02x}")?;
    }
    Ok(())
}
