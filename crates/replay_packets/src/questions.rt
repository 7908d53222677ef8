// The questions on raw files: cuts HEX and packets HEX. The answer is written, without the end of its line.
use crate::packets;
use std::io;

pub(crate) fn answer(rt: &impl Print, question: &[u8]) -> io::Result<()> {
    let mut file = [0u8; 8192];
    match words::unhex_word(pieces::piece(question, b' ', 1), &mut file) {
        Ok(count) => {
            answer_of(
                rt,
                pieces::piece(question, b' ', 0),
                words::part(&file, 0, count),
            )
        }
        Err(_) => write_unknown(rt),
    }
}

fn write_unknown(rt: &impl Print) -> io::Result<()> {
    rt.write_all(b"unknown")
}

fn answer_of(rt: &impl Print, name: &[u8], file: &[u8]) -> io::Result<()> {
    if name == b"cuts".as_slice() {
        packets::answer_file(rt, file, true)
    } else if name == b"packets".as_slice() {
        packets::answer_file(rt, file, false)
    } else {
        write_unknown(rt)
    }
}
