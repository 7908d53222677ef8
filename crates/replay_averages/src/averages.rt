// The average duration of a reading, over a list of packets in words: average COUNT:STAMP:DURATION:MISSING ..
use elements::Element;
use foundation::refusal::Refusal;
use std::{array, io};

// The most packets of a question.
const MOST: usize = 64;

// The answer is written, without the end of its line.
pub(crate) fn answer(rt: &impl Print, question: &[u8]) -> io::Result<()> {
    if word(question, 0) == b"average".as_slice() {
        answer_average(rt, question, pieces::pieces(question, b' '))
    } else {
        write_unknown(rt)
    }
}

fn word(question: &[u8], index: usize) -> &[u8] {
    pieces::piece(question, b' ', index)
}

fn write_unknown(rt: &impl Print) -> io::Result<()> {
    rt.write_all(b"unknown")
}

fn answer_average(rt: &impl Print, question: &[u8], words: usize) -> io::Result<()> {
    if words > MOST {
        write_unknown(rt)
    } else {
        write_average(rt, average_of(question, words))
    }
}

fn write_average(rt: &impl Print, average: Result<Option<f64>, Refusal>) -> io::Result<()> {
    match average {
        Ok(Some(ms)) => {
            let bits = float_bits::double_bits(ms);
            print!(rt; "ok d{bits:016x}")
        }
        Ok(None) => rt.write_all(b"none"),
        Err(_) => rt.write_all(b"refused"),
    }
}

// Lists side by side, as `get_avg_sample_duration` takes them: the C interface.
// They have room for more packets than are asked; the shortest says how many there are.
fn average_of(question: &[u8], words: usize) -> Result<Option<f64>, Refusal> {
    let counts: [u32; MOST] = array::from_fn(|i| count_of(number_in(question, i, 0)));
    let stamped: [u8; MOST] = array::from_fn(|i| flag(part(question, i, 1), b'-'));
    let stamps: [u64; MOST] = array::from_fn(|i| number_in(question, i, 1));
    let durations: [f64; MOST] = array::from_fn(|i| duration_of(part(question, i, 2)));
    let missing: [u8; MOST] = array::from_fn(|i| flag(part(question, i, 3), b'0'));
    // the first word is the question's name
    let packets = words.saturating_sub(1).min(MOST);
    durations::get_avg_sample_duration(&counts, &stamped[..packets], &stamps, &durations, &missing)
}

// A part of what is said of the packet at an index, whose word stands behind the question's name.
fn part(question: &[u8], index: usize, at: usize) -> &[u8] {
    pieces::piece(word(question, index.saturating_add(1)), b':', at)
}

fn number_in(question: &[u8], index: usize, at: usize) -> u64 {
    line::decimal_number(part(question, index, at)).unwrap_or(0)
}

fn count_of(n: u64) -> u32 {
    (n % 0x1_0000_0000) as u32
}

// 0 where a part is the word for no.
fn flag(word: &[u8], no: u8) -> u8 {
    u8::from(word != [no].as_slice())
}

// The f64 of sixteen hex digits.
fn duration_of(word: &[u8]) -> f64 {
    let mut bytes = [0u8; 64];
    let Ok(n) = line::unhex(word, &mut bytes) else {
        return 0.0;
    };
    match elements::element_at(words::part(&bytes, 0, n), 0, b'd') {
        Element::Double(x) => x,
        _ => 0.0,
    }
}
