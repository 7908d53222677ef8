// Answers what the Rust oracle was asked of the stamps of groups, a line each (oracle/README.md has the protocol).
// Standard input has at most 1,048,576 bytes; what stands behind them is not read.

#![tactic(auto)]

mod stamp;

use std::io;
use std::io::Read;

fn main(rt: HostRuntime) -> io::Result<()> {
    let mut input = input_buffer();
    let mut reader = rt.reader().take(input.len() as u64);
    let count = io::copy(&mut reader, &mut &mut input[..])?;
    answer_all(&rt, words::part(&input, 0, count as usize))
}

// A function of its own: with the array in `main` the proof of that does not close.
fn input_buffer() -> [u8; 1048576] {
    [0u8; 1048576]
}

// An empty line has no answer. No range: a step is the length of the line, which is that of `words::line_from`. Each
// replay has this for itself: a public function that takes what answers would have a `requires`, and none has one.
fn answer_all(rt: &impl Print, input: &[u8]) -> io::Result<()> {
    let mut from = 0;
    while from < input.len() {
        let question = words::line_from(input, from);
        if !question.is_empty() {
            stamp::answer(rt, question)?;
            rt.write_all(b"\n")?;
        }
        from += question.len() + 1;
    }
    Ok(())
}
