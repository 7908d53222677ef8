// Prints the raw file on standard input packet by packet: a line for each, then its listing, or its refusal and the listing of its front.
// With the argument `whole` only accepted packets are printed. The file may have any length: a window of it is held.

#![tactic(auto)]

mod held;
mod printed;

use held::Held;
use printed::Counts;
use std::env::{Env, FillError};
use window::{Places, Step};

fn main(rt: HostRuntime) {
    let Some(whole) = is_whole(&rt) else {
        let _ = rt.eprintln("gpmf_take: the only argument is whole");
        return;
    };
    let mut bytes = [0u8; 196608];
    let mut rows = [0u32; 16384];
    let mut out = [0u8; 262144];
    take_all(&rt, whole, &mut bytes, &mut rows, &mut out);
}

// Whether the argument `whole` is there; nothing where it is another.
fn is_whole(rt: &impl Env) -> Option<bool> {
    let mut word = [0u8; 6];
    match rt.arg(1, &mut word) {
        Ok(count) if held::first(&word, count) == b"whole".as_slice() => Some(true),
        Err(FillError::NotPresent) => Some(false),
        _ => None,
    }
}

// Where a file begins.
const START: Places = Places {
    base: 0,
    at: 0,
    first: 0,
    second: 0,
};

// Steps until there is none: a packet is printed, or more is read.
fn take_all(
    rt: &(impl Input + Print + Eprint),
    whole: bool,
    bytes: &mut [u8; 196608],
    rows: &mut [u32; 16384],
    out: &mut [u8; 262144],
) {
    let mut held = Held::default();
    let mut places = START;
    let mut counts = Counts::default();
    // so many that no file has more: a `loop` is not seen to end
    for _ in 0..u64::MAX {
        let window = held::first(bytes, held.count);
        match window::next_step(places, window, !held.ended) {
            Step::Held {
                packet,
                start,
                rest,
            } => {
                let payload = held::part(window, packet);
                counts = counts.put_packet(rt, payload, start, whole, rows, out);
                places = rest;
            }
            Step::Long {
                start,
                bytes: count,
                rest,
            } => {
                counts = counts.put_long(rt, start, count, whole, out);
                places = rest;
            }
            Step::Read { from, rest } => {
                held = held::read_on(rt, held, from, bytes);
                places = rest;
            }
            Step::End => break,
        }
    }
    counts.put_totals(rt, out);
}
