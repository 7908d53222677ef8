// Lists what the payload on standard input is read as: a line for its rows and headers and one for each row, or `refused N at P` alone.

#![tactic(auto)]

ghost use Rattle.listing_line.specs.Lines.{Begins};
ghost use Rattle.gpmf_list.specs.Printed.{printed};

use foundation::refusal::Fault;
use std::io;
use std::io::Read;

// The most bytes that are held of a payload; one more tells that there are more.
const MOST_HELD: usize = 65536;

fn main(rt: HostRuntime) {
    let mut input = [0u8; 65537];
    let mut reader = rt.reader().take(input.len() as u64);
    let Ok(count) = io::copy(&mut reader, &mut &mut input[..]) else {
        let _ = rt.eprintln("gpmf_list: reading failed");
        return;
    };
    let mut rows = [0u32; 16384];
    let mut out = [0u8; 131072];
    let payload = &input[..(count as usize).min(input.len())];
    let end = print(payload, &mut rows, &mut out);
    if rt.write_all(&out[..end]).is_err() {
        let _ = rt.eprintln("gpmf_list: writing failed");
    }
}

// Lays all that is printed for a payload, which always fits.
fn print(payload: &[u8], rows: &mut [u32; 16384], out: &mut [u8; 131072]) -> usize
    ensures { Begins (printed payload.now) result out.new }
{
    if MOST_HELD < payload.len() {
        return listing_line::put_answer(out, 0, Err(Fault::TooLong.at(0)));
    }
    listing::list(payload, rows, out, 0)
}
