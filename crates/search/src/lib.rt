// The search for DEVC in straight code: blocks without DEVC are passed in loops that have no branch and a known count, so that the compiler takes
// many places a step.

#![tactic(auto)]

mod block;
mod filters;

ghost use Rattle.std.specs.Prelude.{◌≡◌, ◌+◌, ◌≤◌, min, length, drop};
ghost use Rattle.search.specs.Search.{devc, begins, find_from, devc_or_end, or_else};

use filters::{Compares, Filter};

// The first DEVC from a place on.
pub fn find_devc(file: &[u8], from: usize) -> Option<usize>
    ensures { result ≡ find_from file.now from }
{
    let at = devc_or_end(file, from);
    if at < file.len() {
        return Some(at);
    }
    None
}

// The first DEVC from a place on, or the end of the file. A number, so that it is handed back in a register.
pub fn devc_or_end(file: &[u8], from: usize) -> usize
    ensures { result ≡ devc_or_end file.now from }
{
    seek(file, from).unwrap_or(file.len())
}

// The first DEVC from a place on: near, and then behind.
fn seek(file: &[u8], from: usize) -> Option<usize>
    ensures { result ≡ find_from file.now from }
{
    let n = file.len();
    if n < 4 {
        return None;
    }
    let end = n - 3;
    if end <= from {
        return None;
    }
    let near = so_far(from, NEAR, end);
    by_place(file, from, near).or_else(|| behind(file, near, end))
}

// How many places are searched one by one: from the end of a DEVC those up to the one behind a packet without bytes. An even number, so that the words
// compared behind them are not the first letters of keys: the filter takes those of DVNM for `DE`.
const NEAR: usize = 6;

// How many are then searched by small blocks, of which fewer places are compared in vain where DEVC is found.
const SHORT: usize = 512;

// So many places on, but not past the end.
fn so_far(from: usize, places: usize, end: usize) -> usize
    requires { from ≤ end }
    ensures { result ≡ min (from + places) end }
{
    // by min of the two it is slower: where DEVC stands every 8 bytes the search takes a tenth more
    if end - from < places {
        end
    } else {
        from + places
    }
}

// The first place of from..end where DEVC begins: by small blocks, and then by great ones.
fn behind(s: &[u8], from: usize, end: usize) -> Option<usize>
    requires { (from ≤ end) × (end + 3 ≤ length s.now) }
    ensures { find_from s.now from ≡ or_else result (find_from s.now end) }
{
    let short = so_far(from, SHORT, end);
    by_small_blocks(s, from, short).or_else(|| by_blocks(s, short, end))
}

// Whether DEVC begins at a place: one comparison of four bytes.
pub(crate) fn begins_at(s: &[u8], k: usize) -> bool
    requires { k + 4 ≤ length s.now }
    ensures { result ≡ begins devc (drop k s.now) }
{
    (s[k + 3] == b'C') & (s[k + 2] == b'V') & (s[k + 1] == b'E') & (s[k] == b'D')
}

// The first place of from..end where DEVC begins, place by place.
fn by_place(s: &[u8], from: usize, end: usize) -> Option<usize>
    requires { (from ≤ end) × (end + 3 ≤ length s.now) }
    ensures { find_from s.now from ≡ or_else result (find_from s.now end) }
{
    for k in from..end {
        if begins_at(s, k) {
            return Some(k);
        }
    }
    None
}

// The same by 32 places at a time.
fn by_small_blocks(s: &[u8], from: usize, end: usize) -> Option<usize>
    requires { (from ≤ end) × (end + 3 ≤ length s.now) }
    ensures { find_from s.now from ≡ or_else result (find_from s.now end) }
{
    // `k` is used behind the loop, so a range would be no plainer
    let mut k = from;
    while 32 <= end - k {
        if filters::by_words(s, k, filters::FIRST, 16) {
            if let Some(at) = block::in_block(s, k, 32) {
                return Some(at);
            }
            k += 32;
            continue;
        }
        k += 32;
    }
    by_place(s, k, end)
}

// The first of 128 places where DEVC begins. Of the blocks without DEVC at which the first filter stops, the other words pass most.
fn in_great_block(s: &[u8], from: usize, compares: Compares) -> Option<usize>
    requires { from + 131 ≤ length s.now }
    ensures { find_from s.now from ≡ or_else result (find_from s.now (from + 128)) }
{
    if let Compares::FirstWords = compares {
        if !filters::by_words(s, from, filters::LAST, 64) {
            return None;
        }
    }
    block::in_block(s, from, 128)
}

// The same by 128 places at a time. Behind a block that was taken for one with DEVC it goes on a place earlier, where other words of two places are compared.
fn by_blocks(s: &[u8], from: usize, end: usize) -> Option<usize>
    requires { (from ≤ end) × (end + 3 ≤ length s.now) }
    ensures { find_from s.now from ≡ or_else result (find_from s.now end) }
{
    // steps of no one length, so there is no range
    let mut k = from;
    let mut filter = Filter {
        compares: Compares::FirstWords,
        trust: 16,
    };
    while 128 <= end - k {
        let start = filters::pass(s, k, end, filter.compares);
        if end - start < 128 {
            return by_place(s, start, end);
        }
        if let Some(at) = in_great_block(s, start, filter.compares) {
            return Some(at);
        }
        filter = filter.failed(start - k);
        k = start + 127;
    }
    by_place(s, k, end)
}
