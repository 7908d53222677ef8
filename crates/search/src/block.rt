// The place in a block where DEVC begins first.
ghost use Rattle.std.specs.Prelude.{◌≡◌, cond, ◌+◌, ◌≤◌, max, length, drop};
ghost use Rattle.search.specs.Search.{devc, begins, find_from, or_else, with_left};

// The places left where DEVC begins at a place, and 0 where it does not.
fn left_at(s: &[u8], k: usize, left: u8) -> u8
    requires { k + 4 ≤ length s.now }
    ensures { result ≡ cond (begins devc (drop k s.now)) left 0 }
{
    if crate::begins_at(s, k) { left } else { 0 }
}

// How many of some places are left from the first DEVC on, 0 where there is none: the greatest count is the first place's.
fn left_from(s: &[u8], from: usize, places: u8) -> u8
    requires { from + places + 3 ≤ length s.now }
    ensures { (result ≤ places) × (find_from s.now from ≡ or_else (with_left (from + places) result) (find_from s.now (from + places))) }
{
    let mut most: u8 = 0;
    let mut left: u8 = places;
    let mut k = from;
    // over a range of places it is slower: with DEVC at each distance of 4 to 512 the search takes a tenth more
    while 0 < left {
        most = most.max(left_at(s, k, left));
        left -= 1;
        k += 1;
    }
    most
}

// The first of some places where DEVC begins.
pub(crate) fn in_block(s: &[u8], from: usize, places: u8) -> Option<usize>
    requires { from + places + 3 ≤ length s.now }
    ensures { find_from s.now from ≡ or_else result (find_from s.now (from + places)) }
{
    let left = left_from(s, from, places);
    if left == 0 {
        return None;
    }
    Some(from + usize::from(places - left))
}
