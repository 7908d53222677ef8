// The last item of a level and of a payload: the chain of headers, each item stepped over by its padded length, to the end.

#![tactic(auto)]

ghost use Rattle.std.specs.Prelude.{◌≡◌, drop};
ghost use Rattle.klv.specs.Level.{items_of};
ghost use Rattle.reading.specs.Last.{last_item, last_reading};
ghost use Rattle.last_item.specs.LastItem.{told};

use foundation::refusal::{Fault, Refusal};
use klv::{Broken, Cursor, KLV, MOST_BYTES};

// The last item that the chain meets: the place of its header, and the header.
#[derive(Clone, Copy, PartialEq, Eq, Debug)]
pub struct Last {
    pub place: usize,
    pub klv: KLV,
}

// The last item of the level from a place on, given as the payload up to the level's end; none where there is no byte.
pub fn last_item(s: &[u8], at: usize) -> Result<Option<Last>, Refusal>
    ensures { result ≡ told (last_item (items_of (drop at s.now)) at) }
{
    let mut place = at;
    let mut last = None;
    // no range: a step is the length of the item that is stepped over
    while place < s.len() {
        match Cursor::new(place).parse_header(s) {
            Err(Broken::Short) => return Err(Fault::LeftOver.at(place)),
            Err(Broken::Past) => return Err(Fault::PastEnd.at(place)),
            Ok(klv) => {
                last = Some(Last { place, klv });
                place = place + Cursor::HEADER + klv.aligned_data_len();
            }
        }
    }
    Ok(last)
}

// The last item of a payload.
pub fn get_last_klv(payload: &[u8]) -> Result<Option<Last>, Refusal>
    ensures { result ≡ told (last_reading payload.now) }
{
    if MOST_BYTES < payload.len() {
        return Err(Fault::TooLong.at(0));
    }
    last_item(payload, 0)
}
