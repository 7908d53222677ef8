// What a key is known by: its tag number, and the group that it names.

#![tactic(auto)]

pub mod names;
pub mod tags;

ghost use Rattle.std.specs.Prelude.{◌≡◌};
ghost use Rattle.keys.specs.Table.{found};
ghost use Rattle.keys.specs.Keys.{tag_of, group_of};

use names::*;

// A known key and its number.
#[derive(Clone, Copy)]
struct Known {
    key: u32,
    id: u32,
}

// The tags as document 01 lists them.
const TAGS: [Known; 26] = [
    // Data
    Known { key: GYRO, id: 1 },
    Known { key: ACCL, id: 1 },
    Known { key: GRAV, id: 1 },
    Known { key: WBAL, id: 1 },
    Known { key: ISOE, id: 1 },
    Known { key: SHUT, id: 1 },
    Known { key: MWET, id: 1 },
    Known { key: IORI, id: 1 },
    Known { key: CORI, id: 1 },
    Known { key: AALP, id: 1 },
    Known { key: WNDM, id: 1 },
    Known { key: UNIF, id: 1 },
    Known { key: WRGB, id: 1 },
    Known { key: GPS5, id: 1 },
    Known { key: FASC, id: 1 },
    // Unit
    Known { key: SIUN, id: 2 },
    Known { key: UNIT, id: 2 },
    // Matrix
    Known { key: MTRX, id: 3 },
    // Scale
    Known { key: SCAL, id: 4 },
    // TimestampUs
    Known { key: STMP, id: 5 },
    // Name
    Known { key: STNM, id: 6 },
    Known { key: DVNM, id: 6 },
    // Temperature
    Known { key: TMPC, id: 7 },
    // Count
    Known { key: TSMP, id: 8 },
    // OrientationIn
    Known { key: ORIN, id: 9 },
    // OrientationOut
    Known { key: ORIO, id: 10 },
];

// The groups in the order in which the Rust names them.
const GROUPS: [Known; 16] = [
    Known { key: GYRO, id: 1 },
    Known { key: ACCL, id: 2 },
    Known { key: GRAV, id: 3 },
    Known { key: MAGN, id: 4 },
    Known { key: CORI, id: 5 },
    Known { key: IORI, id: 6 },
    Known { key: SHUT, id: 7 },
    Known { key: GPS5, id: 8 },
    Known { key: FASC, id: 9 },
    Known { key: MWET, id: 10 },
    Known { key: AALP, id: 11 },
    Known { key: WNDM, id: 12 },
    Known { key: UNIF, id: 13 },
    Known { key: WRGB, id: 14 },
    Known { key: WBAL, id: 15 },
    Known { key: ISOE, id: 16 },
];

// The number beside a key in a table, and 0 for a key that the table does not have.
fn number_in(table: &[Known], key: u32) -> u32
    ensures { result ≡ found table.now key }
{
    for known in table {
        if known.key == key {
            return known.id;
        }
    }
    0
}

// The tag number of a key, and 0 for a key that has none.
pub fn tag_id(key: u32) -> u32
    ensures { result ≡ tag_of key }
{
    number_in(&TAGS, key)
}

// A group: its number, 0 where its key has none, and its key, which is kept always.
#[repr(C)]
#[derive(Clone, Copy)]
pub struct GroupId {
    pub number: u32,
    pub key: u32,
}

// The group that a key names.
pub fn group_from_key(key: u32) -> GroupId
    ensures { result ≡ group_of key }
{
    let number = number_in(&GROUPS, key);
    GroupId { number, key }
}
