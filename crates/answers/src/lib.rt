// Answers as plain records of numbers, for callers in other languages: the kind of answer, a refusal's number and place,
// and the values. What an answer does not have is 0. Here whole numbers, items and parts.
// Each record has a kind, a number and a place of its own, and kinds are numbers: the C interface. Each `of_..` is a
// function and no `From`, since it is a public call with its promise (docs/PROMISES.md).

#![tactic(auto)]

ghost use Rattle.std.specs.Prelude.{◌≡◌};
ghost use Rattle.answers.specs.Answers as tells;

use answer_kinds::{IS, MORE, NOTHING, REFUSED};
use foundation::refusal::{Fault, Refusal};
use klv::{Broken, KLV};
use last_item::Last;
use line::HexError;
use parts::Part;
use tagged::Tagged;

// A whole number.
#[repr(C)]
#[derive(Clone, Copy)]
pub struct WholeAnswer {
    pub kind: u32,
    pub number: u32,
    pub place: usize,
    pub value: u64,
}

// A whole number, or that there is none, or that it is refused.
fn whole(x: Result<Option<u64>, Refusal>) -> WholeAnswer
    ensures { result ≡ tells.whole_told x }
{
    let (kind, number, place, value) = match x {
        Ok(Some(n)) => (IS, 0, 0, n),
        Ok(None) => (NOTHING, 0, 0, 0),
        Err(refusal) => (REFUSED, refusal.number, refusal.place, 0),
    };
    WholeAnswer {
        kind,
        number,
        place,
        value,
    }
}

// More room is wanted.
const NO_ROOM: WholeAnswer = WholeAnswer {
    kind: MORE,
    number: 0,
    place: 0,
    value: 0,
};

pub fn of_expanded(x: Result<usize, Fault>) -> WholeAnswer
    ensures { result ≡ tells.of_expanded x }
{
    whole(x.map(|n| Some(n as u64)).map_err(|fault| fault.at(0)))
}

pub fn of_date(x: Result<u64, Fault>) -> WholeAnswer
    ensures { result ≡ tells.of_date x }
{
    whole(x.map(Some).map_err(|fault| fault.at(0)))
}

// How many columns a row has, or how many elements were laid.
pub fn of_count(x: Result<usize, Refusal>) -> WholeAnswer
    ensures { result ≡ tells.of_count x }
{
    whole(x.map(|n| Some(n as u64)))
}

// The index of a row.
pub fn of_found(x: Result<Option<usize>, Refusal>) -> WholeAnswer
    ensures { result ≡ tells.of_found x }
{
    whole(x.map(|row| row.map(|n| n as u64)))
}

pub fn of_stamp(x: Result<Option<u64>, Refusal>) -> WholeAnswer
    ensures { result ≡ tells.of_stamp x }
{
    whole(x)
}

// The place of a DEVC in a file.
pub fn of_devc(x: Option<usize>) -> WholeAnswer
    ensures { result ≡ tells.of_devc x }
{
    whole(Ok(x.map(|n| n as u64)))
}

// The number in a text.
pub fn of_number(x: Option<u64>) -> WholeAnswer
    ensures { result ≡ tells.of_number x }
{
    whole(Ok(x))
}

// How many bytes a text in hex has: none where it is not hex, and more room is wanted where they do not fit.
pub fn of_decoded(x: Result<usize, HexError>) -> WholeAnswer
    ensures { result ≡ tells.of_decoded x }
{
    match x {
        Ok(n) => whole(Ok(Some(n as u64))),
        Err(HexError::NoRoom) => NO_ROOM,
        Err(HexError::NotHex) => whole(Ok(None)),
    }
}

// An item: its header, and the place of that.
#[repr(C)]
#[derive(Clone, Copy)]
pub struct ItemAnswer {
    pub kind: u32,
    pub number: u32,
    pub place: usize,
    pub klv: KLV,
}

// No header.
const NO_KLV: KLV = KLV {
    key: 0,
    data_type: 0,
    size: 0,
    repeat: 0,
};

// An item at a place, or that there is none, or that it is refused.
fn item(x: Result<Option<Last>, Refusal>) -> ItemAnswer
    ensures { result ≡ tells.item_told x }
{
    let (kind, number, place, klv) = match x {
        Ok(Some(found)) => (IS, 0, found.place, found.klv),
        Ok(None) => (NOTHING, 0, 0, NO_KLV),
        Err(refusal) => (REFUSED, refusal.number, refusal.place, NO_KLV),
    };
    ItemAnswer {
        kind,
        number,
        place,
        klv,
    }
}

// Why there is no item, as it is told.
fn fault_of(broken: Broken) -> Fault
    ensures { result ≡ tells.fault_of broken }
{
    match broken {
        Broken::Short => Fault::NoItem,
        Broken::Past => Fault::PastEnd,
    }
}

// Of the item at a place.
pub fn of_header(x: Result<KLV, Broken>, at: usize) -> ItemAnswer
    ensures { result ≡ tells.of_header at x }
{
    match x {
        Ok(klv) => of_headed(Ok(klv), at),
        Err(broken) => of_headed(Err(fault_of(broken).at(at)), at),
    }
}

pub fn of_last_item(x: Result<Option<Last>, Refusal>) -> ItemAnswer
    ensures { result ≡ tells.of_last_item x }
{
    item(x)
}

pub fn of_tagged(x: Result<Option<Tagged>, Refusal>) -> ItemAnswer
    ensures { result ≡ tells.of_tagged x }
{
    item(x.map(|tagged| tagged.map(|tagged| Last {
        place: tagged.place as usize,
        klv: tagged.klv,
    })))
}

// The same of an item that has a value. By `map`, here and in `of_header`, tried and slower: header and refusal went
// through memory.
pub fn of_headed(x: Result<KLV, Refusal>, at: usize) -> ItemAnswer
    ensures { result ≡ tells.of_headed at x }
{
    match x {
        Ok(klv) => item(Ok(Some(Last { place: at, klv }))),
        Err(refusal) => item(Err(refusal)),
    }
}

// A part of what was lent: where it starts, and how many bytes it has.
#[repr(C)]
#[derive(Clone, Copy)]
pub struct PartAnswer {
    pub kind: u32,
    pub number: u32,
    pub place: usize,
    pub start: usize,
    pub length: usize,
}

pub fn of_part(x: Result<Part, Refusal>) -> PartAnswer
    ensures { result ≡ tells.of_part x }
{
    let (kind, number, place, start, length) = match x {
        Ok(part) => (IS, 0, 0, part.start, part.length),
        Err(refusal) => (REFUSED, refusal.number, refusal.place, 0, 0),
    };
    PartAnswer {
        kind,
        number,
        place,
        start,
        length,
    }
}
