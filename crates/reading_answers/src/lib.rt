// Rows, readings and packets as plain records of numbers, for callers in other languages, as crate `answers` has it.
// Each record has a kind, a number and a place of its own, and kinds are numbers: the C interface. Each `of_..` is a
// function and no `From`, since it is a public call with its promise (docs/PROMISES.md).

#![tactic(auto)]

ghost use Rattle.std.specs.Prelude.{◌≡◌};
ghost use Rattle.reading_answers.specs.Answers as tells;

use answer_kinds::{IS, MORE, NOTHING, REFUSED};
use foundation::refusal::Refusal;
use raw_file::{InWindow, Next, Packet, Packets};
use raw_metadata::{MetadataInWindow, NextMetadata};
use rows::Row;
use walk::Metadata;

// A row.
#[repr(C)]
#[derive(Clone, Copy)]
pub struct RowAnswer {
    pub kind: u32,
    pub number: u32,
    pub place: usize,
    pub row: Row,
}

// No row.
const NO_ROW: Row = Row {
    place: 0,
    group_kind: 0,
    group_key: 0,
    tag: 0,
    key: 0,
    shape: 0,
    type_place: 0,
    depth: 0,
};

pub fn of_row_at(x: Option<Row>) -> RowAnswer
    ensures { result ≡ tells.of_row_at x }
{
    let (kind, row) = match x {
        Some(row) => (IS, row),
        None => (NOTHING, NO_ROW),
    };
    RowAnswer {
        kind,
        number: 0,
        place: 0,
        row,
    }
}

// What a payload is read as: so many rows, and so many headers read.
#[repr(C)]
#[derive(Clone, Copy)]
pub struct MetadataAnswer {
    pub kind: u32,
    pub number: u32,
    pub place: usize,
    pub rows: usize,
    pub headers: usize,
}

pub fn of_metadata(x: Result<Metadata, Refusal>) -> MetadataAnswer
    ensures { result ≡ tells.of_metadata x }
{
    let (kind, number, place, rows, headers) = match x {
        Ok(read) => (IS, 0, 0, read.rows, read.headers),
        Err(refusal) => (REFUSED, refusal.number, refusal.place, 0, 0),
    };
    MetadataAnswer {
        kind,
        number,
        place,
        rows,
        headers,
    }
}

// The same back: what is not there is refused.
#[tactic(auto, using(std::proofs::lemmas::Bool::Decides::nat_tests), unfolding(crate::specs::Answers::to_metadata))]
pub fn to_metadata(a: MetadataAnswer) -> Result<Metadata, Refusal>
    ensures { result ≡ tells.to_metadata a }
{
    if a.kind == IS {
        return Ok(Metadata {
            rows: a.rows,
            headers: a.headers,
        });
    }
    Err(Refusal {
        number: a.number,
        place: a.place,
    })
}

// A packet of a raw file, and the cursor to go on with.
#[repr(C)]
#[derive(Clone, Copy)]
pub struct PacketAnswer {
    pub kind: u32,
    pub number: u32,
    pub place: usize,
    pub packet: Packet,
    pub rest: Packets,
}

// No packet.
const NO_PACKET: Packet = Packet { start: 0, end: 0 };

// No cursor to go on with.
const NO_REST: Packets = Packets { at: 0 };

pub fn of_next_packet(x: Option<Next>) -> PacketAnswer
    ensures { result ≡ tells.of_next_packet x }
{
    of_in_window(x.map_or(InWindow::End, InWindow::Next))
}

pub fn of_in_window(x: InWindow) -> PacketAnswer
    ensures { result ≡ tells.of_in_window x }
{
    let (kind, place, packet, rest) = match x {
        InWindow::Next(next) => (IS, 0, next.packet, next.rest),
        InWindow::More { from } => (MORE, from, NO_PACKET, NO_REST),
        InWindow::End => (NOTHING, 0, NO_PACKET, NO_REST),
    };
    PacketAnswer {
        kind,
        number: 0,
        place,
        packet,
        rest,
    }
}

// A packet of a raw file, what its bytes are read as, and the cursor to go on with.
#[repr(C)]
#[derive(Clone, Copy)]
pub struct PacketMetadataAnswer {
    pub kind: u32,
    pub number: u32,
    pub place: usize,
    pub packet: Packet,
    pub metadata: MetadataAnswer,
    pub rest: Packets,
}

// No reading.
const NO_METADATA: MetadataAnswer = MetadataAnswer {
    kind: REFUSED,
    number: 0,
    place: 0,
    rows: 0,
    headers: 0,
};

pub fn of_next_metadata(x: Option<NextMetadata>) -> PacketMetadataAnswer
    ensures { result ≡ tells.of_next_metadata x }
{
    of_metadata_in_window(x.map_or(MetadataInWindow::End, MetadataInWindow::Is))
}

pub fn of_metadata_in_window(x: MetadataInWindow) -> PacketMetadataAnswer
    ensures { result ≡ tells.of_metadata_in_window x }
{
    let (kind, number, place, packet, metadata, rest) = match x {
        MetadataInWindow::Is(next) => (
            IS,
            0,
            0,
            next.packet,
            of_metadata(next.metadata),
            next.rest,
        ),
        MetadataInWindow::OverLimit {
            start,
            refusal,
            rest,
        } => (
            REFUSED,
            refusal.number,
            refusal.place,
            Packet { start, end: 0 },
            NO_METADATA,
            rest,
        ),
        MetadataInWindow::More { from } => (MORE, 0, from, NO_PACKET, NO_METADATA, NO_REST),
        MetadataInWindow::End => (NOTHING, 0, 0, NO_PACKET, NO_METADATA, NO_REST),
    };
    PacketMetadataAnswer {
        kind,
        number,
        place,
        packet,
        metadata,
        rest,
    }
}
