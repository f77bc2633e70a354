// The refusals, and what look up answers. A service answers a `Result`: check nothing more than that a segment is accepted, write and
// tidy the result's length, and each of them a `Refusal` otherwise. `answer_number::number` gives the number of a refusal's rule.
#![tactic(auto)]

use offset::FileOffset;

// The rules that are refused by, each with a number of its own.
#[derive(Clone, Copy, Debug, PartialEq, Eq)]
pub enum Rule {
    Size,
    Magic,
    Version,
    Header,
    LayoutBloom,
    LayoutRecords,
    LayoutDigests,
    LayoutExtents,
    LayoutLength,
    Checksum,
    Record,
    Digest,
    Extents,
    Total,
    Visibility,
    Duplicate,
    Room,
    Table,
    List,
    Large,
    Key,
}

// The rule that is broken, and the place.
#[derive(Clone, Copy, Debug, PartialEq, Eq)]
pub struct Refusal(pub Rule, pub u64);

// What look up answers of an accepted segment. The source is the domain that the record was imported from, if it was. The extents of a
// present record are the `count` extents that begin at byte `start` of the segment.
#[derive(Clone, Copy, Debug, PartialEq, Eq)]
pub enum Found {
    Absent,
    Gone {
        visibility: u8,
        domain: u32,
        source: Option<u32>,
    },
    Present {
        visibility: u8,
        domain: u32,
        source: Option<u32>,
        total: u64,
        start: FileOffset,
        count: u32,
    },
}
