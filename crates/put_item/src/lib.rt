// What is written of an item, over the two kinds of source: the records of a segment, and the entries that write is lent. One function
// for each column knows the kinds; those who write do not.
#![tactic(auto)]

ghost use Rattle.std.specs.Prelude.{◌≡◌, ◌+◌, ◌*◌, ◌≤◌, ◌<◌, cond, eqb, length};
ghost use Rattle.segment.specs.Format.{record_limit, listed_size};
ghost use Rattle.segment.specs.Check.{sum_lengths};
ghost use Rattle.segment.specs.Tidy.{packed, extent_fields};
ghost use Rattle.segment.specs.Write.{listed_extent, extents_from};
ghost use Rattle.key.specs.Lent.{Readable};
ghost use Rattle.lists.specs.Lists.{Each};
ghost use Rattle.put_item.specs.Lines.{record_entry, Narrow, record_of_entry};
ghost use Rattle.put_item.specs.Sources.{entry_in, extent_in, total_in, HeldIn, CountedIn, LineIn, measured_in};

use field_record::record as fields;
use key::{Items, Kind};
use offset::{BlockOffset, FileOffset};
use segment::entry::Entry;
use segment::extent::Extent;
use segment::record;
use segment::record::Record;

// A record's nine numbers.
fn entry_of_record(r: Record) -> Entry
    ensures { result ≡ record_entry r }
{
    Entry {
        hash_id: u64::from(r.hash_id),
        digest_start: r.digest_offset.0,
        digest_length: u64::from(r.digest_length),
        visibility: u64::from(r.visibility),
        imported: u64::from(r.imported),
        source: u64::from(r.source),
        gone: u64::from(r.flags),
        first_extent: r.extents_offset.0,
        extent_count: u64::from(r.extent_count),
    }
}

// An extent of the list, its numbers cut to their fields: its bytes are those of the numbers.
fn listed_extent(extents: &[u64], j: usize) -> Extent
    requires { listed_size * j + listed_size ≤ length extents.now }
    ensures { packed (extent_fields result) ≡ packed (extent_fields (listed_extent extents.now j)) }
{
    let at = Extent::LISTED * j;
    let block = extents[at];
    let offset = BlockOffset((extents[at + 1] % 4294967296) as u32);
    let length = (extents[at + 2] % 4294967296) as u32;
    Extent {
        block,
        offset,
        length,
    }
}

// The lengths of some extents of the list, added up.
fn sum_listed(extents: &[u64], first: usize, count: usize) -> u64
    requires count_in_bounds { listed_size * (first + count) ≤ length extents.now }
    requires count_bound { sum_lengths (extents_from extents.now first count) < 18446744073709551616 }
    ensures { result ≡ sum_lengths (extents_from extents.now first count) }
{
    let mut sum = 0;
    for j in first..first + count {
        sum += extents[Extent::LISTED * j + 2];
    }
    sum
}

// Where a record says that its extents lie: nowhere, if it is gone.
fn extents_place(e: Entry, at: FileOffset) -> FileOffset
    ensures { result.0 ≡ cond (eqb e.gone 1) 0 at.0 }
{
    if e.gone == 1 {
        return FileOffset(0);
    }
    at
}

// The record of an entry, with its total, its domain and its two places. Each number is known to fit its field, so it is narrowed by
// `as`: `try_from` would make an error that no caller can meet.
pub fn record_for(
    e: Entry,
    total: u64,
    domain: u32,
    digest_at: FileOffset,
    extents_at: FileOffset,
) -> Record
    requires { Narrow e }
    ensures { result ≡ record_of_entry e total domain digest_at.0 extents_at.0 }
{
    let place = extents_place(e, extents_at);
    Record {
        hash_id: e.hash_id as u32,
        digest_length: e.digest_length as u16,
        reserved: 0,
        digest_offset: digest_at,
        extents_offset: place,
        extent_count: e.extent_count as u32,
        total_length: total,
        domain,
        visibility: e.visibility as u8,
        imported: e.imported as u8,
        reserved_last: 0,
        source: e.source as u32,
        flags: e.gone as u32,
    }
}

// What items come to: how many bytes their digests are, how many extents they have, and the largest visibility.
#[derive(Clone, Copy)]
pub struct Sizes {
    pub digests: u64,
    pub extents: u64,
    pub visibility: u64,
}

// Items that are written, with the flat list of their extents: for records it is not read, since these have theirs in the segment.
#[derive(Clone, Copy)]
pub struct Source<'a> {
    pub items: Items<'a, 'a>,
    pub extents: &'a [u64],
}

impl<'a> Source<'a> {
    // An item's nine numbers.
    pub fn entry(self, k: usize) -> Entry
        requires { Readable self.items k }
        ensures { result ≡ entry_in self.entry k }
    {
        match self.items.kind {
            Kind::Records(first, sh) => {
                entry_of_record(record::nth_record(sh, self.items.bytes, first, k))
            }
            Kind::Entries => Entry::at(self.items.list, k),
        }
    }

    // The j-th extent from the first on.
    pub fn extent(self, first: usize, j: usize) -> Extent
        requires { HeldIn self first (j + 1) }
        ensures { packed (extent_fields result) ≡ packed (extent_fields (extent_in self.entry first j)) }
    {
        match self.items.kind {
            Kind::Records(_, _) => {
                Extent::at(
                    self.items.bytes,
                    FileOffset((first + Extent::SIZE * j) as u64),
                )
            }
            Kind::Entries => listed_extent(self.extents, first + j),
        }
    }

    // An item's total length.
    pub fn total(self, k: usize) -> u64
        requires { LineIn self k }
        ensures { result ≡ total_in self.entry k }
    {
        match self.items.kind {
            Kind::Records(first, sh) => {
                let at = record::begins(sh, first, k);
                fields::total_length(self.items.bytes, at, sh.total_wide)
            }
            Kind::Entries => {
                let e = Entry::at(self.items.list, k);
                sum_listed(
                    self.extents,
                    e.first_extent as usize,
                    e.extent_count as usize,
                )
            }
        }
    }

    // What the items of some numbers come to.
    pub fn measure(self, numbers: &[u16]) -> Sizes
        requires each { Each (CountedIn self) numbers.now }
        requires numbers_len_bound { length numbers.now ≤ record_limit }
        ensures { result ≡ measured_in self.entry numbers.now }
    {
        let mut digests: u64 = 0;
        let mut extents: u64 = 0;
        let mut visibility: u64 = 0;
        for &k in numbers {
            let e = self.entry(usize::from(k));
            digests += e.digest_length;
            extents += e.extent_count;
            visibility = visibility.max(e.visibility);
        }
        Sizes {
            digests,
            extents,
            visibility,
        }
    }
}
