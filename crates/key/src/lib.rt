// Keys of items, over two kinds of source: the records of a segment, and the entries that write is lent. Both kinds have their
// digests in a run of bytes. One function for each column knows the kinds; nothing above it does.
#![tactic(auto)]

ghost use Rattle.std.specs.Prelude.{◌≡◌, ◌+◌, ◌≤◌, ◌<◌, [], length};
ghost use Rattle.segment.specs.Format.{least_record};
ghost use Rattle.key.specs.declared.Kind.TheVariants.{Records, Entries};
ghost use Rattle.key.specs.Items.{record_span, entry_span, item_place};
ghost use Rattle.key.specs.Lent.{Readable, hash_in, head_in, span_in, digest_in};

use crate::head::Head;
use field_record::record as fields;
use offset::FileOffset;
use segment::entry::Entry;
use segment::record;
use segment::shape::Shape;

pub mod head;

// The records of a shape that begin at a place in the segment, or the entries of a flat list, nine numbers each.
#[derive(Clone, Copy)]
pub enum Kind {
    Records(FileOffset, Shape),
    Entries,
}

// What is lent as a list of entries, or of their extents, where the items are records: none.
pub const NO_LIST: [u64; 0] = [];

// Items, and what they are read from. For records the bytes are the segment, and the list is not read; for entries the bytes are the
// run of digests, and the list holds the entries. A digest is a part of the bytes, and lives as long as these.
#[derive(Clone, Copy)]
pub struct Items<'a, 'l> {
    pub kind: Kind,
    pub bytes: &'a [u8],
    pub list: &'l [u64],
}

// A part of the bytes: where it starts, and how long it is.
#[derive(Clone, Copy)]
pub struct Span {
    pub start: usize,
    pub size: usize,
}

fn record_span(sh: Shape, bytes: &[u8], at: FileOffset) -> Span
    requires { at.0 + least_record ≤ length bytes.now }
    ensures { result ≡ record_span sh bytes.now at.0 }
{
    let start = fields::DIGEST_OFFSET.read(bytes, at).0 as usize;
    let size = fields::DIGEST_LENGTH.read(bytes, at) as usize;
    Span { start, size }
}

fn entry_span(e: Entry) -> Span
    ensures { result ≡ entry_span e }
{
    let start = e.digest_start as usize;
    let size = e.digest_length as usize;
    Span { start, size }
}

impl<'a, 'l> Items<'a, 'l> {
    // The records of a shape that begin at a place in a segment.
    pub fn records(first: FileOffset, shape: Shape, segment: &'a [u8]) -> Items<'a, 'l>
        ensures kind { result.kind ≡ Records first shape }
        ensures bytes { result.bytes.now ≡ segment.now }
        ensures list { result.list.now ≡ [] }
    {
        Items {
            kind: Kind::Records(first, shape),
            bytes: segment,
            list: &NO_LIST,
        }
    }

    // The entries of a flat list, and the run of their digests.
    pub fn entries(digests: &'a [u8], entries: &'l [u64]) -> Items<'a, 'l>
        ensures kind { result.kind ≡ Entries }
        ensures bytes { result.bytes.now ≡ digests.now }
        ensures list { result.list.now ≡ entries.now }
    {
        Items {
            kind: Kind::Entries,
            bytes: digests,
            list: entries,
        }
    }

    fn hash(self, k: usize) -> u64
        requires { Readable self k }
        ensures { result ≡ hash_in self.entry k }
    {
        match self.kind {
            Kind::Records(first, sh) => {
                let at = record::begins(sh, first, k);
                u64::from(fields::HASH_ID.read(self.bytes, at))
            }
            Kind::Entries => Entry::at(self.list, k).hash_id,
        }
    }

    // What an item's key holds beside its digest.
    pub fn head(self, k: usize) -> Head
        requires { Readable self k }
        ensures { result ≡ head_in self.entry k }
    {
        Head {
            hash_id: self.hash(k),
        }
    }

    // Where the digest of an item lies in the bytes.
    pub fn digest_span(self, k: usize) -> Span
        requires { Readable self k }
        ensures { result ≡ span_in self.entry k }
    {
        match self.kind {
            Kind::Records(first, sh) => record_span(sh, self.bytes, record::begins(sh, first, k)),
            Kind::Entries => entry_span(Entry::at(self.list, k)),
        }
    }

    pub fn digest(self, k: usize) -> &'a [u8]
        requires { Readable self k }
        ensures { result.now ≡ digest_in self.entry k }
    {
        let span = self.digest_span(k);
        let start = span.start;
        let end = start + span.size;
        &self.bytes[start..end]
    }

    // The place of a refusal of an item.
    pub fn place(self, k: usize) -> u64
        requires { item_place self.kind k < 18446744073709551616 }
        ensures { result ≡ item_place self.entry.kind k }
    {
        match self.kind {
            Kind::Records(first, sh) => record::begins(sh, first, k).0,
            Kind::Entries => segment::entry::place_of(k),
        }
    }
}
