// A record, field by field as docs/FORMAT.md, "A record", lists it.
ghost use Rattle.std.specs.Prelude.{◌≡◌, ◌+◌, ◌<◌, ◌≤◌, length};
ghost use Rattle.segment.specs.Format.{record_from, record_of};
ghost use Rattle.segment.specs.Shapes.{Shaped};

use crate::shape::Shape;
use field_record::record as fields;
use offset::FileOffset;

#[derive(Clone, Copy)]
pub struct Record {
    pub hash_id: u32,
    pub digest_length: u16,
    pub reserved: u16,
    pub digest_offset: FileOffset,
    pub extents_offset: FileOffset,
    pub extent_count: u32,
    pub total_length: u64,
    pub domain: u32,
    pub visibility: u8,
    pub imported: u8,
    pub reserved_last: u16,
    pub source: u32,
    pub flags: u32,
}

impl Record {
    // The fields that every version has; of version 3 they are the whole record.
    pub const SIZE: usize = 48;

    // The record that begins at a place. Private, since it requires something and `Record` is part of the interface.
    #[tactic(auto, unfolding(crate::specs::Format::record_of))]
    fn at(sh: Shape, seg: &[u8], at: FileOffset) -> Self
        requires shaped { Shaped sh }
        requires record_size_in_bounds { at.0 + sh.record_size ≤ length seg.now }
        ensures { result ≡ record_of sh seg.now at.0 }
    {
        Self {
            hash_id: fields::HASH_ID.read(seg, at),
            digest_length: fields::DIGEST_LENGTH.read(seg, at),
            reserved: fields::RESERVED.read(seg, at),
            digest_offset: fields::DIGEST_OFFSET.read(seg, at),
            extents_offset: fields::EXTENTS_OFFSET.read(seg, at),
            extent_count: fields::EXTENT_COUNT.read(seg, at),
            total_length: fields::total_length(seg, at, sh.total_wide),
            domain: fields::DOMAIN.read(seg, at),
            visibility: fields::VISIBILITY.read(seg, at),
            imported: fields::IMPORTED.read(seg, at),
            reserved_last: fields::RESERVED_LAST.read(seg, at),
            source: fields::SOURCE.read(seg, at),
            flags: fields::FLAGS.read(seg, at),
        }
    }
}

// Where record k begins, of the records that begin at a place.
pub fn begins(sh: Shape, first: FileOffset, k: usize) -> FileOffset
    requires { record_from sh first.0 k < 18446744073709551616 }
    ensures { result.0 ≡ record_from sh first.0 k }
{
    FileOffset(first.0 + (sh.record_size * k) as u64)
}

// Record k of them.
pub fn nth_record(sh: Shape, seg: &[u8], first: FileOffset, k: usize) -> Record
    requires shaped { Shaped sh }
    requires record_size_in_bounds { record_from sh first.0 k + sh.record_size ≤ length seg.now }
    ensures { result ≡ record_of sh seg.now (record_from sh first.0 k) }
{
    Record::at(sh, seg, begins(sh, first, k))
}
