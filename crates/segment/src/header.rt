// The header, field by field as docs/FORMAT.md, "The header", lists it.
ghost use Rattle.std.specs.Prelude.{◌≡◌, ◌≤◌, length};
ghost use Rattle.segment.specs.Format.{header_size, header_of};
ghost use Rattle.segment.specs.Check.{bloom_place};

use field_frame::header as fields;
use offset::FileOffset;

#[derive(Clone, Copy)]
pub struct Header {
    pub magic: u64,
    pub version: u16,
    pub shard: u16,
    pub header_size: u32,
    pub snapshot_min: u64,
    pub snapshot_max: u64,
    pub record_count: u64,
    pub records_offset: FileOffset,
    pub bloom_offset: FileOffset,
    pub bloom_size: u64,
    pub digests_offset: FileOffset,
    pub digests_size: u64,
    pub extents_offset: FileOffset,
    pub extent_count: u64,
    pub domain: u32,
    pub visibility: u8,
    pub federation: u8,
    pub reserved: u16,
    pub flags: u64,
}

// The numbers of a segment that speak of neither its sections nor its records; the last two stand in the footer.
#[derive(Clone, Copy)]
pub struct Heading {
    pub shard: u16,
    pub snapshot_min: u64,
    pub snapshot_max: u64,
    pub domain: u32,
    pub seal_snapshot: u64,
    pub seal_time: u64,
}

impl Header {
    pub const SIZE: usize = 112;

    // Its size as wide as the header's numbers, and as the header states it.
    pub const LONG: u64 = Header::SIZE as u64;

    pub const STATED: u32 = Header::SIZE as u32;

    // The segment's header.
    #[tactic(auto, unfolding(crate::specs::Format::header_of))]
    pub fn of(seg: &[u8]) -> Self
        requires { header_size ≤ length seg.now }
        ensures { result ≡ header_of seg.now }
    {
        let front = FileOffset(0);
        Self {
            magic: fields::MAGIC.read(seg, front),
            version: fields::VERSION.read(seg, front),
            shard: fields::SHARD.read(seg, front),
            header_size: fields::HEADER_SIZE.read(seg, front),
            snapshot_min: fields::SNAPSHOT_MIN.read(seg, front),
            snapshot_max: fields::SNAPSHOT_MAX.read(seg, front),
            record_count: fields::RECORD_COUNT.read(seg, front),
            records_offset: fields::RECORDS_OFFSET.read(seg, front),
            bloom_offset: fields::BLOOM_OFFSET.read(seg, front),
            bloom_size: fields::BLOOM_SIZE.read(seg, front),
            digests_offset: fields::DIGESTS_OFFSET.read(seg, front),
            digests_size: fields::DIGESTS_SIZE.read(seg, front),
            extents_offset: fields::EXTENTS_OFFSET.read(seg, front),
            extent_count: fields::EXTENT_COUNT.read(seg, front),
            domain: fields::DOMAIN.read(seg, front),
            visibility: fields::VISIBILITY.read(seg, front),
            federation: fields::FEDERATION.read(seg, front),
            reserved: fields::RESERVED.read(seg, front),
            flags: fields::FLAGS.read(seg, front),
        }
    }
}

// Where the bloom bytes begin: nowhere, if there are none.
pub fn bloom_place(size: u64) -> FileOffset
    ensures { result.0 ≡ bloom_place size }
{
    if size == 0 {
        return FileOffset(0);
    }
    FileOffset(Header::LONG)
}
