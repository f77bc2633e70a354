// A record, field by field as docs/FORMAT.md, "A record", lists it.
ghost use Rattle.std.specs.Prelude.{◌≡◌, ◌+◌, ◌≤◌, length};
ghost use Rattle.field_record.specs.Sizes.{record_bytes, total_in};

use crate::Field;
use offset::FileOffset;
use std::marker::PhantomData;

pub const HASH_ID: Field<u32> = Field(0, PhantomData);

pub const DIGEST_LENGTH: Field<u16> = Field(4, PhantomData);

pub const RESERVED: Field<u16> = Field(6, PhantomData);

pub const DIGEST_OFFSET: Field<FileOffset> = Field(8, PhantomData);

pub const EXTENTS_OFFSET: Field<FileOffset> = Field(16, PhantomData);

pub const EXTENT_COUNT: Field<u32> = Field(24, PhantomData);

pub const TOTAL_LENGTH: Field<u32> = Field(28, PhantomData);

pub const DOMAIN: Field<u32> = Field(32, PhantomData);

pub const VISIBILITY: Field<u8> = Field(36, PhantomData);

pub const IMPORTED: Field<u8> = Field(37, PhantomData);

pub const RESERVED_LAST: Field<u16> = Field(38, PhantomData);

pub const SOURCE: Field<u32> = Field(40, PhantomData);

pub const FLAGS: Field<u32> = Field(44, PhantomData);

// A total of eight bytes, behind all else.
pub const WIDE_TOTAL: Field<u64> = Field(48, PhantomData);

// The total of the record that begins at a place: of four bytes, or of eight.

pub fn total_length(seg: &[u8], at: FileOffset, wide: bool) -> u64
    requires { at.0 + record_bytes wide ≤ length seg.now }
    ensures { result ≡ total_in wide seg.now at.0 }
{
    if wide {
        return WIDE_TOTAL.read(seg, at);
    }
    u64::from(TOTAL_LENGTH.read(seg, at))
}
