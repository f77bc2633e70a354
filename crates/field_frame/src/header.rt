// The header, field by field as docs/FORMAT.md, "The header", lists it.
use field_record::Field;
use offset::FileOffset;
use std::marker::PhantomData;

pub const MAGIC: Field<u64> = Field(0, PhantomData);

pub const VERSION: Field<u16> = Field(8, PhantomData);

pub const SHARD: Field<u16> = Field(10, PhantomData);

pub const HEADER_SIZE: Field<u32> = Field(12, PhantomData);

pub const SNAPSHOT_MIN: Field<u64> = Field(16, PhantomData);

pub const SNAPSHOT_MAX: Field<u64> = Field(24, PhantomData);

pub const RECORD_COUNT: Field<u64> = Field(32, PhantomData);

pub const RECORDS_OFFSET: Field<FileOffset> = Field(40, PhantomData);

pub const BLOOM_OFFSET: Field<FileOffset> = Field(48, PhantomData);

pub const BLOOM_SIZE: Field<u64> = Field(56, PhantomData);

pub const DIGESTS_OFFSET: Field<FileOffset> = Field(64, PhantomData);

pub const DIGESTS_SIZE: Field<u64> = Field(72, PhantomData);

pub const EXTENTS_OFFSET: Field<FileOffset> = Field(80, PhantomData);

pub const EXTENT_COUNT: Field<u64> = Field(88, PhantomData);

pub const DOMAIN: Field<u32> = Field(96, PhantomData);

pub const VISIBILITY: Field<u8> = Field(100, PhantomData);

pub const FEDERATION: Field<u8> = Field(101, PhantomData);

pub const RESERVED: Field<u16> = Field(102, PhantomData);

pub const FLAGS: Field<u64> = Field(104, PhantomData);
