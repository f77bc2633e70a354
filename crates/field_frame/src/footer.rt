// The footer: the checksum of every byte before it, and the two seal numbers.
use field_record::Field;
use std::marker::PhantomData;

pub const CHECKSUM: Field<u64> = Field(0, PhantomData);

pub const SEAL_SNAPSHOT: Field<u64> = Field(8, PhantomData);

pub const SEAL_TIME: Field<u64> = Field(16, PhantomData);
