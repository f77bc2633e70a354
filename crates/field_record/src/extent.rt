// An extent: a slice of a block.
use crate::Field;
use offset::BlockOffset;
use std::marker::PhantomData;

pub const BLOCK: Field<u64> = Field(0, PhantomData);

pub const OFFSET: Field<BlockOffset> = Field(8, PhantomData);

pub const LENGTH: Field<u32> = Field(12, PhantomData);
