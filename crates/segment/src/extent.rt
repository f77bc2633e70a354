// An extent: a slice of a block.
ghost use Rattle.std.specs.Prelude.{◌≡◌, ◌+◌, ◌≤◌, length};
ghost use Rattle.segment.specs.Format.{extent_size, extent_of};

use field_record::extent as fields;
use offset::{BlockOffset, FileOffset};

#[derive(Clone, Copy)]
pub struct Extent {
    pub block: u64,
    pub offset: BlockOffset,
    pub length: u32,
}

impl Extent {
    pub const SIZE: usize = 16;

    // The numbers of an extent in a flat list: block, offset and length.
    pub const LISTED: usize = 3;

    // Its size as wide as the header's numbers.
    pub const LONG: u64 = Extent::SIZE as u64;

    // The extent that begins at a place.
    #[tactic(auto, unfolding(crate::specs::Format::extent_of))]
    pub fn at(seg: &[u8], at: FileOffset) -> Self
        requires { at.0 + extent_size ≤ length seg.now }
        ensures { result ≡ extent_of seg.now at.0 }
    {
        Self {
            block: fields::BLOCK.read(seg, at),
            offset: fields::OFFSET.read(seg, at),
            length: fields::LENGTH.read(seg, at),
        }
    }
}
