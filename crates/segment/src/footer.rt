// The footer: the checksum of every byte before it, and the two seal numbers.
ghost use Rattle.std.specs.Prelude.{◌≡◌, ◌+◌, ◌≤◌, length};
ghost use Rattle.segment.specs.Format.{footer_size, footer_of};

use field_frame::footer as fields;
use offset::FileOffset;

#[derive(Clone, Copy)]
pub struct Footer {
    pub checksum: u64,
    pub seal_snapshot: u64,
    pub seal_time: u64,
}

impl Footer {
    pub const SIZE: usize = 24;

    // Its size as wide as the header's numbers.
    pub const LONG: u64 = Footer::SIZE as u64;

    // The footer that begins at a place.
    #[tactic(auto, unfolding(crate::specs::Format::footer_of))]
    pub fn at(seg: &[u8], at: FileOffset) -> Self
        requires { at.0 + footer_size ≤ length seg.now }
        ensures { result ≡ footer_of seg.now at.0 }
    {
        Self {
            checksum: fields::CHECKSUM.read(seg, at),
            seal_snapshot: fields::SEAL_SNAPSHOT.read(seg, at),
            seal_time: fields::SEAL_TIME.read(seg, at),
        }
    }
}
