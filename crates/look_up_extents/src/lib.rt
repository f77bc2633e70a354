// The part of a segment that holds the extents of the record with a key. The whole check is made in every call, so that no part of a
// segment is handed back that breaks a rule.
#![tactic(auto)]

ghost use Rattle.std.specs.Prelude.{◌≡◌, ◌+◌, ◌≤◌, length, take, drop};
ghost use Rattle.segment.specs.Keys.{key_from};
ghost use Rattle.segment.specs.LookUp.{looked_up, extents_part};

use answer::Found;
use checksum::Engine;
use offset::FileOffset;
use segment::extent::Extent;

// So many bytes from a place on.
fn cut(seg: &[u8], start: FileOffset, size: usize) -> &[u8]
    requires { start.0 + size ≤ length seg.now }
    ensures { result.now ≡ take size (drop start.0 seg.now) }
{
    let from = start.0 as usize;
    let end = from + size;
    &seg[from..end]
}

// The extents of the record that look up finds present: none, where it answers anything else.
pub fn extents_of_by<'a>(
    by: Engine,
    pairs: &[u64],
    seg: &'a [u8],
    hash: u64,
    digest: &[u8],
) -> &'a [u8]
    ensures { result.now ≡
        extents_part (looked_up pairs.now seg.now (key_from hash digest.now)) seg.now }
{
    match look_up::look_up_by(by, pairs, seg, hash, digest) {
        Ok(Found::Present { start, count, .. }) => cut(seg, start, Extent::SIZE * (count as usize)),
        Ok(Found::Gone { .. }) => cut(seg, FileOffset(0), 0),
        Ok(Found::Absent) => cut(seg, FileOffset(0), 0),
        Err(_) => cut(seg, FileOffset(0), 0),
    }
}
