// 10: the numbers of each extent fit their fields, each lies inside its block, and the lengths add up to no more than a total may
// be. One pass over the extents.
ghost use Rattle.std.specs.Prelude.{◌≡◌, ◌&&◌, ◌+◌, ◌<◌, ◌≤◌, ltb, leb};
ghost use Rattle.segment.specs.Write.{listed_extents, extents_from};
ghost use Rattle.write_entry.specs.Kept.{total_kept};

use segment::extent::Extent;

// Whether an extent's offset and length fit their fields, and it lies inside its block.
#[tactic(auto, using(std::proofs::lemmas::Bool::Decides::nat_tests))]
fn extent_fits(offset: u64, size: u64) -> bool
    ensures { result ≡ (ltb offset 4294967296 && (ltb size 4294967296 && leb (offset + size) 4294967296)) }
{
    offset < 4294967296 && size < 4294967296 && offset + size <= 4294967296
}

// Of `count` extents of a list, from `first` on.
pub fn total_kept(extents: &[u64], first: u64, count: u64, limit: u64) -> bool
    requires { (first + count ≤ listed_extents extents.now) × (count < 4294967296) }
    ensures { result ≡ total_kept (extents_from extents.now first count) limit }
{
    let mut sum: u64 = 0;
    for i in 0..count {
        let at = Extent::LISTED * (first + i) as usize;
        let size = extents[at + 2];
        if !extent_fits(extents[at + 1], size) {
            return false;
        }
        sum += size;
    }
    sum <= limit
}
