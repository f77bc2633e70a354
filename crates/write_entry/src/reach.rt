// 15: how far an entry reaches into the lent lists. A start and a count may both be as wide as a number can be: the start is
// taken away from the end, so nothing wraps.
ghost use Rattle.std.specs.Prelude.{◌≡◌, ◌+◌, leb};
ghost use Rattle.write_entry.specs.Kept.{lists_kept};

// Whether a start and a count pass no end, over whole numbers.
fn within(start: u64, count: u64, end: u64) -> bool
    ensures { result ≡ leb (start + count) end }
{
    start <= end && count <= end - start
}

// Of an entry's digest among `bytes` digest bytes, and of its extents among the `listed` ones.
#[tactic(auto, unfolding(crate::specs::Kept::lists_kept))]
pub fn lists_kept(start: u64, size: u64, bytes: u64, first: u64, count: u64, listed: u64) -> bool
    ensures { result ≡ lists_kept start size bytes first count listed }
{
    within(start, size, bytes) && within(first, count, listed)
}
