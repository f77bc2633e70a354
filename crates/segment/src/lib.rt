// The parts of a segment as docs/FORMAT.md lays them out: the four kinds with their sizes and constructors, the shape of a
// version, and an entry of write. What the fields and the services mean is written in specs/.
#![tactic(auto)]

ghost use Rattle.std.specs.Prelude.{◌≡◌, ◌+◌, ◌≤◌};
ghost use Rattle.segment.specs.Tidy.{lacking};

pub mod entry;
pub mod extent;
pub mod footer;
pub mod header;
pub mod record;
pub mod shape;

// A number of bytes with the zeros that it lacks to a multiple of 8.
pub fn padded(n: u64) -> u64
    requires { n ≤ 1152921504606846976 }
    ensures { result ≡ n + lacking n }
{
    n + (8 - n % 8) % 8
}

// As many records as a segment may have.
pub const MOST_RECORDS: u64 = 65536;

// A segment's length at the most: one GiB.
pub const LIMIT: u64 = 1073741824;
