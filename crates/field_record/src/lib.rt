// The fields of a segment's records and extents: a table for each, which says of every field what it holds and where it stands. Whoever
// reads a field and whoever puts it go by the same line of the table.
#![tactic(auto)]

ghost use Rattle.std.specs.Prelude.{◌≡◌, ◌+◌, ◌≤◌, length};
ghost use Rattle.numbers.specs.Numbers.{num_at, bytes_of, put};

use numbers::Number;
use offset::FileOffset;
use std::marker::PhantomData;

pub mod extent;
pub mod record;

// A field of a structure: the place at which it stands, counted from the structure's beginning, and the type of what stands there.
#[derive(Clone, Copy)]
pub struct Field<T>(pub usize, pub PhantomData<T>);

impl<T: Number> Field<T> {
    // The field of the structure that begins at a place of the segment.
    pub fn read(self, seg: &[u8], from: FileOffset) -> T
        requires { from.0 + self.0 + T.size ≤ length seg.now }
        ensures { T.value result ≡ num_at T.size seg.now (from.0 + self.0) }
    {
        T::read(seg, from.0 as usize + self.0)
    }

    // The field of the structure that is put at a place of the output, which may be a stretch of a file.
    pub fn put(self, out: &mut [u8], from: usize, x: T)
        requires { from + self.0 + T.size ≤ length out.old }
        ensures { out.new ≡ put out.old (from + self.0) (bytes_of T.size (T.value x)) }
    {
        x.put(out, from + self.0);
    }
}
