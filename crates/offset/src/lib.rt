// The two kinds of offset. A place in the file and a place in a block are different things: the sum of one of each has no meaning, and a
// function that takes one says by its type which.
#![tactic(auto)]

use numbers::Number;

// A place in the file: how many bytes stand before it.
#[derive(Clone, Copy, Debug, PartialEq, Eq, PartialOrd, Ord)]
pub struct FileOffset(pub u64);

// A place in a block.
#[derive(Clone, Copy, Debug, PartialEq, Eq, PartialOrd, Ord)]
pub struct BlockOffset(pub u32);

impl Number for FileOffset {
    ghost size = { 8 };

    ghost value = { λ x. x.0 };

    fn read(s: &[u8], at: usize) -> FileOffset {
        FileOffset(u64::read(s, at))
    }

    fn put(self, out: &mut [u8], at: usize) {
        u64::put(self.0, out, at);
    }
}

impl Number for BlockOffset {
    ghost size = { 4 };

    ghost value = { λ x. x.0 };

    fn read(s: &[u8], at: usize) -> BlockOffset {
        BlockOffset(u32::read(s, at))
    }

    fn put(self, out: &mut [u8], at: usize) {
        u32::put(self.0, out, at);
    }
}
