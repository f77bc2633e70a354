// Little-endian numbers of one, two, four and eight bytes, read from a slice of bytes at a place, and put into one.
// Whoever calls these shows that the place lies inside the slice; they know a number only as `num_at`, and what is left of one as `put`.
#![tactic(auto)]

ghost use Rattle.std.specs.Prelude.{◌≡◌, ◌+◌, ◌≤◌, ℕ, length, take, drop};
ghost use Rattle.numbers.specs.Numbers.{num_at, bytes_of, put};

// What stands in bytes as a number: how many bytes it has, and which number it is.
pub trait Number: Copy {
    ghost size: { ℕ };

    ghost value: { Self → ℕ };

    fn read(s: &[u8], at: usize) -> Self
        requires { at + size ≤ length s.now }
        ensures { value result ≡ num_at size s.now at };

    fn put(self, out: &mut [u8], at: usize)
        requires { at + size ≤ length out.old }
        ensures { out.new ≡ put out.old at (bytes_of size (value self)) };
}

fn bytes_at<const N: usize>(s: &[u8], at: usize) -> [u8; N]
    requires { at + N ≤ length s.now }
    ensures { result ≡ take N (drop at s.now) }
{
    s[at..at + N].try_into().unwrap()
}

impl Number for u8 {
    ghost size = { 1 };

    ghost value = { λ x. x };

    #[tactic(auto, using(crate::proofs::NumberLaws::num_at_one))]
    fn read(s: &[u8], at: usize) -> u8 {
        s[at]
    }

    #[tactic(auto, using(crate::proofs::NumberLaws::put_byte))]
    fn put(self, out: &mut [u8], at: usize) {
        out[at] = self;
    }
}

#[tactic(auto, using(crate::proofs::LibraryBytes::read_bytes, crate::proofs::LibraryBytes::put_bytes, crate::proofs::NumberLaws::two_by_bytes))]
impl Number for u16 {
    ghost size = { 2 };

    ghost value = { λ x. x };

    fn read(s: &[u8], at: usize) -> u16 {
        u16::from_le_bytes(bytes_at(s, at))
    }

    fn put(self, out: &mut [u8], at: usize) {
        out[at..at + 2].copy_from_slice(&self.to_le_bytes());
    }
}

#[tactic(auto, using(crate::proofs::LibraryBytes::read_bytes, crate::proofs::LibraryBytes::put_bytes, crate::proofs::NumberLaws::four_by_halves, crate::proofs::NumberLaws::put_four_by_halves))]
impl Number for u32 {
    ghost size = { 4 };

    ghost value = { λ x. x };

    fn read(s: &[u8], at: usize) -> u32 {
        u32::from_le_bytes(bytes_at(s, at))
    }

    fn put(self, out: &mut [u8], at: usize) {
        out[at..at + 4].copy_from_slice(&self.to_le_bytes());
    }
}

#[tactic(auto, using(crate::proofs::LibraryBytes::read_bytes, crate::proofs::LibraryBytes::put_bytes, crate::proofs::NumberLaws::eight_by_halves, crate::proofs::NumberLaws::put_eight_by_halves))]
impl Number for u64 {
    ghost size = { 8 };

    ghost value = { λ x. x };

    fn read(s: &[u8], at: usize) -> u64 {
        u64::from_le_bytes(bytes_at(s, at))
    }

    fn put(self, out: &mut [u8], at: usize) {
        out[at..at + 8].copy_from_slice(&self.to_le_bytes());
    }
}
