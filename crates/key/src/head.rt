// What a key holds beside its digest. Who compares keys or makes a hint of one asks here, so that it is known in one place which
// numbers stand before a digest, and in which order.
ghost use Rattle.std.specs.Prelude.{◌≡◌, ◌++◌, get_or};
ghost use Rattle.key.specs.Heads.{head_numbers, lex};

use std::cmp::Ordering;

// The numbers of a key that stand before its digest. They decide in their order.
#[derive(Clone, Copy, PartialEq, Eq, PartialOrd, Ord)]
pub struct Head {
    pub hash_id: u64,
}

pub fn compare_heads(a: Head, b: Head) -> Ordering
    ensures { result ≡ lex (head_numbers a) (head_numbers b) }
{
    a.cmp(&b)
}

// Number i of a key: those of its head, then the digest's bytes, and 0 where these have ended.
pub fn number_of(head: Head, digest: &[u8], i: usize) -> u64
    ensures { result ≡ get_or (head_numbers head ++ digest.now) i 0 }
{
    if i < 1 {
        return head.hash_id;
    }
    let at = i - 1;
    if at < digest.len() {
        return u64::from(digest[at]);
    }
    0
}
