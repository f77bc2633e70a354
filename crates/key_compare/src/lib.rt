// Keys in their order: which of two lists of bytes is the lesser, which of two keys, and which of two items comes first.
#![tactic(auto)]

ghost use Rattle.std.specs.Prelude.{◌≡◌};
ghost use Rattle.segment.specs.Keys.{key_of};
ghost use Rattle.key.specs.Heads.{head_key, lex};
ghost use Rattle.key.specs.Lent.{Readable, key_in, leq_in};

use key::Items;
use key::head::{Head, compare_heads};
use std::cmp::Ordering;

// So many bytes are told one by one: most keys part among them, and the library looks at many bytes before it tells.
const NEAR: usize = 16;

// The library's comparison. Never inlined, so that what compares the near bytes stays short enough to be inlined where keys are compared.
#[inline(never)]
fn compare_far(a: &[u8], b: &[u8]) -> Ordering
    ensures { result ≡ lex a.now b.now }
{
    a.cmp(&b)
}

// The first unlike bytes decide; where one list is the other's beginning, it is the lesser.
pub fn compare_bytes(a: &[u8], b: &[u8]) -> Ordering
    ensures { result ≡ lex a.now b.now }
{
    for i in 0..a.len().min(b.len()).min(NEAR) {
        if a[i] != b[i] {
            return a[i].cmp(&b[i]);
        }
    }
    compare_far(a, b)
}

// How two keys stand to each other: their heads decide, and where these are equal the digests.
pub fn compare_keys(a: Head, x: &[u8], b: Head, y: &[u8]) -> Ordering
    ensures { result ≡ lex (key_of (head_key a x.now)) (key_of (head_key b y.now)) }
{
    compare_heads(a, b).then_with(|| compare_bytes(x, y))
}

// How the keys of items i and j stand to each other.
pub fn compare_items(items: Items, i: usize, j: usize) -> Ordering
    requires item { Readable items i }
    requires item_2 { Readable items j }
    ensures { result ≡ lex (key_in items.entry i) (key_in items.entry j) }
{
    let a = items.head(i);
    let b = items.head(j);
    compare_keys(a, items.digest(i), b, items.digest(j))
}

// Whether item i comes no later than item j.
pub fn comes_first(items: Items, i: usize, j: usize) -> bool
    requires item { Readable items i }
    requires item_2 { Readable items j }
    ensures { result ≡ leq_in items.entry i j }
{
    compare_items(items, i, j).is_le()
}
