// A hint of each item's key: a number that stands in a short list of its own and decides most comparisons by itself. The keys lie far
// apart, an item here and its digest there, and a sort that looks at them each time waits for memory.
#![tactic(auto)]

ghost use Rattle.std.specs.Prelude.{◌≡◌, length};
ghost use Rattle.segment.specs.Keys.{key_of};
ghost use Rattle.key.specs.Heads.{head_key};
ghost use Rattle.key.specs.Lent.{Readable, AllReadable, leq_in};
ghost use Rattle.key_hint.specs.Leading.{leading, Digit};
ghost use Rattle.key_hint.specs.Lent.{hint_in, HintsOf, HasHint};

use key::Items;
use key::head::{Head, number_of};

// What a digit counts at the first place of a hint, at the second and at the third.
const FIRST: u32 = 256 * 256 * 256;

const SECOND: u32 = 256 * 256;

const THIRD: u32 = 256;

// Number i of a key as a digit: from 255 on it is 255.
fn digit(head: Head, digest: &[u8], i: usize) -> u32
    ensures { Digit (key_of (head_key head digest.now)) i result }
{
    let n = number_of(head, digest, i);
    if 255 <= n {
        return 255;
    }
    n as u32
}

// A key's first four digits, and none after 255.
fn hint_of(head: Head, digest: &[u8]) -> u32
    ensures { result ≡ leading 4 (key_of (head_key head digest.now)) }
{
    let w = digit(head, digest, 0);
    if w == 255 {
        return 255 * FIRST;
    }
    let x = digit(head, digest, 1);
    if x == 255 {
        return w * FIRST + 255 * SECOND;
    }
    let y = digit(head, digest, 2);
    if y == 255 {
        return w * FIRST + x * SECOND + 255 * THIRD;
    }
    w * FIRST + x * SECOND + y * THIRD + digit(head, digest, 3)
}

pub fn hint(items: Items, k: usize) -> u32
    requires { Readable items k }
    ensures { result ≡ hint_in items.entry k }
{
    hint_of(items.head(k), items.digest(k))
}

// The hints of as many items as there is room for.
pub fn put_hints(items: Items, hints: &mut [u32])
    requires { AllReadable items (length hints.old) }
    ensures { HintsOf items.entry (length hints.old) hints.new }
{
    for (k, own) in hints.iter_mut().enumerate() {
        *own = hint(items, k);
    }
}

// Items, and a hint of the key of each.
#[derive(Clone, Copy)]
pub struct Keys<'a> {
    pub items: Items<'a, 'a>,
    pub hints: &'a [u32],
}

impl<'a> Keys<'a> {
    // Whether item i comes no later than item j. Only where their hints are equal are the keys asked.
    pub fn comes_first(self, i: usize, j: usize) -> bool
        requires hinted { HasHint self i }
        requires hinted_2 { HasHint self j }
        ensures { result ≡ leq_in self.entry.items i j }
    {
        let x = self.hints[i];
        let y = self.hints[j];
        if x < y {
            return true;
        }
        if y < x {
            return false;
        }
        key_compare::comes_first(self.items, i, j)
    }
}
