// How many of many items are known to be new. In the sorted order equal keys stand side by side: the lowest number whose key does
// not come after its neighbour's tells how many items at the beginning have keys that stand nowhere earlier.
#![tactic(auto)]

ghost use Rattle.std.specs.Prelude.{◌≡◌, ◌≤◌, ◌-◌, length};
ghost use Rattle.segment.specs.Format.{record_limit};
ghost use Rattle.key.specs.Lent.{AllReadable, leq_in};
ghost use Rattle.key_merge.specs.Order.{AllHinted};
ghost use Rattle.key_repeat.specs.Falls.{lowest_fall, sorted_fall};

use key::Items;
use key_hint::Keys;
use key_sort::sorted;

// As many items as a segment can have.
const MOST: usize = segment::MOST_RECORDS as usize;

// Up to this many items the small arrays do.
const FEW: usize = 256;

// The lowest of the numbers whose item comes no later than that of the number before it; if there is none, as many as there are
// numbers.
fn lowest_fall(keys: Keys, numbers: &[u16]) -> usize
    requires { AllHinted keys numbers.now }
    ensures { result ≡ lowest_fall (leq_in keys.entry.items) numbers.now (length numbers.now - 1) }
{
    let mut least = numbers.len();
    for k in 1..numbers.len() {
        let x = usize::from(numbers[k]);
        let before = usize::from(numbers[k - 1]);
        if keys.comes_first(x, before) {
            least = least.min(x);
        }
    }
    least
}

// The lowest fall in the sorted order of as many items as there are numbers.
fn sorted_fall(items: Items, hints: &mut [u32], numbers: &mut [u16], spare: &mut [u16]) -> usize
    requires items { AllReadable items (length numbers.old) }
    requires hints_len { length hints.old ≡ length numbers.old }
    requires numbers_in_bounds { length numbers.old ≤ length spare.old }
    requires numbers_len_bound { length numbers.old ≤ record_limit }
    ensures { result ≡ sorted_fall (leq_in items.entry) (length numbers.old) }
{
    sorted(items, hints, numbers, spare);
    lowest_fall(Keys { items, hints }, numbers)
}

// With hints and numbers for N items. Each N has a function of its own, so that few items wait for no large arrays on the stack.
fn fall_within<const N: usize>(items: Items, n: usize) -> usize
    requires items { AllReadable items n }
    requires n_within { n ≤ N }
    requires within_limit { N ≤ record_limit }
    ensures { result ≡ sorted_fall (leq_in items.entry) n }
{
    let mut hints = [0u32; N];
    let mut numbers = [0u16; N];
    let mut spare = [0u16; N];
    sorted_fall(items, &mut hints[..n], &mut numbers[..n], &mut spare)
}

// How many items at the beginning are known to have keys that stand nowhere earlier, by the sorted order of all.
pub fn known_fresh(items: Items, n: usize) -> usize
    requires items { AllReadable items n }
    requires n_le_record_limit { n ≤ record_limit }
    ensures { result ≡ sorted_fall (leq_in items.entry) n }
{
    if n <= FEW {
        return fall_within::<FEW>(items, n);
    }
    fall_within::<MOST>(items, n)
}
