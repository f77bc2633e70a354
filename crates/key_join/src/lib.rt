// Two parts of a list of item numbers, merged by the items' keys and left in their place.
#![tactic(auto)]

ghost use Rattle.std.specs.Prelude.{◌≡◌, ◌≤◌, length, take, drop};
ghost use Rattle.lists.specs.Lists.{merge_by};
ghost use Rattle.key.specs.Lent.{leq_in};
ghost use Rattle.key_merge.specs.Order.{AllHinted};
ghost use Rattle.key_join.specs.Joins.{Joins};

use key_hint::Keys;

// All of `to`, from the front of `from`. Not by the library's copying, for which an archive for C would ask `memmove` from outside.
fn copy_front(from: &[u16], to: &mut [u16])
    requires { length to.old ≤ length from.now }
    ensures { to.new ≡ take (length to.old) from.now }
{
    for (i, number) in to.iter_mut().enumerate() {
        *number = from[i];
    }
}

// The first m numbers, which are sorted, and the others, into one list. Where the last of those comes no later than the first of
// these, all stay where they stand: so numbers in order are sorted by one comparison each.
pub fn join(keys: Keys, numbers: &mut [u16], m: usize, spare: &mut [u16])
    requires all_hinted { AllHinted keys numbers.old }
    requires joins { Joins (leq_in keys.items) m numbers.old }
    requires numbers_in_bounds { length numbers.old ≤ length spare.old }
    ensures { numbers.new ≡ merge_by (leq_in keys.entry.items) (take m numbers.old) (drop m numbers.old) }
{
    let last = usize::from(numbers[m - 1]);
    let next = usize::from(numbers[m]);
    if keys.comes_first(last, next) {
        return;
    }
    let (left, right) = numbers.split_at(m);
    key_merge::merge(keys, left, right, spare);
    copy_front(spare, numbers);
}
