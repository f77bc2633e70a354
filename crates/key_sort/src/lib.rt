// Item numbers: counted up, and sorted by the items' keys, with a hint of each.
#![tactic(auto)]

ghost use Rattle.std.specs.Prelude.{◌≡◌, ◌≤◌, length};
ghost use Rattle.lists.specs.Lists.{sort_by, count_from};
ghost use Rattle.segment.specs.Format.{record_limit};
ghost use Rattle.key.specs.Lent.{AllReadable, leq_in};
ghost use Rattle.key_merge.specs.Order.{AllHinted};
ghost use Rattle.key_sort.specs.Sorted.{SortedIn};

use key::Items;
use key_ascending::keys_climb;
use key_hint::{Keys, put_hints};
use key_join::join;

// 0, 1, 2 and so on.
fn count_up(numbers: &mut [u16])
    requires { length numbers.old ≤ record_limit }
    ensures { numbers.new ≡ count_from 0 (length numbers.old) }
{
    for (k, number) in numbers.iter_mut().enumerate() {
        *number = k as u16;
    }
}

// Sorts item numbers by their items' keys; those of equal keys stay in the order in which they stand. Each half is sorted, and
// the two are joined with the help of the spare numbers, so that n numbers take n log n steps and log n calls inside each other.
fn sort(keys: Keys, numbers: &mut [u16], spare: &mut [u16])
    requires all_hinted { AllHinted keys numbers.old }
    requires numbers_in_bounds { length numbers.old ≤ length spare.old }
    ensures { numbers.new ≡ sort_by (leq_in keys.entry.items) numbers.old }
{
    let n = numbers.len();
    if n < 2 {
        return;
    }
    let m = n / 2;
    let (left, right) = numbers.split_at_mut(m);
    sort(keys, left, spare);
    sort(keys, right, spare);
    join(keys, numbers, m, spare);
}

// The numbers of as many items as there is room for, sorted by the items' keys; and the items' hints, which are left to compare by. Where
// the keys climb already, as those of a tidy segment do, there is nothing to sort.
pub fn sorted(items: Items, hints: &mut [u32], numbers: &mut [u16], spare: &mut [u16])
    requires items { AllReadable items (length numbers.old) }
    requires hints_len { length hints.old ≡ length numbers.old }
    requires numbers_in_bounds { length numbers.old ≤ length spare.old }
    requires numbers_len_bound { length numbers.old ≤ record_limit }
    ensures { SortedIn items.entry (length numbers.old) hints.new numbers.new }
{
    put_hints(items, hints);
    count_up(numbers);
    if keys_climb(items, numbers.len()) {
        return;
    }
    sort(Keys { items, hints }, numbers, spare);
}
