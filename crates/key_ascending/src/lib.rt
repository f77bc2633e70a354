// Whether the keys of many items climb, each before the next. Keys in tidy order do, and then none stands twice.
#![tactic(auto)]

ghost use Rattle.std.specs.Prelude.{◌≡◌};
ghost use Rattle.key.specs.Lent.{AllReadable, leq_in};
ghost use Rattle.key_ascending.specs.Climbs.{climbs};

use key::Items;
use key_compare::comes_first;
use key_hint::hint;

// Whether each item's key comes before the next one's. A hint that grows says so by itself; only where it does not are the keys
// asked.
pub fn keys_climb(items: Items, n: usize) -> bool
    requires { AllReadable items n }
    ensures { result ≡ climbs (leq_in items.entry) n }
{
    if n < 1 {
        return true;
    }
    let mut before = hint(items, 0);
    for i in 1..n {
        let own = hint(items, i);
        if own <= before {
            if comes_first(items, i, i - 1) {
                return false;
            }
        }
        before = own;
    }
    true
}
