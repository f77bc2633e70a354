// The first of many items whose key stands earlier, if there is one. A nested scan yields its number. In front of it stands what
// makes it short: the sorted order tells how many items at the beginning need no look.
//
// A caller asks `key_ascending::keys_climb` first and `check_keys` only if the keys do not climb. These are two functions because
// `check_keys` has large arrays on its stack, which the compiler reserves when it is entered; keys in tidy order do not wait for that.
#![tactic(auto)]

ghost use Rattle.std.specs.Prelude.{◌≡◌, ◌≤◌};
ghost use Rattle.answer.specs.Rules.{first_over};
ghost use Rattle.segment.specs.Format.{record_limit};
ghost use Rattle.segment.specs.Keys.{fresh_key};
ghost use Rattle.key.specs.Items.{item_place};
ghost use Rattle.key.specs.Lent.{AllReadable, key_in};
ghost use Rattle.key_duplicate.specs.Known.{Known};

use answer::{Refusal, Rule};
use key::Items;

// Up to this many items the scan over all pairs is done sooner than a sort.
const FEW: usize = 40;

// The first of n items whose key stands earlier, if there is one: each item after those that are known to be new is compared with
// every one before it.
fn scan_keys(items: Items, known: usize, n: usize) -> Result<(), Refusal>
    requires items { AllReadable items n }
    requires known { Known (key_in items) known n }
    ensures { result ≡ first_over n (fresh_key (key_in items.entry) (item_place items.entry.kind)) }
{
    // A number and no Option, as the scope asks of the scan: n where no key stands earlier.
    let found = 'pairs: {
        for i in known..n {
            for j in 0..i {
                if key_equal::same_key(items, i, j) {
                    break 'pairs i;
                }
            }
        }
        n
    };
    if found < n {
        return Err(Refusal(Rule::Duplicate, items.place(found)));
    }
    Ok(())
}

// The first of n items whose key stands earlier, if there is one.
pub fn check_keys(items: Items, n: usize) -> Result<(), Refusal>
    requires items { AllReadable items n }
    requires n_le_record_limit { n ≤ record_limit }
    ensures { result ≡ first_over n (fresh_key (key_in items.entry) (item_place items.entry.kind)) }
{
    if n <= FEW {
        return scan_keys(items, 0, n);
    }
    let known = key_repeat::known_fresh(items, n);
    scan_keys(items, known, n)
}
