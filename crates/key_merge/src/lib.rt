// Two sorted lists of item numbers, merged into one by the items' keys, with a hint of each.
#![tactic(auto)]

ghost use Rattle.std.specs.Prelude.{◌≡◌, ◌+◌, ◌≤◌, length, take, drop};
ghost use Rattle.lists.specs.Lists.{left_next, merge_by};
ghost use Rattle.key.specs.Lent.{leq_in};
ghost use Rattle.key_merge.specs.Order.{AllHinted};

use key_hint::Keys;

// Whether a merge that has passed i numbers of a and j of b goes on with one of a. Of equal keys a's is first, so that a sort
// keeps their order.
fn left_next(keys: Keys, a: &[u16], i: usize, b: &[u16], j: usize) -> bool
    requires all_hinted { AllHinted keys a.now }
    requires all_hinted_2 { AllHinted keys b.now }
    ensures { result ≡ left_next (leq_in keys.entry.items) (drop i a.now) (drop j b.now) }
{
    if a.len() <= i {
        return false;
    }
    if b.len() <= j {
        return true;
    }
    keys.comes_first(usize::from(a[i]), usize::from(b[j]))
}

// Two sorted lists of item numbers into one, at the front of `out`.
pub fn merge(keys: Keys, a: &[u16], b: &[u16], out: &mut [u16])
    requires all_hinted { AllHinted keys a.now }
    requires all_hinted_2 { AllHinted keys b.now }
    requires b_in_bounds { length a.now + length b.now ≤ length out.old }
    ensures { take (length a.now + length b.now) out.new ≡ merge_by (leq_in keys.entry.items) a.now b.now }
{
    let n = a.len() + b.len();
    let mut i = 0;
    let mut j = 0;
    // Each turn moves one of two places, as the keys say: a `for` would count their sum besides.
    while i + j < n {
        if left_next(keys, a, i, b, j) {
            out[i + j] = a[i];
            i += 1;
        } else {
            out[i + j] = b[j];
            j += 1;
        }
    }
}
