// Keys told apart: those of two items, and an item's from a given one.
#![tactic(auto)]

ghost use Rattle.std.specs.Prelude.{◌≡◌};
ghost use Rattle.lists.specs.Lists.{eq_list};
ghost use Rattle.segment.specs.Keys.{key_of, same_key};
ghost use Rattle.key.specs.Heads.{head_key};
ghost use Rattle.key.specs.Lent.{Readable, key_in};

use key::Items;
use key::head::Head;
use key_compare::{compare_items, compare_keys};

// Whether items i and j have the same key.
pub fn same_key(items: Items, i: usize, j: usize) -> bool
    requires item { Readable items i }
    requires item_2 { Readable items j }
    ensures { result ≡ same_key (key_in items.entry) i j }
{
    compare_items(items, i, j).is_eq()
}

// Whether an item has the key of a head and a digest.
pub fn key_is(items: Items, k: usize, head: Head, wanted: &[u8]) -> bool
    requires { Readable items k }
    ensures { result ≡ eq_list (key_in items.entry k) (key_of (head_key head wanted.now)) }
{
    let own = items.head(k);
    compare_keys(own, items.digest(k), head, wanted).is_eq()
}
