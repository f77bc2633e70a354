// The store's table: pairs of a hash id and a digest length, lent as a flat list of numbers, and copied into a table
// by value, an array of 32 numbers. Everyone asks it one question: does it allow this hash id with this length.
#![tactic(auto)]

ghost use Rattle.std.specs.Prelude.{◌≡◌, ◌≤◌, ℕ, List, true, false, length, take};
ghost use Rattle.std.specs.Option.{MatchOption};
ghost use Rattle.table.specs.Table.{stands, good_pair, good_pairs, good_table, allows, by_value};

use std::marker::Model;

// Whether a hash id stands in a list of pairs. It asks less of a pair than `allows`: one function for both, lent a closure, would be no plainer.
#[tactic(auto, using(std::proofs::lemmas::Bool::Decides::nat_tests, crate::proofs::Pairs::stands_pair, crate::proofs::Pairs::stands_none))]
fn stands(pairs: &[u64], hash: u64) -> bool
    ensures { result ≡ stands pairs.now hash }
{
    for pair in pairs.chunks_exact(2) {
        if pair[0] == hash {
            return true;
        }
    }
    false
}

// A hash id fits four bytes, and a digest is 1 to 1,024 bytes long.
fn good_pair(hash: u64, len: u64) -> bool
    ensures { result ≡ good_pair hash len }
{
    hash <= 0xFFFF_FFFF && (1..=1024).contains(&len)
}

// Whether a list is whole pairs, each good, with no hash id twice.
#[tactic(auto, using(std::proofs::lemmas::Bool::Decides::nat_tests, crate::proofs::Pairs::good_more, crate::proofs::Pairs::good_last))]
fn good_pairs(pairs: &[u64]) -> bool
    ensures { result ≡ good_pairs pairs.now }
{
    let mut rest = pairs;
    while let [hash, len, later @ ..] = rest {
        if !good_pair(*hash, *len) || stands(later, *hash) {
            return false;
        }
        rest = later;
    }
    rest.is_empty()
}

// Whether a list is a table.
#[tactic(auto, unfolding(crate::specs::Table::good_table))]
pub fn good(pairs: &[u64]) -> bool
    ensures { result ≡ good_table pairs.now }
{
    (1..=32).contains(&pairs.len()) && good_pairs(pairs)
}

// The table by value: a list copied to the front of an array, with zeros after it. An array has no length of its own, and the
// caller lends as many of its numbers as the list has.
#[tactic(auto, using(crate::proofs::Pairs::put_over, crate::proofs::Pairs::put_taken))]
pub fn copied(pairs: &[u64]) -> [u64; 32]
    requires { length pairs.now ≤ 32 }
    ensures { result ≡ by_value pairs.now }
{
    let mut numbers = [0u64; 32];
    numbers[..pairs.len()].copy_from_slice(pairs);
    numbers
}

// Whether a list of pairs allows a hash id with a length.
#[tactic(auto, using(std::proofs::lemmas::Bool::Decides::nat_tests, crate::proofs::Pairs::allows_pair, crate::proofs::Pairs::allows_none))]
pub fn allows(pairs: &[u64], hash: u64, len: u64) -> bool
    ensures { result ≡ allows pairs.now hash len }
{
    for pair in pairs.chunks_exact(2) {
        if pair[0] == hash && pair[1] == len {
            return true;
        }
    }
    false
}

// The pairs of a list that is a table, as they are lent. Contracts see it as the list. It holds no array of its own: a struct with one, in an
// `Option` besides, is moved three times more before it stands where it is used, and each call would pay for that (docs/PERFORMANCE.md).
// A service, which wants the table by value, has it by `copied`.
#[derive(Drop)]
pub struct LentTable<'a> {
    pairs: &'a [u64],
}

impl<'a> Model for LentTable<'a> {
    ghost Value = { List ℕ };

    ghost view = { λ t. t.pairs.now };

    ghost invariant = { λ t. good_table t.pairs.now ≡ true };
}

impl<'a> LentTable<'a> {
    // None of a list that is no table.
    pub fn new(pairs: &'a [u64]) -> Option<LentTable<'a>>
        ensures { MatchOption result (good_table pairs.now ≡ false) (λ t. (t ≡ pairs.now) × (good_table pairs.now ≡ true)) }
    {
        if !good(pairs) {
            return None;
        }
        Some(LentTable { pairs })
    }

    pub fn pairs(&self) -> &'a [u64]
        ensures same { result.now ≡ self.now }
        ensures good { good_table self.now ≡ true }
    {
        self.pairs
    }

    // Whether the table allows a hash id with a length.
    pub fn allows(&self, hash: u64, len: u64) -> bool
        ensures { result ≡ allows self.now hash len }
    {
        allows(self.pairs, hash, len)
    }
}

// The same by value, for a caller that keeps the table when its list is gone. Contracts see it as the list. `c_table::Lent` holds numbers and
// their count, too, but its numbers may be no table: what a C caller lends is judged by the services.
#[derive(Drop)]
pub struct Table {
    numbers: [u64; 32],
    count: usize,
}

impl Model for Table {
    ghost Value = { List ℕ };

    ghost view = { λ t. take t.count t.numbers };

    ghost invariant = { λ t. (t.count ≤ 32) × (good_table (take t.count t.numbers) ≡ true) };
}

impl Table {
    // None of a list that is no table.
    #[tactic(auto, using(crate::proofs::Pairs::sized, crate::proofs::Pairs::copied_front))]
    pub fn new(pairs: &[u64]) -> Option<Table>
        ensures { MatchOption result (good_table pairs.now ≡ false) (λ t. (t ≡ pairs.now) × (good_table pairs.now ≡ true)) }
    {
        let lent = LentTable::new(pairs)?;
        Some(Table {
            numbers: copied(lent.pairs()),
            count: pairs.len(),
        })
    }

    pub fn pairs(&self) -> &[u64]
        ensures same { result.now ≡ self.now }
        ensures good { good_table self.now ≡ true }
    {
        &self.numbers[..self.count]
    }

    // Whether the table allows a hash id with a length.
    pub fn allows(&self, hash: u64, len: u64) -> bool
        ensures { result ≡ allows self.now hash len }
    {
        allows(self.pairs(), hash, len)
    }
}

#[cfg(test)]
mod tests {
    use super::Table;

    // The list is gone when the table is handed on.
    fn of_two_pairs() -> Option<Table> {
        let pairs = [5, 4, 9, 32];
        Table::new(&pairs)
    }

    #[test]
    fn a_table_by_value_is_kept_longer_than_its_list(rt: HostRuntime) {
        let Some(table) = of_two_pairs() else {
            assert!(rt; false, "two pairs are a table");
            return;
        };
        assert_eq!(rt; table.pairs(), &[5, 4, 9, 32][..]);
        assert!(rt; table.allows(9, 32));
        assert!(rt; !table.allows(9, 4), "4 is the length of 5");
    }

    #[test]
    fn a_list_that_is_no_table_gives_none(rt: HostRuntime) {
        for list in [
            &[][..],
            &[5][..],
            &[5, 0][..],
            &[5, 4, 5, 32][..],
            &[0; 34][..],
        ] {
            assert!(rt; Table::new(list).is_none());
        }
    }
}
