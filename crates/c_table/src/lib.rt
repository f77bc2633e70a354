// The store's table as C lends it: bytes, eight to a number, which are put together into a table by value.
#![tactic(auto)]

ghost use Rattle.std.specs.Prelude.{◌≡◌, ◌≤◌, ℕ, List, length, take};
ghost use Rattle.c_table.specs.Lent.{taken};

use numbers::Number;
use std::marker::Model;

// How many numbers are taken: none where the last one is unfinished or there are more than a table has. An empty table
// breaks the table's rule too, so such bytes are refused by the same number, 14.
#[tactic(auto, using(crate::proofs::Taking::unfinished, crate::proofs::Taking::too_many, crate::proofs::Taking::whole))]
fn count_in(bytes: &[u8]) -> usize
    ensures { result ≡ length (taken bytes.now) }
{
    if bytes.len() % 8 != 0 || bytes.len() > 256 {
        return 0;
    }
    bytes.len() / 8
}

// The numbers that are taken, by value. Contracts see them as the list.
#[derive(Drop)]
pub struct Lent {
    numbers: [u64; 32],
    count: usize,
}

impl Model for Lent {
    ghost Value = { List ℕ };

    ghost view = { λ t. take t.count t.numbers };

    ghost invariant = { λ t. t.count ≤ 32 };
}

impl Lent {
    pub fn new(bytes: &[u8]) -> Lent
        ensures { result ≡ taken bytes.now }
    {
        let count = count_in(bytes);
        let mut table = [0u64; 32];
        for i in 0..count {
            table[i] = u64::read(bytes, 8 * i);
        }
        Lent {
            numbers: table,
            count,
        }
    }

    pub fn pairs(&self) -> &[u64]
        ensures { result.now ≡ self.now }
    {
        &self.numbers[..self.count]
    }
}
