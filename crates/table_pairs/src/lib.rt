// The store's table as a lent slice of pairs, and the digest length that it has for a hash id.
#![tactic(auto)]

ghost use Rattle.std.specs.Prelude.{◌≡◌};
ghost use Rattle.table_pairs.specs.Pairs.{length_answer, length_of};

#[derive(Clone, Copy, Debug, PartialEq, Eq)]
pub struct Pair {
    pub hash_id: u32,
    pub digest_length: u16,
}

// The length of the first pair with a hash id, and None where no pair has it.
#[tactic(auto, using(crate::proofs::Looking::here, crate::proofs::Looking::past), unfolding(crate::specs::Pairs::length_of))]
pub fn length_in(pairs: &[Pair], hash: u32) -> Option<u16>
    ensures { length_answer result ≡ length_of pairs.now hash }
{
    for pair in pairs {
        if pair.hash_id == hash {
            return Some(pair.digest_length);
        }
    }
    None
}
