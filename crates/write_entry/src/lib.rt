// The rules of one entry that write is lent, each a test of the entry's numbers: its marks and its places here, how far it
// reaches into the lent lists in `reach`, and its extents in `total`. Which refusal a broken rule gives is the caller's.
#![tactic(auto)]

ghost use Rattle.std.specs.Prelude.{◌≡◌};
ghost use Rattle.write_entry.specs.Kept.{marks_kept, places_kept};

pub mod reach;
pub mod total;

// 7: visibility and both marks are 0 or 1, the source fits its field, and an entry that is not imported names none.
#[tactic(auto, using(std::proofs::lemmas::Bool::Decides::nat_tests), unfolding(crate::specs::Kept::marks_kept))]
pub fn marks_kept(visibility: u64, imported: u64, gone: u64, source: u64) -> bool
    ensures { result ≡ marks_kept visibility imported gone source }
{
    visibility <= 1
        && imported <= 1
        && gone <= 1
        && source < 4294967296
        && (imported == 1 || source == 0)
}

// 9: a gone entry has neither a first extent nor a count; any other has an extent, and a count that fits its field.
#[tactic(auto, using(std::proofs::lemmas::Bool::Decides::nat_tests), unfolding(crate::specs::Kept::places_kept))]
pub fn places_kept(gone: u64, first: u64, count: u64) -> bool
    ensures { result ≡ places_kept gone first count }
{
    if gone == 1 {
        return first == 0 && count == 0;
    }
    1 <= count && count < 4294967296
}
