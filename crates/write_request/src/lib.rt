// The check of what write is lent, between the table and the size: 16 for the entry count, 51 for the bloom bytes, the
// entries by number, and 12.
#![tactic(auto)]

ghost use Rattle.std.specs.Prelude.{◌≡◌};
ghost use Rattle.answer.specs.Rules.{first_over};
ghost use Rattle.segment.specs.Write.{entry_count, entry_rules, entry_verdict, request_rules};

use answer::{Refusal, Rule};
use key::Items;
use segment::entry;
use segment::entry::Entry;
use segment::extent::Extent;
use segment::shape::Shape;
use write_entry::reach::lists_kept;
use write_entry::total::total_kept;

// As many entries as there may be.
const MOST: usize = segment::MOST_RECORDS as usize;

// One entry, which is refused at a place.
fn check_entry(
    sh: Shape,
    pairs: &[u64],
    digests: &[u8],
    extents: &[u64],
    e: Entry,
    place: u64,
) -> Result<(), Refusal>
    ensures { result ≡ entry_rules sh pairs.now digests.now extents.now e place }
{
    let bytes = digests.len() as u64;
    let count = (extents.len() / Extent::LISTED) as u64;
    if !write_entry::marks_kept(e.visibility, e.imported, e.gone, e.source) {
        return Err(Refusal(Rule::Record, place));
    }
    if !lists_kept(
        e.digest_start,
        e.digest_length,
        bytes,
        e.first_extent,
        e.extent_count,
        count,
    ) {
        return Err(Refusal(Rule::List, place));
    }
    if !table::allows(pairs, e.hash_id, e.digest_length) {
        return Err(Refusal(Rule::Digest, place));
    }
    if !write_entry::places_kept(e.gone, e.first_extent, e.extent_count) {
        return Err(Refusal(Rule::Extents, place));
    }
    if !total_kept(extents, e.first_extent, e.extent_count, sh.total_limit) {
        return Err(Refusal(Rule::Total, place));
    }
    Ok(())
}

// Every whole entry of the list.
fn check_entries(
    sh: Shape,
    pairs: &[u64],
    entries: &[u64],
    digests: &[u8],
    extents: &[u64],
) -> Result<(), Refusal>
    ensures { result ≡ first_over (entry_count entries.now)
        (entry_verdict sh pairs.now entries.now digests.now extents.now) }
{
    for k in 0..entries.len() / Entry::SIZE {
        check_entry(
            sh,
            pairs,
            digests,
            extents,
            Entry::at(entries, k),
            entry::place_of(k),
        )?;
    }
    Ok(())
}

// `bloom` is the number of bloom bytes; which they are does not matter here.
pub fn check_request(
    sh: Shape,
    pairs: &[u64],
    bloom: usize,
    entries: &[u64],
    digests: &[u8],
    extents: &[u64],
) -> Result<(), Refusal>
    ensures { result ≡ request_rules sh pairs.now bloom entries.now digests.now extents.now }
{
    let n = entries.len() / Entry::SIZE;
    if MOST < n {
        return Err(Refusal(Rule::Large, 0));
    }
    if bloom % 8 != 0 {
        return Err(Refusal(Rule::LayoutBloom, 0));
    }
    check_entries(sh, pairs, entries, digests, extents)?;
    let items = Items::entries(digests, entries);
    if key_ascending::keys_climb(items, n) {
        return Ok(());
    }
    key_duplicate::check_keys(items, n)
}
