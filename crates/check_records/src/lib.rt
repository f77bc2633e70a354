// The records' rules: 7 to 10 of each, and the largest visibility on the way, in one pass.
#![tactic(auto)]

ghost use Rattle.std.specs.Prelude.{◌≡◌, ◌||◌, eqb};
ghost use Rattle.segment.specs.Check.{marks_verdict, digest_verdict, record_rules};
ghost use Rattle.check_book.specs.Readable.{Laid, Inside};
ghost use Rattle.check_records.specs.RecordsPassed.{passed};

use answer::{Refusal, Rule};
use segment::header::Header;
use segment::record;
use segment::record::Record;
use segment::shape::Shape;

fn source_fits(imported: u8, source: u32) -> bool
    ensures { result ≡ (eqb imported 1 || eqb source 0) }
{
    imported == 1 || source == 0
}

fn check_marks(h: Header, r: Record, place: u64) -> Result<(), Refusal>
    ensures { result ≡ marks_verdict h r place }
{
    if r.reserved != 0 {
        return Err(Refusal(Rule::Record, place));
    }
    if r.reserved_last != 0 {
        return Err(Refusal(Rule::Record, place));
    }
    if 1 < r.flags {
        return Err(Refusal(Rule::Record, place));
    }
    if 1 < r.visibility {
        return Err(Refusal(Rule::Record, place));
    }
    if 1 < r.imported {
        return Err(Refusal(Rule::Record, place));
    }
    if !source_fits(r.imported, r.source) {
        return Err(Refusal(Rule::Record, place));
    }
    if r.domain != h.domain {
        return Err(Refusal(Rule::Record, place));
    }
    Ok(())
}

fn check_digest(pairs: &[u64], seg: &[u8], h: Header, r: Record, place: u64) -> Result<(), Refusal>
    requires { Inside seg.now h }
    ensures { result ≡ digest_verdict pairs.now h r place }
{
    let size = r.digest_length as u64;
    if !table::allows(pairs, r.hash_id as u64, size) {
        return Err(Refusal(Rule::Digest, place));
    }
    let at = r.digest_offset.0;
    if at < h.digests_offset.0 {
        return Err(Refusal(Rule::Digest, place));
    }
    let end = h.digests_offset.0 + h.digests_size;
    if end < at {
        return Err(Refusal(Rule::Digest, place));
    }
    if end - at < size {
        return Err(Refusal(Rule::Digest, place));
    }
    Ok(())
}

fn check_record(
    sh: Shape,
    pairs: &[u64],
    seg: &[u8],
    h: Header,
    r: Record,
    place: u64,
) -> Result<(), Refusal>
    requires { Inside seg.now h }
    ensures { result ≡ record_rules sh pairs.now seg.now h r place }
{
    check_marks(h, r, place)?;
    check_digest(pairs, seg, h, r, place)?;
    check_extents::check_slices(sh, seg, h, r, place)
}

// What a record counts with towards the header's visibility: its own, gone or not.
fn counts_with(r: Record) -> u8
    ensures { result ≡ r.visibility }
{
    r.visibility
}

// The largest visibility of the records, where each of them keeps its rules.
pub fn check_records(sh: Shape, pairs: &[u64], seg: &[u8], h: Header) -> Result<u8, Refusal>
    requires { Laid sh seg.now h }
    ensures { result ≡ passed sh pairs.now seg.now h h.record_count }
{
    let first = h.records_offset;
    let mut largest: u8 = 0;
    for k in 0..h.record_count as usize {
        let r = record::nth_record(sh, seg, first, k);
        check_record(sh, pairs, seg, h, r, record::begins(sh, first, k).0)?;
        largest = largest.max(counts_with(r));
    }
    Ok(largest)
}
