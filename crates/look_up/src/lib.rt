// Look up: whether a segment has a record with a key, and what that record says. The whole check is made in every call, so that absent means
// that no record of an accepted segment has the key.
#![tactic(auto)]

ghost use Rattle.std.specs.Prelude.{◌≡◌, true};
ghost use Rattle.answer.specs.Answers.{found_answer};
ghost use Rattle.segment.specs.Format.{header_of};
ghost use Rattle.segment.specs.Keys.{key_from};
ghost use Rattle.segment.specs.Meaning.{source_of};
ghost use Rattle.table.specs.Table.{good_table};
ghost use Rattle.check_book.specs.Readable.{Readable};
ghost use Rattle.segment.specs.LookUp.{record_found, found_in, found_under, look_up_of};

use answer::{Found, Refusal, Rule};
use checksum::Engine;
use key::Items;
use key::head::Head;
use segment::header::Header;
use segment::record;
use segment::record::Record;
use segment::shape::Shape;
use table::LentTable;

fn source(imported: u8, domain: u32) -> Option<u32>
    ensures { result ≡ source_of imported domain }
{
    (imported != 0).then_some(domain)
}

// What is said of a record that was found.
fn found(r: Record) -> Found
    ensures { result ≡ record_found r }
{
    let origin = source(r.imported, r.source);
    let start = r.extents_offset;
    if r.flags == 1 {
        return Found::Gone {
            visibility: r.visibility,
            domain: r.domain,
            source: origin,
        };
    }
    Found::Present {
        visibility: r.visibility,
        domain: r.domain,
        source: origin,
        total: r.total_length,
        start,
        count: r.extent_count,
    }
}

// The record of an accepted segment that has the key, if there is one.
fn find(sh: Shape, seg: &[u8], hash: u64, digest: &[u8]) -> Found
    requires { Readable sh seg.now (header_of seg.now) }
    ensures { result ≡ found_in sh seg.now (header_of seg.now) (key_from hash digest.now) }
{
    let h = Header::of(seg);
    let items = Items::records(h.records_offset, sh, seg);
    let head = Head { hash_id: hash };
    for k in 0..h.record_count as usize {
        if key_equal::key_is(items, k, head, digest) {
            return found(record::nth_record(sh, seg, h.records_offset, k));
        }
    }
    Found::Absent
}

// Everything but the table.
fn look_up_under(
    by: Engine,
    pairs: &[u64],
    seg: &[u8],
    hash: u64,
    digest: &[u8],
) -> Result<Found, Refusal>
    requires { good_table pairs.now ≡ true }
    ensures { result ≡ found_under pairs.now seg.now (key_from hash digest.now) }
{
    if !table::allows(pairs, hash, digest.len() as u64) {
        return Err(Refusal(Rule::Key, 0));
    }
    check_segment::check_segment(by, pairs, seg)?;
    Ok(find(Shape::V3, seg, hash, digest))
}

pub fn look_up_by(
    by: Engine,
    pairs: &[u64],
    seg: &[u8],
    hash: u64,
    digest: &[u8],
) -> Result<Found, Refusal>
    ensures { found_answer result ≡ look_up_of pairs.now seg.now (key_from hash digest.now) }
{
    let Some(table) = LentTable::new(pairs) else {
        return Err(Refusal(Rule::Table, 0));
    };
    let numbers = table::copied(table.pairs());
    look_up_under(by, &numbers[..pairs.len()], seg, hash, digest)
}
