// The length of a segment's tidy form, with nothing written: what a caller asks before it makes room. Everything before the digests
// is as long as it was; the digests are packed, and extents that records share stand once for each of them.
#![tactic(auto)]

ghost use Rattle.std.specs.Prelude.{◌≡◌, true, length};
ghost use Rattle.answer.specs.Answers.{written_answer};
ghost use Rattle.table.specs.Table.{good_table};
ghost use Rattle.segment.specs.Meaning.{meaning_of};
ghost use Rattle.segment.specs.Tidy.{tidy_form, tidy_length_of};
ghost use Rattle.check_book.specs.Readable.{Readable};
ghost use Rattle.tidy_length.specs.Sums.{Summed, sized_under};

use answer::{Refusal, Rule};
use checksum::Engine;
use segment::extent::Extent;
use segment::footer::Footer;
use segment::header::Header;
use segment::record;
use segment::shape::Shape;
use table::LentTable;

// What the records come to: how many bytes their digests are, and how many extents they have.
#[derive(Clone, Copy)]
pub struct Sums {
    pub digests: u64,
    pub extents: u64,
}

fn sum_records(sh: Shape, seg: &[u8], h: Header) -> Sums
    requires { Readable sh seg.now h }
    ensures { Summed sh seg.now h result }
{
    let first = h.records_offset;
    let mut digests: u64 = 0;
    let mut extents: u64 = 0;
    for k in 0..h.record_count as usize {
        let r = record::nth_record(sh, seg, first, k);
        digests += r.digest_length as u64;
        extents += r.extent_count as u64;
    }
    Sums { digests, extents }
}

fn length_of(sh: Shape, seg: &[u8], h: Header) -> u64
    requires { Readable sh seg.now h }
    ensures { result ≡ length (tidy_form sh (meaning_of sh seg.now)) }
{
    let s = sum_records(sh, seg, h);
    let extents = h.digests_offset.0 + segment::padded(s.digests);
    extents + Extent::LONG * s.extents + Footer::LONG
}

// Everything but the table.
fn length_under(by: Engine, pairs: &[u64], seg: &[u8]) -> Result<u64, Refusal>
    requires { good_table pairs.now ≡ true }
    ensures { result ≡ sized_under pairs.now seg.now }
{
    check_segment::check_segment(by, pairs, seg)?;
    let n = length_of(Shape::V3, seg, Header::of(seg));
    if segment::LIMIT < n {
        return Err(Refusal(Rule::Large, 0));
    }
    Ok(n)
}

pub fn tidy_length_by(by: Engine, pairs: &[u64], seg: &[u8]) -> Result<u64, Refusal>
    ensures { written_answer result ≡ tidy_length_of pairs.now seg.now }
{
    let Some(table) = LentTable::new(pairs) else {
        return Err(Refusal(Rule::Table, 0));
    };
    let numbers = table::copied(table.pairs());
    length_under(by, &numbers[..pairs.len()], seg)
}
