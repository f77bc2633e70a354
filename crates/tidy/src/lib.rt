// Tidy: the tidy form of a segment, or the first rule that the segment breaks (docs/SERVICES.md, "Tidy and its length").
#![tactic(auto)]

ghost use Rattle.std.specs.Prelude.{◌≡◌, true, ◌≤◌, length};
ghost use Rattle.segment.specs.Format.{v3, least_file};
ghost use Rattle.table.specs.Table.{good_table};
ghost use Rattle.segment.specs.Check.{segment_verdict};
ghost use Rattle.segment.specs.Meaning.{heading_of, meaning_of};
ghost use Rattle.segment.specs.Tidy.{tidy_form, outcome, tidy_of};
ghost use Rattle.put_form.specs.Emit.{EmittedAfter};

use answer::{Refusal, Rule};
use checksum::Engine;
use key::Items;
use offset::FileOffset;
use put_form::Frame;
use put_item::Source;
use segment::footer::Footer;
use segment::header::{Header, Heading};
use segment::shape::Shape;
use table::LentTable;

// The numbers of a segment that its tidy form keeps.
fn heading_of(seg: &[u8], h: Header) -> Heading
    requires { least_file ≤ length seg.now }
    ensures { result ≡ heading_of seg.now h }
{
    let f = Footer::at(seg, FileOffset((seg.len() - Footer::SIZE) as u64));
    Heading {
        shard: h.shard,
        snapshot_min: h.snapshot_min,
        snapshot_max: h.snapshot_max,
        domain: h.domain,
        seal_snapshot: f.seal_snapshot,
        seal_time: f.seal_time,
    }
}

// Everything but the table. Records are read from the segment alone.
fn tidy_under(by: Engine, pairs: &[u64], seg: &[u8], out: &mut [u8]) -> Result<u64, Refusal>
    requires { good_table pairs.now ≡ true }
    ensures { EmittedAfter (segment_verdict v3 pairs.now seg.now) (tidy_form v3 (meaning_of v3 seg.now))
        out.old out.new result }
{
    check_segment::check_segment(by, pairs, seg)?;
    let h = Header::of(seg);
    let t = heading_of(seg, h);
    let end = Header::SIZE + h.bloom_size as usize;
    let frame = Frame {
        by,
        shape: Shape::V3,
        heading: t,
        bloom: &seg[Header::SIZE..end],
    };
    let source = Source {
        items: Items::records(h.records_offset, Shape::V3, seg),
        extents: &key::NO_LIST,
    };
    put_tidy::put_tidy(frame, source, h.record_count as usize, out)
}

// A refused call leaves the output as it was; bytes after the result stay.
pub fn tidy_by(by: Engine, pairs: &[u64], seg: &[u8], out: &mut [u8]) -> Result<u64, Refusal>
    ensures { outcome result out.new ≡ tidy_of pairs.now seg.now out.old }
{
    let Some(table) = LentTable::new(pairs) else {
        return Err(Refusal(Rule::Table, 0));
    };
    let numbers = table::copied(table.pairs());
    tidy_under(by, &numbers[..pairs.len()], seg, out)
}
