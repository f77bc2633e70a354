// Write: the tidy form of what is asked for, or the first rule that the request breaks (docs/SERVICES.md, "Write").
#![tactic(auto)]

ghost use Rattle.std.specs.Prelude.{◌≡◌, true, length};
ghost use Rattle.segment.specs.Format.{v3};
ghost use Rattle.table.specs.Table.{good_table};
ghost use Rattle.segment.specs.Tidy.{tidy_form, outcome};
ghost use Rattle.segment.specs.Write.{request_rules, requested, write_of};
ghost use Rattle.put_form.specs.Emit.{EmittedAfter};
ghost use Rattle.write.specs.Seal.{asked};

use answer::{Refusal, Rule};
use checksum::Engine;
use key::Items;
use put_form::Frame;
use put_item::Source;
use segment::entry::Entry;
use segment::header::Heading;
use segment::shape::Shape;
use table::LentTable;

// Everything but the table.
fn write_under(
    by: Engine,
    pairs: &[u64],
    t: Heading,
    bloom: &[u8],
    entries: &[u64],
    digests: &[u8],
    extents: &[u64],
    out: &mut [u8],
) -> Result<u64, Refusal>
    requires { good_table pairs.now ≡ true }
    ensures { EmittedAfter
        (request_rules v3 pairs.now (length bloom.now) entries.now digests.now extents.now)
        (tidy_form v3 (requested (asked t bloom.now entries.now digests.now extents.now)))
        out.old out.new result }
{
    write_request::check_request(Shape::V3, pairs, bloom.len(), entries, digests, extents)?;
    let frame = Frame {
        by,
        shape: Shape::V3,
        heading: t,
        bloom,
    };
    let source = Source {
        items: Items::entries(digests, entries),
        extents,
    };
    put_tidy::put_tidy(frame, source, entries.len() / Entry::SIZE, out)
}

// The entries are nine numbers each, in the order of `segment::entry::Entry`, the extents three: block, offset, length. A refused
// call leaves the output as it was; bytes after the result stay.
pub fn write_by(
    by: Engine,
    pairs: &[u64],
    t: Heading,
    bloom: &[u8],
    entries: &[u64],
    digests: &[u8],
    extents: &[u64],
    out: &mut [u8],
) -> Result<u64, Refusal>
    ensures { outcome result out.new ≡ write_of pairs.now
        (asked t bloom.now entries.now digests.now extents.now)
        out.old }
{
    let Some(table) = LentTable::new(pairs) else {
        return Err(Refusal(Rule::Table, 0));
    };
    let numbers = table::copied(table.pairs());
    write_under(
        by,
        &numbers[..pairs.len()],
        t,
        bloom,
        entries,
        digests,
        extents,
        out,
    )
}
