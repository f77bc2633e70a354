// A segment written from items in the order of their numbers: header, bloom bytes, records, digests, extents and footer. Nothing is
// written before it is known that the result keeps to the limit and fits the output.
#![tactic(auto)]

ghost use Rattle.std.specs.Prelude.{◌≡◌, ◌+◌, ◌≤◌, length};
ghost use Rattle.numbers.specs.Numbers.{put};
ghost use Rattle.segment.specs.Format.{header_size, footer_size, records_offset, record_limit};
ghost use Rattle.segment.specs.Shapes.{Shaped};
ghost use Rattle.segment.specs.Tidy.{form_header};
ghost use Rattle.put_item.specs.Sources.{rows_in, LinesIn};
ghost use Rattle.put_form.specs.Emit.{Moderate, header_for, Plan, sections_under, body_under, form_in, Emitted};

use answer::{Refusal, Rule};
use checksum::Engine;
use offset::FileOffset;
use put_item::{Sizes, Source};
use segment::extent::Extent;
use segment::footer::Footer;
use segment::header;
use segment::header::{Header, Heading};
use segment::shape::Shape;

// What a segment is written with beside its items: the engine that sums it, its shape, the numbers of its heading and its bloom bytes.
// Each contract asks that the shape is one of a segment, and not this type: the writers of the sections take a shape by itself.
#[derive(Clone, Copy)]
pub struct Frame<'a> {
    pub by: Engine,
    pub shape: Shape,
    pub heading: Heading,
    pub bloom: &'a [u8],
}

// The header of a segment with so many records, whose digests and extents have these sizes.
fn header_for(frame: Frame, count: u64, s: Sizes) -> Header
    requires shaped { Shaped frame.shape }
    requires moderate { Moderate (length frame.bloom.now) count s }
    ensures { result ≡ header_for frame.entry.shape frame.entry.heading (length frame.entry.bloom.now) count s }
{
    let sh = frame.shape;
    let t = frame.heading;
    let bloom = frame.bloom.len() as u64;
    let records = Header::LONG + bloom;
    let digests = records + sh.record_size as u64 * count;
    let size = segment::padded(s.digests);
    let place = header::bloom_place(bloom);
    Header {
        magic: sh.magic,
        version: sh.version,
        shard: t.shard,
        header_size: Header::STATED,
        snapshot_min: t.snapshot_min,
        snapshot_max: t.snapshot_max,
        record_count: count,
        records_offset: FileOffset(records),
        bloom_offset: place,
        bloom_size: bloom,
        digests_offset: FileOffset(digests),
        digests_size: size,
        extents_offset: FileOffset(digests + size),
        extent_count: s.extents,
        domain: t.domain,
        visibility: s.visibility as u8,
        federation: 0,
        reserved: 0,
        flags: 0,
    }
}

// Records, digests and extents, each lent its own stretch of the output.
fn put_sections(sh: Shape, h: Header, used: usize, source: Source, numbers: &[u16], out: &mut [u8])
    requires lines { LinesIn source numbers.now }
    requires shaped { Shaped sh }
    requires plan { Plan sh h (rows_in source numbers.now) used (records_offset h + length out.old + footer_size) }
    ensures { out.new ≡ sections_under sh h (rows_in source.entry numbers.now) }
{
    let records_size = h.digests_offset.0 - h.records_offset.0;
    let (records, rest) = out.split_at_mut(records_size as usize);
    let (digests, extents) = rest.split_at_mut(h.digests_size as usize);
    put_sections::put_records(sh, h, source, numbers, records);
    put_sections::put_digest_section(source.items, numbers, used, digests);
    put_sections::put_extents(source, numbers, extents);
}

// Everything before the footer.
fn put_body(frame: Frame, h: Header, used: usize, source: Source, numbers: &[u16], out: &mut [u8])
    requires lines { LinesIn source numbers.now }
    requires shaped { Shaped frame.shape }
    requires plan { Plan frame.shape h (rows_in source numbers.now) used (length out.old) }
    requires h_value { records_offset h ≡ header_size + length frame.bloom.now }
    ensures { out.new ≡ put out.old 0
        (body_under frame.entry.shape h frame.entry.bloom.now (rows_in source.entry numbers.now)) }
{
    put_fields::put_header(h, out);
    put_sections::copy_bytes(frame.bloom, Header::SIZE, out);
    let from = h.records_offset.0 as usize;
    let end = out.len() - Footer::SIZE;
    put_sections(frame.shape, h, used, source, numbers, &mut out[from..end]);
}

// The whole form, into an output that is as long as it.
fn put_form(frame: Frame, h: Header, used: usize, source: Source, numbers: &[u16], out: &mut [u8])
    requires lines { LinesIn source numbers.now }
    requires shaped { Shaped frame.shape }
    requires plan { Plan frame.shape h (rows_in source numbers.now) used (length out.old) }
    requires h_value { h ≡ form_header frame.shape frame.heading (length frame.bloom.now) (rows_in source numbers.now) }
    ensures { out.new ≡ form_in frame.entry (rows_in source.entry numbers.now) }
{
    put_body(frame, h, used, source, numbers, out);
    let body = out.len() - Footer::SIZE;
    let checksum = checksum::checksum_by(frame.by, &out[..body]);
    let f = Footer {
        checksum,
        seal_snapshot: frame.heading.seal_snapshot,
        seal_time: frame.heading.seal_time,
    };
    put_fields::put_footer(f, FileOffset(body as u64), out);
}

// The form of the items in the order of their numbers, if it keeps to the limit and fits; else the output is left alone.
// Bloom bytes that pass the limit by themselves are refused first, so that no sum below overflows.
pub fn emit(frame: Frame, source: Source, numbers: &[u16], out: &mut [u8]) -> Result<u64, Refusal>
    requires lines { LinesIn source numbers.now }
    requires shaped { Shaped frame.shape }
    requires numbers_len_bound { length numbers.now ≤ record_limit }
    ensures { Emitted (form_in frame.entry (rows_in source.entry numbers.now)) out.old out.new result }
{
    let size = frame.bloom.len() as u64;
    if segment::LIMIT < size {
        return Err(Refusal(Rule::Large, 0));
    }
    let s = source.measure(numbers);
    let h = header_for(frame, numbers.len() as u64, s);
    let n = h.extents_offset.0 + Extent::LONG * h.extent_count + Footer::LONG;
    if segment::LIMIT < n {
        return Err(Refusal(Rule::Large, 0));
    }
    if (out.len() as u64) < n {
        return Err(Refusal(Rule::Room, 0));
    }
    let end = n as usize;
    put_form(
        frame,
        h,
        s.digests as usize,
        source,
        numbers,
        &mut out[..end],
    );
    Ok(n)
}
