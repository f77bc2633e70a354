// The three sections that are made of records, each into a stretch of bytes of its own: the records, their digests with zeros
// behind them, their extents. All three take the items in the order of the numbers that they are lent.
#![tactic(auto)]

ghost use Rattle.std.specs.Prelude.{◌≡◌, ◌+◌, ◌*◌, ◌≤◌, length};
ghost use Rattle.numbers.specs.Numbers.{put};
ghost use Rattle.segment.specs.Format.{extent_size, digests_offset, extents_offset};
ghost use Rattle.segment.specs.Shapes.{Shaped};
ghost use Rattle.segment.specs.Tidy.{records_bytes, lacking, extent_list_bytes, extent_bytes};
ghost use Rattle.key.specs.Lent.{Readable};
ghost use Rattle.lists.specs.Lists.{Each};
ghost use Rattle.put_item.specs.Sources.{HeldIn, extents_in, rows_in, LinesIn};
ghost use Rattle.put_sections.specs.Sections.{Near, digests_in, section_in};

use key::Items;
use offset::FileOffset;
use put_item::Source;
use segment::extent::Extent;
use segment::header::Header;
use segment::shape::Shape;

// A run of bytes, copied to a place. Not by the library's copying, for which an archive for C would ask `memmove` from outside.
pub fn copy_bytes(from: &[u8], at: usize, out: &mut [u8])
    requires { at + length from.now ≤ length out.old }
    ensures { out.new ≡ put out.old at from.now }
{
    for (i, &byte) in from.iter().enumerate() {
        out[at + i] = byte;
    }
}

// The records. Each one's digest and extents lie behind those of the records before it.
pub fn put_records(sh: Shape, h: Header, source: Source, numbers: &[u16], out: &mut [u8])
    requires lines { LinesIn source numbers.now }
    requires near { Near h numbers.now }
    requires shaped { Shaped sh }
    requires out_len { length out.old ≡ sh.record_size * length numbers.now }
    ensures { out.new ≡ records_bytes sh h.domain (rows_in source.entry numbers.now) (digests_offset h) (extents_offset h) }
{
    let mut digest_at = h.digests_offset.0;
    let mut extents_at = h.extents_offset.0;
    for (k, &number) in numbers.iter().enumerate() {
        let i = usize::from(number);
        let e = source.entry(i);
        let r = put_item::record_for(
            e,
            source.total(i),
            h.domain,
            FileOffset(digest_at),
            FileOffset(extents_at),
        );
        put_fields::put_record(sh, r, sh.record_size * k, out);
        digest_at += e.digest_length;
        extents_at += Extent::LONG * e.extent_count;
    }
}

// The digests, one behind the other.
fn put_digests(items: Items, numbers: &[u16], out: &mut [u8])
    requires each { Each (Readable items) numbers.now }
    requires out_len { length out.old ≡ length (digests_in items numbers.now) }
    ensures { out.new ≡ digests_in items.entry numbers.now }
{
    let mut at = 0;
    for &i in numbers {
        let digest = items.digest(usize::from(i));
        copy_bytes(digest, at, out);
        at += digest.len();
    }
}

// The digests, and zeros up to a multiple of 8.
pub fn put_digest_section(items: Items, numbers: &[u16], used: usize, out: &mut [u8])
    requires each { Each (Readable items) numbers.now }
    requires used_value { used ≡ length (digests_in items numbers.now) }
    requires out_len { length out.old ≡ used + lacking used }
    ensures { out.new ≡ section_in items.entry numbers.now }
{
    let (digests, padding) = out.split_at_mut(used);
    put_digests(items, numbers, digests);
    padding.fill(0);
}

// The extents of one item.
fn put_list(source: Source, first: usize, count: usize, at: usize, out: &mut [u8])
    requires held { HeldIn source first count }
    requires count_in_bounds { at + extent_size * count ≤ length out.old }
    ensures { out.new ≡ put out.old at (extent_list_bytes (extents_in source.entry first count)) }
{
    for j in 0..count {
        let e = source.extent(first, j);
        put_fields::put_extent(e, at + Extent::SIZE * j, out);
    }
}

// The extents, none shared.
pub fn put_extents(source: Source, numbers: &[u16], out: &mut [u8])
    requires lines { LinesIn source numbers.now }
    requires out_len { length out.old ≡ length (extent_bytes (rows_in source numbers.now)) }
    ensures { out.new ≡ extent_bytes (rows_in source.entry numbers.now) }
{
    let mut at = 0;
    for &i in numbers {
        let e = source.entry(usize::from(i));
        let count = e.extent_count as usize;
        put_list(source, e.first_extent as usize, count, at, out);
        at += Extent::SIZE * count;
    }
}
