// The four structures put into bytes, field after field as docs/FORMAT.md lists them: the other half of their readers. Each function is
// told that the structure fits where it is put.
#![tactic(auto)]

ghost use Rattle.std.specs.Prelude.{◌≡◌, ◌+◌, ◌≤◌, length};
ghost use Rattle.numbers.specs.Numbers.{bytes_of, put};
ghost use Rattle.segment.specs.Format.{header_size, extent_size, footer_size};
ghost use Rattle.segment.specs.Shapes.{Shaped};
ghost use Rattle.segment.specs.Tidy.{packed, header_fields, total_among, record_fields, extent_fields, footer_fields};

use field_frame::{footer, header};
use field_record::{extent, record};
use offset::FileOffset;
use segment::extent::Extent;
use segment::footer::Footer;
use segment::header::Header;
use segment::record::Record;
use segment::shape::Shape;

// The header, at the front.
#[tactic(auto, using(crate::proofs::Packing::in_turn), unfolding(segment::specs::Tidy::header_fields, form_laws::proofs::PackedFields::widths))]
pub fn put_header(h: Header, out: &mut [u8])
    requires { header_size ≤ length out.old }
    ensures { out.new ≡ put out.old 0 (packed (header_fields h)) }
{
    header::MAGIC.put(out, 0, h.magic);
    header::VERSION.put(out, 0, h.version);
    header::SHARD.put(out, 0, h.shard);
    header::HEADER_SIZE.put(out, 0, h.header_size);
    header::SNAPSHOT_MIN.put(out, 0, h.snapshot_min);
    header::SNAPSHOT_MAX.put(out, 0, h.snapshot_max);
    header::RECORD_COUNT.put(out, 0, h.record_count);
    header::RECORDS_OFFSET.put(out, 0, h.records_offset);
    header::BLOOM_OFFSET.put(out, 0, h.bloom_offset);
    header::BLOOM_SIZE.put(out, 0, h.bloom_size);
    header::DIGESTS_OFFSET.put(out, 0, h.digests_offset);
    header::DIGESTS_SIZE.put(out, 0, h.digests_size);
    header::EXTENTS_OFFSET.put(out, 0, h.extents_offset);
    header::EXTENT_COUNT.put(out, 0, h.extent_count);
    header::DOMAIN.put(out, 0, h.domain);
    header::VISIBILITY.put(out, 0, h.visibility);
    header::FEDERATION.put(out, 0, h.federation);
    header::RESERVED.put(out, 0, h.reserved);
    header::FLAGS.put(out, 0, h.flags);
}

// What stands where a total of four bytes has its place. A total that does not fit leaves its low bytes there, where `u32::try_from` would
// leave nothing.
#[tactic(auto, using(numbers::proofs::NumberLaws::bytes_of_mod))]
fn total_among(wide: bool, total: u64) -> u32
    ensures { bytes_of 4 result ≡ bytes_of 4 (total_among wide total) }
{
    if wide {
        return 0;
    }
    (total % 4294967296) as u32
}

#[tactic(auto, using(crate::proofs::Packing::in_turn), unfolding(segment::specs::Tidy::record_fields, form_laws::proofs::PackedFields::widths))]
pub fn put_record(sh: Shape, r: Record, at: usize, out: &mut [u8])
    requires shaped { Shaped sh }
    requires record_size_in_bounds { at + sh.record_size ≤ length out.old }
    ensures { out.new ≡ put out.old at (packed (record_fields sh r)) }
{
    record::HASH_ID.put(out, at, r.hash_id);
    record::DIGEST_LENGTH.put(out, at, r.digest_length);
    record::RESERVED.put(out, at, r.reserved);
    record::DIGEST_OFFSET.put(out, at, r.digest_offset);
    record::EXTENTS_OFFSET.put(out, at, r.extents_offset);
    record::EXTENT_COUNT.put(out, at, r.extent_count);
    let total = total_among(sh.total_wide, r.total_length);
    record::TOTAL_LENGTH.put(out, at, total);
    record::DOMAIN.put(out, at, r.domain);
    record::VISIBILITY.put(out, at, r.visibility);
    record::IMPORTED.put(out, at, r.imported);
    record::RESERVED_LAST.put(out, at, r.reserved_last);
    record::SOURCE.put(out, at, r.source);
    record::FLAGS.put(out, at, r.flags);
    if sh.total_wide {
        record::WIDE_TOTAL.put(out, at, r.total_length);
    }
}

#[tactic(auto, using(crate::proofs::Packing::in_turn), unfolding(segment::specs::Tidy::extent_fields, form_laws::proofs::PackedFields::widths))]
pub fn put_extent(e: Extent, at: usize, out: &mut [u8])
    requires { at + extent_size ≤ length out.old }
    ensures { out.new ≡ put out.old at (packed (extent_fields e)) }
{
    extent::BLOCK.put(out, at, e.block);
    extent::OFFSET.put(out, at, e.offset);
    extent::LENGTH.put(out, at, e.length);
}

// The output is the whole file here, and no stretch of it.
#[tactic(auto, using(crate::proofs::Packing::in_turn), unfolding(segment::specs::Tidy::footer_fields, form_laws::proofs::PackedFields::widths))]
pub fn put_footer(f: Footer, at: FileOffset, out: &mut [u8])
    requires { at.0 + footer_size ≤ length out.old }
    ensures { out.new ≡ put out.old at.0 (packed (footer_fields f)) }
{
    let from = at.0 as usize;
    footer::CHECKSUM.put(out, from, f.checksum);
    footer::SEAL_SNAPSHOT.put(out, from, f.seal_snapshot);
    footer::SEAL_TIME.put(out, from, f.seal_time);
}
