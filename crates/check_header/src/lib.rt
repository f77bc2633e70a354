// The header's rules: 2, 3, 4 and 51 to 55, and the checksum, 6. Sums are compared by taking parts away, so nothing wraps.
#![tactic(auto)]

ghost use Rattle.std.specs.Prelude.{◌≡◌, ◌+◌, ◌*◌, ◌≤◌, eqb, length};
ghost use Rattle.segment.specs.Format.{extent_size, footer_size};
ghost use Rattle.segment.specs.Shapes.{Shaped};
ghost use Rattle.segment.specs.Check.{head_verdict, layout_verdict, checksum_verdict};
ghost use Rattle.check_header.specs.HeaderRules.{header_rules};

use answer::{Refusal, Rule};
use checksum::Engine;
use field_frame::{footer, header as fields};
use offset::FileOffset;
use segment::extent::Extent;
use segment::footer::Footer;
use segment::header;
use segment::header::Header;
use segment::shape::Shape;

fn check_head(sh: Shape, h: Header) -> Result<(), Refusal>
    ensures { result ≡ head_verdict sh h }
{
    if h.magic != sh.magic {
        return Err(Refusal(Rule::Magic, 0));
    }
    if h.version != sh.version {
        return Err(Refusal(Rule::Version, 0));
    }
    if h.header_size != Header::STATED {
        return Err(Refusal(Rule::Header, 0));
    }
    if h.federation != 0 {
        return Err(Refusal(Rule::Header, 0));
    }
    if h.reserved != 0 {
        return Err(Refusal(Rule::Header, 0));
    }
    if h.flags != 0 {
        return Err(Refusal(Rule::Header, 0));
    }
    if 1 < h.visibility {
        return Err(Refusal(Rule::Header, 0));
    }
    Ok(())
}

// Whether a section begins where so many bytes end that begin at a place, over whole numbers.
fn follows(section: FileOffset, at: FileOffset, size: u64) -> bool
    ensures { result ≡ eqb section.0 (at.0 + size) }
{
    if section.0 < at.0 {
        return false;
    }
    section.0 - at.0 == size
}

// Whether a file of n bytes ends as it should: count extents from a place on, and the footer.
fn ends_so(n: u64, extents: FileOffset, count: u64) -> bool
    ensures { result ≡ eqb n (extents.0 + extent_size * count + footer_size) }
{
    if n < Footer::LONG {
        return false;
    }
    let body = n - Footer::LONG;
    if body < extents.0 {
        return false;
    }
    let rest = body - extents.0;
    if rest % Extent::LONG != 0 {
        return false;
    }
    rest / Extent::LONG == count
}

// Each rule is refused at the byte of the header at which its fields begin.
fn check_layout(sh: Shape, h: Header, n: u64) -> Result<(), Refusal>
    requires { Shaped sh }
    ensures { result ≡ layout_verdict sh h n }
{
    if h.bloom_offset.0 != header::bloom_place(h.bloom_size).0 {
        return Err(Refusal(Rule::LayoutBloom, fields::BLOOM_OFFSET.0 as u64));
    }
    if h.bloom_size % 8 != 0 {
        return Err(Refusal(Rule::LayoutBloom, fields::BLOOM_OFFSET.0 as u64));
    }
    if segment::MOST_RECORDS < h.record_count {
        return Err(Refusal(Rule::LayoutRecords, fields::RECORD_COUNT.0 as u64));
    }
    if !follows(h.records_offset, FileOffset(Header::LONG), h.bloom_size) {
        return Err(Refusal(Rule::LayoutRecords, fields::RECORD_COUNT.0 as u64));
    }
    if !follows(
        h.digests_offset,
        h.records_offset,
        sh.record_size as u64 * h.record_count,
    ) {
        return Err(Refusal(Rule::LayoutDigests, fields::DIGESTS_OFFSET.0 as u64));
    }
    if h.digests_size % 8 != 0 {
        return Err(Refusal(Rule::LayoutDigests, fields::DIGESTS_OFFSET.0 as u64));
    }
    if !follows(h.extents_offset, h.digests_offset, h.digests_size) {
        return Err(Refusal(Rule::LayoutExtents, fields::EXTENTS_OFFSET.0 as u64));
    }
    if !ends_so(n, h.extents_offset, h.extent_count) {
        return Err(Refusal(Rule::LayoutLength, fields::EXTENT_COUNT.0 as u64));
    }
    Ok(())
}

// 2 to 4 and 51 to 55, of a file of n bytes.
#[tactic(auto, unfolding(crate::specs::HeaderRules::header_rules))]
pub fn check_header(sh: Shape, h: Header, n: u64) -> Result<(), Refusal>
    requires { Shaped sh }
    ensures { result ≡ header_rules sh h n }
{
    check_head(sh, h)?;
    check_layout(sh, h, n)
}

pub fn check_checksum(by: Engine, seg: &[u8]) -> Result<(), Refusal>
    requires { footer_size ≤ length seg.now }
    ensures { result ≡ checksum_verdict seg.now }
{
    let end = seg.len() - Footer::SIZE;
    let stored = footer::CHECKSUM.read(seg, FileOffset(end as u64));
    if checksum::checksum_by(by, &seg[..end]) != stored {
        return Err(Refusal(Rule::Checksum, 0));
    }
    Ok(())
}
