// The rules of a record's extents and total: 9 and 10.
#![tactic(auto)]

ghost use Rattle.std.specs.Prelude.{◌≡◌, ◌+◌, ◌*◌, ◌<◌, ◌≤◌, ltb, length};
ghost use Rattle.answer.specs.Rules.{accepted};
ghost use Rattle.segment.specs.Format.{extent_size, block_end, extents_at};
ghost use Rattle.segment.specs.Check.{extents_verdict, total_verdict};
ghost use Rattle.check_book.specs.Readable.{Inside};
ghost use Rattle.check_extents.specs.ExtentRules.{summed, slices_rules};

use answer::{Refusal, Rule};
use field_record::extent;
use offset::{BlockOffset, FileOffset};
use segment::extent::Extent;
use segment::header::Header;
use segment::record::Record;
use segment::shape::Shape;

// Whether a slice passes the end of its block.
fn passes_block(offset: BlockOffset, size: u32) -> bool
    ensures { result ≡ ltb block_end (offset.0 + size) }
{
    4294967296 < offset.0 as u64 + size as u64
}

// The lengths of some extents added up, or none where one of them passes the end of its block.
fn sum_extents(seg: &[u8], at: FileOffset, count: u64) -> Option<u64>
    requires { (at.0 + extent_size * count ≤ length seg.now) × (count < 4294967296) }
    ensures { result ≡ summed (extents_at seg.now at.0 count) }
{
    let mut sum: u64 = 0;
    for i in 0..count {
        let here = FileOffset(at.0 + Extent::LONG * i);
        let size = extent::LENGTH.read(seg, here);
        if passes_block(extent::OFFSET.read(seg, here), size) {
            return None;
        }
        sum += size as u64;
    }
    Some(sum)
}

fn check_extents(seg: &[u8], h: Header, r: Record, place: u64) -> Result<(), Refusal>
    requires { Inside seg.now h }
    ensures { result ≡ extents_verdict h r place }
{
    let at = r.extents_offset.0;
    let count = r.extent_count as u64;
    if r.flags == 1 {
        if at != 0 {
            return Err(Refusal(Rule::Extents, place));
        }
        if count != 0 {
            return Err(Refusal(Rule::Extents, place));
        }
        return Ok(());
    }
    if count < 1 {
        return Err(Refusal(Rule::Extents, place));
    }
    let start = h.extents_offset.0;
    if at < start {
        return Err(Refusal(Rule::Extents, place));
    }
    if (at - start) % Extent::LONG != 0 {
        return Err(Refusal(Rule::Extents, place));
    }
    let end = start + Extent::LONG * h.extent_count;
    if end < at {
        return Err(Refusal(Rule::Extents, place));
    }
    if end - at < Extent::LONG * count {
        return Err(Refusal(Rule::Extents, place));
    }
    Ok(())
}

fn check_total(sh: Shape, seg: &[u8], h: Header, r: Record, place: u64) -> Result<(), Refusal>
    requires inside { Inside seg.now h }
    requires place_value { extents_verdict h r place ≡ accepted }
    ensures { result ≡ total_verdict sh seg.now r place }
{
    if r.flags == 1 {
        if r.total_length != 0 {
            return Err(Refusal(Rule::Total, place));
        }
        return Ok(());
    }
    let Some(sum) = sum_extents(seg, r.extents_offset, r.extent_count as u64) else {
        return Err(Refusal(Rule::Total, place));
    };
    if sh.total_limit < sum {
        return Err(Refusal(Rule::Total, place));
    }
    if sum != r.total_length {
        return Err(Refusal(Rule::Total, place));
    }
    Ok(())
}

// 9 and 10.
#[tactic(auto, unfolding(crate::specs::ExtentRules::slices_rules))]
pub fn check_slices(sh: Shape, seg: &[u8], h: Header, r: Record, place: u64) -> Result<(), Refusal>
    requires { Inside seg.now h }
    ensures { result ≡ slices_rules sh seg.now h r place }
{
    check_extents(seg, h, r, place)?;
    check_total(sh, seg, h, r, place)
}
