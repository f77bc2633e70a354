// The steps of the walk, on a slice and a place in it. Each step is lent the table and makes the whole check, so that a record is
// given of an accepted segment only.
#![tactic(auto)]

ghost use Rattle.std.specs.Prelude.{◌≡◌};
ghost use Rattle.segment.specs.Walk.{stepped};
ghost use Rattle.walk_step.specs.Steps.{turn_of};

use answer::Refusal;
use checksum::Engine;
use segment::header::Header;
use segment::record;
use segment::record::Record;
use segment::shape::Shape;

// What a step answers, and the place after it.
#[derive(Clone, Copy)]
pub struct Turn {
    pub step: Result<Option<Record>, Refusal>,
    pub at: usize,
}

// The record at a place of an accepted segment.
fn step_at(by: Engine, pairs: &[u64], segment: &[u8], at: usize) -> Result<Option<Record>, Refusal>
    ensures { result ≡ stepped pairs.now segment.now at }
{
    check_segment::check_by(by, pairs, segment)?;
    let h = Header::of(segment);
    let first = h.records_offset;
    let count = h.record_count as usize;
    if count <= at {
        return Ok(None);
    }
    Ok(Some(record::nth_record(Shape::V3, segment, first, at)))
}

// A step with the place after it: one on after a record, else the same.
pub fn turn_by(by: Engine, pairs: &[u64], segment: &[u8], at: usize) -> Turn
    ensures { result ≡ turn_of pairs.now segment.now at }
{
    let step = step_at(by, pairs, segment, at);
    match step {
        Ok(Some(_)) => Turn { step, at: at + 1 },
        Ok(None) => Turn { step, at },
        Err(_) => Turn { step, at },
    }
}
