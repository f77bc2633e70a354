// The walk: a segment's records, handed out one at a time. A walker is a thin struct over the steps of `crates/walk_step`.
#![tactic(auto)]

ghost use Rattle.std.specs.Prelude.{◌≡◌};
ghost use Rattle.segment.specs.Walk.{step_answer, step_of};
ghost use Rattle.walk.specs.Taken.{Taken};

use answer::Refusal;
use checksum::Engine;
use segment::record::Record;

// A walk remembers only the segment and its place in it, the number of the record that comes next.
#[derive(Clone, Copy)]
pub struct Walker<'a> {
    pub segment: &'a [u8],
    pub at: usize,
}

// A walk from the first record on.
pub fn start<'a>(segment: &'a [u8]) -> Walker<'a>
    ensures { (result.segment ≡ segment.entry) × (result.at ≡ 0) }
{
    Walker { segment, at: 0 }
}

// One step of the walk, which moves on after a record.
pub fn next_by<'s, 'a, 't>(
    by: Engine,
    w: &'s mut Walker<'a>,
    pairs: &'t [u64],
) -> Result<Option<Record>, Refusal>
    ensures { Taken pairs.now w.old (result, w.new) }
{
    let t = walk_step::turn_by(by, pairs, w.segment, w.at);
    w.at = t.at;
    t.step
}

pub fn next<'s, 'a, 't>(w: &'s mut Walker<'a>, pairs: &'t [u64]) -> Result<Option<Record>, Refusal>
    ensures { Taken pairs.now w.old (result, w.new) }
{
    next_by(Engine::Fast, w, pairs)
}

// The step at a place, for a caller that keeps no walk.
pub fn step_from_by(
    by: Engine,
    pairs: &[u64],
    segment: &[u8],
    at: usize,
) -> Result<Option<Record>, Refusal>
    ensures { step_answer result ≡ step_of pairs.now segment.now at }
{
    let t = walk_step::turn_by(by, pairs, segment, at);
    t.step
}
