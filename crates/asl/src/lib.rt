// The library. Its interface for Rattle, gathered here: check, look up, write, tidy and its length, the walk, the checksum, and what they take and
// answer; and what the entry points for C do, in `calls`, `by` and `sum`. A service is asked by an engine of the checksum (`.._by`), or by the fast one,
// which is for a caller who does not choose.
#![tactic(auto)]

ghost use Rattle.std.specs.Prelude.{◌≡◌};
ghost use Rattle.answer.specs.Answers.{check_answer, found_answer, written_answer};
ghost use Rattle.segment.specs.Keys.{key_from};
ghost use Rattle.segment.specs.Check.{check_of};
ghost use Rattle.segment.specs.LookUp.{looked_up, extents_part, look_up_of};
ghost use Rattle.segment.specs.Walk.{step_answer, step_of};
ghost use Rattle.segment.specs.Tidy.{outcome, tidy_length_of, tidy_of};
ghost use Rattle.segment.specs.Write.{write_of};
ghost use Rattle.write.specs.Seal.{asked};

pub mod by;
pub mod calls;
pub mod sum;

pub use answer::{Found, Refusal, Rule};
pub use answer_number::{number, place};
pub use check_segment::check_by;
pub use checksum::{Engine, checksum, checksum_by, checksum_on, checksum_on_by};
pub use look_up::look_up_by;
pub use look_up_extents::extents_of_by;
pub use offset::FileOffset;
pub use segment::header::Heading;
pub use segment::record::Record;
pub use table_pairs::{Pair, length_in};
pub use tidy::tidy_by;
pub use tidy_length::tidy_length_by;
pub use walk::{Walker, next, next_by, start, step_from_by};
pub use write::write_by;

pub fn check(pairs: &[u64], seg: &[u8]) -> Result<(), Refusal>
    ensures { check_answer result ≡ check_of pairs.now seg.now }
{
    check_segment::check_by(Engine::Fast, pairs, seg)
}

pub fn look_up(pairs: &[u64], seg: &[u8], hash: u64, digest: &[u8]) -> Result<Found, Refusal>
    ensures { found_answer result ≡ look_up_of pairs.now seg.now (key_from hash digest.now) }
{
    look_up::look_up_by(Engine::Fast, pairs, seg, hash, digest)
}

pub fn extents_of<'a>(pairs: &[u64], seg: &'a [u8], hash: u64, digest: &[u8]) -> &'a [u8]
    ensures { result.now ≡
        extents_part (looked_up pairs.now seg.now (key_from hash digest.now)) seg.now }
{
    look_up_extents::extents_of_by(Engine::Fast, pairs, seg, hash, digest)
}

pub fn step_from(pairs: &[u64], segment: &[u8], at: usize) -> Result<Option<Record>, Refusal>
    ensures { step_answer result ≡ step_of pairs.now segment.now at }
{
    walk::step_from_by(Engine::Fast, pairs, segment, at)
}

pub fn tidy_length(pairs: &[u64], seg: &[u8]) -> Result<u64, Refusal>
    ensures { written_answer result ≡ tidy_length_of pairs.now seg.now }
{
    tidy_length::tidy_length_by(Engine::Fast, pairs, seg)
}

pub fn tidy(pairs: &[u64], seg: &[u8], out: &mut [u8]) -> Result<u64, Refusal>
    ensures { outcome result out.new ≡ tidy_of pairs.now seg.now out.old }
{
    tidy::tidy_by(Engine::Fast, pairs, seg, out)
}

pub fn write(
    pairs: &[u64],
    t: Heading,
    bloom: &[u8],
    entries: &[u64],
    digests: &[u8],
    extents: &[u64],
    out: &mut [u8],
) -> Result<u64, Refusal>
    ensures { outcome result out.new ≡ write_of pairs.now
        (asked t bloom.now entries.now digests.now extents.now)
        out.old }
{
    write::write_by(
        Engine::Fast,
        pairs,
        t,
        bloom,
        entries,
        digests,
        extents,
        out,
    )
}
