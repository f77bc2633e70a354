// What stands at the C boundary below the entry points: the answers as C is given them, one number each, and numbers that are left in a
// lent slice of bytes.
#![tactic(auto)]

ghost use Rattle.std.specs.Prelude.{◌≡◌, ◌*◌, ◌≤◌, ◌<◌, length, Ok};
ghost use Rattle.numbers.specs.Numbers.{put};
ghost use Rattle.answer.specs.Answers.{place_of, written_answer};
ghost use Rattle.segment.specs.Walk.{record_values};
ghost use Rattle.c_answer.specs.Boundary.{
  value_limit,
  answer_bits,
  refused_bits,
  length_bits,
  Small,
  left,
  number_bytes,
  given_to,
  replied,
  reply_of,
  reply_left,
  Sayable,
};

use answer::{Found, Refusal, Rule};
use numbers::Number;
use offset::FileOffset;
use segment::record::Record;

// Look up's answer in numbers: `number` is 0 where nothing is refused. C is given numbers, so a number says which.
#[derive(Clone, Copy)]
pub struct Reply {
    pub number: u64,
    pub place: u64,
    pub values: [u64; 8],
}

// An answer as one number: a refusal's number, or 0, in the lowest byte, and a value from the third byte on. The second byte is for
// calls over two segments.
pub fn bits(number: u64, value: u64) -> u64
    requires number_bound { number < 256 }
    requires value_lt_value_limit { value < value_limit }
    ensures { result ≡ answer_bits number 0 value }
{
    number + 65536 * value
}

// Says a refusal.
pub fn refuse(r: Refusal) -> u64
    requires { place_of r < value_limit }
    ensures { result ≡ refused_bits r }
{
    bits(answer_number::number(r), answer_number::place(r))
}

// Says what write and tidy answered.
pub fn settle(w: Result<u64, Refusal>) -> u64
    requires { Small w }
    ensures { result ≡ length_bits (written_answer w) }
{
    match w {
        Ok(n) => bits(0, n),
        Err(r) => refuse(r),
    }
}

// The reply of a record that was found.
fn found(
    state: u64,
    visibility: u8,
    domain: u32,
    source: Option<u32>,
    total: u64,
    start: FileOffset,
    count: u32,
) -> Reply
    ensures { result ≡ replied state visibility domain source total start.0 count }
{
    let v = visibility as u64;
    let d = domain as u64;
    let n = count as u64;
    match source {
        None => Reply {
            number: 0,
            place: 0,
            values: [state, v, d, 0, 0, total, start.0, n],
        },
        Some(from) => Reply {
            number: 0,
            place: 0,
            values: [state, v, d, 1, from as u64, total, start.0, n],
        },
    }
}

// The reply where nothing is refused.
fn answered(f: Found) -> Reply
    ensures { result ≡ reply_of (Ok f) }
{
    match f {
        Found::Absent => Reply {
            number: 0,
            place: 0,
            values: [1, 0, 0, 0, 0, 0, 0, 0],
        },
        Found::Gone {
            visibility,
            domain,
            source,
        } => found(2, visibility, domain, source, 0, FileOffset(0), 0),
        Found::Present {
            visibility,
            domain,
            source,
            total,
            start,
            count,
        } => found(3, visibility, domain, source, total, start, count),
    }
}

pub fn in_numbers(f: Result<Found, Refusal>) -> Reply
    ensures { result ≡ reply_of f }
{
    match f {
        Ok(f) => answered(f),
        Err(r) => Reply {
            number: answer_number::number(r),
            place: answer_number::place(r),
            values: [0u64; 8],
        },
    }
}

// A record's fields as numbers, in their order.
pub fn record_numbers(r: Record) -> [u64; 13]
    ensures { result ≡ record_values r }
{
    [
        u64::from(r.hash_id),
        u64::from(r.digest_length),
        u64::from(r.reserved),
        r.digest_offset.0,
        r.extents_offset.0,
        u64::from(r.extent_count),
        r.total_length,
        u64::from(r.domain),
        u64::from(r.visibility),
        u64::from(r.imported),
        u64::from(r.reserved_last),
        u64::from(r.source),
        u64::from(r.flags),
    ]
}

// Numbers, put to the front of the lent bytes, eight bytes each.
fn put_numbers(values: &[u64], out: &mut [u8])
    requires { 8 * length values.now ≤ length out.old }
    ensures { out.new ≡ put out.old 0 (number_bytes values.now) }
{
    for (i, value) in values.iter().enumerate() {
        value.put(out, 8 * i);
    }
}

// Leaves numbers in the lent bytes and says a value, or that there is no room.
pub fn give(value: u64, values: &[u64], out: &mut [u8]) -> u64
    requires value_lt_value_limit { value < value_limit }
    requires values_len_bound { length values.now ≤ 16 }
    ensures { left result out.new ≡ given_to value values.now out.old }
{
    if out.len() < 8 * values.len() {
        return refuse(Refusal(Rule::Room, 0));
    }
    put_numbers(values, out);
    bits(0, value)
}

// Leaves a reply in the lent bytes, or says why not.
pub fn leave(a: Reply, found: &mut [u8]) -> u64
    requires { Sayable a }
    ensures { left result found.new ≡ reply_left a found.old }
{
    if a.number != 0 {
        return bits(a.number, a.place);
    }
    let values = a.values;
    give(values[0], &values[..8], found)
}
