// What the entry points for C do; `asl_c` exports each, and include/asl.h declares it and wraps it, so that lists are counted in items. Each
// is total by its own checks, on numbers and slices, and returns one number: 0 or a refusal's number in the lowest byte, and from
// the third byte on a value, or the refusal's place. Where it refuses it changes nothing. A table is lent as bytes, eight to a number.
// The first number asks for an engine of the checksum (`Engine::from`), and makes no difference to the answer.
ghost use Rattle.std.specs.Prelude.{◌≡◌};
ghost use Rattle.segment.specs.Keys.{key_from};
ghost use Rattle.segment.specs.Check.{check_of};
ghost use Rattle.segment.specs.LookUp.{looked_up};
ghost use Rattle.segment.specs.Walk.{stepped};
ghost use Rattle.segment.specs.Tidy.{tidy_length_of, tidy_of};
ghost use Rattle.segment.specs.Write.{write_of};
ghost use Rattle.write.specs.Seal.{asked};
ghost use Rattle.c_table.specs.Lent.{table_in};
ghost use Rattle.c_answer.specs.Boundary.{bits_of, length_bits, left, reply_of, reply_left, step_left, headed, sealed_as};

use checksum::Engine;
use segment::header::Heading;

// The number of the engine for a caller who does not choose.
pub const FAST: u64 = 0;

pub fn asl_raw_check_by(engine: u64, table: &[u8], segment: &[u8]) -> u64
    ensures { result ≡ bits_of (check_of (table_in table.now) segment.now) 0 }
{
    let by = Engine::from(engine);
    let lent = c_table::Lent::new(table);
    match check_segment::check_by(by, lent.pairs(), segment) {
        Ok(()) => 0,
        Err(r) => c_answer::refuse(r),
    }
}

// The answer's eight numbers go to the front of `found`, which has to have 64 bytes.
pub fn asl_raw_look_up_by(
    engine: u64,
    table: &[u8],
    segment: &[u8],
    hash_id: u64,
    digest: &[u8],
    found: &mut [u8],
) -> u64
    ensures { left result found.new ≡
        reply_left (reply_of (looked_up (table_in table.now) segment.now (key_from hash_id digest.now)))
        found.old }
{
    let by = Engine::from(engine);
    let lent = c_table::Lent::new(table);
    let answer = look_up::look_up_by(by, lent.pairs(), segment, hash_id, digest);
    c_answer::leave(c_answer::in_numbers(answer), found)
}

// The thirteen fields of a record go to the front of `fields`, which has to have 104 bytes then.
pub fn asl_raw_step_by(engine: u64, table: &[u8], segment: &[u8], at: u64, fields: &mut [u8]) -> u64
    ensures { left result fields.new ≡
        step_left (stepped (table_in table.now) segment.now at) fields.old }
{
    let by = Engine::from(engine);
    let lent = c_table::Lent::new(table);
    match walk::step_from_by(by, lent.pairs(), segment, at as usize) {
        Ok(Some(r)) => {
            let values = c_answer::record_numbers(r);
            c_answer::give(1, &values[..13], fields)
        }
        Ok(None) => c_answer::bits(0, 2),
        Err(r) => c_answer::refuse(r),
    }
}

pub fn asl_raw_tidy_length_by(engine: u64, table: &[u8], segment: &[u8]) -> u64
    ensures { result ≡ length_bits (tidy_length_of (table_in table.now) segment.now) }
{
    let by = Engine::from(engine);
    let lent = c_table::Lent::new(table);
    c_answer::settle(tidy_length::tidy_length_by(by, lent.pairs(), segment))
}

pub fn asl_raw_tidy_by(engine: u64, table: &[u8], segment: &[u8], out: &mut [u8]) -> u64
    ensures { left result out.new ≡ sealed_as (tidy_of (table_in table.now) segment.now out.old) }
{
    let by = Engine::from(engine);
    let lent = c_table::Lent::new(table);
    let answer = tidy::tidy_by(by, lent.pairs(), segment, out);
    c_answer::settle(answer)
}

pub fn asl_raw_write_by(
    engine: u64,
    table: &[u8],
    shard: u16,
    snapshot_min: u64,
    snapshot_max: u64,
    domain: u32,
    seal_snapshot: u64,
    seal_time: u64,
    bloom: &[u8],
    entries: &[u64],
    digests: &[u8],
    extents: &[u64],
    out: &mut [u8],
) -> u64
    ensures { left result out.new ≡ sealed_as (write_of
        (table_in table.now)
        (asked (headed shard snapshot_min snapshot_max domain seal_snapshot seal_time)
        bloom.now entries.now digests.now extents.now)
        out.old) }
{
    let by = Engine::from(engine);
    let lent = c_table::Lent::new(table);
    let heading = Heading {
        shard,
        snapshot_min,
        snapshot_max,
        domain,
        seal_snapshot,
        seal_time,
    };
    let answer = write::write_by(
        by,
        lent.pairs(),
        heading,
        bloom,
        entries,
        digests,
        extents,
        out,
    );
    c_answer::settle(answer)
}
