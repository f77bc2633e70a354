// What the entry points for C do for a caller who does not choose an engine of the checksum: each is that of `by` with the fast one.
ghost use Rattle.std.specs.Prelude.{◌≡◌};
ghost use Rattle.segment.specs.Keys.{key_from};
ghost use Rattle.segment.specs.Check.{check_of};
ghost use Rattle.segment.specs.LookUp.{looked_up};
ghost use Rattle.segment.specs.Walk.{stepped};
ghost use Rattle.segment.specs.Tidy.{tidy_length_of, tidy_of};
ghost use Rattle.segment.specs.Write.{write_of};
ghost use Rattle.write.specs.Seal.{asked};
ghost use Rattle.c_table.specs.Lent.{table_in};
ghost use Rattle.c_answer.specs.Boundary.{bits_of, length_bits, left, reply_of, reply_left, step_left, headed, sealed_as};

use crate::by;

// The version of this interface: major, minor and patch, from the fifth, the third and the first byte on.
pub const VERSION: u64 = 0x0000_0003_0001_0000;

pub fn asl_raw_version() -> u64
    ensures { result ≡ 12884967424 }
{
    VERSION
}

pub fn asl_raw_check(table: &[u8], segment: &[u8]) -> u64
    ensures { result ≡ bits_of (check_of (table_in table.now) segment.now) 0 }
{
    by::asl_raw_check_by(by::FAST, table, segment)
}

pub fn asl_raw_look_up(
    table: &[u8],
    segment: &[u8],
    hash_id: u64,
    digest: &[u8],
    found: &mut [u8],
) -> u64
    ensures { left result found.new ≡
        reply_left (reply_of (looked_up (table_in table.now) segment.now (key_from hash_id digest.now)))
        found.old }
{
    by::asl_raw_look_up_by(by::FAST, table, segment, hash_id, digest, found)
}

pub fn asl_raw_step(table: &[u8], segment: &[u8], at: u64, fields: &mut [u8]) -> u64
    ensures { left result fields.new ≡
        step_left (stepped (table_in table.now) segment.now at) fields.old }
{
    by::asl_raw_step_by(by::FAST, table, segment, at, fields)
}

pub fn asl_raw_tidy_length(table: &[u8], segment: &[u8]) -> u64
    ensures { result ≡ length_bits (tidy_length_of (table_in table.now) segment.now) }
{
    by::asl_raw_tidy_length_by(by::FAST, table, segment)
}

pub fn asl_raw_tidy(table: &[u8], segment: &[u8], out: &mut [u8]) -> u64
    ensures { left result out.new ≡ sealed_as (tidy_of (table_in table.now) segment.now out.old) }
{
    by::asl_raw_tidy_by(by::FAST, table, segment, out)
}

pub fn asl_raw_write(
    table: &[u8],
    shard: u16,
    snapshot_min: u64,
    snapshot_max: u64,
    domain: u32,
    seal_snapshot: u64,
    seal_time: u64,
    bloom: &[u8],
    entries: &[u64],
    digests: &[u8],
    extents: &[u64],
    out: &mut [u8],
) -> u64
    ensures { left result out.new ≡ sealed_as (write_of
        (table_in table.now)
        (asked (headed shard snapshot_min snapshot_max domain seal_snapshot seal_time)
        bloom.now entries.now digests.now extents.now)
        out.old) }
{
    by::asl_raw_write_by(
        by::FAST,
        table,
        shard,
        snapshot_min,
        snapshot_max,
        domain,
        seal_snapshot,
        seal_time,
        bloom,
        entries,
        digests,
        extents,
        out,
    )
}
