// The entry points for C by a chosen engine of the checksum. Each is that of `asl::by`, which says what it does; include/asl.h declares it.
ghost use Rattle.std.specs.Prelude.{◌≡◌};
ghost use Rattle.segment.specs.Keys.{key_from};
ghost use Rattle.segment.specs.Check.{check_of};
ghost use Rattle.segment.specs.LookUp.{looked_up};
ghost use Rattle.segment.specs.Walk.{stepped};
ghost use Rattle.segment.specs.Tidy.{tidy_length_of, tidy_of};
ghost use Rattle.segment.specs.Write.{write_of};
ghost use Rattle.write.specs.Seal.{asked};
ghost use Rattle.c_table.specs.Lent.{table_in};
ghost use Rattle.c_answer.specs.Boundary.{bits_of, length_bits, left, reply_of, reply_left, step_left, headed, sealed_as};

#[unsafe(no_mangle)]
pub extern "C" fn asl_raw_check_by(engine: u64, table: &[u8], segment: &[u8]) -> u64
    ensures { result ≡ bits_of (check_of (table_in table.now) segment.now) 0 }
{
    asl::by::asl_raw_check_by(engine, table, segment)
}

#[unsafe(no_mangle)]
pub extern "C" fn asl_raw_look_up_by(
    engine: u64,
    table: &[u8],
    segment: &[u8],
    hash_id: u64,
    digest: &[u8],
    found: &mut [u8],
) -> u64
    ensures { left result found.new ≡
        reply_left (reply_of (looked_up (table_in table.now) segment.now (key_from hash_id digest.now)))
        found.old }
{
    asl::by::asl_raw_look_up_by(engine, table, segment, hash_id, digest, found)
}

#[unsafe(no_mangle)]
pub extern "C" fn asl_raw_step_by(
    engine: u64,
    table: &[u8],
    segment: &[u8],
    at: u64,
    fields: &mut [u8],
) -> u64
    ensures { left result fields.new ≡
        step_left (stepped (table_in table.now) segment.now at) fields.old }
{
    asl::by::asl_raw_step_by(engine, table, segment, at, fields)
}

#[unsafe(no_mangle)]
pub extern "C" fn asl_raw_tidy_length_by(engine: u64, table: &[u8], segment: &[u8]) -> u64
    ensures { result ≡ length_bits (tidy_length_of (table_in table.now) segment.now) }
{
    asl::by::asl_raw_tidy_length_by(engine, table, segment)
}

#[unsafe(no_mangle)]
pub extern "C" fn asl_raw_tidy_by(engine: u64, table: &[u8], segment: &[u8], out: &mut [u8]) -> u64
    ensures { left result out.new ≡ sealed_as (tidy_of (table_in table.now) segment.now out.old) }
{
    asl::by::asl_raw_tidy_by(engine, table, segment, out)
}

#[unsafe(no_mangle)]
pub extern "C" fn asl_raw_write_by(
    engine: u64,
    table: &[u8],
    shard: u16,
    snapshot_min: u64,
    snapshot_max: u64,
    domain: u32,
    seal_snapshot: u64,
    seal_time: u64,
    bloom: &[u8],
    entries: &[u64],
    digests: &[u8],
    extents: &[u64],
    out: &mut [u8],
) -> u64
    ensures { left result out.new ≡ sealed_as (write_of
        (table_in table.now)
        (asked (headed shard snapshot_min snapshot_max domain seal_snapshot seal_time)
        bloom.now entries.now digests.now extents.now)
        out.old) }
{
    asl::by::asl_raw_write_by(
        engine,
        table,
        shard,
        snapshot_min,
        snapshot_max,
        domain,
        seal_snapshot,
        seal_time,
        bloom,
        entries,
        digests,
        extents,
        out,
    )
}
