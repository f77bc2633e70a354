// The two engines give one result on every input, and whichever number asks for an engine, a call answers the same: callers of both, which
// compare, and are proved to find no difference.
#![tactic(auto)]

ghost use Rattle.std.specs.Prelude.{◌≡◌, true};

pub fn same_checksum(s: &[u8]) -> bool
    ensures { result ≡ true }
{
    let plain = crc64::crc64_plain(s);
    let fast = crc64_fast::crc64_fast(s);
    plain == fast
}

// From any register on, not only from one that some bytes leave.
pub fn same_register(register: u64, s: &[u8]) -> bool
    ensures { result ≡ true }
{
    let plain = crc64::crc64_plain_on(register, s);
    let fast = crc64_fast::crc64_fast_on(register, s);
    plain == fast
}

pub fn same_check(one: u64, other: u64, table: &[u8], segment: &[u8]) -> bool
    ensures { result ≡ true }
{
    let a = asl::by::asl_raw_check_by(one, table, segment);
    let b = asl::by::asl_raw_check_by(other, table, segment);
    a == b
}

pub fn same_tidy_length(one: u64, other: u64, table: &[u8], segment: &[u8]) -> bool
    ensures { result ≡ true }
{
    let a = asl::by::asl_raw_tidy_length_by(one, table, segment);
    let b = asl::by::asl_raw_tidy_length_by(other, table, segment);
    a == b
}
