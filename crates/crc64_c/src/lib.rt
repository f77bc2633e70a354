// Both engines of the checksum for C: the functions of `crc64` and `crc64_fast` under their own names, each with its promise.
#![tactic(auto)]

ghost use Rattle.std.specs.Prelude.{◌≡◌};
ghost use Rattle.std.specs.Int.Bits.{bit_xor};
ghost use Rattle.crc64.specs.Crc.{ones, run, crc};

// The register after the bytes of s, from the register that stood before them, by the plain engine.
#[unsafe(no_mangle)]
pub extern "C" fn crc64_plain_on(register: u64, s: &[u8]) -> u64
    ensures { result ≡ run register s.now }
{
    crc64::crc64_plain_on(register, s)
}

// The checksum that a register stands for once every byte has been read.
#[unsafe(no_mangle)]
pub extern "C" fn crc64_finish(register: u64) -> u64
    ensures { result ≡ bit_xor register ones }
{
    crc64::crc64_finish(register)
}

// The checksum, by the plain engine.
#[unsafe(no_mangle)]
pub extern "C" fn crc64_plain(s: &[u8]) -> u64
    ensures { result ≡ crc s.now }
{
    crc64::crc64_plain(s)
}

// The register after the bytes of s, from the register that stood before them, by the fast engine.
#[unsafe(no_mangle)]
pub extern "C" fn crc64_fast_on(register: u64, s: &[u8]) -> u64
    ensures { result ≡ run register s.now }
{
    crc64_fast::crc64_fast_on(register, s)
}

// The checksum, by the fast engine.
#[unsafe(no_mangle)]
pub extern "C" fn crc64_fast(s: &[u8]) -> u64
    ensures { result ≡ crc s.now }
{
    crc64_fast::crc64_fast(s)
}
