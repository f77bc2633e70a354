// The checksum of a segment: the reflected CRC-64 of the .xz file format. The plain engine goes bit by bit.
// A long input may come in parts: begin at START, run each part on from the register that the part before left,
// and finish.
#![tactic(auto)]

ghost use Rattle.std.specs.Prelude.{◌≡◌};
ghost use Rattle.std.specs.Int.Bits.{bit_xor};
ghost use Rattle.crc64.specs.Crc.{ones, step, byte, run, crc};

const POLY: u64 = 0xC96C_5795_D787_0F42;

// The register before the first byte: all ones.
pub const START: u64 = 0xFFFF_FFFF_FFFF_FFFF;

#[tactic(auto, unfolding(crate::specs::Crc::step))]
fn bit(register: u64) -> u64
    ensures { result ≡ step register }
{
    if register % 2 == 1 {
        (register >> 1) ^ POLY
    } else {
        register >> 1
    }
}

#[tactic(auto, using(crate::proofs::CrcLaws::steps_more), unfolding(crate::specs::Crc::byte, crate::specs::Crc::steps))]
fn eat(register: u64, b: u8) -> u64
    ensures { result ≡ byte register b }
{
    let mut x = register ^ u64::from(b);
    for _ in 0..8u32 {
        x = bit(x);
    }
    x
}

// The register after the bytes of s, from the register that stood before them.
#[tactic(auto, using(crate::proofs::CrcLaws::run_more, crate::proofs::CrcLaws::run_none, crate::proofs::CrcLaws::run_whole))]
pub fn crc64_plain_on(register: u64, s: &[u8]) -> u64
    ensures { result ≡ run register s.now }
{
    let mut c = register;
    for b in s {
        c = eat(c, *b);
    }
    c
}

// The checksum that a register stands for once every byte has been read: the register, inverted.
pub fn crc64_finish(register: u64) -> u64
    ensures { result ≡ bit_xor register ones }
{
    register ^ START
}

#[tactic(auto, using(crate::proofs::CrcLaws::run_whole), unfolding(crate::specs::Crc::crc))]
pub fn crc64_plain(s: &[u8]) -> u64
    ensures { result ≡ crc s.now }
{
    crc64_finish(crc64_plain_on(START, s))
}
