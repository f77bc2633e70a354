// The checksum by the engine that a caller asks for. Both engines give the same number on every input, so no promise speaks of the engine,
// here or in any service.
#![tactic(auto)]

ghost use Rattle.std.specs.Prelude.{◌≡◌};
ghost use Rattle.crc64.specs.Crc.{run, crc};
ghost use Rattle.checksum.specs.Parts.{crc_on};
ghost use Rattle.checksum.specs.Asked.{engine_of};

// The fast one is for a caller who does not choose.
#[derive(Clone, Copy, Debug, PartialEq, Eq)]
pub enum Engine {
    Fast,
    Plain,
}

// The engine that a number asks for: 1 for the plain one, and every other number for the fast one.
#[tactic(auto, unfolding(crate::specs::Asked::engine_of))]
impl From<u64> for Engine {
    ghost from_gives = { λ number by. by ≡ engine_of number };

    fn from(number: u64) -> Engine {
        match number {
            1 => Engine::Plain,
            _ => Engine::Fast,
        }
    }
}

pub fn checksum_by(by: Engine, s: &[u8]) -> u64
    ensures { result ≡ crc s.now }
{
    match by {
        Engine::Fast => crc64_fast::crc64_fast(s),
        Engine::Plain => crc64::crc64_plain(s),
    }
}

pub fn checksum(s: &[u8]) -> u64
    ensures { result ≡ crc s.now }
{
    checksum_by(Engine::Fast, s)
}

// Beside `checksum_by`, since a register has no inversion at its end, and each engine has a whole form of its own.
fn register_by(by: Engine, register: u64, s: &[u8]) -> u64
    ensures { result ≡ run register s.now }
{
    match by {
        Engine::Fast => crc64_fast::crc64_fast_on(register, s),
        Engine::Plain => crc64::crc64_plain_on(register, s),
    }
}

// The checksum of bytes that come in parts: s is the next part, and `before` the checksum of those before it, 0 where there are none.
// To invert is to take back an inversion, so that `before` inverted is the register that they left.
#[tactic(auto, unfolding(crate::specs::Parts::crc_on))]
pub fn checksum_on_by(by: Engine, before: u64, s: &[u8]) -> u64
    ensures { result ≡ crc_on before s.now }
{
    crc64::crc64_finish(register_by(by, crc64::crc64_finish(before), s))
}

pub fn checksum_on(before: u64, s: &[u8]) -> u64
    ensures { result ≡ crc_on before s.now }
{
    checksum_on_by(Engine::Fast, before, s)
}
