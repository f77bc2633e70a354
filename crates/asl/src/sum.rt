// The checksum as C asks for it, by either engine, whole and in parts. It is a number and no answer: nothing can be refused.
ghost use Rattle.std.specs.Prelude.{◌≡◌};
ghost use Rattle.crc64.specs.Crc.{crc};
ghost use Rattle.checksum.specs.Parts.{crc_on};

use checksum::Engine;

pub fn asl_raw_checksum_by(engine: u64, bytes: &[u8]) -> u64
    ensures { result ≡ crc bytes.now }
{
    checksum::checksum_by(Engine::from(engine), bytes)
}

pub fn asl_raw_checksum(bytes: &[u8]) -> u64
    ensures { result ≡ crc bytes.now }
{
    checksum::checksum(bytes)
}

// `before` is the checksum of the parts before, 0 where there are none.
pub fn asl_raw_checksum_on_by(engine: u64, before: u64, bytes: &[u8]) -> u64
    ensures { result ≡ crc_on before bytes.now }
{
    checksum::checksum_on_by(Engine::from(engine), before, bytes)
}

pub fn asl_raw_checksum_on(before: u64, bytes: &[u8]) -> u64
    ensures { result ≡ crc_on before bytes.now }
{
    checksum::checksum_on(before, bytes)
}
