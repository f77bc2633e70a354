// The checksum for C, by either engine, whole and in parts. Each is that of `asl::sum`.
ghost use Rattle.std.specs.Prelude.{◌≡◌};
ghost use Rattle.crc64.specs.Crc.{crc};
ghost use Rattle.checksum.specs.Parts.{crc_on};

#[unsafe(no_mangle)]
pub extern "C" fn asl_raw_checksum_by(engine: u64, bytes: &[u8]) -> u64
    ensures { result ≡ crc bytes.now }
{
    asl::sum::asl_raw_checksum_by(engine, bytes)
}

#[unsafe(no_mangle)]
pub extern "C" fn asl_raw_checksum(bytes: &[u8]) -> u64
    ensures { result ≡ crc bytes.now }
{
    asl::sum::asl_raw_checksum(bytes)
}

#[unsafe(no_mangle)]
pub extern "C" fn asl_raw_checksum_on_by(engine: u64, before: u64, bytes: &[u8]) -> u64
    ensures { result ≡ crc_on before bytes.now }
{
    asl::sum::asl_raw_checksum_on_by(engine, before, bytes)
}

#[unsafe(no_mangle)]
pub extern "C" fn asl_raw_checksum_on(before: u64, bytes: &[u8]) -> u64
    ensures { result ≡ crc_on before bytes.now }
{
    asl::sum::asl_raw_checksum_on(before, bytes)
}
