// Published vectors of the CRC-64 of the .xz format, by both engines.
ghost use Rattle.std.specs.Prelude.{◌≡◌, length};

use asl::Engine;

// One line: what the bytes are, and their checksum by the plain engine and by the fast one.
fn line(name: &[u8], plain: u64, fast: u64) {
    io::write_all(1, b"crc64 of ");
    io::write_all(1, name);
    io::write_all(1, b": ");
    io::print_hex(1, plain, 16);
    io::write_all(1, b", fast ");
    io::print_hex(1, fast, 16);
    io::write_all(1, b"\n");
}

fn show(name: &[u8], s: &[u8]) {
    let plain = asl::checksum_by(Engine::Plain, s);
    let fast = asl::checksum_by(Engine::Fast, s);
    line(name, plain, fast);
}

pub fn of_text() {
    show(b"\"123456789\"", b"123456789");
}

pub fn of_equal_bytes() {
    show(b"nothing", b"");
    show(b"one byte 00", b"\x00");
    show(b"32 bytes 00", &[0; 32]);
    show(b"32 bytes FF", &[255; 32]);
}

// The bytes 00, 01, .., FF, four times: long enough for the fast engine's tables.
fn rising() -> [u8; 1024]
    ensures { 1024 ≡ length result }
{
    let mut block = [0u8; 1024];
    for i in 0usize..1024 {
        block[i] = (i % 256) as u8;
    }
    block
}

pub fn of_rising_bytes() {
    let block = rising();
    show(b"bytes 00..1F", &block[0..32]);
    show(b"bytes 00..FF", &block[0..256]);
}

// The checksum of the block repeated: each turn goes on over one more copy.
fn repeated(by: Engine, block: &[u8], times: usize) -> u64 {
    let mut sum = 0;
    for _ in 0..times {
        sum = asl::checksum_on_by(by, sum, block);
    }
    sum
}

pub fn of_a_mebibyte() {
    let block = rising();
    let plain = repeated(Engine::Plain, &block, 1024);
    let fast = repeated(Engine::Fast, &block, 1024);
    line(b"bytes 00..FF 4096 times", plain, fast);
}
