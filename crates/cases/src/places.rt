// The cases of docs/SERVICES.md, "Cases", that are refused at a byte of the file, of case L; and write's bloom, which has no file.
use crate::said;
use asl::Heading;

const TABLE: [u64; 2] = [7, 4];

// Hash 7, digest 0a0b0c0d, published, one extent; and hash 7, digest 0a0b0c0e, gone, internal.
const ENTRIES: [u64; 18] = [7, 0, 4, 1, 0, 0, 0, 0, 1, 7, 4, 4, 0, 0, 0, 1, 0, 0];

const EXTENTS: [u64; 3] = [9, 64, 3];

fn write_case_l(name: &[u8], bloom: &[u8], out: &mut [u8]) {
    let heading = Heading {
        shard: 0,
        snapshot_min: 0,
        snapshot_max: 0,
        domain: 5,
        seal_snapshot: 0,
        seal_time: 0,
    };
    let digests = b"\x0a\x0b\x0c\x0d\x0a\x0b\x0c\x0e";
    said::wrote(
        name,
        asl::write(&TABLE, heading, bloom, &ENTRIES, digests, &EXTENTS, out),
    );
}

// The check of so many bytes from the first on, if there are so many.
fn check_first(name: &[u8], file: &[u8], n: usize) {
    if let Some(part) = file.get(..n) {
        said::checked(name, asl::check(&TABLE, part));
    }
}

// Case L is 256 bytes long: shorter beginnings, and one byte more.
pub fn of_lengths() {
    let mut file = [0u8; 257];
    write_case_l(b"case L to be cut", b"", &mut file);
    check_first(b"its 256 bytes", &file, 256);
    check_first(b"all but its last byte", &file, 255);
    check_first(b"one byte more", &file, 257);
    check_first(b"its first 136 bytes", &file, 136);
    check_first(b"its first 135 bytes", &file, 135);
}

// Four bytes of the file changed, if they are there.
fn change(file: &mut [u8], at: usize, v: u32) {
    if 4 <= file.len() && at <= file.len() - 4 {
        file[at..at + 4].copy_from_slice(&v.to_le_bytes());
    }
}

// Bloom offset 112, bloom size 2^64 - 112, records offset 0.
pub fn of_a_great_bloom() {
    let mut file = [0u8; 256];
    write_case_l(b"case L to have a great bloom", b"", &mut file);
    change(&mut file, 40, 0);
    change(&mut file, 48, 112);
    change(&mut file, 56, 4294967184);
    change(&mut file, 60, 4294967295);
    check_first(b"its bloom size 2^64 - 112", &file, 256);
}

// The right checksum, of all bytes before the footer.
fn seal(file: &mut [u8]) {
    if 24 <= file.len() {
        let end = file.len() - 24;
        let sum = asl::checksum(&file[..end]);
        file[end..end + 8].copy_from_slice(&sum.to_le_bytes());
    }
}

// The total of record 0, at 112 + 28, and the flags of record 1, at 160 + 44.
pub fn of_two_bad_records() {
    let mut file = [0u8; 256];
    write_case_l(b"case L to be damaged", b"", &mut file);
    change(&mut file, 140, 4);
    change(&mut file, 204, 3);
    seal(&mut file);
    check_first(b"its first total and its last flags bad", &file, 256);
}

pub fn of_odd_bloom_bytes() {
    let mut out = [0u8; 8];
    write_case_l(b"case L with 7 bloom bytes", b"7 bytes", &mut out);
}
