// The checksum by a fast engine, which takes eight bytes at a step: each of the eight goes through a table of its own, and what the tables
// give is added up. What is left at the end, under eight bytes, goes to the plain engine, and so does an input that is too short for
// the tables to pay: they are made on the stack at each call.
#![tactic(auto)]

ghost use Rattle.std.specs.Prelude.{◌≡◌, ◌+◌, ◌*◌, ◌%◌, ◌^◌, ◌≤◌, ◌<◌, length, get_or};
ghost use Rattle.std.specs.Int.Bits.{bit_xor};
ghost use Rattle.crc64.specs.Crc.{steps, run, crc};
ghost use Rattle.crc64_table.specs.Tables.{Tables};
ghost use Rattle.crc64_fast.specs.Word.{packed};

// The length in bytes from which the tables are used. They pay from somewhat less on, if their code is in the caches (docs/PERFORMANCE.md, "The checksum").
const PAYS: usize = 640;

// Eight bytes as one number, the first lowest. By shifts: what the library's `from_le_bytes` gives is said by products and sums, and
// what goes into the register is a sum without carry.
fn word(s: &[u8]) -> u64
    requires { length s.now ≡ 8 }
    ensures { result ≡ packed (λ k. get_or s.now k 0) 8 }
{
    let mut w: u64 = 0;
    for k in 0usize..8 {
        w = w | (u64::from(s[k]) << (8 * k));
    }
    w
}

// The number of x's lowest byte in table k. The library has no `From` of a u64 for a usize.
fn at(t: &[u64; 2048], k: usize, x: u64) -> u64
    requires { (k < 8) × Tables t.now }
    ensures { result ≡ steps (8 * k + 8) (x % 256) }
{
    let i = k * 256 + (x % 256) as usize;
    t[i]
}

// What the four low bytes of x give, of which the first goes through table k + 3: the lower a byte, the more steps it has to go.
fn four(t: &[u64; 2048], k: usize, x: u64) -> u64
    requires { (k ≤ 4) × Tables t.now }
    ensures { result ≡ steps (8 * k + 32) (x % 2 ^ 32) }
{
    at(t, k + 3, x) ^ at(t, k + 2, x >> 8) ^ at(t, k + 1, x >> 16) ^ at(t, k, x >> 24)
}

// A register in two parts, which add up to it: what its four low bytes gave and what its four high bytes gave. They are kept apart so that
// neither sum waits for the other.
#[derive(Clone, Copy)]
struct Halves {
    low: u64,
    high: u64,
}

// The register after the eight bytes that were added to it.
fn eat_word(t: &[u64; 2048], x: u64) -> Halves
    requires { Tables t.now }
    ensures { bit_xor result.low result.high ≡ steps 64 x }
{
    Halves {
        low: four(t, 4, x),
        high: four(t, 0, x >> 32),
    }
}

#[tactic(auto, using(crate::proofs::Slices::run_eight, crate::proofs::Slices::tail_eight))]
fn by_tables(t: &[u64; 2048], register: u64, s: &[u8]) -> u64
    requires { Tables t.now }
    ensures { result ≡ run register s.now }
{
    let mut c = Halves {
        low: register,
        high: 0,
    };
    let words = s.chunks_exact(8);
    let tail = words.remainder();
    for bytes in words {
        c = eat_word(t, c.low ^ c.high ^ word(bytes));
    }
    crc64::crc64_plain_on(c.low ^ c.high, tail)
}

// The tables stand on the stack of this function alone, so that a short input does not pay for their room. It stays apart as long as more than
// one function calls it: of a function that only one calls, the compiler makes a part of that one.
fn with_tables(register: u64, s: &[u8]) -> u64
    ensures { result ≡ run register s.now }
{
    let t = crc64_table::tables();
    by_tables(&t, register, s)
}

// The register after the bytes of s, from the register that stood before them. `with_tables` is lent `&s[0..]`, here and below, and not s: a slice
// that is lent to a function of its own stands on the stack, and s would be put there before its length is looked at.
#[tactic(auto, using(crate::proofs::Slices::from_first))]
pub fn crc64_fast_on(register: u64, s: &[u8]) -> u64
    ensures { result ≡ run register s.now }
{
    if s.len() < PAYS {
        return crc64::crc64_plain_on(register, s);
    }
    with_tables(register, &s[0..])
}

#[tactic(auto, using(crate::proofs::Slices::from_first), unfolding(crc64::specs::Crc::crc))]
pub fn crc64_fast(s: &[u8]) -> u64
    ensures { result ≡ crc s.now }
{
    if s.len() < PAYS {
        return crc64::crc64_plain(s);
    }
    crc64::crc64_finish(with_tables(crc64::START, &s[0..]))
}
