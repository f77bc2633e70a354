// Cases: each is run, and says in one line what came out. `rt ci` holds the lines to the file `stdout`, whose values come from
// the publications of the checksum and from docs/SERVICES.md, "Cases", and not from a run of this program.
// Lines are written by the kit's `io`: std's `println!` rests on two more functions of C than docs/TRUST.md names for this program.
#![tactic(auto)]

mod checksums;
mod counts;
mod places;
mod said;

fn main() {
    checksums::of_text();
    checksums::of_equal_bytes();
    checksums::of_rising_bytes();
    checksums::of_a_mebibyte();
    counts::most();
    counts::too_many();
    places::of_lengths();
    places::of_a_great_bloom();
    places::of_two_bad_records();
    places::of_odd_bloom_bytes();
}
