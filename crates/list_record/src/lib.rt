// A record's line of the listing. Each function is told that there is room for the longest such part of the line.
#![tactic(auto)]

ghost use Rattle.std.specs.Prelude.{◌++◌, ◌≤◌, length};
ghost use Rattle.list_digits.specs.Digits.{decimal, hex, Room, Puts};
ghost use Rattle.list_columns.specs.Listing.{cell};
ghost use Rattle.list_columns.specs.Columns.{record_cells};

use list_columns::{BLANK, NEWLINE};
use list_digits::Text;
use segment::record::Record;

fn put_identity(text: &mut Text<'_>, k: usize, hash: u32, digest: &[u8])
    requires digest_len_bound { length digest.now ≤ 1024 }
    requires room { Room 2091 text.old }
    ensures { Puts 2091 text.old (cell (decimal k) ++ cell (decimal hash) ++ cell (hex digest.now)) text.new }
{
    list_columns::put_pair(text, k as u64, u64::from(hash), BLANK);
    text.put_hex(digest, BLANK);
}

// The line of record k.
pub fn put_record(text: &mut Text<'_>, k: usize, r: Record, digest: &[u8])
    requires digest_len_bound { length digest.now ≤ 1024 }
    requires room { Room 2169 text.old }
    ensures { Puts 2169 text.old (record_cells k r digest.now) text.new }
{
    put_identity(text, k, r.hash_id, digest);
    list_state::put_standing(text, r);
    list_columns::put_pair(text, r.total_length, u64::from(r.extent_count), NEWLINE);
}
