// The lines of the listing that hold words and numbers alone. Each function is told that there is room for the longest such line.
#![tactic(auto)]

ghost use Rattle.std.specs.Prelude.{[], ◌∷◌, ◌++◌, ◌+◌, ◌≤◌, length};
ghost use Rattle.list_digits.specs.Digits.{decimal, Room, Puts};
ghost use Rattle.list_columns.specs.Listing.{cell, count_line, extent_line, refusal_line};
ghost use Rattle.list_columns.specs.Columns.{slice_cells};

use answer::Refusal;
use list_digits::Text;
use segment::extent::Extent;

pub const BLANK: u8 = b' ';

pub const NEWLINE: u8 = b'\n';

// Two numbers, one behind the other.
pub fn put_pair(text: &mut Text<'_>, a: u64, b: u64, end: u8)
    requires { Room 42 text.old }
    ensures { Puts 42 text.old (cell (decimal a) ++ (decimal b ++ (end ∷ []))) text.new }
{
    text.put_number(a, BLANK);
    text.put_number(b, end);
}

// A number behind its name.
fn put_named(text: &mut Text<'_>, name: &[u8], n: u64, end: u8)
    requires { Room (length name.now + 22) text.old }
    ensures { Puts (length name.now + 22) text.old
        (cell name.now ++ (decimal n ++ (end ∷ []))) text.new }
{
    text.put_word(name, BLANK);
    text.put_number(n, end);
}

fn put_slice(text: &mut Text<'_>, e: Extent)
    requires { Room 63 text.old }
    ensures { Puts 63 text.old (slice_cells e) text.new }
{
    put_pair(text, e.block, u64::from(e.offset.0), BLANK);
    text.put_number(u64::from(e.length), NEWLINE);
}

// The line of extent j of record k.
pub fn put_extent(text: &mut Text<'_>, k: usize, j: usize, e: Extent)
    requires { Room 105 text.old }
    ensures { Puts 105 text.old (extent_line k j e) text.new }
{
    put_pair(text, k as u64, j as u64, BLANK);
    put_slice(text, e);
}

// A section's count, after the section's name.
pub fn put_count(text: &mut Text<'_>, name: &[u8], n: u64)
    requires name_len_bound { length name.now ≤ 7 }
    requires room { Room 29 text.old }
    ensures { Puts 29 text.old (count_line name.now n) text.new }
{
    put_named(text, name, n, NEWLINE);
}

// The one line of a refused segment.
pub fn put_refusal(text: &mut Text<'_>, r: Refusal)
    requires { Room 53 text.old }
    ensures { Puts 53 text.old (refusal_line r) text.new }
{
    put_named(text, b"refused", answer_number::number(r), BLANK);
    put_named(text, b"at", answer_number::place(r), NEWLINE);
}
