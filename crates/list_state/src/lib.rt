// How a record stands, as the listing says it: its state, its visibility and its source. Each function is
// told that there is room for its longest words.
#![tactic(auto)]

ghost use Rattle.std.specs.Prelude.{eqb};
ghost use Rattle.segment.specs.Meaning.{source_of};
ghost use Rattle.list_digits.specs.Digits.{Room, Puts};
ghost use Rattle.list_columns.specs.Listing.{cell, visibility_word, source_word};
ghost use Rattle.list_columns.specs.Columns.{gone_word, standing_cells};

use list_columns::BLANK;
use list_digits::Text;
use segment::record::Record;

// One function for this and the next would be told the test's outcome and both words, and be no shorter.
fn put_state(text: &mut Text<'_>, flags: u32)
    requires { Room 5 text.old }
    ensures { Puts 5 text.old (cell (gone_word (eqb flags 1))) text.new }
{
    if flags == 1 {
        text.put_word(b"gone", BLANK);
    } else {
        text.put_word(b"live", BLANK);
    }
}

fn put_visibility(text: &mut Text<'_>, visibility: u8)
    requires { Room 10 text.old }
    ensures { Puts 10 text.old (cell (visibility_word visibility)) text.new }
{
    if visibility == 0 {
        text.put_word(b"internal", BLANK);
    } else {
        text.put_word(b"published", BLANK);
    }
}

fn put_source(text: &mut Text<'_>, imported: u8, domain: u32)
    requires { Room 21 text.old }
    ensures { Puts 21 text.old (cell (source_word (source_of imported domain))) text.new }
{
    if imported == 0 {
        text.put_word(b"-", BLANK);
    } else {
        text.put_number(u64::from(domain), BLANK);
    }
}

pub fn put_standing(text: &mut Text<'_>, r: Record)
    requires { Room 36 text.old }
    ensures { Puts 36 text.old (standing_cells r) text.new }
{
    put_state(text, r.flags);
    put_visibility(text, r.visibility);
    put_source(text, r.imported, r.source);
}
