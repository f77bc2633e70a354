// What is written of an input, as docs/SERVICES.md, "The listing", says: the bytes that were read go in, and the text comes out, as
// much at a time as there is room for. The whole check is made in every call, so that a caller has nothing to keep but the place.
#![tactic(auto)]

ghost use Rattle.std.specs.Prelude.{◌≤◌, length};
ghost use Rattle.list_digits.specs.Digits.{ascii};
ghost use Rattle.list_columns.specs.Listing.{last, refusal_line};
ghost use Rattle.list_text.specs.Stopped.{Stopped};
ghost use Rattle.list_input.specs.Parts.{only_piece, Part};

use answer::Refusal;
use checksum::Engine;
use list_columns::NEWLINE;
use list_digits::Text;
use list_place::Place;
use list_text::{LONGEST, Stop};

// The most that is listed.
const MOST: usize = 65536;

// So many bytes of an input tell what is written of it: one more than is listed, to notice a longer one.
pub const ENOUGH: usize = MOST + 1;

// The line of a longer input, which stands at the first place.
fn put_long(place: Place, out: &mut [u8]) -> Stop
    requires { 53 ≤ length out.old }
    ensures { Stopped 53 (only_piece (last (ascii "too long")) place) out.old 0 out.new result }
{
    let mut text = Text { out, at: 0 };
    if place.is_first() {
        text.put_word(b"too long", NEWLINE);
    }
    Stop {
        next: Place::Done,
        end: text.at,
    }
}

// The line of a refused input, which stands at the first place. One function for this and the last would be lent the putting as a
// closure, with a contract on it, and be longer.
fn put_refused(r: Refusal, place: Place, out: &mut [u8]) -> Stop
    requires { 53 ≤ length out.old }
    ensures { Stopped 53 (only_piece (refusal_line r) place) out.old 0 out.new result }
{
    let mut text = Text { out, at: 0 };
    if place.is_first() {
        list_columns::put_refusal(&mut text, r);
    }
    Stop {
        next: Place::Done,
        end: text.at,
    }
}

// The text from a place on, as many whole lines as there is room for a longest one, at the front of `out`; and where it goes on. The
// first place is RecordCount, and at Done all is written.
pub fn more(input: &[u8], place: Place, out: &mut [u8]) -> Stop
    ensures { Part input.now place out.old out.new result }
{
    if out.len() < LONGEST {
        return Stop {
            next: place,
            end: 0,
        };
    }
    if MOST < input.len() {
        return put_long(place, out);
    }
    let table = [1u64, 32, 7, 4];
    match check_segment::check_by(Engine::Fast, &table, input) {
        Err(r) => put_refused(r, place, out),
        Ok(()) => list_text::fill(input, place, out),
    }
}
