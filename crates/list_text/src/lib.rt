// The listing of a segment: as many whole pieces at a time as there is room for.
#![tactic(auto)]

ghost use Rattle.std.specs.Prelude.{length};
ghost use Rattle.segment.specs.Format.{v3, header_of};
ghost use Rattle.segment.specs.Meaning.{meaning_of};
ghost use Rattle.check_book.specs.Readable.{Readable};
ghost use Rattle.list_place.specs.Pieces.{filled};
ghost use Rattle.list_text.specs.Stopped.{Stopped};

use list_digits::Text;
use list_place::Place;
use segment::header::Header;
use segment::shape::Shape;

// Where the listing goes on, and where in the output.
#[derive(Clone, Copy)]
pub struct Stop {
    pub next: Place,
    pub end: usize,
}

// A record's line with a digest of 1,024 bytes, and twenty digits in each number.
pub const LONGEST: usize = 2169;

// The listing of a checked segment from a place on, as many whole lines as there is room for a longest one.
pub fn fill(seg: &[u8], place: Place, out: &mut [u8]) -> Stop
    requires { Readable v3 seg.now (header_of seg.now) }
    ensures { Stopped (length out.old) (filled (meaning_of v3 seg.now) place (length out.old))
        out.old 0 out.new result }
{
    let h = Header::of(seg);
    let mut text = Text { out, at: 0 };
    let mut next = place;
    // no count is kept: it goes on from place to place, until the end or until a longest line has no room
    while LONGEST <= text.out.len() - text.at && !next.is_done() {
        next = list_line::put_piece(&mut text, Shape::V3, seg, h, next);
    }
    Stop { next, end: text.at }
}
