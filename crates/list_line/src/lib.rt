// The listing of a segment, one piece at a time: the line at a place, or none. Each function answers where the listing goes on.
#![tactic(auto)]

ghost use Rattle.std.specs.Prelude.{◌≡◌, drop};
ghost use Rattle.segment.specs.Meaning.{rows_of, meaning_of};
ghost use Rattle.segment.specs.Listing.{extents_listed};
ghost use Rattle.check_book.specs.Readable.{Readable};
ghost use Rattle.list_digits.specs.Digits.{Room};
ghost use Rattle.list_place.specs.Pieces.{record_piece, row_piece, piece_at};
ghost use Rattle.list_line.specs.PutsPiece.{PutsPiece};

use list_digits::Text;
use list_place::Place;
use offset::FileOffset;
use segment::extent::Extent;
use segment::header::Header;
use segment::record;
use segment::shape::Shape;

// The sum of the records' extent counts.
fn count_extents(sh: Shape, seg: &[u8], h: Header) -> u64
    requires { Readable sh seg.now h }
    ensures { result ≡ extents_listed (meaning_of sh seg.now) }
{
    let mut sum: u64 = 0;
    for k in 0..h.record_count as usize {
        let r = record::nth_record(sh, seg, h.records_offset, k);
        sum += u64::from(r.extent_count);
    }
    sum
}

// The line of record k, or nothing behind the last one.
fn put_record(text: &mut Text<'_>, sh: Shape, seg: &[u8], h: Header, k: usize) -> Place
    requires readable { Readable sh seg.now h }
    requires room { Room 2169 text.old }
    ensures { PutsPiece (record_piece k (drop k (rows_of sh seg.now h))) text.old text.new result }
{
    if h.record_count as usize <= k {
        return Place::ExtentCount;
    }
    let r = record::nth_record(sh, seg, h.records_offset, k);
    let start = r.digest_offset.0 as usize;
    let stop = start + r.digest_length as usize;
    list_record::put_record(text, k, r, &seg[start..stop]);
    Place::RecordLine(k + 1)
}

// The line of extent j of record k, or nothing behind a record's last one.
fn put_extent(text: &mut Text<'_>, sh: Shape, seg: &[u8], h: Header, k: usize, j: usize) -> Place
    requires readable { Readable sh seg.now h }
    requires room { Room 2169 text.old }
    ensures { PutsPiece (row_piece k j (drop k (rows_of sh seg.now h))) text.old text.new result }
{
    if h.record_count as usize <= k {
        return Place::Done;
    }
    let r = record::nth_record(sh, seg, h.records_offset, k);
    if r.extent_count as usize <= j {
        return Place::ExtentLine(k + 1, 0);
    }
    let at = FileOffset(r.extents_offset.0 + Extent::LONG * (j as u64));
    list_columns::put_extent(text, k, j, Extent::at(seg, at));
    Place::ExtentLine(k, j + 1)
}

// The piece at a place.
pub fn put_piece(text: &mut Text<'_>, sh: Shape, seg: &[u8], h: Header, place: Place) -> Place
    requires readable { Readable sh seg.now h }
    requires room { Room 2169 text.old }
    ensures { PutsPiece (piece_at (meaning_of sh seg.now) place) text.old text.new result }
{
    match place {
        Place::RecordCount => {
            list_columns::put_count(text, b"records", h.record_count);
            Place::RecordLine(0)
        }
        Place::RecordLine(k) => put_record(text, sh, seg, h, k),
        Place::ExtentCount => {
            list_columns::put_count(text, b"extents", count_extents(sh, seg, h));
            Place::ExtentLine(0, 0)
        }
        Place::ExtentLine(k, j) => put_extent(text, sh, seg, h, k, j),
        Place::Done => Place::Done,
    }
}
