// Check: the first rule that a segment breaks under a table, or that it is accepted (docs/SERVICES.md, "The order of refusals").
#![tactic(auto)]

ghost use Rattle.std.specs.Prelude.{◌≡◌, ◌≤◌, length};
ghost use Rattle.answer.specs.Answers.{check_answer};
ghost use Rattle.segment.specs.Format.{v3, file_limit};
ghost use Rattle.segment.specs.Shapes.{Shaped};
ghost use Rattle.segment.specs.Check.{segment_rules, segment_verdict, check_of};
ghost use Rattle.check_book.specs.Readable.{Laid};
ghost use Rattle.check_segment.specs.SegmentParts.{contents_verdict, body_rules};

use answer::{Refusal, Rule};
use checksum::Engine;
use key::Items;
use segment::footer::Footer;
use segment::header::Header;
use segment::shape::Shape;
use table::LentTable;

// A segment's length at the least and at the most: a header and a footer; one GiB.
const LEAST: usize = Header::SIZE + Footer::SIZE;

const LIMIT: usize = segment::LIMIT as usize;

// Records, visibility and duplicates, of a segment whose header, layout and checksum are right.
fn check_contents(sh: Shape, pairs: &[u64], seg: &[u8], h: Header) -> Result<(), Refusal>
    requires { Laid sh seg.now h }
    ensures { result ≡ contents_verdict sh pairs.now seg.now h }
{
    let largest = check_records::check_records(sh, pairs, seg, h)?;
    if largest != h.visibility {
        return Err(Refusal(Rule::Visibility, 0));
    }
    let items = Items::records(h.records_offset, sh, seg);
    let n = h.record_count as usize;
    if key_ascending::keys_climb(items, n) {
        return Ok(());
    }
    key_duplicate::check_keys(items, n)
}

// The checksum, and then the contents.
#[tactic(auto, unfolding(crate::specs::SegmentParts::body_rules))]
fn check_body(by: Engine, sh: Shape, pairs: &[u64], seg: &[u8], h: Header) -> Result<(), Refusal>
    requires { Laid sh seg.now h }
    ensures { result ≡ body_rules sh pairs.now seg.now h }
{
    check_header::check_checksum(by, seg)?;
    check_contents(sh, pairs, seg, h)
}

fn check_rules(by: Engine, sh: Shape, pairs: &[u64], seg: &[u8], h: Header) -> Result<(), Refusal>
    requires shaped { Shaped sh }
    requires seg_len_bound { length seg.now ≤ file_limit }
    ensures { result ≡ segment_rules sh pairs.now seg.now h }
{
    check_header::check_header(sh, h, seg.len() as u64)?;
    check_body(by, sh, pairs, seg, h)
}

// Everything but the table.
pub fn check_segment(by: Engine, pairs: &[u64], seg: &[u8]) -> Result<(), Refusal>
    ensures { result ≡ segment_verdict v3 pairs.now seg.now }
{
    if seg.len() < LEAST {
        return Err(Refusal(Rule::Size, 0));
    }
    if LIMIT < seg.len() {
        return Err(Refusal(Rule::Size, 0));
    }
    check_rules(by, Shape::V3, pairs, seg, Header::of(seg))
}

#[tactic(auto, using(table::proofs::Pairs::sized, table::proofs::Pairs::copied_whole, table::proofs::Pairs::copied_fits, table::proofs::Pairs::copied_part, table::proofs::Pairs::copied_front, crate::proofs::SegmentOrder::table_bad, crate::proofs::SegmentOrder::table_good))]
pub fn check_by(by: Engine, pairs: &[u64], seg: &[u8]) -> Result<(), Refusal>
    ensures { check_answer result ≡ check_of pairs.now seg.now }
{
    let Some(table) = LentTable::new(pairs) else {
        return Err(Refusal(Rule::Table, 0));
    };
    let numbers = table::copied(table.pairs());
    check_segment(by, &numbers[..pairs.len()], seg)
}
