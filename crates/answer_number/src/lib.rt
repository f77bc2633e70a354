// A refusal in numbers: its number and its place (docs/SERVICES.md, "Refusals").
#![tactic(auto)]

ghost use Rattle.std.specs.Prelude.{◌≡◌};
ghost use Rattle.answer.specs.Answers.{number_of, place_of};

use answer::{Refusal, Rule};

pub fn number(r: Refusal) -> u64
    ensures { result ≡ number_of r }
{
    let rule = r.0;
    match rule {
        Rule::Size => 1,
        Rule::Magic => 2,
        Rule::Version => 3,
        Rule::Header => 4,
        Rule::Checksum => 6,
        Rule::Record => 7,
        Rule::Digest => 8,
        Rule::Extents => 9,
        Rule::Total => 10,
        Rule::Visibility => 11,
        Rule::Duplicate => 12,
        Rule::Room => 13,
        Rule::Table => 14,
        Rule::List => 15,
        Rule::Large => 16,
        Rule::Key => 17,
        Rule::LayoutBloom => 51,
        Rule::LayoutRecords => 52,
        Rule::LayoutDigests => 53,
        Rule::LayoutExtents => 54,
        Rule::LayoutLength => 55,
    }
}

pub fn place(r: Refusal) -> u64
    ensures { result ≡ place_of r }
{
    r.1
}
