// The fields of a segment's header and footer, between which the sections stand: a table for each.
#![tactic(auto)]

pub mod footer;
pub mod header;
