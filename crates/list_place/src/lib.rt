// The places of a listing. Records may share extents, so that the listing of 64 KiB can be tens of megabytes long: it is put from place
// to place into whatever room is lent.
#![tactic(auto)]

ghost use Rattle.std.specs.Prelude.{◌≡◌};
ghost use Rattle.list_place.specs.Pieces.{is_first, is_done};

// Where in the listing: at the count of the records, at a record's line, at the count of the extents, at the line of an extent of a
// record, or at the end.
#[derive(Clone, Copy)]
pub enum Place {
    RecordCount,
    RecordLine(usize),
    ExtentCount,
    ExtentLine(usize, usize),
    Done,
}

impl Place {
    pub fn is_first(self) -> bool
        ensures { result ≡ is_first self }
    {
        matches!(self, Place::RecordCount)
    }

    pub fn is_done(self) -> bool
        ensures { result ≡ is_done self }
    {
        matches!(self, Place::Done)
    }
}
