// What differs between versions of the format. Whoever reads or writes a segment is handed a shape, so that a version is named
// where a service begins and nowhere below.
use crate::record::Record;

#[derive(Clone, Copy)]
pub struct Shape {
    pub magic: u64,
    pub version: u16,
    pub record_size: usize,
    // Whether a total has eight bytes, which stand behind all other fields, or four among them.
    pub total_wide: bool,
    pub total_limit: u64,
}

impl Shape {
    // Version 3. The magic is the ASCII text ASLIDX03, its first byte lowest.
    pub const V3: Shape = Shape {
        magic: 0x3330_5844_494C_5341,
        version: 3,
        record_size: Record::SIZE,
        total_wide: false,
        total_limit: 4294967295,
    };
}
