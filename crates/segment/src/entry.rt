// An entry, as write is lent it: nine numbers of a flat list, in the order of the fields.
ghost use Rattle.std.specs.Prelude.{◌≡◌, ◌+◌, ◌*◌, ◌≤◌, ◌<◌, length, get_or};
ghost use Rattle.segment.specs.Format.{entry_size};
ghost use Rattle.segment.specs.Write.{entry_no, entry_place};

#[derive(Clone, Copy)]
pub struct Entry {
    pub hash_id: u64,
    pub digest_start: u64,
    pub digest_length: u64,
    pub visibility: u64,
    pub imported: u64,
    pub source: u64,
    pub gone: u64,
    pub first_extent: u64,
    pub extent_count: u64,
}

impl Entry {
    pub const SIZE: usize = 9;

    // Entry k of a list.
    pub fn at(list: &[u64], k: usize) -> Self
        requires { entry_size * k + entry_size ≤ length list.now }
        ensures { result ≡ entry_no list.now k }
    {
        Self {
            hash_id: number(list, k, 0),
            digest_start: number(list, k, 1),
            digest_length: number(list, k, 2),
            visibility: number(list, k, 3),
            imported: number(list, k, 4),
            source: number(list, k, 5),
            gone: number(list, k, 6),
            first_extent: number(list, k, 7),
            extent_count: number(list, k, 8),
        }
    }
}

// A number of entry k.
fn number(list: &[u64], k: usize, field: usize) -> u64
    requires entry_size_in_bounds { entry_size * k + entry_size ≤ length list.now }
    requires field_lt_entry_size { field < entry_size }
    ensures { result ≡ get_or list.now (entry_size * k + field) 0 }
{
    list[Entry::SIZE * k + field]
}

// The place of a refusal of entry k.
pub fn place_of(k: usize) -> u64
    ensures { result ≡ entry_place k }
{
    k as u64
}
