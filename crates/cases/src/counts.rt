// The case of write in docs/SERVICES.md, "Cases": 65,536 and 65,537 entries.
ghost use Rattle.std.specs.Prelude.{◌≡◌, ◌*◌, length};
ghost use Rattle.segment.specs.Format.{entry_size};

use crate::said;
use asl::Heading;

fn ask(name: &[u8], entries: &[u64], digests: &[u8]) {
    let table = [7u64, 2];
    let heading = Heading {
        shard: 0,
        snapshot_min: 0,
        snapshot_max: 0,
        domain: 0,
        seal_snapshot: 0,
        seal_time: 0,
    };
    let mut out = [0u8; 8];
    said::wrote(
        name,
        asl::write(
            &table,
            heading,
            &digests[..0],
            entries,
            digests,
            &entries[..0],
            &mut out,
        ),
    );
}

// Gone entries with the digests 0000, 0001 and so on.
fn fill(entries: &mut [u64], digests: &mut [u8], count: usize)
    requires entries_len { length entries.old ≡ entry_size * count }
    requires digests_len { length digests.old ≡ 2 * count }
{
    for k in 0..count {
        let at = 9 * k;
        let start = 2 * k;
        entries[at] = 7;
        entries[at + 1] = start as u64;
        entries[at + 2] = 2;
        entries[at + 6] = 1;
        digests[start] = (k / 256 % 256) as u8;
        digests[start + 1] = (k % 256) as u8;
    }
}

// As many as there may be: all rules are kept, and only the room does not suffice.
pub fn most() {
    let mut entries = [0u64; 589824];
    let mut digests = [0u8; 131072];
    fill(&mut entries, &mut digests, 65536);
    ask(b"65536 entries, 8 bytes of room", &entries, &digests);
}

// One more: they are not even read.
pub fn too_many() {
    let entries = [0u64; 589833];
    ask(b"65537 entries", &entries, b"");
}
