// The entries of a shape as records, each from its level and the number of its type.
ghost use Rattle.std.specs.Prelude.{◌*◌, ◌≤◌, ◌<◌, length};
ghost use Rattle.paper.specs.Format.{most_types, entry_bytes};
ghost use Rattle.octets.specs.Served.{Served};
ghost use Rattle.names.specs.Word.{most_kept};
ghost use Rattle.typed.specs.Entries.{Sized, EntryIs, EachKnown, EntriesPut};

use paper::Format;

// How many labels a listed type has: one for each step up to a root.
fn type_size(parents: &[u8], count: usize, k: usize) -> usize
    requires { (count ≤ length parents.now) × (k < count) }
    ensures { (result ≤ most_kept) × Sized parents.now count k result }
{
    let mut q = k;
    for n in 0..8 {
        if count <= q {
            return n;
        }
        q = octets::wide(parents[q]);
    }
    8
}

// The record of an entry with this level and this type; its labels are put from the last upwards.
fn entry_record<'a>(
    f: Format,
    level: u8,
    k: usize,
    parents: &'a [u8],
    labels: &'a [u16],
    count: usize,
) -> [u8; 20]
    requires { Served f × (count ≤ length parents.now) × (count ≤ length labels.now) × (k < count) }
    ensures { EntryIs f parents.now labels.now count level k result }
{
    let size = type_size(parents, count, k);
    let mut r = [0u8; 20];
    r[0] = level;
    r[1] = size as u8;
    let mut q = k;
    for j in (0..size).rev() {
        if count <= q {
            return r;
        }
        octets::put_word(&mut r, 4 + 2 * j, labels[q]);
        q = octets::wide(parents[q]);
    }
    r
}

// The records of the entries, one after the other, at the front of new.
pub fn put_entries<'a>(
    levels: &[u16],
    types: &[u16],
    entries: usize,
    f: Format,
    parents: &'a [u8],
    labels: &'a [u16],
    count: usize,
    new: &mut [u8],
)
    requires served { Served f × (entries ≤ length levels.now) × (entries ≤ length types.now) × (entry_bytes f * entries ≤ length new.old) }
    requires count_in_bounds { (count ≤ length parents.now) × (count ≤ length labels.now) × (count ≤ most_types) }
    requires each_known { EachKnown f levels.now types.now entries count }
    ensures { EntriesPut f levels.now types.now entries parents.now labels.now count
        new.old new.new }
{
    let w = octets::entry_bytes(f);
    for e in 0..entries {
        let r = entry_record(
            f,
            levels[e] as u8,
            octets::wide16(types[e]),
            parents,
            labels,
            count,
        );
        octets::put(new, w * e, &r[..w]);
    }
}
