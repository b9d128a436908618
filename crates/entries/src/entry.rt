// Single entries and lists of them: which keys they touch, whether a house's shelves are as they say, and writing them.
ghost use Rattle.std.specs.Prelude.{◌≡◌};
ghost use Rattle.orders.specs.Order.{touches, meets, in_house, as_said, seen_here, put, ours};

use orders::Entry;

// From so many entries on they are searched by fours.
const MANY: usize = 8;

// Whether an entry has the key: one is looked at after the other, up to the first that has.
fn one_touches_key(key: u32, entries: &[Entry]) -> bool
    ensures { result ≡ touches key entries.now }
{
    entries.iter().any(|e| e.key == key)
}

// Whether one of the four has the key: all of them are looked at, with no jump between.
fn four_touch_key(key: u32, four: &[Entry; 4]) -> bool
    ensures { result ≡ touches key four.now }
{
    let [a, b, c, d] = four;
    (a.key == key) | (b.key == key) | (c.key == key) | (d.key == key)
}

// Whether an entry has the key.
pub fn touches_key(key: u32, entries: &[Entry]) -> bool
    ensures { result ≡ touches key entries.now }
{
    // Nearly all of a hold's time (at most 25 µs) goes to this search. Few entries are searched faster one by one, many by fours.
    if entries.len() < MANY {
        return one_touches_key(key, entries);
    }
    let (fours, rest) = entries.as_chunks::<4>();
    fours.iter().any(|four| four_touch_key(key, four)) || one_touches_key(key, rest)
}

// Whether two lists have a key in common.
pub fn have_common_key(entries: &[Entry], others: &[Entry]) -> bool
    ensures { result ≡ meets entries.now others.now }
{
    entries.iter().any(|e| touches_key(e.key, others))
}

// Whether an entry is of the house.
pub fn any_in_house(house: u32, entries: &[Entry]) -> bool
    ensures { result ≡ in_house house entries.now }
{
    entries.iter().any(|e| e.house() == house)
}

// Whether the entry is of another house, or says what the shelf has.
pub fn is_as_said(house: u32, shelves: &[u32], e: Entry) -> bool
    ensures { result ≡ as_said house shelves.now e }
{
    e.house() != house || shelves.get(e.item() as usize).copied().unwrap_or(0) == e.amount
}

// Whether the house's shelves are as the entries say.
pub fn as_seen(house: u32, entries: &[Entry], shelves: &[u32]) -> bool
    ensures { result ≡ seen_here house entries.now shelves.now }
{
    entries.iter().all(|e| is_as_said(house, shelves, *e))
}

// Writes the entry where it is of the house.
// Not by `get_mut`: the contract of a slice's `get_mut` says nothing of what the slice has after the write.
pub fn write_one(house: u32, e: Entry, shelves: &mut [u32])
    ensures { shelves.new ≡ put house e shelves.old }
{
    let item = e.item() as usize;
    if e.house() == house && item < shelves.len() {
        shelves[item] = e.amount;
    }
}

// Writes the entries of the house in their order.
pub fn write_entries(house: u32, entries: &[Entry], shelves: &mut [u32])
    ensures { shelves.new ≡ ours house entries.now shelves.old }
{
    for e in entries {
        write_one(house, *e, shelves);
    }
}
