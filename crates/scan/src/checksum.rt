// The sum of all numbers of a file's records, for the measurement of speed: whoever computes it has decoded each of them.
ghost use Rattle.std.specs.Prelude.{◌≡◌};
ghost use Rattle.orders.specs.Values.{order_of, rec_of};
ghost use Rattle.scan.specs.Checksum.{plus, plus_name, plus_entry, plus_order, plus_rec, Sums};

use orders::read::record_into;
use orders::{Entry, NO_ENTRIES, Order, Record};
use protocol::Name;

fn add(sum: u64, value: u32) -> u64
    ensures { result ≡ plus sum value }
{
    sum.wrapping_add(u64::from(value))
}

fn add_name(sum: u64, name: Name) -> u64
    ensures { result ≡ plus_name sum name }
{
    add(add(add(sum, u32::from(name.home)), name.start), name.number)
}

fn add_entry(sum: u64, entry: &Entry) -> u64
    ensures { result ≡ plus_entry sum entry.now }
{
    add(add(sum, entry.key), entry.amount)
}

fn add_order(sum: u64, name: Name, order: &Order) -> u64
    ensures { result ≡ plus_order sum (order_of name order.now) }
{
    let named = add_name(sum, name);
    let read = order.reads().iter().fold(named, add_entry);
    order.writes().iter().fold(read, add_entry)
}

// 1 to 5 are the bytes of the kinds in a file.
fn add_record(sum: u64, record: Record, order: &Order) -> u64
    ensures { result ≡ plus_rec sum (rec_of «record» order.now) }
{
    match record {
        Record::Began => add(sum, 1),
        Record::Held(name) => add_order(add(sum, 2), name, order),
        Record::Done(name) => add_name(add(sum, 3), name),
        Record::Dropped(name) => add_name(add(sum, 4), name),
        Record::Ruled(name) => add_order(add(sum, 5), name, order),
    }
}

// The sum over the records of the file up to the first that is cut or refused. `scan_c` has it for callers in C.
pub fn scan_checksum(houses: u8, bytes: &[u8]) -> u64
    ensures { Sums houses bytes.now result }
{
    // Not a walk by Records: that hands out an order with each record, and to move one takes a memcpy, which callers in C would have to bring.
    let mut order = NO_ENTRIES;
    let mut at = 0;
    let mut sum = 0;
    while let Ok((record, next)) = record_into(houses, bytes, at, &mut order) {
        sum = add_record(sum, record, &order);
        at = next;
    }
    sum
}
