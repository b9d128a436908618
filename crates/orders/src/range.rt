// The limits of all numbers, where there are `houses` houses.
ghost use Rattle.std.specs.Prelude.{◌≡◌};
ghost use Rattle.protocol.specs.Model.{houses_ok, name_ok};
ghost use Rattle.orders.specs.Order.{entry_ok, entries_ok, lists_ok, order_ok, rec_ok, msg_ok};
ghost use Rattle.orders.specs.Values.{reads_of, writes_of, order_of, rec_of, msg_of};

use crate::{Entry, Message, Order, Record};
use protocol::Name;

const MAX_HOUSES: u8 = 16;

const MAX_START: u32 = 65535;

const MAX_NUMBER: u32 = 65535;

const MAX_ITEM: u32 = 4095;

// There are 1 to 16 houses.
pub fn houses_ok(houses: u8) -> bool
    ensures { result ≡ houses_ok houses }
{
    (1..=MAX_HOUSES).contains(&houses)
}

// The name's home is one of the houses; its start and its number are within their limits.
pub fn name_ok(houses: u8, name: Name) -> bool
    ensures { result ≡ name_ok houses name }
{
    name.home < houses && (1..=MAX_START).contains(&name.start) && name.number <= MAX_NUMBER
}

// The entry's key is an item of one of the houses; every amount of 32 bits is in range.
fn entry_ok(houses: u8, entry: Entry) -> bool
    ensures { result ≡ entry_ok houses entry }
{
    entry.house() < u32::from(houses) && entry.item() <= MAX_ITEM
}

fn entries_ok(houses: u8, entries: &[Entry]) -> bool
    ensures { result ≡ entries_ok houses entries.now }
{
    entries.iter().all(|e| entry_ok(houses, *e))
}

#[tactic(auto, using(crate::proofs::Limits::lists_few))]
fn lists_ok(houses: u8, order: &Order) -> bool
    ensures { result ≡ lists_ok houses (reads_of order.now) (writes_of order.now) }
{
    entries_ok(houses, order.reads()) && entries_ok(houses, order.writes())
}

// The order of that name with these entries is within the limits.
pub fn order_ok(houses: u8, name: Name, order: &Order) -> bool
    ensures { result ≡ order_ok houses (order_of name order.now) }
{
    name_ok(houses, name) && lists_ok(houses, order)
}

// The houses and all numbers of the record are within the limits.
pub fn record_ok(houses: u8, record: Record, order: &Order) -> bool
    ensures { result ≡ rec_ok houses (rec_of «record» order.now) }
{
    houses_ok(houses)
        && match record {
            Record::Began => true,
            Record::Held(name) | Record::Ruled(name) => order_ok(houses, name, order),
            Record::Done(name) | Record::Dropped(name) => name_ok(houses, name),
        }
}

// The houses and all numbers of the message are within the limits.
pub fn message_ok(houses: u8, message: Message, order: &Order) -> bool
    ensures { result ≡ msg_ok houses (msg_of message order.now) }
{
    houses_ok(houses)
        && match message {
            Message::Hold(name) => order_ok(houses, name, order),
            Message::Yes(house, name) => house < houses && name_ok(houses, name),
            Message::Told(_, name) => name_ok(houses, name),
        }
}
