// An order with its name, by value: whether two clash or are the same, which houses it touches, and how long its records are.
ghost use Rattle.std.specs.Prelude.{◌≡◌, ◌≤◌};
ghost use Rattle.protocol.specs.House.{Held};
ghost use Rattle.protocol.specs.State.{rec_size};
ghost use Rattle.orders.specs.Order.{entry_model, clash, party, seen_here, same_order};
ghost use Rattle.orders.specs.Values.{order_of};

use crate::entry::{any_in_house, as_seen, have_common_key};
use orders::encode::Encode;
use orders::{Entry, Order, Record};
use protocol::Name;

#[derive(Clone, Copy, PartialEq, Eq)]
pub struct NamedOrder {
    pub name: Name,
    pub order: Order,
}

impl NamedOrder {
    ghost use Rattle.entries.specs.Named.{named_of};

    // The order of that name.
    pub fn new(name: Name, order: &Order) -> NamedOrder
        ensures { named_of result ≡ order_of name order.now }
    {
        NamedOrder {
            name,
            order: *order,
        }
    }

    // What it read.
    pub fn reads(&self) -> &[Entry]
        ensures { result.now ≡ (named_of self.now).reads }
    {
        self.order.reads()
    }

    // What it writes.
    pub fn writes(&self) -> &[Entry]
        ensures { result.now ≡ (named_of self.now).writes }
    {
        self.order.writes()
    }

    // Whether one writes a key that the other reads or writes.
    pub fn clashes_with(&self, other: &NamedOrder) -> bool
        ensures { result ≡ clash (named_of self.now) (named_of other.now) }
    {
        have_common_key(self.writes(), other.reads())
            || have_common_key(self.writes(), other.writes())
            || have_common_key(self.reads(), other.writes())
    }

    // Whether the house is one of the order's.
    pub fn touches_house(&self, house: u32) -> bool
        ensures { result ≡ party house (named_of self.now) }
    {
        any_in_house(house, self.reads()) || any_in_house(house, self.writes())
    }

    // Whether the house's shelves are as the order saw them.
    pub fn sees(&self, house: u32, shelves: &[u32]) -> bool
        ensures { result ≡ seen_here house (named_of self.now).reads shelves.now }
    {
        as_seen(house, self.reads(), shelves)
    }

    // Whether both are one and the same order.
    #[tactic(auto, unfolding(orders::specs::Order::same_entries))]
    pub fn is_same(&self, other: &NamedOrder) -> bool
        ensures { result ≡ same_order (named_of self.now) (named_of other.now) }
    {
        self == other
    }

    // How many bytes a held or ruled record of the order has.
    pub fn record_len(&self) -> usize
        ensures held { result ≡ rec_size entry_model (Held (named_of self.now)) }
        ensures few { result ≤ 268 }
    {
        Record::Held(self.name).encoded_len(&self.order)
    }
}
