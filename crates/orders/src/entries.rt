// An entry's house and item, and how it is printed; and the entries that an order has.
ghost use Rattle.std.specs.Prelude.{◌≡◌, ◌++◌, Some, codes, decimal};
ghost use Rattle.std.specs.Cmp.{partial_equiv_from_equiv};
ghost use Rattle.orders.specs.Order.{house_of, item_of};
ghost use Rattle.orders.specs.Same.{same_slots, same_slots_equiv};
ghost use Rattle.orders.specs.Values.{reads_of, writes_of};

use crate::{Entry, Order};
use std::fmt;

// How many items each house has.
const ITEMS_PER_HOUSE: u32 = 65536;

impl Entry {
    // The house of its shelf.
    pub fn house(self) -> u32
        ensures { result ≡ house_of self.key }
    {
        self.key / ITEMS_PER_HOUSE
    }

    // Its shelf's place in that house.
    pub fn item(self) -> u32
        ensures { result ≡ item_of self.key }
    {
        self.key % ITEMS_PER_HOUSE
    }
}

// As scripts and programs write it: KEY AMOUNT.
impl fmt::Display for Entry {
    ghost output = { λ e. Some (decimal e.key ++ codes " " ++ decimal e.amount) };

    fn fmt<W: fmt::Write>(&self, f: &mut fmt::Formatter<W>) -> fmt::Result {
        write!(f, "{} {}", self.key, self.amount)
    }
}

impl Order {
    // What it read.
    pub fn reads(&self) -> &[Entry]
        ensures { result.now ≡ reads_of self.now }
    {
        &self.reads[..self.read_count]
    }

    // What it writes.
    pub fn writes(&self) -> &[Entry]
        ensures { result.now ≡ writes_of self.now }
    {
        &self.writes[..self.write_count]
    }
}

// Two orders are equal where they read and write the same entries, whatever stands behind the counts.
impl PartialEq for Order {
    ghost eq = { same_slots };

    ghost laws = { partial_equiv_from_equiv same_slots_equiv };

    #[tactic(auto, unfolding(crate::specs::Order::same_entries))]
    fn eq(&self, other: &Order) -> bool {
        self.reads() == other.reads() && self.writes() == other.writes()
    }
}

impl Eq for Order {
    ghost laws = { same_slots_equiv };
}
