// The orders of the hold messages, and where the first of each name stands among them.
ghost use Rattle.std.specs.Prelude.{◌≡◌, [], ◌∷◌, ◌++◌, is_ok, if◌then◌else◌};
ghost use Rattle.std.specs.Option.{option_map};
ghost use Rattle.protocol.specs.declared.Name.{Name};
ghost use Rattle.entries.specs.Named.{named_of};
ghost use Rattle.post.specs.First.{first_place};
ghost use Rattle.post.specs.Places.{place_of};

use crate::places::PlaceIndex;
use entries::named::NamedOrder;
use protocol::Name;
use std::alloc::{AllocError, Global};

// In the order of sending. The index has places and no orders of its own: the list is what was sent, and an order is large.
#[derive(Drop)]
pub struct Holds {
    orders: Vec<NamedOrder>,
    first: PlaceIndex,
    ghost indexed: { (n : Name) → place_of first n ≡ first_place n orders.items },
}

impl Holds {
    ghost use Rattle.post.specs.Holds.{orders_of, hold_named};

    pub(crate) fn new(heap: Global) -> Holds
        ensures { orders_of result ≡ [] }
    {
        Holds {
            orders: Vec::new(heap),
            first: PlaceIndex::new(heap),
        }
    }

    // The first order of that name.
    pub(crate) fn find(&self, name: Name) -> Option<NamedOrder>
        ensures { option_map named_of result ≡ hold_named name (orders_of self.now) }
    {
        let place = self.first.get(name)?;
        Some(self.orders[place])
    }

    // Adds the order at the end. Room is made first, so that what finds no memory changes nothing.
    pub(crate) fn push(&mut self, order: NamedOrder) -> Result<(), AllocError>
        ensures { orders_of self.new ≡ (if is_ok result then orders_of self.old ++ named_of order ∷ [] else orders_of self.old) }
    {
        self.orders.reserve(1)?;
        self.first.insert_first(order.name, self.orders.len())?;
        self.orders.push_reserved(order);
        Ok(())
    }
}
