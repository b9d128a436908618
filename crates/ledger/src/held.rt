// The orders held back: looking among them, and doing and taking out those of a name.
ghost use Rattle.std.specs.Prelude.{◌≡◌, map};
ghost use Rattle.protocol.specs.House.{is_in, without, done_of};
ghost use Rattle.protocol.specs.Plan.{is_held_back};
ghost use Rattle.orders.specs.Order.{entry_model, clashes};
ghost use Rattle.entries.specs.Named.{named_of};

use crate::Ledger;
use entries::entry::write_entries;
use entries::named::NamedOrder;
use protocol::Name;

impl Ledger {
    // Whether an order of that name is held back.
    pub(crate) fn holds_name(&self, name: Name) -> bool
        ensures { result ≡ is_in entry_model name (map named_of self.now.held.items) }
    {
        self.held.iter().any(|u| name == u.name)
    }

    // Whether the order itself is held back.
    pub fn is_holding(&self, order: &NamedOrder) -> bool
        ensures { result ≡ is_held_back entry_model (named_of order.now) (map named_of self.now.held.items) }
    {
        self.held.iter().any(|u| order.is_same(u))
    }

    // Whether an order that is held back clashes with this one.
    pub(crate) fn clashes_with(&self, order: &NamedOrder) -> bool
        ensures { result ≡ clashes (named_of order.now) (map named_of self.now.held.items) }
    {
        self.held.iter().any(|u| order.clashes_with(u))
    }

    // Writes this house's entries of every order of that name that is held back.
    pub(crate) fn write_held(&self, shelves: &mut [u32], name: Name)
        ensures { shelves.new ≡ done_of entry_model self.now.house name (map named_of self.now.held.items) shelves.old }
    {
        for u in &self.held {
            if name == u.name {
                write_entries(u32::from(self.house), u.writes(), shelves);
            }
        }
    }
}

// Takes out every order of that name.
pub(crate) fn take_out(held: &mut Vec<NamedOrder>, name: Name)
    ensures { map named_of held.new.items ≡ without entry_model name (map named_of held.old.items) }
{
    held.retain(|u| name != u.name);
}
