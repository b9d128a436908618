// An order that the houses are asked about, and whether all of them have said yes.
ghost use Rattle.std.specs.Prelude.{◌≡◌, length};
ghost use Rattle.home.specs.declared.TheConstants.{HOUSES};

use crate::HOUSES;
use entries::named::NamedOrder;
use orders::Entry;

// An order that the houses are asked about, with a mark for each house that said yes, by its number.
// An array and no set: its order is a plain value, and no step allocates.
#[derive(Clone, Copy)]
pub struct Asked {
    pub order: NamedOrder,
    pub yes: [bool; HOUSES],
    ghost marks: { length yes ≡ HOUSES },
}

impl Asked {
    ghost use Rattle.protocol.specs.Plan.{all_said, all_yes};
    ghost use Rattle.orders.specs.Order.{entry_model, houses_of};
    ghost use Rattle.home.specs.Memory.{asking_of, marked};

    // Whether the entry's house has said yes.
    fn has_said(&self, entry: Entry) -> bool
        ensures { result ≡ marked self.now.yes entry }
    {
        self.yes
            .get(entry.house() as usize)
            .copied()
            .unwrap_or(false)
    }

    // Whether every house of the entries has said yes.
    fn all_said(&self, entries: &[Entry]) -> bool
        ensures { result ≡ all_said entry_model (houses_of entries.now) (asking_of self.now).yes }
    {
        let mut all = true;
        // Not `all`: the loop over an order's houses is to be left by its label at the first that has not said yes (docs/DECISIONS.md).
        'houses: for e in entries {
            if !self.has_said(*e) {
                all = false;
                break 'houses;
            }
        }
        all
    }

    // Whether every house of the order has said yes.
    pub fn all_yes(&self) -> bool
        ensures { result ≡ all_yes entry_model (asking_of self.now) }
    {
        self.all_said(self.order.reads()) && self.all_said(self.order.writes())
    }
}
