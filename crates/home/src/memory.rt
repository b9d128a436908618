// The memory of a home: the orders that it asks about, and the names tried in this start.
ghost use Rattle.std.specs.Prelude.{◌≡◌, ◌≤◌, vec_len, vec_capacity};
ghost use Rattle.home.specs.declared.TheConstants.{MOST_ASKED, NUMBERS};

use crate::{Asked, HOUSES, MOST_ASKED, NUMBERS};
use entries::named::NamedOrder;
use orders::Refusal;
use protocol::Name;
use std::alloc::{AllocError, Global};

// The memory of a home: the orders asked about, in the order of submitting, and a mark for each number tried in this start.
// Not a map and not a set: room for all orders and all marks is there from the beginning, so that no step of a home allocates.
// Its steps take it by value and hand it back, since a house goes on with the memory that a step leaves, and with no other.
#[derive(Drop)]
pub struct Home {
    pub house: u8,
    pub start: u32,
    asking: Vec<Asked>,
    tried: Vec<bool>,
    ghost room: { MOST_ASKED ≤ vec_capacity asking },
    ghost marks: { vec_len tried ≡ NUMBERS },
}

impl Home {
    ghost use Rattle.std.specs.Prelude.{true, false, not, ◌&&◌, ◌==◌, [], ◌∷◌, map, nat_le, nat_lt, option_map, position, find, IfOk, MatchOption};
    ghost use Rattle.protocol.specs.declared.Name.{Name};
    ghost use Rattle.protocol.specs.Net.{Hold, Told, asked, no_memory};
    ghost use Rattle.protocol.specs.Plan.{ask_of, plan_submit, plan_vote, plan_give_up, speak};
    ghost use Rattle.orders.specs.Order.{entry_model};
    ghost use Rattle.entries.specs.Named.{named_of};
    ghost use Rattle.home.specs.Memory.{asked_of, asking_of, memory_of};
    ghost use Rattle.home.specs.Rulings.{ruling, rulable, may_rule, next_rulable};
    ghost use Rattle.home.specs.Verdicts.{in_range, stop_asking, Ended};

    // The memory of a home that has begun this start: it asks about nothing and has tried nothing.
    pub fn new(heap: Global, house: u8, start: u32) -> Result<Home, AllocError>
        ensures { IfOk result (λ h. (memory_of h ≡ no_memory entry_model) × (h.house ≡ house) × (h.start ≡ start)) }
    {
        let asking = Vec::with_capacity(heap, MOST_ASKED)?;
        let tried = vec![in heap; false; NUMBERS]?;
        Ok(Home {
            house,
            start,
            asking,
            tried,
        })
    }

    // The orders asked about, in the order of submitting.
    pub fn asking(&self) -> &[Asked]
        ensures { map asking_of result.now ≡ (memory_of self.now).asking }
    {
        self.asking.as_slice()
    }

    // Whether the name is of this home and this start.
    fn is_own(&self, name: Name) -> bool
        ensures { result ≡ (name.home == self.now.house && name.start == self.now.start) }
    {
        name.home == self.house && name.start == self.start
    }

    // The place of the first order of that name among those asked about.
    fn place(&self, name: Name) -> Option<usize>
        ensures { result ≡ position (asked_of name) self.now.asking.items }
    {
        self.asking
            .iter()
            .position(|asked| name == asked.order.name)
    }

    // The first order of that name among those asked about. Not by `place`: so its contract needs no index.
    fn find(&self, name: Name) -> Option<&Asked>
        ensures { option_map (λ a. a.now) result ≡ find (asked_of name) self.now.asking.items }
    {
        self.asking.iter().find(|asked| name == asked.order.name)
    }

    // Whether an order of that name was submitted in this start.
    pub fn has_tried(&self, name: Name) -> bool
        ensures { result ≡ (memory_of self.now).tried name }
    {
        let tried = self.tried.get(name.number as usize).copied();
        self.is_own(name) && tried.unwrap_or(false)
    }

    // Whether an order of that name is asked about.
    pub fn is_asking(&self, name: Name) -> bool
        ensures { result ≡ asked entry_model name (memory_of self.now).asking }
    {
        self.place(name).is_some()
    }

    // Whether an order of that name was tried in this start and is no longer asked about: if it isn't ruled, it never will be.
    pub fn is_over(&self, name: Name) -> bool
        ensures { result ≡ ((memory_of self.now).tried name && not (asked entry_model name (memory_of self.now).asking)) }
    {
        self.has_tried(name) && !self.is_asking(name)
    }

    // A new order of this home and start is asked about.
    pub fn submit(mut self, order: NamedOrder) -> (Home, Result<(), Refusal>)
        ensures { Ended (in_range (nat_le order.name.number 65535) (plan_submit entry_model self.house (named_of order) self.start (memory_of self))) (speak entry_model (Hold (named_of order) ∷ [])) self result.0 result.1 }
    {
        let name = order.name;
        if name.number as usize >= NUMBERS {
            return (self, Err(Refusal::OutOfRange));
        }
        if !self.is_own(name) {
            return (self, Err(Refusal::NotThisStart));
        }
        if self.has_tried(name) {
            return (self, Err(Refusal::AlreadyTried));
        }
        if self.asking.len() >= MOST_ASKED {
            return (self, Err(Refusal::AskingFull));
        }
        self.asking.push_reserved(Asked {
            order,
            yes: [false; HOUSES],
        });
        self.tried[name.number as usize] = true;
        (self, Ok(()))
    }

    // The house's yes is noted if the order is asked about.
    pub fn vote(mut self, from: u8, name: Name) -> (Home, Result<(), Refusal>)
        ensures { Ended (in_range (nat_lt from 16) (plan_vote entry_model from name (memory_of self))) (speak entry_model []) self result.0 result.1 }
    {
        if from as usize >= HOUSES {
            return (self, Err(Refusal::OutOfRange));
        }
        let Some(i) = self.place(name) else {
            return (self, Err(Refusal::NotPending));
        };
        self.asking[i].yes[from as usize] = true;
        (self, Ok(()))
    }

    // The order of that name, if there is one, is no longer asked about.
    pub fn stop_asking(mut self, name: Name) -> Home
        ensures memory { memory_of result ≡ stop_asking name (memory_of self) }
        ensures house { result.house ≡ self.house }
        ensures start { result.start ≡ self.start }
    {
        let Some(i) = self.place(name) else {
            return self;
        };
        self.asking.remove(i);
        self
    }

    // The order of that name is given up: it is no longer asked about, and no is told.
    pub fn give_up(self, name: Name) -> (Home, Result<(), Refusal>)
        ensures { Ended (plan_give_up entry_model name (memory_of self)) (speak entry_model (Told name false ∷ [])) self result.0 result.1 }
    {
        if !self.is_asking(name) {
            return (self, Err(Refusal::NotPending));
        }
        (self.stop_asking(name), Ok(()))
    }

    // The order of that name, if every house of it has said yes.
    pub fn may_rule(&self, name: Name) -> Result<NamedOrder, Refusal>
        ensures { ruling result ≡ rulable (ask_of entry_model name (memory_of self.now).asking) }
    {
        let asked = self.find(name).ok_or(Refusal::NotPending)?;
        if asked.all_yes() {
            Ok(asked.order)
        } else {
            Err(Refusal::MissingYes)
        }
    }

    // The name of the first order, in the order of submitting, that may be ruled.
    pub fn next_rulable(&self) -> Option<Name>
        ensures first { result ≡ next_rulable (memory_of self.now).asking (memory_of self.now).asking }
        ensures cases { MatchOption result ((d : Name) → may_rule (memory_of self.now).asking d ≡ false) (λ d. may_rule (memory_of self.now).asking d ≡ true) }
    {
        let mut names = self.asking.iter().map(|asked| asked.order.name);
        names.find(|name| self.may_rule(*name).is_ok())
    }
}
