// Whether a record may come next, and how a hold and a learnt decision are answered.
ghost use Rattle.std.specs.Prelude.{◌≡◌, ◌≤◌, ◌&&◌, not};
ghost use Rattle.protocol.specs.House.{Held};
ghost use Rattle.protocol.specs.State.{lawful, within_limits, rec_size};
ghost use Rattle.protocol.specs.Plan.{plan_hold, plan_new_hold, plan_learn, no_room};
ghost use Rattle.orders.specs.Order.{entry_model};
ghost use Rattle.orders.specs.Values.{rec_of};
ghost use Rattle.entries.specs.Named.{named_of};
ghost use Rattle.ledger.specs.View.{view};
ghost use Rattle.ledger.specs.Answers.{admission, HoldGrounds, new_hold, NewGrounds, learning, LearnGrounds};

use crate::{Admission, Ledger, MAX_BYTES, MAX_HELD, MAX_STARTS};
use entries::named::NamedOrder;
use orders::encode::Encode;
use orders::{NO_ENTRIES, Order, Record, Refusal};
use protocol::Name;

impl Ledger {
    // Whether the record may stand next in the file, within the limits of a house.
    pub fn admits(&self, shelves: &[u32], record: Record, order: &Order) -> bool
        ensures { result ≡ (lawful entry_model self.now.house (rec_of «record» order.now) (view self.now shelves.now) && within_limits entry_model (rec_of «record» order.now) (view self.now shelves.now)) }
    {
        match record {
            Record::Began => self.start < MAX_STARTS,
            Record::Held(name) => self.admits_held(shelves, &NamedOrder::new(name, order)),
            Record::Done(name) | Record::Dropped(name) => self.start > 0 && self.holds_name(name),
            Record::Ruled(name) => self.start > 0
                && name.home == self.house
                && !self.ruled.contains(name),
        }
    }

    // Whether the order has a key here, is new, clashes with none, saw what the shelves have, and one more may be held back.
    fn admits_held(&self, shelves: &[u32], order: &NamedOrder) -> bool
        ensures { result ≡ (lawful entry_model self.now.house (Held (named_of order.now)) (view self.now shelves.now) && within_limits entry_model (Held (named_of order.now)) (view self.now shelves.now)) }
    {
        self.start > 0
            && order.touches_house(u32::from(self.house))
            && !self.ever.contains(order.name)
            && !self.clashes_with(order)
            && order.sees(u32::from(self.house), shelves)
            && self.held.len() < MAX_HELD
    }

    // Whether the file has room for the record.
    pub fn has_room(&self, record: Record, order: &Order) -> bool
        ensures { result ≡ not (no_room entry_model (rec_of «record» order.now) self.now.bytes) }
    {
        self.bytes + record_size(record, order) <= MAX_BYTES
    }

    // How the house answers a hold: the lowest number wins.
    pub fn may_hold(&self, shelves: &[u32], order: &NamedOrder) -> Result<Admission, Refusal>
        ensures answer { admission self.now.house (named_of order.now) result ≡ plan_hold entry_model self.now.house (named_of order.now) (view self.now shelves.now) }
        ensures grounds { HoldGrounds (named_of order.now) (view self.now shelves.now) result }
    {
        if !order.touches_house(u32::from(self.house)) {
            return Err(Refusal::NotParty);
        }
        if self.is_holding(order) {
            return Ok(Admission::Again);
        }
        self.may_hold_new(shelves, order)?;
        Ok(Admission::Fresh)
    }

    // The same of an order that touches this house and is not held back.
    #[tactic(auto, unfolding(protocol::specs::Plan::unless))]
    fn may_hold_new(&self, shelves: &[u32], order: &NamedOrder) -> Result<(), Refusal>
        ensures answer { new_hold self.now.house (named_of order.now) result ≡ plan_new_hold entry_model self.now.house (named_of order.now) (view self.now shelves.now) }
        ensures grounds { NewGrounds (named_of order.now) (view self.now shelves.now) result }
    {
        if self.ever.contains(order.name) {
            return Err(Refusal::HeldBefore);
        }
        if self.clashes_with(order) {
            return Err(Refusal::Clash);
        }
        if !order.sees(u32::from(self.house), shelves) {
            return Err(Refusal::NotAsSeen);
        }
        if self.held.len() >= MAX_HELD {
            return Err(Refusal::HoldingFull);
        }
        if self.bytes + order.record_len() > MAX_BYTES {
            return Err(Refusal::FileFull);
        }
        Ok(())
    }

    // How the house answers that the order of that name is done, or is not: the lowest number wins.
    #[tactic(auto, unfolding(protocol::specs::Plan::unless))]
    pub fn may_learn(&self, shelves: &[u32], name: Name, yes: bool) -> Result<(), Refusal>
        ensures answer { learning name yes result ≡ plan_learn entry_model name yes (view self.now shelves.now) }
        ensures grounds { LearnGrounds name (view self.now shelves.now) result }
    {
        if !self.holds_name(name) {
            return Err(Refusal::NotPending);
        }
        // A dropped record is as long as a done one.
        if !self.has_room(Record::Done(name), &NO_ENTRIES) {
            return Err(Refusal::FileFull);
        }
        Ok(())
    }
}

// How many bytes the record has.
#[tactic(auto, using(orders::proofs::Lengths::sized, crate::proofs::Sizes::size_most))]
pub(crate) fn record_size(record: Record, order: &Order) -> usize
    ensures value { result ≡ rec_size entry_model (rec_of «record» order.now) }
    ensures most { result ≤ 268 }
{
    record.encoded_len(order)
}
