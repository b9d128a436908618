// One house of an audit: opening its file, and what is asked of it.
ghost use Rattle.std.specs.Prelude.{◌≡◌, ◌++◌, IfOk, OnOk, vec_len};
ghost use Rattle.protocol.specs.declared.Name.{Name};
ghost use Rattle.names.specs.Index.{in_index};
ghost use Rattle.orders.specs.File.{records};
ghost use Rattle.entries.specs.Named.{named_of};
ghost use Rattle.audit_search.specs.Account.{was_done, keeps, lacks};
ghost use Rattle.audit_search.specs.Search.{stocked_in, why_shut};

use crate::faults::Fault;
use entries::named::NamedOrder;
use ledger::{Ledger, SHELVES, Trouble};
use names::NameIndex;
use orders::records::Records;
use orders::{Entry, Record};
use protocol::Name;
use std::alloc::{AllocError, Global};

// What a house's file says, its shelves, and the names of the orders that it did.
#[derive(Drop)]
pub(crate) struct House {
    ledger: Ledger,
    shelves: Vec<u32>,
    done: NameIndex,
    ghost all: { vec_len shelves ≡ 4096 },
}

impl House {
    ghost use Rattle.audit_search.specs.Audited.{account, shelves_of, HouseOpened};

    // The house that the bytes of its file say.
    pub(crate) fn open(heap: Global, houses: u8, house: u8, bytes: &[u8]) -> Result<House, Fault>
        ensures { HouseOpened houses house bytes.now result }
    {
        let mut shelves = vec![in heap; 0; SHELVES]?;
        let opened = Ledger::open(heap, houses, house, bytes, shelves.as_mut_slice());
        let ledger = opened.map_err(|trouble| why_shut(house, trouble))?;
        let done = done_names(heap, houses, bytes)?;
        Ok(House {
            ledger,
            shelves,
            done,
        })
    }

    // Whether the house ruled the order of that name.
    pub(crate) fn has_ruled(&self, name: Name) -> bool
        ensures { result ≡ (account self.now).ruled name }
    {
        self.ledger.has_ruled(name)
    }

    // Whether it did the order, or holds it back.
    fn keeps(&self, order: &NamedOrder) -> bool
        ensures { result ≡ keeps (named_of order.now) (account self.now) }
    {
        self.done.contains(order.name) || self.ledger.is_holding(order)
    }

    // Whether the order touches it, the house of that number, and it neither did it nor holds it back.
    pub(crate) fn lacks(&self, house: u8, order: &NamedOrder) -> bool
        ensures { result ≡ lacks (named_of order.now) house (account self.now) }
    {
        order.touches_house(u32::from(house)) && !self.keeps(order)
    }

    // Adds its shelves that are not 0, by rising item; it is the house of that number.
    #[tactic(auto, unfolding(crate::specs::Search::stocked_in))]
    pub(crate) fn push_stocked(&self, house: u8, all: &mut Vec<Entry>) -> Result<(), AllocError>
        ensures { OnOk result (all.new.items ≡ all.old.items ++ stocked_in house 0 (shelves_of self.now)) }
    {
        for (item, amount) in self.shelves.iter().enumerate() {
            if *amount != 0 {
                all.push(Entry {
                    key: u32::from(house) * 65536 + item as u32,
                    amount: *amount,
                })?;
            }
        }
        Ok(())
    }
}

// What it means for the house that its ledger was not opened.
fn why_shut(house: u8, trouble: Trouble) -> Fault
    ensures { result ≡ why_shut house trouble }
{
    match trouble {
        Trouble::Refused(why) => Fault::Refused(why, house),
        Trouble::NoMemory => Fault::NoMemory,
    }
}

// The names of the done records of a file.
#[tactic(auto, unfolding(crate::specs::Account::was_done))]
fn done_names(heap: Global, houses: u8, bytes: &[u8]) -> Result<NameIndex, AllocError>
    ensures { IfOk result (λ x. (d : Name) → in_index x d ≡ was_done d (records houses bytes.now)) }
{
    let mut done = NameIndex::new(heap);
    for (record, _) in Records::new(houses, bytes) {
        if let Record::Done(name) = record {
            done.insert(name)?;
        }
    }
    Ok(done)
}
