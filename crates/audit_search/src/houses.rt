// The houses of an audit, in the order of their numbers: opening all files, what their records are checked against, and all shelves.
ghost use Rattle.std.specs.Prelude.{◌≡◌, ◌≤◌, vec_len};

use crate::faults::Fault;
use crate::house::House;
use entries::named::NamedOrder;
use orders::{Entry, Order, Record};
use protocol::Name;
use std::alloc::{AllocError, Global};

#[derive(Drop)]
pub(crate) struct Houses {
    all: Vec<House>,
    ghost few: { vec_len all ≤ 16 },
}

impl Houses {
    ghost use Rattle.std.specs.Prelude.{map, length, vec_items, IfOk};
    ghost use Rattle.orders.specs.declared.Order.{Order as Slots};
    ghost use Rattle.orders.specs.Values.{rec_of};
    ghost use Rattle.entries.specs.Named.{named_of};
    ghost use Rattle.audit_search.specs.Search.{checked, ruled_at, done_fault, ruling_fault, first_lacking, stocked};
    ghost use Rattle.audit_search.specs.Audited.{accounts, all_shelves, AllOpened};

    // Opens each file as that of the house whose number is its place. The count is the files' own, as the u8 that it was found to be.
    pub(crate) fn open(heap: Global, count: u8, files: &[Vec<u8>]) -> Result<Houses, Fault>
        requires all { count ≡ length files.now }
        requires few { count ≤ 16 }
        ensures { AllOpened (map vec_items files.now) result }
    {
        let mut all = Vec::new(heap);
        for (house, file) in files.iter().enumerate() {
            all.push(House::open(heap, count, house as u8, file.as_slice())?)?;
        }
        Ok(Houses { all })
    }

    // Whether the home of the order has ruled it.
    #[tactic(auto, unfolding(protocol::specs::House::ruled))]
    fn is_ruled(&self, name: Name) -> bool
        ensures { result ≡ ruled_at (accounts self.now) name }
    {
        self.all
            .get(name.home as usize)
            .is_some_and(|home| home.has_ruled(name))
    }

    // Whether the record of the house's file is no done, or one that its home has ruled.
    pub(crate) fn check_done(&self, house: u8, record: Record) -> Result<(), Fault>
        ensures { (order : Slots) → result ≡ checked (done_fault (accounts self.now) house (rec_of «record» order)) }
    {
        let Record::Done(name) = record else {
            return Ok(());
        };
        if self.is_ruled(name) {
            Ok(())
        } else {
            Err(Fault::DoneWithoutRuling(house, name))
        }
    }

    // Whether no house lacks the order.
    #[tactic(auto, unfolding(crate::specs::Search::first_lacking))]
    fn check_kept(&self, order: &NamedOrder) -> Result<(), Fault>
        ensures { result ≡ checked (first_lacking (named_of order.now) 0 (accounts self.now)) }
    {
        for (i, house) in self.all.iter().enumerate() {
            if house.lacks(i as u8, order) {
                return Err(Fault::RuledAndMissing(i as u8, order.name));
            }
        }
        Ok(())
    }

    // Whether the record is no ruling, or one of an order that no house lacks.
    pub(crate) fn check_ruling(&self, record: Record, order: &Order) -> Result<(), Fault>
        ensures { result ≡ checked (ruling_fault (accounts self.now) (rec_of «record» order.now)) }
    {
        let Record::Ruled(name) = record else {
            return Ok(());
        };
        self.check_kept(&NamedOrder {
            name,
            order: *order,
        })
    }

    // The shelves of all houses that are not 0, by rising key.
    #[tactic(auto, unfolding(crate::specs::Search::stocked))]
    pub(crate) fn stocked(&self, heap: Global) -> Result<Vec<Entry>, AllocError>
        ensures { IfOk result (λ v. v.items ≡ stocked 0 (all_shelves self.now)) }
    {
        let mut stocked = Vec::new(heap);
        for (i, house) in self.all.iter().enumerate() {
            house.push_stocked(i as u8, &mut stocked)?;
        }
        Ok(stocked)
    }
}
