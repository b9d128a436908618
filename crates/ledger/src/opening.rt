// Opening a file: the ledger and the shelves that its records say.
ghost use Rattle.std.specs.Prelude.{◌≡◌, true};
ghost use Rattle.protocol.specs.State.{empty_state};
ghost use Rattle.orders.specs.Order.{entry_model};
ghost use Rattle.ledger.specs.View.{view};
ghost use Rattle.ledger.specs.Opening.{Replayed, Opened, EndOf, is_house, SaysFile, OpensOnce};

use crate::{Ledger, MAX_BYTES, SHELVES, Trouble};
use names::NameIndex;
use orders::range::houses_ok;
use orders::read::{ReadError, record_at};
use orders::{Order, Record, Refusal};
use std::alloc::Global;

impl Ledger {
    // The ledger that the bytes of a file say, with its shelves in the lent words. A file that ends inside a record is taken up to
    // its last whole one, whose end is the ledger's length. The records are applied to words of our own, so that what is refused changes nothing.
    // Five parameters and no struct: C passes the same five (crate `measure`).
    pub fn open(
        heap: Global,
        houses: u8,
        house: u8,
        bytes: &[u8],
        shelves: &mut [u32],
    ) -> Result<Ledger, Trouble>
        ensures { Opened houses house bytes.now shelves.old shelves.new result }
    {
        if !is_house(houses, house) {
            return Err(Refusal::OutOfRange.into());
        }
        if shelves.len() != SHELVES {
            return Err(Trouble::NoMemory);
        }
        let mut ledger = Ledger::new(heap, house);
        let mut words = [0; SHELVES];
        ledger.replay(houses, bytes, &mut words)?;
        shelves.copy_from_slice(&words);
        Ok(ledger)
    }

    // The ledger of a file without records.
    fn new(heap: Global, house: u8) -> Ledger
        ensures house { result.house ≡ house }
        ensures empty { view result (empty_state entry_model).shelves ≡ empty_state entry_model }
    {
        Ledger {
            house,
            start: 0,
            held: Vec::new(heap),
            ever: NameIndex::new(heap),
            ruled: NameIndex::new(heap),
            bytes: 0,
        }
    }

    // Applies the records of the file one after the other, up to its last whole one.
    fn replay(&mut self, houses: u8, bytes: &[u8], shelves: &mut [u32]) -> Result<(), Trouble>
        requires house { is_house houses self.old.house ≡ true }
        requires empty { view self.old shelves.old ≡ empty_state entry_model }
        ensures answer { Replayed houses self.old.house bytes.now (view self.new shelves.new) result }
        ensures house { self.new.house ≡ self.old.house }
    {
        // Not a walk by Records: a refusal at the end is answered, and the place behind a record is the ledger's length.
        loop {
            let read = record_at(houses, bytes, self.bytes);
            let Ok((record, order, next)) = read else {
                return end_of(read);
            };
            if next > MAX_BYTES || !self.admits(shelves, record, &order) {
                return Err(Refusal::BadHistory.into());
            }
            self.apply(shelves, record, &order)?;
        }
    }
}

// Whether there may be so many houses, of which one has the number.
fn is_house(houses: u8, house: u8) -> bool
    ensures { result ≡ is_house houses house }
{
    houses_ok(houses) && house < houses
}

// What the end of a file means: it is cut, or the bytes there are refused.
fn end_of(read: Result<(Record, Order, usize), ReadError>) -> Result<(), Trouble>
    ensures { EndOf read result }
{
    match read {
        Err(ReadError::Refused(why)) => Err(why.into()),
        Ok(_) | Err(ReadError::Cut) => Ok(()),
    }
}

// The bytes of a file determine what opening it answers, and its state is what its records say.
pub fn opening_laws() -> u8
    ensures once { OpensOnce }
    ensures says { SaysFile }
{
    0
}
