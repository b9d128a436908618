// One record more: the one way in which a ledger and its shelves change, in live steps and in replay.
ghost use Rattle.std.specs.Prelude.{◌≡◌, is_ok, if◌then◌else◌};
ghost use Rattle.protocol.specs.State.{apply};
ghost use Rattle.orders.specs.Order.{entry_model};
ghost use Rattle.orders.specs.Values.{rec_of};
ghost use Rattle.ledger.specs.View.{view, Fits};

use crate::Ledger;
use crate::admit::record_size;
use crate::held::take_out;
use entries::named::NamedOrder;
use orders::{Order, Record};
use std::alloc::AllocError;

impl Ledger {
    // The record stands in the file. Where memory is wanting, nothing changes.
    pub fn apply(
        &mut self,
        shelves: &mut [u32],
        record: Record,
        order: &Order,
    ) -> Result<(), AllocError>
        requires { Fits (rec_of «record» order.now) (view self.old shelves.old) }
        ensures view { view self.new shelves.new ≡ (if is_ok result then apply entry_model self.old.house (rec_of «record» order.now) (view self.old shelves.old) else view self.old shelves.old) }
        ensures house { self.new.house ≡ self.old.house }
    {
        match record {
            Record::Began => self.start += 1,
            Record::Held(name) => {
                // Room is made first, so that what finds no memory changes nothing.
                self.held.reserve(1)?;
                self.ever.insert(name)?;
                self.held.push_reserved(NamedOrder::new(name, order));
            }
            Record::Done(name) => {
                self.write_held(shelves, name);
                take_out(&mut self.held, name);
            }
            Record::Dropped(name) => take_out(&mut self.held, name),
            Record::Ruled(name) => self.ruled.insert(name)?,
        }
        self.bytes += record_size(record, order);
        Ok(())
    }
}
