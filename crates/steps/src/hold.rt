// A hold: decided, noted, appended, synced, and only then answered by a yes.
ghost use Rattle.std.specs.Prelude.{◌≡◌};
ghost use Rattle.protocol.specs.Plan.{plan_hold};
ghost use Rattle.orders.specs.Order.{entry_model};
ghost use Rattle.entries.specs.Named.{named_of};
ghost use Rattle.ledger.specs.View.{view};
ghost use Rattle.steps.specs.Hosts.{World};
ghost use Rattle.steps.specs.Stepped.{Stepped};
ghost use Rattle.steps.specs.Ties.{Tied, StillTied};

use crate::broken::Trouble;
use crate::commit::note_and_commit;
use crate::host::Host;
use entries::named::NamedOrder;
use ledger::admit::*;
use ledger::getters::*;
use ledger::{Admission, Ledger};
use orders::{Message, Record};

pub fn hold<H: Host>(
    host: &mut H,
    ledger: &mut Ledger,
    shelves: &mut [u32],
    order: &NamedOrder,
) -> Result<(), Trouble>
    requires { Tied ledger.old.house (H.world host.old) (view ledger.old shelves.old) }
    ensures step { Stepped ledger.old.house (plan_hold entry_model ledger.old.house (named_of order.now) (view ledger.old shelves.old)) (H.world host.old) (H.world host.new) (view ledger.old shelves.old) (view ledger.new shelves.new) result }
    ensures tied { StillTied ledger.old.house (H.world host.new) (view ledger.new shelves.new) result }
    ensures house { ledger.new.house ≡ ledger.old.house }
{
    let yes = Message::Yes(ledger.house(), order.name);
    match ledger.may_hold(shelves, order)? {
        Admission::Again => Ok(host.send(yes, &order.order)?),
        Admission::Fresh => {
            let held = Record::Held(order.name);
            note_and_commit(host, ledger, shelves, held, yes, &order.order)
        }
    }
}
