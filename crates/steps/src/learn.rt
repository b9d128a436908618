// A decision that was told: the order is done here, or dropped. It is noted and appended, and synced with what comes later.
ghost use Rattle.std.specs.Prelude.{◌≡◌, if◌then◌else◌};
ghost use Rattle.protocol.specs.House.{Done, Dropped};
ghost use Rattle.protocol.specs.Plan.{plan_learn};
ghost use Rattle.orders.specs.Order.{entry_model};
ghost use Rattle.orders.specs.Values.{rec_of};
ghost use Rattle.orders.specs.declared.Order.{Order};
ghost use Rattle.ledger.specs.View.{view, Fits};
ghost use Rattle.steps.specs.Hosts.{World};
ghost use Rattle.steps.specs.Stepped.{Noted, Stepped};
ghost use Rattle.steps.specs.Ties.{Tied, StillTied};

use crate::broken::Trouble;
use crate::commit::append_record;
use crate::host::Host;
use ledger::Ledger;
use ledger::admit::*;
use ledger::apply::*;
use orders::{NO_ENTRIES, Order, Record};
use protocol::Name;

// The record is noted, and appended.
fn note<H: Host>(
    host: &mut H,
    ledger: &mut Ledger,
    shelves: &mut [u32],
    record: Record,
    none: &Order,
) -> Result<(), Trouble>
    requires { Fits (rec_of «record» none.now) (view ledger.old shelves.old) }
    ensures step { Noted ledger.old.house (rec_of «record» none.now) (H.world host.old) (H.world host.new) (view ledger.old shelves.old) (view ledger.new shelves.new) result }
    ensures house { ledger.new.house ≡ ledger.old.house }
{
    ledger.apply(shelves, record, none)?;
    append_record(host, record, none)?;
    Ok(())
}

// The record of what was told.
fn learnt(name: Name, yes: bool) -> Record
    ensures { (s : Order) → rec_of result s ≡ (if yes then Done name else Dropped name) }
{
    if yes {
        Record::Done(name)
    } else {
        Record::Dropped(name)
    }
}

pub fn learn<H: Host>(
    host: &mut H,
    ledger: &mut Ledger,
    shelves: &mut [u32],
    name: Name,
    yes: bool,
) -> Result<(), Trouble>
    requires { Tied ledger.old.house (H.world host.old) (view ledger.old shelves.old) }
    ensures step { Stepped ledger.old.house (plan_learn entry_model name yes (view ledger.old shelves.old)) (H.world host.old) (H.world host.new) (view ledger.old shelves.old) (view ledger.new shelves.new) result }
    ensures tied { StillTied ledger.old.house (H.world host.new) (view ledger.new shelves.new) result }
    ensures house { ledger.new.house ≡ ledger.old.house }
{
    ledger.may_learn(shelves, name, yes)?;
    note(host, ledger, shelves, learnt(name, yes), &NO_ENTRIES)
}
