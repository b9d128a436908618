// A ruling: every house has said yes; it is noted, appended, synced, and only then told. Once it is noted, the home no longer asks about it.
ghost use Rattle.std.specs.Prelude.{◌≡◌, ◌+◌, ◌≤◌, IfOk};
ghost use Rattle.protocol.specs.House.{Ruled};
ghost use Rattle.protocol.specs.Model.{most_bytes};
ghost use Rattle.protocol.specs.Plan.{plan_rule};
ghost use Rattle.protocol.specs.State.{rec_size};
ghost use Rattle.orders.specs.Order.{entry_model};
ghost use Rattle.entries.specs.Named.{named_of};
ghost use Rattle.ledger.specs.View.{view};
ghost use Rattle.home.specs.Memory.{memory_of};
ghost use Rattle.steps.specs.Hosts.{World};
ghost use Rattle.steps.specs.Stepped.{Granted, Stepped, out_of, Remembers};
ghost use Rattle.steps.specs.Ties.{Tied, StillTied};

use crate::broken::Trouble;
use crate::commit::note_and_commit;
use crate::host::Host;
use entries::named::NamedOrder;
use home::Home;
use ledger::Ledger;
use orders::{Message, Record, Refusal};
use protocol::Name;

// The order of that name, if all its houses have said yes and the file has room for its record.
fn may_rule(ledger: &Ledger, home: &Home, name: Name) -> Result<NamedOrder, Refusal>
    ensures granted { Granted (plan_rule entry_model name ledger.now.bytes (memory_of home.now)) (memory_of home.now) result }
    ensures room { IfOk result (λ order. ledger.now.bytes + rec_size entry_model (Ruled (named_of order)) ≤ most_bytes) }
{
    let order = home.may_rule(name)?;
    if !ledger.has_room(Record::Ruled(order.name), &order.order) {
        return Err(Refusal::FileFull);
    }
    Ok(order)
}

pub fn rule<H: Host>(
    host: &mut H,
    ledger: &mut Ledger,
    shelves: &mut [u32],
    home: Home,
    name: Name,
) -> (Home, Result<(), Trouble>)
    requires { Tied ledger.old.house (H.world host.old) (view ledger.old shelves.old) }
    ensures step { Stepped ledger.old.house (out_of (plan_rule entry_model name ledger.old.bytes (memory_of home))) (H.world host.old) (H.world host.new) (view ledger.old shelves.old) (view ledger.new shelves.new) result.1 }
    ensures memory { Remembers (plan_rule entry_model name ledger.old.bytes (memory_of home)) home result.0 result.1 }
    ensures tied { StillTied ledger.old.house (H.world host.new) (view ledger.new shelves.new) result.1 }
    ensures house { ledger.new.house ≡ ledger.old.house }
{
    // Not `?`: the memory is handed back with each answer.
    let order = match may_rule(ledger, &home, name) {
        Ok(order) => order,
        Err(why) => return (home, Err(why.into())),
    };
    let ruled = Record::Ruled(order.name);
    let told = Message::Told(true, order.name);
    match note_and_commit(host, ledger, shelves, ruled, told, &order.order) {
        Err(Trouble::NoMemory) => (home, Err(Trouble::NoMemory)),
        answer => (home.stop_asking(order.name), answer),
    }
}
