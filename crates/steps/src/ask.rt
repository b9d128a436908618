// The home's steps that only speak: asking about an order, giving it up, and answering what became of it.
ghost use Rattle.std.specs.Prelude.{◌≡◌, [], ◌∷◌, nat_le};
ghost use Rattle.protocol.specs.Plan.{plan_submit, plan_give_up, plan_answer};
ghost use Rattle.orders.specs.Order.{entry_model};
ghost use Rattle.orders.specs.Values.{msg_of};
ghost use Rattle.entries.specs.Named.{named_of};
ghost use Rattle.ledger.specs.View.{view};
ghost use Rattle.home.specs.Memory.{memory_of};
ghost use Rattle.home.specs.Verdicts.{in_range};
ghost use Rattle.steps.specs.Hosts.{World, Backed, on_disk};
ghost use Rattle.steps.specs.Stepped.{Says, Speaks, Answered, Told, out_of, Remembers};
ghost use Rattle.steps.specs.Ties.{Tied, AnswerTied};

use crate::broken::Trouble;
use crate::host::Host;
use entries::named::NamedOrder;
use home::Home;
use ledger::Ledger;
use ledger::getters::*;
use orders::{Message, NO_ENTRIES, Order, Refusal};
use protocol::Name;

// Says what was decided to be said, or passes on why nothing is.
fn say<H: Host>(
    host: &mut H,
    decided: Result<(), Refusal>,
    message: Message,
    order: &Order,
) -> Result<(), Trouble>
    requires { Backed (msg_of message order.now) (on_disk (H.world host.old)) }
    ensures { Says (msg_of message order.now) decided (H.world host.old) (H.world host.new) result }
{
    decided?;
    host.send(message, order)?;
    Ok(())
}

// A new order of this home and start: its houses are asked.
pub fn submit<H: Host>(host: &mut H, home: Home, order: NamedOrder) -> (Home, Result<(), Trouble>)
    ensures step { Speaks (out_of (in_range (nat_le order.name.number 65535) (plan_submit entry_model home.house (named_of order) home.start (memory_of home)))) (H.world host.old) (H.world host.new) result.1 }
    ensures memory { Remembers (in_range (nat_le order.name.number 65535) (plan_submit entry_model home.house (named_of order) home.start (memory_of home))) home result.0 result.1 }
{
    let (home, decided) = home.submit(order);
    let said = say(host, decided, Message::Hold(order.name), &order.order);
    (home, said)
}

// The home stops asking and tells no.
pub fn give_up<H: Host>(host: &mut H, home: Home, name: Name) -> (Home, Result<(), Trouble>)
    ensures step { Speaks (out_of (plan_give_up entry_model name (memory_of home))) (H.world host.old) (H.world host.new) result.1 }
    ensures memory { Remembers (plan_give_up entry_model name (memory_of home)) home result.0 result.1 }
{
    let (home, decided) = home.give_up(name);
    let said = say(host, decided, Message::Told(false, name), &NO_ENTRIES);
    (home, said)
}

// What the home can say of a name, or that there is nothing to say yet.
fn decide_answer(ledger: &Ledger, shelves: &[u32], home: &Home, name: Name) -> Result<bool, Refusal>
    ensures { Answered name (plan_answer entry_model ledger.now.house name (view ledger.now shelves.now) (memory_of home.now)) (view ledger.now shelves.now) result }
{
    if name.home != ledger.house() {
        return Err(Refusal::NothingToSay);
    }
    if ledger.has_ruled(name) {
        return Ok(true);
    }
    if name.start < ledger.start() || home.is_over(name) {
        return Ok(false);
    }
    Err(Refusal::NothingToSay)
}

// What became of an order of this home is told, if the home can say.
pub fn answer<H: Host>(
    host: &mut H,
    ledger: &Ledger,
    shelves: &[u32],
    home: &Home,
    name: Name,
) -> Result<bool, Trouble>
    requires { Tied ledger.now.house (H.world host.old) (view ledger.now shelves.now) }
    ensures step { Told name (plan_answer entry_model ledger.now.house name (view ledger.now shelves.now) (memory_of home.now)) (H.world host.old) (H.world host.new) result }
    ensures tied { AnswerTied ledger.now.house (H.world host.new) (view ledger.now shelves.now) result }
{
    let yes = decide_answer(ledger, shelves, home, name)?;
    host.send(Message::Told(yes, name), &NO_ENTRIES)?;
    Ok(yes)
}
