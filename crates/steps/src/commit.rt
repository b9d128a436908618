// The commit point of a hold and of a ruling: the record is appended, synced, and only then spoken of.
ghost use Rattle.std.specs.Prelude.{◌≡◌, true, false, [], ◌∷◌, ◌++◌};
ghost use Rattle.protocol.specs.Plan.{does};
ghost use Rattle.orders.specs.Encode.{rec_bytes};
ghost use Rattle.orders.specs.Values.{rec_of, msg_of};
ghost use Rattle.ledger.specs.View.{view, Fits};
ghost use Rattle.steps.specs.Hosts.{World, Backed, Appends};
ghost use Rattle.steps.specs.Stepped.{Performs, Stepped};
ghost use Rattle.steps.specs.Ties.{Tied, StillTied};

use crate::broken::{Broken, Trouble};
use crate::host::Host;
use ledger::Ledger;
use ledger::apply::*;
use orders::write::write;
use orders::{Message, Order, Record};

// Appends the record's bytes.
pub(crate) fn append_record<H: Host>(
    host: &mut H,
    record: Record,
    order: &Order,
) -> Result<(), Broken>
    ensures { Appends (rec_bytes (rec_of «record» order.now)) (H.world host.old) (H.world host.new) result }
{
    let mut buffer = [0u8; 268];
    let len = write(&mut buffer, record, order).map_err(|_| Broken)?;
    host.append(&buffer[0..len])
}

// Appends the record, syncs, and sends the message, which the record backs.
pub(crate) fn commit_and_send<H: Host>(
    host: &mut H,
    record: Record,
    message: Message,
    order: &Order,
) -> Result<(), Broken>
    requires { Backed (msg_of message order.now) ((H.world host.old).file ++ rec_bytes (rec_of «record» order.now)) }
    ensures { Performs (record { adds = rec_of «record» order.now ∷ []; syncs = true; sends = msg_of message order.now ∷ [] }) (H.world host.old) (H.world host.new) result }
{
    append_record(host, record, order)?;
    host.sync()?;
    host.send(message, order)
}

// Not by `note` of learning, which has no message: append, sync and send are one contract, that of `commit_and_send`.
// Notes the record, and commits and says it: where memory is wanting, nothing is written and nothing said.
pub(crate) fn note_and_commit<H: Host>(
    host: &mut H,
    ledger: &mut Ledger,
    shelves: &mut [u32],
    record: Record,
    message: Message,
    order: &Order,
) -> Result<(), Trouble>
    requires fits { Fits (rec_of «record» order.now) (view ledger.old shelves.old) }
    requires backed { Backed (msg_of message order.now) ((H.world host.old).file ++ rec_bytes (rec_of «record» order.now)) }
    requires tied { Tied ledger.old.house (H.world host.old) (view ledger.old shelves.old) }
    ensures step { Stepped ledger.old.house (does (record { adds = rec_of «record» order.now ∷ []; syncs = true; sends = msg_of message order.now ∷ [] })) (H.world host.old) (H.world host.new) (view ledger.old shelves.old) (view ledger.new shelves.new) result }
    ensures tied { StillTied ledger.old.house (H.world host.new) (view ledger.new shelves.new) result }
    ensures house { ledger.new.house ≡ ledger.old.house }
{
    ledger.apply(shelves, record, order)?;
    commit_and_send(host, record, message, order)?;
    Ok(())
}
