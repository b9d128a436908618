// A house comes up: it opens its log, cuts a torn end off, writes began and syncs. Nothing else happens before that.
ghost use Rattle.std.specs.Prelude.{◌≡◌};
ghost use Rattle.steps.specs.Hosts.{World};
ghost use Rattle.steps.specs.Start.{OpenedLog, CameUp};

use crate::broken::Trouble;
use crate::commit::append_record;
use crate::host::Host;
use ledger::apply::*;
use ledger::getters::*;
use ledger::opening::*;
use ledger::{Ledger, MAX_BYTES, MAX_STARTS};
use orders::{NO_ENTRIES, Record, Refusal};
use std::alloc::Global;

// The ledger that the bytes say, with its shelves in the lent words: `Ledger::open`, its contract in the words of coming up.
fn open_log(
    heap: Global,
    houses: u8,
    house: u8,
    bytes: &[u8],
    shelves: &mut [u32],
) -> Result<Ledger, Trouble>
    ensures { OpenedLog houses house bytes.now shelves.old shelves.new result }
{
    Ok(Ledger::open(heap, houses, house, bytes, shelves)?)
}

pub fn come_up<H: Host>(
    heap: Global,
    host: &mut H,
    houses: u8,
    house: u8,
    shelves: &mut [u32],
) -> Result<Ledger, Trouble>
    ensures { CameUp houses house (H.world host.old) (H.world host.new) shelves.new result }
{
    let mut ledger = open_log(heap, houses, house, host.log(), shelves)?;
    if ledger.start() >= MAX_STARTS {
        return Err(Refusal::BadHistory.into());
    }
    let len = ledger.bytes();
    if len + 1 > MAX_BYTES {
        return Err(Refusal::FileFull.into());
    }
    ledger.apply(shelves, Record::Began, &NO_ENTRIES)?;
    host.cut(len)?;
    append_record(host, Record::Began, &NO_ENTRIES)?;
    host.sync()?;
    Ok(ledger)
}
