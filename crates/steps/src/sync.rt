// A sync by itself: all that was appended is on the disk for good.
ghost use Rattle.std.specs.Prelude.{true, []};
ghost use Rattle.ledger.specs.View.{view};
ghost use Rattle.steps.specs.Hosts.{World};
ghost use Rattle.steps.specs.Stepped.{Performs};
ghost use Rattle.steps.specs.Ties.{Tied, SyncTied};

use crate::broken::Broken;
use crate::host::Host;
use ledger::Ledger;

pub fn sync<H: Host>(host: &mut H, ledger: &Ledger, shelves: &[u32]) -> Result<(), Broken>
    requires { Tied ledger.now.house (H.world host.old) (view ledger.now shelves.now) }
    ensures step { Performs (record { adds = []; syncs = true; sends = [] }) (H.world host.old) (H.world host.new) result }
    ensures tied { SyncTied ledger.now.house (H.world host.new) (view ledger.now shelves.now) result }
{
    host.sync()
}
