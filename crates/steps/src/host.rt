// What a house acts on: a log that is appended to and synced, and a post that takes messages.
ghost use Rattle.std.specs.Prelude.{◌≡◌};
ghost use Rattle.orders.specs.Values.{msg_of};
ghost use Rattle.steps.specs.Hosts.{World, Backed, on_disk, Cuts, Appends, Syncs, Sends};

use crate::broken::Broken;
use orders::{Message, Order};

pub trait Host {
    // the bytes of the log, how many of them are on the disk for good, and the messages sent, the latest last
    ghost world: { Self → World };

    // The bytes of the log.
    fn log(&self) -> &[u8]
        ensures { result.now ≡ (world self.now).file };

    // Keeps the first bytes of the log, and cuts the rest off, not yet for good.
    fn cut(&mut self, len: usize) -> Result<(), Broken>
        ensures { Cuts len (world self.old) (world self.new) result };

    // Adds the bytes at the end of the log, not yet for good.
    fn append(&mut self, bytes: &[u8]) -> Result<(), Broken>
        ensures { Appends bytes.now (world self.old) (world self.new) result };

    // All that was appended is on the disk for good.
    fn sync(&mut self) -> Result<(), Broken>
        ensures { Syncs (world self.old) (world self.new) result };

    // Sends the message, which speaks only of what the disk has for good.
    fn send(&mut self, message: Message, order: &Order) -> Result<(), Broken>
        requires { Backed (msg_of message order.now) (on_disk (world self.old)) }
        ensures { Sends (msg_of message order.now) (world self.old) (world self.new) result };
}
