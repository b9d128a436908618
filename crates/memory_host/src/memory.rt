// A host in memory: the log as bytes, how many of them are durable, and every message sent.
ghost use Rattle.std.specs.Prelude.{◌≡◌, []};
ghost use Rattle.memory_host.specs.Sent.{world_of};

use orders::{Message, Order};
use std::alloc::Global;
use steps::broken::Broken;
use steps::host::Host;

// A message with the entries of its order, if it has one.
#[derive(Clone, Copy)]
pub struct Sent {
    pub message: Message,
    pub order: Order,
}

#[derive(Drop)]
pub struct MemoryHost {
    pub log: Vec<u8>,
    pub durable: usize,
    pub sent: Vec<Sent>,
}

impl MemoryHost {
    // An empty log, and nothing sent.
    pub fn new(heap: Global) -> MemoryHost
        ensures { (result.log.items ≡ []) × ((result.durable ≡ 0) × (result.sent.items ≡ [])) }
    {
        MemoryHost {
            log: Vec::new(heap),
            durable: 0,
            sent: Vec::new(heap),
        }
    }
}

impl Host for MemoryHost {
    ghost world = { world_of };

    fn log(&self) -> &[u8] {
        self.log.as_slice()
    }

    fn cut(&mut self, len: usize) -> Result<(), Broken> {
        self.log.truncate(len);
        Ok(())
    }

    fn append(&mut self, bytes: &[u8]) -> Result<(), Broken> {
        self.log.extend_from_slice(bytes).map_err(|_| Broken)
    }

    fn sync(&mut self) -> Result<(), Broken> {
        self.durable = self.log.len();
        Ok(())
    }

    fn send(&mut self, message: Message, order: &Order) -> Result<(), Broken> {
        let sent = Sent {
            message,
            order: *order,
        };
        // Not `map_err`: with it the search leaves open that the message was sent.
        let Ok(()) = self.sent.push(sent) else {
            return Err(Broken);
        };
        Ok(())
    }
}
