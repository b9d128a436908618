// A host in memory whose calls fail from a chosen one on, to see what a house says when its disk or its post fails.
ghost use Rattle.std.specs.Prelude.{◌≡◌, ◌+◌, ◌↔◌, IfOk, IsErr};
ghost use Rattle.memory_host.specs.Sent.{world_of};

use crate::memory::*;
use orders::{Message, Order};
use steps::broken::Broken;
use steps::host::Host;

#[derive(Drop)]
pub struct FaultyHost {
    pub inner: MemoryHost,
    // how many calls still succeed
    pub left: usize,
}

impl FaultyHost {
    // One call less succeeds; none any more where there is none left.
    fn spend(&mut self) -> Result<(), Broken>
        ensures inner { self.new.inner ≡ self.old.inner }
        ensures left { IfOk result (λ _. self.old.left ≡ self.new.left + 1) }
        ensures none { IsErr result ↔ (self.old.left ≡ 0) }
    {
        self.left = self.left.checked_sub(1).ok_or(Broken)?;
        Ok(())
    }
}

impl Host for FaultyHost {
    ghost world = { λ h. world_of h.inner };

    fn log(&self) -> &[u8] {
        self.inner.log()
    }

    fn cut(&mut self, len: usize) -> Result<(), Broken> {
        self.spend()?;
        self.inner.cut(len)
    }

    fn append(&mut self, bytes: &[u8]) -> Result<(), Broken> {
        self.spend()?;
        self.inner.append(bytes)
    }

    fn sync(&mut self) -> Result<(), Broken> {
        self.spend()?;
        self.inner.sync()
    }

    fn send(&mut self, message: Message, order: &Order) -> Result<(), Broken> {
        self.spend()?;
        self.inner.send(message, order)
    }
}
