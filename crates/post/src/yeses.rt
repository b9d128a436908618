// The yes messages: the names to which each house said yes.
ghost use Rattle.std.specs.Prelude.{◌≡◌, ℕ, ◌<◌, false, ◌&&◌, ◌||◌, ◌==◌, is_ok, OnOk, vec_len};
ghost use Rattle.protocol.specs.Model.{same_name};
ghost use Rattle.protocol.specs.declared.Name.{Name};

use names::NameIndex;
use protocol::Name;
use std::alloc::{AllocError, Global};

// Names, in one index for each house. Not one set of pairs: to fill and search that took half as long again, and a quarter more memory.
#[derive(Drop)]
pub struct Yeses {
    // by house, up to the last that has said yes
    houses: Vec<NameIndex>,
}

impl Yeses {
    ghost use Rattle.post.specs.Yeses.{said_yes};

    pub(crate) fn new(heap: Global) -> Yeses
        ensures { (j : ℕ) (n : Name) → said_yes result j n ≡ false }
    {
        Yeses {
            houses: Vec::new(heap),
        }
    }

    pub(crate) fn contains(&self, house: u8, name: Name) -> bool
        ensures { result ≡ said_yes self.now house name }
    {
        self.houses
            .get(house as usize)
            .is_some_and(|names| names.contains(name))
    }

    // Notes the house's yes, or leaves all yeses as they were for want of memory.
    pub(crate) fn insert(&mut self, house: u8, name: Name) -> Result<(), AllocError>
        ensures { (j : ℕ) (n : Name) → said_yes self.new j n ≡ (is_ok result && (j == house && same_name n name) || said_yes self.old j n) }
    {
        self.grow_to(house)?;
        self.houses[house as usize].insert(name)
    }

    // Sees to it that the house has an index.
    fn grow_to(&mut self, house: u8) -> Result<(), AllocError>
        ensures same { (j : ℕ) (n : Name) → said_yes self.new j n ≡ said_yes self.old j n }
        ensures ok { OnOk result (house < vec_len self.new.houses) }
    {
        let count = house as usize + 1;
        if self.houses.len() < count {
            let heap = *self.houses.allocator();
            self.houses.resize_with(count, || NameIndex::new(heap))?;
        }
        Ok(())
    }
}
