// Sets of names, for look-ups that never scan a file.
#![tactic(auto)]

ghost use Rattle.std.specs.Prelude.{◌≡◌, false, ◌&&◌, ◌||◌, ◌<◌, is_ok, OnOk, vec_len};
ghost use Rattle.protocol.specs.Model.{same_name};
ghost use Rattle.protocol.specs.declared.Name.{Name};

use protocol::Name;
use std::alloc::{AllocError, Global};
use std::collections::BTreeSet;

// Names, in one set for each home. Not one set for all: to fill that with the names of sixteen homes took a quarter longer,
// and opening a file is held to one and a half times the time of plain Rust.
#[derive(Drop)]
pub struct NameIndex {
    // by home, up to the last that has had a name
    homes: Vec<BTreeSet<Name>>,
}

impl NameIndex {
    ghost use Rattle.names.specs.Index.{in_index};

    pub fn new(heap: Global) -> NameIndex
        ensures { (n : Name) → in_index result n ≡ false }
    {
        NameIndex {
            homes: Vec::new(heap),
        }
    }

    pub fn contains(&self, name: Name) -> bool
        ensures { result ≡ in_index self.now name }
    {
        self.homes
            .get(name.home as usize)
            .is_some_and(|names| names.contains(&name))
    }

    // Puts the name in, or leaves the index as it was for want of memory.
    pub fn insert(&mut self, name: Name) -> Result<(), AllocError>
        ensures { (m : Name) → in_index self.new m ≡ (is_ok result && same_name m name || in_index self.old m) }
    {
        self.grow_to(name.home)?;
        self.homes[name.home as usize].insert(name)?;
        Ok(())
    }

    // Sees to it that the home has a set.
    fn grow_to(&mut self, home: u8) -> Result<(), AllocError>
        ensures same { (m : Name) → in_index self.new m ≡ in_index self.old m }
        ensures ok { OnOk result (home < vec_len self.new.homes) }
    {
        let count = home as usize + 1;
        if self.homes.len() < count {
            let heap = *self.homes.allocator();
            self.homes.resize_with(count, || BTreeSet::new(heap))?;
        }
        Ok(())
    }
}

#[cfg(test)]
mod tests {
    use super::NameIndex;
    use protocol::Name;
    use std::alloc::AllocError;

    #[test]
    fn names_of_two_homes(rt: HostRuntime) -> Result<(), AllocError> {
        let low = Name {
            home: 0,
            start: 1,
            number: 7,
        };
        let high = Name {
            home: 255,
            start: 1,
            number: 7,
        };
        let mut index = NameIndex::new(rt.alloc());
        index.insert(high)?;
        assert!(rt; index.contains(high));
        assert!(rt; !index.contains(low));
        index.insert(low)?;
        assert!(rt; index.contains(low));
        Ok(())
    }
}
