// The place of the first order of each name in a list of orders.
ghost use Rattle.std.specs.Prelude.{◌≡◌, ◌<◌, ◌&&◌, is_ok, OnOk, None, vec_len};
ghost use Rattle.std.specs.BTreeMap.{get};
ghost use Rattle.protocol.specs.Model.{same_name};
ghost use Rattle.protocol.specs.declared.Name.{Name};
ghost use Rattle.names.specs.Names.{name_cmp};
ghost use Rattle.post.specs.Places.{or_else, only_if};

use protocol::Name;
use std::alloc::{AllocError, Global};
use std::collections::BTreeMap;

// Places of names, in one map for each home, so that a name is looked for among those of its home alone.
#[derive(Drop)]
pub struct PlaceIndex {
    // by home, up to the last that has had a hold
    homes: Vec<BTreeMap<Name, usize>>,
}

// Gives the name this place if it has none, or leaves the map as it was for want of memory.
fn put_first(places: &mut BTreeMap<Name, usize>, name: Name, place: usize) -> Result<(), AllocError>
    ensures { (m : Name) → get name_cmp places.new m ≡ or_else (get name_cmp places.old m) (only_if (is_ok result && same_name m name) place) }
{
    places.entry(name)?.or_insert(place);
    Ok(())
}

impl PlaceIndex {
    ghost use Rattle.post.specs.Places.{place_of};

    pub(crate) fn new(heap: Global) -> PlaceIndex
        ensures { (n : Name) → place_of result n ≡ None }
    {
        PlaceIndex {
            homes: Vec::new(heap),
        }
    }

    pub(crate) fn get(&self, name: Name) -> Option<usize>
        ensures { result ≡ place_of self.now name }
    {
        let places = self.homes.get(name.home as usize)?;
        places.get(&name).copied()
    }

    // Gives the name this place if it has none, or leaves the index as it was for want of memory.
    pub(crate) fn insert_first(&mut self, name: Name, place: usize) -> Result<(), AllocError>
        ensures { (m : Name) → place_of self.new m ≡ or_else (place_of self.old m) (only_if (is_ok result && same_name m name) place) }
    {
        self.grow_to(name.home)?;
        put_first(&mut self.homes[name.home as usize], name, place)
    }

    // Sees to it that the home has a map.
    fn grow_to(&mut self, home: u8) -> Result<(), AllocError>
        ensures same { (n : Name) → place_of self.new n ≡ place_of self.old n }
        ensures ok { OnOk result (home < vec_len self.new.homes) }
    {
        let count = home as usize + 1;
        if self.homes.len() < count {
            let heap = *self.homes.allocator();
            self.homes.resize_with(count, || BTreeMap::new(heap))?;
        }
        Ok(())
    }
}
