//! Lists that share their common parts: each is an earlier one with more items at its end.

ghost use Rattle.std.specs.Prelude.{◌≡◌, ◌+◌, ◌++◌, ◌∷◌, ◌==◌, [], ℕ, List, length, if◌then◌else◌, None, Some, IfOk};
ghost use Rattle.std.specs.Prelude.{OnOk};
ghost use Rattle.pc_scope.specs.Resolution.{index_of};
ghost use Rattle.pc_shared_maps.specs.declared.lists.ListPlace.{ListPlace as ListPlaceOf};
ghost use Rattle.pc_shared_maps.specs.NameMaps.{IsMap, named_at, KeepsNamed};
ghost use Rattle.pc_shared_maps.specs.SharedLists.{empty_list, place_at, list_place_at, needed_at, HasRoom, AreNamed, KeepsLists};

use crate::named::NamedMaps;
use crate::shared::SharedMaps;
use pc_source::OutOfMemory;
use pc_tree::Keys;
use std::alloc::Global;

/// An item at a place of a list: its number, and the end of the needed items before it.
#[derive(Clone, Copy)]
pub struct ListPlace {
    pub number: usize,
    pub needed: usize,
}

/// A list of items: their number, the end of the needed ones, and the maps from each name to its first place and from
/// each place to its list place.
#[derive(Clone, Copy)]
pub struct SharedList {
    pub count: usize,
    pub needed: usize,
    pub names: usize,
    pub list_places: usize,
}

/// The storage of lists. Each list is built on an earlier one, which is kept.
#[derive(Drop)]
pub struct SharedLists {
    pub named: NamedMaps,
    pub placed: SharedMaps,
    pub list_places: Vec<ListPlace>,
}

/// Returns the map with the place of one name more, or `map` itself if it has an earlier place for the name.
fn add_name(
    named: &mut NamedMaps,
    alloc: Global,
    map: usize,
    name: &str,
    place: usize,
) -> Result<usize, OutOfMemory>
    requires { IsMap named.old map }
    ensures within { IfOk result (λ new. IsMap named.new new) }
    ensures kept { OnOk result (KeepsNamed named.old named.new) }
    ensures names { IfOk result (λ new. (names : List (List ℕ))
        → ((word : List ℕ) → named_at named.old map word ≡ index_of word names) → place ≡ length names
        → (word : List ℕ) → named_at named.new new word ≡ index_of word (names ++ name.now ∷ [])) }
{
    if named.has(map, name) {
        return Ok(map);
    }
    let new = named.put(alloc, map, name, place)?;
    Ok(new)
}

impl SharedList {
    /// Returns the empty list.
    pub fn empty() -> SharedList
        ensures { result ≡ empty_list }
    {
        SharedList {
            count: 0,
            needed: 0,
            names: 0,
            list_places: 0,
        }
    }
}

impl SharedLists {
    /// Returns the storage of the empty list alone.
    pub fn new(alloc: Global, keys: Keys) -> Result<SharedLists, OutOfMemory>
        ensures room { IfOk result (λ s. HasRoom s empty_list) }
        ensures names { IfOk result (λ s. AreNamed s empty_list []) }
        ensures list_places { IfOk result (λ s. (place : ℕ) → list_place_at s empty_list place ≡ None) }
    {
        let named = NamedMaps::new(alloc, keys)?;
        let placed = SharedMaps::new(alloc)?;
        Ok(SharedLists {
            named,
            placed,
            list_places: Vec::new(alloc),
        })
    }

    /// Adds the list that is `list` with one more item: its number, its name, and whether it is needed. Returns the new
    /// list.
    pub fn push(
        &mut self,
        alloc: Global,
        list: SharedList,
        number: usize,
        name: &str,
        needed: bool,
    ) -> Result<SharedList, OutOfMemory>
        requires { HasRoom self.old list }
        ensures room { IfOk result (HasRoom self.new) }
        ensures kept { OnOk result (KeepsLists self.old self.new) }
        ensures count { IfOk result (λ new. new.count ≡ list.count + 1) }
        ensures needed { IfOk result (λ new. new.needed ≡ (if needed then list.count + 1 else list.needed)) }
        ensures names { IfOk result (λ new. (names : List (List ℕ)) → AreNamed self.old list names
            → list.count ≡ length names → AreNamed self.new new (names ++ name.now ∷ [])) }
        ensures list_places { IfOk result (λ new. (place : ℕ) → list_place_at self.new new place
            ≡ (if place == list.count
            then Some (let s : ListPlaceOf = record { number = number; needed = list.needed } in s)
            else list_place_at self.old list place)) }
    {
        let names = add_name(&mut self.named, alloc, list.names, name, list.count)?;
        let list_places = self
            .placed
            .put(list.list_places, list.count, self.list_places.len())?;
        self.list_places.push(ListPlace {
            number,
            needed: list.needed,
        })?;
        let count = list.count + 1;
        let needed = if needed { count } else { list.needed };
        Ok(SharedList {
            count,
            needed,
            names,
            list_places,
        })
    }

    /// Returns the first place of a name in a list.
    pub fn place(&self, list: SharedList, name: &str) -> Option<usize>
        requires { HasRoom self.now list }
        ensures { result ≡ place_at self.now list name.now }
    {
        self.named.get(list.names, name)
    }

    /// Returns the list place at a place of a list.
    pub fn list_place(&self, list: SharedList, place: usize) -> Option<ListPlace>
        requires { HasRoom self.now list }
        ensures { result ≡ list_place_at self.now list place }
    {
        let number = self.placed.get(list.list_places, place)?;
        self.list_places.get(number).copied()
    }

    /// Returns the end of the needed items before a place of a list.
    pub fn needed(&self, list: SharedList, place: usize) -> usize
        requires { HasRoom self.now list }
        ensures { result ≡ needed_at self.now list place }
    {
        match self.list_place(list, place) {
            Some(list_place) => list_place.needed,
            None => list.needed,
        }
    }
}
