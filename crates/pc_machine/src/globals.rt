//! The module's bindings, looked up by name.
ghost use Rattle.std.specs.Prelude.{◌≡◌, ◌++◌, ◌∷◌, [], map, OnOk};
ghost use Rattle.pc_machine.specs.Names.{global_by_name};
ghost use Rattle.pc_machine.specs.Machine.{global_of as global_seen, bound_of, found_global};

use crate::state::{self, Bound, Globals};
use indexmap::IndexMap;
use pc_source::OutOfMemory;
use pc_tree::{Keys, bind_first};
use std::alloc::Global;

impl<'m> Globals<'m> {
    /// Returns a table without bindings.
    pub fn new(alloc: Global, keys: Keys) -> Globals<'m>
        ensures { result.bindings.items ≡ [] }
    {
        Globals {
            bindings: Vec::new(alloc),
            places: IndexMap::with_hasher(alloc, keys),
        }
    }

    /// Returns the first binding of a name, or `None` if the module has not bound it.
    pub fn get(&self, name: &str) -> Option<&Bound<'m>>
        ensures { found_global result ≡ global_by_name name.now (map global_seen self.now.bindings.items) }
    {
        match self.places.get(name) {
            Some(place) => match self.bindings.get(*place) {
                Some(binding) => Some(&binding.bound),
                None => None,
            },
            None => None,
        }
    }

    /// Adds a binding of a name of the module.
    ///
    /// # Errors
    ///
    /// `OutOfMemory` if an allocation failed; nothing is bound then.
    pub fn bind(&mut self, name: &'m str, bound: Bound<'m>) -> Result<(), OutOfMemory>
        ensures { OnOk result (map global_seen self.new.bindings.items
            ≡ map global_seen self.old.bindings.items ++ record { name = name.now; is = bound_of bound.entry } ∷ []) }
    {
        let place = self.bindings.len();
        self.bindings.push(state::Global { name, bound })?;
        match bind_first(&mut self.places, name, place) {
            Ok(()) => Ok(()),
            Err(error) => {
                // Without its entry in the map by name, lookups would never find the binding.
                let _ = self.bindings.pop();
                Err(error)
            }
        }
    }
}
