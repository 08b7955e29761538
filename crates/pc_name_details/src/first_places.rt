//! Names with the places where they first occur.

ghost use Rattle.std.specs.Prelude.{[], ◌∷◌, ◌++◌, ◌≡◌, List, IfOk, OnOk, map};
ghost use Rattle.pc_tree.specs.Lists.{name_seen};
ghost use Rattle.pc_tree.specs.Tree.{Name as TreeName, name_of};
ghost use Rattle.pc_name_details.specs.Naming.{AreFirst, place_held};

use pc_source::{OutOfMemory, Place};
use pc_tree::Name;
use std::alloc::Global;
use std::collections::BTreeMap;

/// Names, each with the place where it first occurs.
#[derive(Drop)]
pub(crate) struct FirstPlaces<'c> {
    places: BTreeMap<&'c str, Place>,
}

impl<'c> FirstPlaces<'c> {
    /// Returns no names.
    pub(crate) fn new(alloc: Global) -> FirstPlaces<'c>
        ensures { AreFirst result [] }
    {
        FirstPlaces {
            places: BTreeMap::new(alloc),
        }
    }

    /// Returns the place where a name first occurs, if it is one of these.
    pub(crate) fn get(&self, word: &'c str) -> Option<Place>
        ensures { result ≡ place_held self.now word.now }
    {
        self.places.get(&word).copied()
    }

    /// Adds a name behind the others.
    pub(crate) fn add(&mut self, name: &'c Name) -> Result<(), OutOfMemory>
        ensures { (names : List TreeName) → AreFirst self.old names
            → OnOk result (AreFirst self.new (names ++ name_of name.now ∷ [])) }
    {
        let word = name.text.as_str();
        if self.places.contains_key(&word) {
            return Ok(());
        }
        self.places.insert(word, name.place)?;
        Ok(())
    }

    /// Returns names with their first places.
    pub(crate) fn of(alloc: Global, names: &[&'c Name]) -> Result<FirstPlaces<'c>, OutOfMemory>
        ensures { IfOk result (λ f. AreFirst f (map name_seen names.now)) }
    {
        let mut first = FirstPlaces::new(alloc);
        for name in names {
            first.add(*name)?;
        }
        Ok(first)
    }
}
