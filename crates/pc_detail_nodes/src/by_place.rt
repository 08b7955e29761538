//! Lists of nodes by their places.

ghost use Rattle.std.specs.Prelude.{◌≡◌, ◌++◌, [], Contains, IfOk, OnOk, Some, unwrap_or};
ghost use Rattle.std.specs.Option.{option_map};
ghost use Rattle.pc_source.specs.declared.place.Place.{Place as PlaceOf};
ghost use Rattle.pc_tree.specs.declared.code.Finding.{Finding as FindingOf};
ghost use Rattle.pc_detail_nodes.specs.ByPlaces.{alone_at, nodes_at};

use pc_source::{OutOfMemory, Place};
use pc_tree::Finding;
use std::alloc::Global;
use std::collections::BTreeMap;

/// A list of nodes at each place of a finding, in the order in which they were added.
#[derive(Drop)]
pub(crate) struct ByPlace<T: Drop> {
    lists: BTreeMap<Place, Vec<T>>,
}

impl<T: Drop> ByPlace<T> {
    /// Returns an empty list at each place of a finding.
    pub(crate) fn of(alloc: Global, findings: &[Finding]) -> Result<ByPlace<T>, OutOfMemory>
        ensures { IfOk result (λ b. (f : FindingOf) → Contains findings.now f → nodes_at b f.place ≡ Some []) }
    {
        let mut lists = BTreeMap::new(alloc);
        for finding in findings {
            lists.insert(finding.place, Vec::new(alloc))?;
        }
        Ok(ByPlace { lists })
    }

    /// Returns the nodes at a place.
    pub(crate) fn at(&self, place: Place) -> &[T]
        ensures { result.now ≡ unwrap_or (nodes_at self.now place) [] }
    {
        match self.lists.get(&place) {
            Some(list) => list.as_slice(),
            None => &[],
        }
    }

    /// Adds a node, if there is a finding at its place.
    pub(crate) fn add(&mut self, place: Place, node: T) -> Result<(), OutOfMemory>
        ensures { OnOk result ((p : PlaceOf) → nodes_at self.new p
            ≡ option_map (λ nodes. nodes ++ alone_at p place node) (nodes_at self.old p)) }
    {
        let Some(mut list) = self.lists.remove(&place) else {
            return Ok(());
        };
        list.push(node)?;
        self.lists.insert(place, list)?;
        Ok(())
    }
}
