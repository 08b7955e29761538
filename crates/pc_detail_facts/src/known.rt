//! The types and flows in the notes of a check, by place.

ghost use Rattle.std.specs.Prelude.{◌≡◌, ◌||◌, IfOk, IfSome, option_map, is_some};
ghost use Rattle.pc_tree.specs.declared.code.Code.TheVariants.{A1, E12};
ghost use Rattle.pc_types.specs.Boxed.{tree_of, IsGiven};
ghost use Rattle.pc_notes.specs.Notes.{notes_of, pair_shown};
ghost use Rattle.pc_detail_facts.specs.Held.{AreGivenLent, IsKnownHeld, HoldsNotes, flow_held, type_held};

use pc_notes::Notes;
use pc_source::{OutOfMemory, Place};
use pc_tree::Code;
use pc_types::BoxType;
use std::alloc::Global;
use std::collections::BTreeMap;

/// The facts of a module that its tree does not show: the type at each place, and the two types of the first wrong and
/// of the first dynamic flow there.
#[derive(Drop)]
pub struct Known<'n> {
    types: BTreeMap<Place, &'n BoxType>,
    wrong: BTreeMap<Place, (&'n BoxType, &'n BoxType)>,
    dynamic: BTreeMap<Place, (&'n BoxType, &'n BoxType)>,
    any: BoxType,
}

impl<'n> Known<'n> {
    /// Returns the types and the first flows in notes, by place.
    pub fn of(alloc: Global, notes: &'n Notes) -> Result<Known<'n>, OutOfMemory>
        ensures told { IfOk result (HoldsNotes (notes_of notes.now)) }
        ensures held { IfOk result IsKnownHeld }
    {
        let types = notes.label_types(alloc)?;
        let wrong = notes.flow_types(alloc, Code::E12)?;
        let dynamic = notes.flow_types(alloc, Code::A1)?;
        Ok(Known {
            types,
            wrong,
            dynamic,
            any: BoxType::Any,
        })
    }

    /// Returns the type of the expression at a place, `Any` if there is none.
    pub(crate) fn type_at(&self, place: Place) -> &BoxType
        requires { IsKnownHeld self.now }
        ensures tree { tree_of result.now ≡ type_held self.now place }
        ensures given { IsGiven result.now }
    {
        match self.types.get(&place) {
            Some(ty) => *ty,
            None => &self.any,
        }
    }

    /// Returns the two types of the first wrong flow at a place.
    pub fn wrong_at(&self, place: Place) -> Option<&(&'n BoxType, &'n BoxType)>
        requires { IsKnownHeld self.now }
        ensures types { option_map (λ t. pair_shown t.now) result ≡ flow_held self.now E12 place }
        ensures given { IfSome result (λ t. AreGivenLent t.now) }
    {
        self.wrong.get(&place)
    }

    /// Returns the two types of the first dynamic flow at a place.
    pub fn dynamic_at(&self, place: Place) -> Option<&(&'n BoxType, &'n BoxType)>
        requires { IsKnownHeld self.now }
        ensures types { option_map (λ t. pair_shown t.now) result ≡ flow_held self.now A1 place }
        ensures given { IfSome result (λ t. AreGivenLent t.now) }
    {
        self.dynamic.get(&place)
    }

    /// Returns whether a wrong or a dynamic flow is noted at a place.
    pub fn has_flow(&self, place: Place) -> bool
        ensures { result ≡ is_some (flow_held self.now E12 place) || is_some (flow_held self.now A1 place) }
    {
        self.wrong.contains_key(&place) || self.dynamic.contains_key(&place)
    }
}
