//! The types of flows and of labels by place.

ghost use Rattle.std.specs.Prelude.{◌≡◌, ◌++◌, ◌∷◌, [], IfOk, List, OnOk, option_map};
ghost use Rattle.std.specs.BTreeMap.{get};
ghost use Rattle.pc_source.specs.declared.place.Place.{Place as PlaceOf};
ghost use Rattle.pc_notes.specs.Notes.{note_of, notes_of, flow_types, kept_type, pair_shown};
ghost use Rattle.pc_notes.specs.Texts.{HasFirstTypes, place_cmp};
ghost use Rattle.pc_notes.specs.declared.notes.NoteEntry.{NoteEntry as Kept};

use crate::notes::{NoteEntry, NotedFlow};
use pc_source::{OutOfMemory, Place};
use pc_types::BoxType;
use std::alloc::Global;
use std::collections::BTreeMap;

/// Returns the two types of each flow of a map.
pub(crate) fn types_of_flows<'n>(
    alloc: Global,
    flows: &BTreeMap<Place, &'n NotedFlow>,
) -> Result<BTreeMap<Place, (&'n BoxType, &'n BoxType)>, OutOfMemory>
    ensures { IfOk result (λ types. (place : PlaceOf) → option_map pair_shown (get place_cmp types place)
        ≡ option_map (λ f. flow_types f.now) (get place_cmp flows.now place)) }
{
    let mut types = BTreeMap::new(alloc);
    for entry in flows.iter() {
        let (place, flow) = entry;
        types.insert(*place, flow.types())?;
    }
    Ok(types)
}

/// Returns the first type of a label at each place, shown or not.
pub(crate) fn first_types(
    alloc: Global,
    entries: &[NoteEntry],
) -> Result<BTreeMap<Place, &BoxType>, OutOfMemory>
    ensures { IfOk result (HasFirstTypes (notes_of entries.now)) }
{
    let mut types = BTreeMap::new(alloc);
    for entry in entries {
        keep_type(&mut types, entry)?;
    }
    Ok(types)
}

/// Returns the type of an entry if it is that of a label, shown or not.
fn label_type(entry: &NoteEntry) -> Option<&BoxType>
    ensures { option_map (λ t. t.now) result ≡ kept_type entry.now }
{
    match entry {
        NoteEntry::Typed(_, _, shared) => Some(&shared.ty),
        _ => None,
    }
}

/// Keeps the type of an entry if it is that of a label, unless one is kept at its place.
fn keep_type<'n>(
    types: &mut BTreeMap<Place, &'n BoxType>,
    entry: &'n NoteEntry,
) -> Result<(), OutOfMemory>
    ensures { OnOk result ((entries : List Kept) → HasFirstTypes (notes_of entries) types.old
        → HasFirstTypes (notes_of entries ++ note_of entry.now ∷ []) types.new) }
{
    let Some(ty) = label_type(entry) else {
        return Ok(());
    };
    let place = entry.place();
    if types.contains_key(&place) {
        return Ok(());
    }
    types.insert(place, ty)?;
    Ok(())
}
