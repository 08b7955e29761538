//! Findings as they are gathered, each with the two types of the flow that it reports.

ghost use Rattle.std.specs.Prelude.{◌≡◌, ◌++◌, ◌∷◌, [], map, IfOk, IfSome, List, OnOk, None, option_map};
ghost use Rattle.std.specs.Prelude.{if◌then◌else◌};
ghost use Rattle.std.specs.Option.{option_copied};
ghost use Rattle.pc_tree.specs.Code.{finding};
ghost use Rattle.pc_tree.specs.Tree.{module_of};
ghost use Rattle.std.specs.BTreeMap.{get};
ghost use Rattle.pc_source.specs.declared.place.Place.{Place as PlaceOf};
ghost use Rattle.pc_types.specs.Boxed.{IsGiven, tree_of};
ghost use Rattle.pc_annotations.specs.Named.{named_module};
ghost use Rattle.pc_types.specs.Store.{KeepsTypes};
ghost use Rattle.pc_notes.specs.Notes.{IsGivenEntry, Note, note_of, notes_of, plain_note, flow_note, typed};
ghost use Rattle.pc_notes.specs.Notes.{is_same_place, is_same_code, entry_place, kept_flow, flow_noted, ExplainsFlow};
ghost use Rattle.pc_notes.specs.Notes.{findings_of, types_of, named, names_of_notes};
ghost use Rattle.pc_notes.specs.Notes.{IsGivenPair, type_noted, pair_shown, flow_types};
ghost use Rattle.pc_notes.specs.declared.notes.NoteEntry.{NoteEntry as Kept};
ghost use Rattle.pc_notes.specs.Texts.{AreFlowTexts, HasFirstFlows, place_cmp};
ghost use Rattle.pc_notes.specs.Texts.{name_texts_at, text_shown, texts_shown, type_text_at};

use crate::by_place::{first_types, types_of_flows};
use crate::rebuilding::transfer;
use crate::sharing::{SharedType, SharedTypes, shared_text};
use crate::texts::{texts_of, texts_of_bound};
use pc_annotations::ClassNames;
use pc_source::{OutOfMemory, Place};
use pc_tree::{Code, Finding, Findings, Module};
use pc_types::{BoxStore, BoxType, TypeStore};
use std::alloc::Global;
use std::collections::BTreeMap;
use std::marker::Model;
use std::rc::{Rc, RcStr};

/// The two types of a flow: the one that flows, and the one that it flows into.
#[derive(Drop)]
pub(crate) struct NotedFlow {
    pub(crate) from: Rc<SharedType>,
    pub(crate) into: Rc<SharedType>,
}

impl NotedFlow {
    /// Returns the two types of a flow.
    pub(crate) fn types(&self) -> (&BoxType, &BoxType)
        ensures { pair_shown result ≡ flow_types self.now }
    {
        (&self.from.ty, &self.into.ty)
    }
}

/// The types of a bound name: its declared type, and its current type after the binding, if it has a value then.
#[derive(Drop)]
pub(crate) struct BoundTypes {
    pub(crate) declared: Rc<SharedType>,
    pub(crate) current: Option<Rc<SharedType>>,
}

/// A finding, with the types of its flow if it reports one; or the type of a label; or the types of a bound name.
#[derive(Drop)]
pub(crate) enum NoteEntry {
    Told(Finding, Option<Box<NotedFlow>>),
    /// Whether it is shown, its place, and the type.
    Typed(bool, Place, Rc<SharedType>),
    /// The place of the name, and its types.
    Bound(Place, Box<BoundTypes>),
}

/// Returns whether two codes are the same.
fn is_same_code(code: Code, other: Code) -> bool
    ensures { result ≡ is_same_code code other }
{
    code == other
}

impl NoteEntry {
    /// Returns the place of an entry.
    pub(crate) fn place(&self) -> Place
        ensures { result ≡ entry_place self.now }
    {
        match self {
            NoteEntry::Told(finding, _) => finding.place,
            NoteEntry::Typed(_, place, _) => *place,
            NoteEntry::Bound(place, _) => *place,
        }
    }

    /// Returns the flow of an entry, if it reports one with this code.
    fn flow(&self, code: Code) -> Option<&NotedFlow>
        ensures { option_map (λ f. f.now) result ≡ kept_flow code self.now }
    {
        match self {
            NoteEntry::Told(finding, Some(flow)) => {
                if is_same_code(code, finding.code) {
                    Some(flow.as_ref())
                } else {
                    None
                }
            }
            _ => None,
        }
    }

    /// Returns the flow of an entry, if it reports one with this code at this place.
    fn flow_at(&self, code: Code, place: Place) -> Option<&NotedFlow>
        ensures { option_map (λ f. f.now) result
            ≡ (if is_same_place place (entry_place self.now) then kept_flow code self.now else None) }
    {
        let own = self.place();
        if place.start == own.start && place.end == own.end {
            self.flow(code)
        } else {
            None
        }
    }
}

/// Findings as they are gathered, in any order, each with the types of the flow that it reports. Contracts see it as
/// that list.
#[derive(Drop)]
pub struct Notes {
    entries: Vec<NoteEntry>,
    types: SharedTypes,
}

impl Model for Notes {
    ghost use Rattle.std.specs.Prelude.{List};
    ghost use Rattle.std.specs.Coded.{coded_list};
    ghost use Rattle.pc_notes.specs.Notes.{AreGiven};
    ghost use Rattle.pc_notes.specs.declared.notes.NoteEntry.{NoteEntry};
    ghost use Rattle.pc_notes.specs.contracts.notes.NoteEntry as entry;

    ghost Value = { List NoteEntry };

    ghost coded = { coded_list entry.the_row.coded };

    ghost view = { λ n. n.entries.items };

    ghost invariant = { λ n. AreGiven n.entries.items };
}

impl Notes {
    /// Returns empty notes.
    pub fn new(alloc: Global) -> Notes
        ensures { result ≡ [] }
    {
        Notes {
            entries: Vec::new(alloc),
            types: SharedTypes::new(alloc),
        }
    }

    /// Adds a code at a place.
    pub fn put(&mut self, place: Place, code: Code) -> Result<(), OutOfMemory>
        ensures { OnOk result (notes_of self.new ≡ notes_of self.old ++ plain_note (finding place code) ∷ []) }
    {
        let finding = Finding { place, code };
        self.entries.push(NoteEntry::Told(finding, None))?;
        Ok(())
    }

    /// Adds findings that report no flow.
    pub fn put_all(&mut self, findings: &[Finding]) -> Result<(), OutOfMemory>
        ensures { OnOk result (notes_of self.new ≡ notes_of self.old ++ map plain_note findings.now) }
    {
        for finding in findings {
            self.put(finding.place, finding.code)?;
        }
        Ok(())
    }

    /// Adds a finding that reports a flow, from one type of a store into another.
    pub fn put_flow<S: TypeStore>(
        &mut self,
        store: &S,
        alloc: Global,
        finding: Finding,
        from: &S::Ty,
        into: &S::Ty,
    ) -> Result<(), OutOfMemory>
        requires from { S.has store.now from.now }
        requires into { S.has store.now into.now }
        ensures { OnOk result (notes_of self.new
            ≡ notes_of self.old ++ flow_note finding (S.tree from.now) (S.tree into.now) ∷ []) }
    {
        let from = self.types.shared(store, alloc, from)?;
        let into = self.types.shared(store, alloc, into)?;
        self.entries.push(NoteEntry::Told(
            finding,
            Some(Box::new(alloc, NotedFlow { from, into })?),
        ))?;
        Ok(())
    }

    /// Adds the type of a label at a place.
    pub fn put_type<S: TypeStore>(
        &mut self,
        store: &S,
        alloc: Global,
        shown: bool,
        place: Place,
        ty: &S::Ty,
    ) -> Result<(), OutOfMemory>
        requires { S.has store.now ty.now }
        ensures { OnOk result (notes_of self.new ≡ notes_of self.old ++ typed shown place (S.tree ty.now) ∷ []) }
    {
        let ty = self.types.shared(store, alloc, ty)?;
        self.entries.push(NoteEntry::Typed(shown, place, ty))?;
        Ok(())
    }

    /// Adds a bound name at a place: its declared type, and its current type after the binding, if it has a value then.
    pub fn put_name<S: TypeStore>(
        &mut self,
        store: &S,
        alloc: Global,
        place: Place,
        declared: &S::Ty,
        current: Option<&S::Ty>,
    ) -> Result<(), OutOfMemory>
        requires declared { S.has store.now declared.now }
        requires current { IfSome (option_copied current) (S.has store.now) }
        ensures { OnOk result (notes_of self.new ≡ notes_of self.old
            ++ named place (S.tree declared.now) (option_map S.tree (option_copied current.entry)) ∷ []) }
    {
        let declared = self.types.shared(store, alloc, declared)?;
        let current = match current {
            None => None,
            Some(ty) => Some(self.types.shared(store, alloc, ty)?),
        };
        let types = BoundTypes { declared, current };
        self.entries
            .push(NoteEntry::Bound(place, Box::new(alloc, types)?))?;
        Ok(())
    }

    /// Returns the findings, in their order.
    pub fn findings(&self, alloc: Global) -> Result<Findings, OutOfMemory>
        ensures { IfOk result (λ v. v.items ≡ findings_of (notes_of self.now)) }
    {
        let mut findings = Vec::new(alloc);
        for entry in &self.entries {
            if let NoteEntry::Told(finding, _) = entry {
                findings.push(*finding)?;
            }
        }
        Ok(findings)
    }

    /// Returns the shown types, each with its place and its text, in their order. Equal types of one mark share their text.
    pub fn type_texts(
        &self,
        alloc: Global,
        names: &ClassNames<'_>,
    ) -> Result<Vec<(Place, RcStr)>, OutOfMemory>
        ensures { IfOk result (λ v. map text_shown v.items
            ≡ map (type_text_at (named_module names.now)) (types_of (notes_of self.now))) }
    {
        let mut known = BTreeMap::new(alloc);
        let mut texts = Vec::new(alloc);
        for entry in &self.entries {
            if let NoteEntry::Typed(true, place, ty) = entry {
                texts.push((*place, shared_text(&mut known, alloc, names, ty)?))?;
            }
        }
        Ok(texts)
    }

    /// Returns the bound names, each with its place and the texts of its types, in their order: that of its declared type,
    /// and that of its current one, if it has a value. Equal types of one mark share their text.
    pub fn name_texts(
        &self,
        alloc: Global,
        names: &ClassNames<'_>,
    ) -> Result<Vec<(Place, RcStr, Option<RcStr>)>, OutOfMemory>
        ensures { IfOk result (λ v. map texts_shown v.items
            ≡ map (name_texts_at (named_module names.now)) (names_of_notes (notes_of self.now))) }
    {
        let mut known = BTreeMap::new(alloc);
        let mut texts = Vec::new(alloc);
        for entry in &self.entries {
            if let NoteEntry::Bound(place, types) = entry {
                let (declared, current) = texts_of_bound(&mut known, alloc, names, types)?;
                texts.push((*place, declared, current))?;
            }
        }
        Ok(texts)
    }

    /// Returns the types of the first flow noted with a code at a place, as types of a store, or `None` if no such flow
    /// is noted there.
    pub fn explain<S: TypeStore>(
        &self,
        store: &mut S,
        alloc: Global,
        code: Code,
        place: Place,
    ) -> Result<Option<(S::Ty, S::Ty)>, OutOfMemory>
        ensures value { IfOk result
            (λ found. ExplainsFlow S.has S.tree store.new found (flow_noted code place (notes_of self.now))) }
        ensures kept { KeepsTypes S.has store.old store.new }
    {
        for entry in &self.entries {
            if let Some(flow) = entry.flow_at(code, place) {
                let from = transfer(&BoxStore::new(), store, alloc, &flow.from.ty)?;
                let into = transfer(&BoxStore::new(), store, alloc, &flow.into.ty)?;
                return Ok(Some((from, into)));
            }
        }
        Ok(None)
    }

    /// Returns the first flow noted with a code at each place.
    fn first_flows(
        &self,
        alloc: Global,
        code: Code,
    ) -> Result<BTreeMap<Place, &NotedFlow>, OutOfMemory>
        ensures { IfOk result (HasFirstFlows code (notes_of self.now)) }
    {
        let mut flows = BTreeMap::new(alloc);
        for entry in &self.entries {
            keep_first(&mut flows, code, entry)?;
        }
        Ok(flows)
    }

    /// Returns the first flow noted with a code at each place: the type that flows, and the type that it flows into.
    pub fn flow_types(
        &self,
        alloc: Global,
        code: Code,
    ) -> Result<BTreeMap<Place, (&BoxType, &BoxType)>, OutOfMemory>
        ensures types { IfOk result (λ types. (place : PlaceOf)
            → option_map pair_shown (get place_cmp types place) ≡ flow_noted code place (notes_of self.now)) }
        ensures given { IfOk result (λ types. (place : PlaceOf) → IfSome (get place_cmp types place) IsGivenPair) }
    {
        let flows = self.first_flows(alloc, code)?;
        Ok(types_of_flows(alloc, &flows)?)
    }

    /// Returns the first type noted at each place, shown or not.
    pub fn label_types(&self, alloc: Global) -> Result<BTreeMap<Place, &BoxType>, OutOfMemory>
        ensures types { IfOk result (λ types. (place : PlaceOf)
            → option_map (λ t. tree_of t.now) (get place_cmp types place) ≡ type_noted place (notes_of self.now)) }
        ensures given { IfOk result (λ types. (place : PlaceOf)
            → IfSome (get place_cmp types place) (λ t. IsGiven t.now)) }
    {
        Ok(first_types(alloc, &self.entries)?)
    }

    /// Returns the flows noted with a code by place, each with the texts of the two types of the first such flow there:
    /// the type that flows, and the type that it flows into.
    pub fn texts(
        &self,
        alloc: Global,
        tree: &Module,
        code: Code,
    ) -> Result<Vec<(Place, RcStr, RcStr)>, OutOfMemory>
        ensures { IfOk result (λ v. AreFlowTexts (module_of tree.now) code (notes_of self.now) v.items) }
    {
        let flows = self.first_flows(alloc, code)?;
        let names = ClassNames::of(alloc, tree)?;
        Ok(texts_of(alloc, &names, &flows)?)
    }
}

/// Keeps the flow of an entry if it reports one with a code, unless one is kept at its place.
fn keep_first<'n>(
    flows: &mut BTreeMap<Place, &'n NotedFlow>,
    code: Code,
    entry: &'n NoteEntry,
) -> Result<(), OutOfMemory>
    requires { IsGivenEntry entry.now }
    ensures { OnOk result ((entries : List Kept) → HasFirstFlows code (notes_of entries) flows.old
        → HasFirstFlows code (notes_of entries ++ note_of entry.now ∷ []) flows.new) }
{
    let Some(flow) = entry.flow(code) else {
        return Ok(());
    };
    let place = entry.place();
    if flows.contains_key(&place) {
        return Ok(());
    }
    flows.insert(place, flow)?;
    Ok(())
}
