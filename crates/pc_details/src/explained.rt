//! The details of the findings of a module.

ghost use Rattle.std.specs.Prelude.{◌≡◌, All, IfOk, List, filter_map, map};
ghost use Rattle.std.specs.List.{AllByRecursion};
ghost use Rattle.pc_tree.specs.Tree.{module_of};
ghost use Rattle.pc_scope.specs.Bindings.{bodies as bodies_in};
ghost use Rattle.pc_scope.specs.ModuleScopes.{AreScopes};
ghost use Rattle.pc_types.specs.Boxed.{tree_of, IsGiven};
ghost use Rattle.pc_annotations.specs.ModuleOutlines.{IsModuleOutline, module_in};
ghost use Rattle.pc_class.specs.Facts.{classes_of};
ghost use Rattle.pc_class.specs.Tables.{HasEntries, classes_with};
ghost use Rattle.pc_notes.specs.Notes.{Note, notes_of};
ghost use Rattle.pc_detail_facts.specs.Held.{AreFacts, AreListedGiven, HoldsDefinitions, HoldsNotes, IsKnownHeld, body_of};
ghost use Rattle.pc_detail_facts.specs.Held.{listing_held, module_held};
ghost use Rattle.pc_details.specs.Made.{IsDetailOf, detail_by};
ghost use Rattle.pc_details.specs.Listed.{FindingsDiffer, IsMade, details_told, listed_of};

use crate::walked::WalkedModule;
use pc_annotations::ModuleOutline;
use pc_class::{ClassTable, Listing};
use pc_detail_facts::{Annotations, Body, Definitions, Facts, Known, fields_of_classes};
use pc_detail_texts::Detail;
use pc_notes::Notes;
use pc_scope::Scopes;
use pc_source::OutOfMemory;
use pc_tree::{Finding, Module};
use pc_types::BoxType;
use std::alloc::Global;

/// A finding with its detail.
#[derive(Drop)]
pub struct DetailedFinding {
    pub finding: Finding,
    pub detail: Detail,
}

/// Returns the details of findings, given what they are made from, with the functions of the module.
fn details_with<'m>(
    facts: &'m Facts<'m, '_>,
    bodies: &[Body<'m>],
    findings: &[Finding],
) -> Result<Vec<DetailedFinding>, OutOfMemory>
    requires facts { AreFacts facts.now }
    requires bodies { map body_of bodies.now ≡ bodies_in (module_held facts.now) }
    ensures right { IfOk result (λ v. AllByRecursion (IsDetailOf facts.now findings.now) v.items) }
    ensures whole { FindingsDiffer findings.now
        → IfOk result (λ v. map listed_of v.items ≡ filter_map (detail_by facts.now) findings.now) }
{
    let mut walked = WalkedModule::of(facts, bodies, findings)?;
    let mut details = Vec::new(facts.alloc);
    for finding in findings {
        if let Some(detail) = walked.detail_of(*finding)? {
            details.push(DetailedFinding {
                finding: *finding,
                detail,
            })?;
        }
    }
    Ok(details)
}

/// Returns the details of findings, given the outline of the module, its fields and definitions, and what the notes of
/// its check tell.
fn details_by<'m>(
    alloc: Global,
    outline: &ModuleOutline<'m>,
    classes: &'m ClassTable<BoxType>,
    fields: &[Listing<'m, BoxType>],
    definitions: &Definitions<'m>,
    known: &Known<'_>,
    findings: &[Finding],
) -> Result<Vec<DetailedFinding>, OutOfMemory>
    requires outline { IsModuleOutline outline.now }
    requires classes { classes_with tree_of classes.now ≡ classes_of (module_in outline.now) }
    requires given { HasEntries IsGiven classes.now }
    requires fields { map listing_held fields.now ≡ map (λ c. c.fields) (classes_of (module_in outline.now)) }
    requires listed { All AreListedGiven fields.now }
    requires definitions { HoldsDefinitions (module_in outline.now) definitions.now }
    requires known { IsKnownHeld known.now }
    ensures right { (told : List Note) → HoldsNotes told known.now → IfOk result (λ v. AllByRecursion
        (IsMade (module_in outline.now) told findings.now) v.items) }
    ensures whole { (told : List Note) → HoldsNotes told known.now → FindingsDiffer findings.now → IfOk result
        (λ v. map listed_of v.items ≡ details_told (module_in outline.now) told findings.now) }
{
    let bodies = definitions.bodies(alloc)?;
    let annotations = Annotations::of(alloc, outline, &definitions.classes)?;
    let facts = Facts {
        alloc,
        outline,
        classes,
        fields,
        annotations: &annotations,
        definitions,
        known,
    };
    details_with(&facts, &bodies, findings)
}

/// Returns the details of findings of a module in their order, of each that has one; of findings that differ, exactly
/// these. The notes are those of a check that keeps types.
///
/// # Errors
///
/// `OutOfMemory` only if an allocation failed.
pub fn details_of<'m>(
    alloc: Global,
    module: &'m Module,
    scopes: &'m Scopes,
    classes: &'m ClassTable<BoxType>,
    notes: &'m Notes,
    findings: &[Finding],
) -> Result<Vec<DetailedFinding>, OutOfMemory>
    requires scopes { AreScopes (module_of «module».now) scopes.now }
    requires classes { classes_with tree_of classes.now ≡ classes_of (module_of «module».now) }
    requires given { HasEntries IsGiven classes.now }
    ensures right { IfOk result (λ v. AllByRecursion
        (IsMade (module_of «module».now) (notes_of notes.now) findings.now) v.items) }
    ensures whole { FindingsDiffer findings.now → IfOk result (λ v. map listed_of v.items
        ≡ details_told (module_of «module».now) (notes_of notes.now) findings.now) }
{
    let known = Known::of(alloc, notes)?;
    let definitions = Definitions::of(alloc, module)?;
    let fields = fields_of_classes(alloc, classes)?;
    let outline = ModuleOutline {
        tree: module,
        scopes,
        parents: classes.parents(),
    };
    details_by(
        alloc,
        &outline,
        classes,
        &fields,
        &definitions,
        &known,
        findings,
    )
}
