//! Whole annotations.

ghost use Rattle.std.specs.Prelude.{◌≡◌, ◌↔◌, ◌⊎◌, ◌++◌, Contains, IfOk, OnOk};
ghost use Rattle.pc_tree.specs.declared.code.Finding.{Finding as FindingOf};
ghost use Rattle.pc_tree.specs.Tree.{ann_of, option_ann_of};
ghost use Rattle.pc_scope.specs.ModuleScopes.{AreScopes};
ghost use Rattle.pc_types.specs.Store.{Means, KeepsTypes};
ghost use Rattle.pc_annotations.specs.Annotations.{read_ann, read_option, AnnFinds, OptionAnnFinds};
ghost use Rattle.pc_annotations.specs.ModuleOutlines.{module_in};
ghost use Rattle.pc_annotations.specs.Listed.{ann_findings, option_findings};

use crate::outline::ModuleOutline;
use crate::reading::read;
use pc_source::OutOfMemory;
use pc_tree::{Ann, Code, Finding, Findings};
use pc_types::TypeStore;
use std::alloc::Global;

/// Returns the type of an annotation. Appends its findings to `found`. If its type has over 256 nodes, the last of them
/// is E26, and the type is `Any`.
fn read_whole<S: TypeStore>(
    outline: &ModuleOutline,
    store: &mut S,
    alloc: Global,
    found: &mut Findings,
    ann: &Ann,
) -> Result<S::Ty, OutOfMemory>
    requires { AreScopes (module_in outline.now) outline.now.scopes.now }
    ensures typed { IfOk result
        (λ t. Means S.has S.tree store.new t
        (read_ann (module_in outline.now) outline.now.parents.now (ann_of ann.now))) }
    ensures pushed { OnOk result
        (found.new.items ≡ found.old.items
        ++ ann_findings (module_in outline.now) outline.now.parents.now (ann_of ann.now)) }
    ensures kept { KeepsTypes S.has store.old store.new }
{
    let reading = read(outline, store, alloc, found, ann)?;
    match reading.ty {
        Some(ty) => Ok(ty),
        None => {
            found.push(Finding {
                place: ann.place(),
                code: Code::E26,
            })?;
            store.any(alloc)
        }
    }
}

/// Returns the type of an annotation of a module, `Any` if it is too large. Appends its findings to `found` in the
/// order of reading: E09, E10 and E26.
///
/// Typing specification, "Type annotations"; PEP 604; the codes are own rules of the profile.
pub fn read_ann<S: TypeStore>(
    store: &mut S,
    alloc: Global,
    outline: &ModuleOutline,
    found: &mut Findings,
    ann: &Ann,
) -> Result<S::Ty, OutOfMemory>
    requires { AreScopes (module_in outline.now) outline.now.scopes.now }
    ensures typed { IfOk result
        (λ t. Means S.has S.tree store.new t (read_ann (module_in outline.now) outline.now.parents.now
        (ann_of ann.now))) }
    ensures pushed { OnOk result
        (found.new.items ≡ found.old.items ++ ann_findings (module_in outline.now) outline.now.parents.now
        (ann_of ann.now)) }
    ensures found { OnOk result
        ((f : FindingOf) → Contains found.new.items f
        ↔ (Contains found.old.items f ⊎ AnnFinds (module_in outline.now) outline.now.parents.now (ann_of ann.now) f)) }
    ensures kept { KeepsTypes S.has store.old store.new }
{
    read_whole(outline, store, alloc, found, ann)
}

/// Returns the type of an annotation, or `Any` if there is none. Appends its findings to `found`. Typing specification,
/// "Type annotations".
pub fn read_option<S: TypeStore>(
    store: &mut S,
    alloc: Global,
    outline: &ModuleOutline,
    found: &mut Findings,
    ann: &Option<Ann>,
) -> Result<S::Ty, OutOfMemory>
    requires { AreScopes (module_in outline.now) outline.now.scopes.now }
    ensures typed { IfOk result
        (λ t. Means S.has S.tree store.new t (read_option (module_in outline.now) outline.now.parents.now
        (option_ann_of ann.now))) }
    ensures pushed { OnOk result
        (found.new.items ≡ found.old.items
        ++ option_findings (module_in outline.now) outline.now.parents.now (option_ann_of ann.now)) }
    ensures found { OnOk result
        ((f : FindingOf) → Contains found.new.items f
        ↔ (Contains found.old.items f ⊎ OptionAnnFinds (module_in outline.now) outline.now.parents.now
        (option_ann_of ann.now) f)) }
    ensures kept { KeepsTypes S.has store.old store.new }
{
    match ann {
        Some(ann) => read_ann(store, alloc, outline, found, ann),
        None => store.any(alloc),
    }
}
