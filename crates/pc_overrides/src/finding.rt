//! Findings about overriding: at each method that a class binds, class by class.

ghost use Rattle.std.specs.Prelude.{◌≡◌, ◌∷◌, ◌++◌, ◌<◌, length, slice_get, All, Some, OnOk, IfOk};
ghost use Rattle.pc_tree.specs.Tree.{ClassDef as ClassTree, module_of};
ghost use Rattle.pc_scope.specs.Bindings.{classes_in};
ghost use Rattle.pc_types.specs.Store.{KeepsTypes};
ghost use Rattle.pc_annotations.specs.Bases.{bases_of};
ghost use Rattle.pc_class.specs.Facts.{classes_of};
ghost use Rattle.pc_class.specs.Overrides.{overridden};
ghost use Rattle.pc_class.specs.OverrideFindings.{override_code, override_finding, found_at_method, class_overrides};
ghost use Rattle.pc_class.specs.OverrideFindings.{override_findings};
ghost use Rattle.pc_class.specs.Parts.{bases_in};
ghost use Rattle.pc_class.specs.Tables.{HasEntries, IsMethod, method_with, classes_with};
ghost use Rattle.pc_overrides.specs.Internal.OverrideTests.{IsJudging, module_judged, methods_above};
ghost use Rattle.pc_overrides.specs.Internal.Representing.{Represent, IsKnown, AreKnown};

use crate::judging::code_among;
use crate::known::{Judged, Judging, all_above};
use crate::representing::judged_with;
use pc_class::{ClassTable, Method};
use pc_source::{OutOfMemory, Place};
use pc_tree::{Code, Finding, Findings, Module};
use pc_types::TypeStore;

/// Adds a code at a place, if there is a code.
fn add_finding(found: &mut Findings, place: Place, code: Option<Code>) -> Result<(), OutOfMemory>
    ensures { OnOk result (found.new.items ≡ found.old.items ++ override_finding code place) }
{
    match code {
        None => Ok(()),
        Some(code) => {
            found.push(Finding { place, code })?;
            Ok(())
        }
    }
}

/// Adds E11 or A8 for a method of a class with this base if it has one of these codes. Returns the facts kept of it, by
/// which methods that override it are judged.
fn find_override<'t, S: TypeStore>(
    judging: &Judging<'t, S::Ty>,
    store: &mut S,
    found: &mut Findings,
    judged: &[Vec<Judged<'t, S::Ty>>],
    base: Option<usize>,
    method: &'t Method<S::Ty>,
) -> Result<Judged<'t, S::Ty>, OutOfMemory>
    requires judging { IsJudging S.tree judging.now }
    requires table { HasEntries (S.has store.old) judging.now.classes.now }
    requires judged { AreKnown S.tree judging.now judged.now }
    requires method { IsMethod judging.now.classes.now method.now }
    ensures found { OnOk result
        (found.new.items ≡ found.old.items
        ++ found_at_method (bases_in judging.now.classes.now) (methods_above judging.now base) (method_with S.tree method.now)) }
    ensures method { IfOk result (λ k. k.method.now ≡ method.now) }
    ensures code { IfOk result (λ k. k.code ≡ override_code (bases_of (module_judged judging.now))
        (overridden (methods_above judging.now base) (method_with S.tree method.now).name)
        (method_with S.tree method.now)) }
    ensures known { IfOk result (λ k. Represent S.tree judging.now (method_with S.tree method.now).name
        (method_with S.tree method.now
        ∷ overridden (methods_above judging.now base) (method_with S.tree method.now).name) k.demands.items k.rest) }
    ensures kept { KeepsTypes S.has store.old store.new }
{
    let above = all_above(judging, judged, base, method.name.as_str());
    let code = code_among(judging, store, judged, &above, method)?;
    add_finding(found, method.place, code)?;
    let known = judged_with(judging, store, &above, method, code)?;
    Ok(known)
}

/// Adds E11 or A8 for each method that a class binds and that has one of these codes. Returns the facts kept of each.
fn find_class_overrides<'t, S: TypeStore>(
    judging: &Judging<'t, S::Ty>,
    store: &mut S,
    found: &mut Findings,
    judged: &[Vec<Judged<'t, S::Ty>>],
    class: usize,
) -> Result<Vec<Judged<'t, S::Ty>>, OutOfMemory>
    requires judging { IsJudging S.tree judging.now }
    requires table { HasEntries (S.has store.old) judging.now.classes.now }
    requires judged { AreKnown S.tree judging.now judged.now }
    requires class { class < length judging.now.classes.now }
    ensures found { (definition : ClassTree)
        → slice_get (classes_in (module_judged judging.now).items) class ≡ Some definition
        → OnOk result (found.new.items
        ≡ found.old.items ++ class_overrides (module_judged judging.now) class definition) }
    ensures known { IfOk result (λ own. All (IsKnown S.tree judging.now class) own.items) }
    ensures kept { KeepsTypes S.has store.old store.new }
{
    let base = judging.classes.parents().base(class);
    let methods = judging.classes.own_methods(class);
    let mut own = Vec::new(judging.alloc);
    for method in methods {
        let known = find_override(judging, store, found, judged, base, method)?;
        own.push(known)?;
    }
    Ok(own)
}

/// Appends the findings about overriding in a module to `found`: `E11` at a method that is not good against each method
/// of its name that its class inherits, `A8` at one that is good against each but not static to each.
///
/// Typing specification, "Type system concepts", assignability of callables; the codes are own rules of the profile.
pub fn override_findings<S: TypeStore>(
    store: &mut S,
    tree: &Module,
    classes: &ClassTable<S::Ty>,
    found: &mut Findings,
) -> Result<(), OutOfMemory>
    requires classes { classes_with S.tree classes.now ≡ classes_of (module_of tree.now) }
    requires given { HasEntries (S.has store.old) classes.now }
    ensures found { OnOk result (found.new.items ≡ found.old.items ++ override_findings (module_of tree.now)) }
    ensures kept { KeepsTypes S.has store.old store.new }
{
    let alloc = *found.allocator();
    let judging = Judging {
        tree,
        classes,
        alloc,
    };
    let mut judged = Vec::new(alloc);
    for class in 0..classes.count() {
        let own = find_class_overrides(&judging, store, found, &judged, class)?;
        judged.push(own)?;
    }
    Ok(())
}
