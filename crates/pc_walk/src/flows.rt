//! Flows in a walk over statements.

#![tactic(auto, using(crate::proofs::Walks::goes_further))]

ghost use Rattle.std.specs.Prelude.{◌≡◌, ◌++◌, All, IfOk, OnOk, map};
ghost use Rattle.pc_types.specs.Computed.{static_test, assignable_test};
ghost use Rattle.pc_notes.specs.Notes.{notes_of};
ghost use Rattle.pc_rules.specs.Operations.{Label as LabelOf};
ghost use Rattle.pc_rules.specs.Context.{is_early};
ghost use Rattle.pc_rules.specs.Computed.Expressions.{code_unless, flows_of};
ghost use Rattle.pc_rules.specs.Computed.Findings.{flow_at, flows_at, brief};
ghost use Rattle.pc_rules.specs.Computed.Standing.{label_with};
ghost use Rattle.pc_rules.specs.Computed.ModuleParents.{class_parents};
ghost use Rattle.pc_walk.specs.Walks.{WalkKept};

use crate::walk::Walk;
use pc_rules::{Label, TypingState, find_flow, find_flows};
use pc_source::{OutOfMemory, Place};
use pc_tree::Code;
use pc_types::TypeStore;

/// Checks the flow of a labelled expression at `place` into the type `into`. If the flow is not static, appends its
/// code and returns it: A1 with both types if the expression's type is assignable, else E12. Returns `None` if the flow
/// is static, or if the expression is E03. Typing specification, "Type system concepts", assignability; own rule of the
/// profile.
pub fn find_flow_in<S: TypeStore>(
    walk: &mut Walk<'_, S>,
    place: Place,
    label: &Label<S::Ty>,
    into: &S::Ty,
) -> Result<Option<Code>, OutOfMemory>
    requires label { S.has walk.old.store.now label.now.ty }
    requires into { S.has walk.old.store.now into.now }
    ensures value { IfOk result
        (λ c. c ≡ code_unless (static_test (class_parents walk.old.context.globals.now))
        (assignable_test (class_parents walk.old.context.globals.now))
        (is_early label.now.codes.items) (S.tree label.now.ty) (S.tree into.now)) }
    ensures found { IfOk result
        (λ c. notes_of walk.new.found.now
        ≡ notes_of walk.old.found.now ++ flow_at place (S.tree label.now.ty) (S.tree into.now) c) }
    ensures declared { walk.new.declared.now ≡ walk.old.declared.now }
    ensures goes_on { WalkKept S.TypeStore walk.old walk.new }
{
    let parents = walk.context.globals.outline.parents;
    let mut state = TypingState {
        store: walk.store,
        alloc: walk.alloc,
        found: walk.found,
    };
    let code = find_flow(&mut state, parents, place, label, into)?;
    Ok(code)
}

/// Checks the flows of a labelled expression at this place into several types. Appends each code once, for the first
/// flow that has it.
pub fn find_flows_in<S: TypeStore>(
    walk: &mut Walk<'_, S>,
    place: Place,
    label: &Label<S::Ty>,
    into: &[S::Ty],
) -> Result<(), OutOfMemory>
    requires label { S.has walk.old.store.now label.now.ty }
    requires into { All (S.has walk.old.store.now) into.now }
    ensures found { (m : LabelOf) → label_with S.tree label.now ≡ brief m
        → OnOk result (notes_of walk.new.found.now ≡ notes_of walk.old.found.now
        ++ flows_at place (flows_of (class_parents walk.old.context.globals.now) m (map S.tree into.now))) }
    ensures declared { walk.new.declared.now ≡ walk.old.declared.now }
    ensures goes_on { WalkKept S.TypeStore walk.old walk.new }
{
    let parents = walk.context.globals.outline.parents;
    let mut state = TypingState {
        store: walk.store,
        alloc: walk.alloc,
        found: walk.found,
    };
    find_flows(&mut state, parents, place, label, into)?;
    Ok(())
}
