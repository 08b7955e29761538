//! The label of a comparison, given the labels of its operands.
#![tactic(auto, using(pc_rules::proofs::TypingStates::goes_further))]

ghost use Rattle.std.specs.Prelude.{◌≡◌, IfOk, OnOk};
ghost use Rattle.pc_tree.specs.Tree.{expr_of};
ghost use Rattle.pc_tree.specs.Depth.{place_of};
ghost use Rattle.pc_rules.specs.Computed.TypingStates.{AddsNotes, StateKept, IsLabel};
ghost use Rattle.pc_rules.specs.Operations.{Label as LabelOf};
ghost use Rattle.pc_rules.specs.Lawful.{compare_label, compare_types};
ghost use Rattle.pc_rules.specs.Computed.Expressions.{flows_of};
ghost use Rattle.pc_rules.specs.Computed.Findings.{brief, flows_at};
ghost use Rattle.pc_rules.specs.Computed.Standing.{label_with};

use crate::pairs::{compare_label, compare_types};
use pc_rules::{Label, TypingState, find_flows};
use pc_source::OutOfMemory;
use pc_tree::{ComparisonOperator, Expr};
use pc_types::{Parents, TypeStore};

/// Returns the label of a comparison, given the label of its left operand and the type of its right one. With `in` and
/// `not in`, appends the findings of the flow of the left operand. Language Reference 6.10 "Comparisons".
pub fn type_comparison<S: TypeStore>(
    state: &mut TypingState<'_, S>,
    parents: &Parents,
    operator: ComparisonOperator,
    left: &Expr,
    label: &Label<S::Ty>,
    right: &S::Ty,
) -> Result<Label<S::Ty>, OutOfMemory>
    requires left { S.has state.old.store.now label.now.ty }
    requires right { S.has state.old.store.now right.now }
    ensures value { IfOk result
        (λ l. IsLabel S.TypeStore state.new l
        (compare_label parents.now operator (S.tree label.now.ty) (S.tree right.now))) }
    ensures found { (m : LabelOf) → label_with S.tree label.now ≡ brief m
        → OnOk result (AddsNotes state.old state.new (flows_at (place_of (expr_of left.now))
        (flows_of parents.now m (compare_types operator (S.tree right.now))))) }
    ensures goes_on { StateKept S.TypeStore state.old state.new }
{
    let types = compare_types(state.store, state.alloc, operator, right)?;
    find_flows(state, parents, left.place(), label, &types)?;
    compare_label(
        state.store,
        state.alloc,
        parents,
        operator,
        &label.ty,
        right,
    )
}
