//! The labels of the forms of expressions, given the types of their operands.
#![tactic(auto, using(pc_rules::proofs::TypingStates::goes_further))]

ghost use Rattle.std.specs.Prelude.{◌≡◌, map, IfOk, OnOk};
ghost use Rattle.pc_tree.specs.Tree.{name_of, expr_of};
ghost use Rattle.pc_tree.specs.Depth.{place_of};
ghost use Rattle.pc_types.specs.Tree.{Int, Bool, Str, NoneType};
ghost use Rattle.pc_types.specs.Shape.{members};
ghost use Rattle.pc_types.specs.Store.{KeepsTypes};
ghost use Rattle.pc_class.specs.Tables.{classes_with, HasEntries};
ghost use Rattle.pc_flow.specs.Environment.{join_or_object};
ghost use Rattle.pc_rules.specs.Computed.TypingStates.{AddsNotes, StateKept, IsLabel};
ghost use Rattle.pc_rules.specs.Operations.{Label as LabelOf, clean, offers_label, operand_types, negative_member};
ghost use Rattle.pc_rules.specs.Operations.{attribute_member};
ghost use Rattle.pc_rules.specs.Operations.{index_member};
ghost use Rattle.pc_rules.specs.Lawful.{int_literal};
ghost use Rattle.pc_rules.specs.Computed.Expressions.{flows_of};
ghost use Rattle.pc_rules.specs.Computed.Findings.{brief, flows_at};
ghost use Rattle.pc_rules.specs.Computed.Standing.{label_with, MeansLabel};
ghost use Rattle.pc_rules.specs.Computed.ModuleParents.{class_parents};

use crate::fields::{field_types, fields_label};
use crate::offers::{Operation, literal_index, member_offers, offers_label, operand_types};
use pc_flow::join_or_object;
use pc_rules::{ExprContext, Label, TypingState, find_flows};
use pc_source::OutOfMemory;
use pc_tree::{Expr, Name};
use pc_types::{Parents, TypeStore};
use std::alloc::Global;

/// Returns the label `int`, without codes.
pub fn int_label<S: TypeStore>(store: &mut S, alloc: Global) -> Result<Label<S::Ty>, OutOfMemory>
    ensures value { IfOk result (λ l. MeansLabel S.has S.tree store.new l (clean Int)) }
    ensures kept { KeepsTypes S.has store.old store.new }
{
    let ty = store.int(alloc)?;
    let codes = Vec::new(alloc);
    Ok(Label { ty, codes })
}

/// Returns the label `str`, without codes.
pub fn str_label<S: TypeStore>(store: &mut S, alloc: Global) -> Result<Label<S::Ty>, OutOfMemory>
    ensures value { IfOk result (λ l. MeansLabel S.has S.tree store.new l (clean Str)) }
    ensures kept { KeepsTypes S.has store.old store.new }
{
    let ty = store.str(alloc)?;
    let codes = Vec::new(alloc);
    Ok(Label { ty, codes })
}

/// Returns the label `bool`, without codes.
pub fn bool_label<S: TypeStore>(store: &mut S, alloc: Global) -> Result<Label<S::Ty>, OutOfMemory>
    ensures value { IfOk result (λ l. MeansLabel S.has S.tree store.new l (clean Bool)) }
    ensures kept { KeepsTypes S.has store.old store.new }
{
    let ty = store.bool(alloc)?;
    let codes = Vec::new(alloc);
    Ok(Label { ty, codes })
}

/// Returns the label `None`, without codes.
pub fn none_label<S: TypeStore>(store: &mut S, alloc: Global) -> Result<Label<S::Ty>, OutOfMemory>
    ensures value { IfOk result (λ l. MeansLabel S.has S.tree store.new l (clean NoneType)) }
    ensures kept { KeepsTypes S.has store.old store.new }
{
    let ty = store.none(alloc)?;
    let codes = Vec::new(alloc);
    Ok(Label { ty, codes })
}

/// Returns the label of unary `-` on an operand of this type. Language Reference 6.6 "Unary arithmetic and bitwise
/// operations".
pub fn negative_label<S: TypeStore>(
    store: &mut S,
    alloc: Global,
    context: &ExprContext<'_, S::Ty>,
    operand: &S::Ty,
) -> Result<Label<S::Ty>, OutOfMemory>
    requires operand { S.has store.old operand.now }
    requires classes { HasEntries (S.has store.old) context.now.globals.now.classes.now }
    ensures value { IfOk result
        (λ l. MeansLabel S.has S.tree store.new l
        (offers_label (class_parents context.now.globals.now)
        (map negative_member (members (S.tree operand.now))))) }
    ensures kept { KeepsTypes S.has store.old store.new }
{
    let parents = context.globals.outline.parents;
    let offers = member_offers(
        store,
        alloc,
        parents,
        context.globals.classes,
        Operation::Negative,
        operand,
    )?;
    offers_label(store, alloc, parents, &offers)
}

/// Returns the label of an attribute of an object of this type. Language Reference 6.3.1 "Attribute references".
pub fn attribute_label<S: TypeStore>(
    store: &mut S,
    alloc: Global,
    context: &ExprContext<'_, S::Ty>,
    field: &Name,
    object: &S::Ty,
) -> Result<Label<S::Ty>, OutOfMemory>
    requires object { S.has store.old object.now }
    requires classes { HasEntries (S.has store.old) context.now.globals.now.classes.now }
    ensures value { IfOk result
        (λ l. MeansLabel S.has S.tree store.new l
        (offers_label (class_parents context.now.globals.now)
        (map (attribute_member (classes_with S.tree context.now.globals.now.classes.now) (name_of field.now).text)
        (members (S.tree object.now))))) }
    ensures kept { KeepsTypes S.has store.old store.new }
{
    let parents = context.globals.outline.parents;
    let classes = context.globals.classes;
    let name = field.text.as_str();
    if let Some(types) = field_types(store, alloc, classes, name, object)? {
        return fields_label(store, alloc, parents, &types);
    }
    let attribute = Operation::Attribute(name);
    let offers = member_offers(store, alloc, parents, classes, attribute, object)?;
    offers_label(store, alloc, parents, &offers)
}

/// Returns the label of an object of this type at an index. Appends the findings of the index's flow. Language
/// Reference 6.3.2 "Subscriptions".
pub fn type_index<S: TypeStore>(
    state: &mut TypingState<'_, S>,
    context: &ExprContext<'_, S::Ty>,
    object: &S::Ty,
    key: &Expr,
    label: &Label<S::Ty>,
) -> Result<Label<S::Ty>, OutOfMemory>
    requires object { S.has state.old.store.now object.now }
    requires key { S.has state.old.store.now label.now.ty }
    requires classes { HasEntries (S.has state.old.store.now) context.now.globals.now.classes.now }
    ensures value { IfOk result
        (λ l. IsLabel S.TypeStore state.new l
        (offers_label (class_parents context.now.globals.now)
        (map (index_member (class_parents context.now.globals.now) (int_literal (expr_of key.now)))
        (members (S.tree object.now))))) }
    ensures found { (m : LabelOf) → label_with S.tree label.now ≡ brief m
        → OnOk result (AddsNotes state.old state.new (flows_at (place_of (expr_of key.now))
        (flows_of (class_parents context.now.globals.now) m
        (operand_types (map (index_member (class_parents context.now.globals.now)
        (int_literal (expr_of key.now)))
        (members (S.tree object.now))))))) }
    ensures goes_on { StateKept S.TypeStore state.old state.new }
{
    let parents = context.globals.outline.parents;
    let index = Operation::Index(literal_index(key));
    let offers = member_offers(
        state.store,
        state.alloc,
        parents,
        context.globals.classes,
        index,
        object,
    )?;
    let types = operand_types(state.store, state.alloc, &offers)?;
    find_flows(state, parents, key.place(), label, &types)?;
    offers_label(state.store, state.alloc, parents, &offers)
}

/// Returns the label of `and` or `or` on operands of two types: their join. Language Reference 6.11 "Boolean
/// operations".
pub fn junction_label<S: TypeStore>(
    store: &mut S,
    alloc: Global,
    parents: &Parents,
    left: &S::Ty,
    right: &S::Ty,
) -> Result<Label<S::Ty>, OutOfMemory>
    requires left { S.has store.old left.now }
    requires right { S.has store.old right.now }
    ensures value { IfOk result
        (λ l. MeansLabel S.has S.tree store.new l
        (clean (join_or_object parents.now (S.tree left.now) (S.tree right.now)))) }
    ensures kept { KeepsTypes S.has store.old store.new }
{
    let ty = join_or_object(store, alloc, parents, left, right)?;
    let codes = Vec::new(alloc);
    Ok(Label { ty, codes })
}
