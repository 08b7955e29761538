//! The sinks of what one expression takes: of its arguments, items, keys, index, or of what `in` looks for.

ghost use Rattle.std.specs.Prelude.{◌≡◌, ◌∷◌, [], IfOk, OnOk, flat_map};
ghost use Rattle.pc_tree.specs.Depth.{place_of};
ghost use Rattle.pc_tree.specs.Lists.{entries_of_list, exprs_of_list};
ghost use Rattle.pc_tree.specs.Tree.{expr_of};
ghost use Rattle.pc_types.specs.Boxed.{tree_of, IsGiven};
ghost use Rattle.pc_types.specs.Shape.{members};
ghost use Rattle.pc_types.specs.Tree.{DictOf, Int, ListOf, NoneType, Str, Union};
ghost use Rattle.pc_detail_texts.specs.Details as detail;
ghost use Rattle.pc_detail_facts.specs.Held.{AreFacts, known_held, module_held};
ghost use Rattle.pc_flow_details.specs.Kept.{first_of_both, flows_to_sinks, flows_kept};
ghost use Rattle.pc_detail_rules.specs.Nodes.{owned};
ghost use Rattle.pc_detail_rules.specs.Sinks.{compared_sinks, entry_sinks, index_in, index_sinks, item_sinks, one_sink};
ghost use Rattle.pc_detail_rules.specs.Sinks.{sinks_in, sought_in};

use crate::argument_sinks::{add_named, add_positional};
use crate::sink::{SinkOf, Sinks, add_into};
use pc_detail_facts::{Facts, callees_of, members_of_type};
use pc_scope::Owner;
use pc_source::{OutOfMemory, Place};
use pc_tree::{ComparisonOperator, Entry, Expr};
use pc_types::BoxType;
use std::alloc::Global;

/// Adds the sinks of what an expression takes: its arguments, items, keys, index, or what it looks for.
pub(crate) fn add_taken<'c>(
    facts: &Facts<'c, '_>,
    sinks: &mut Sinks,
    owner: Owner,
    expr: &'c Expr,
) -> Result<(), OutOfMemory>
    requires { AreFacts facts.now }
    ensures { OnOk result (flows_kept sinks.new ≡ first_of_both (flows_kept sinks.old) (flows_to_sinks facts.now
        (sinks_in (module_held facts.now) (known_held facts.now) (owned owner (expr_of expr.now))))) }
{
    match expr {
        Expr::List(place, items) => add_listed(facts, sinks, facts.type_at(*place), items),
        Expr::Dict(place, entries) => add_entries(facts, sinks, facts.type_at(*place), entries),
        Expr::Compare {
            operator,
            left,
            right,
            ..
        } => {
            add_compared(
                facts,
                sinks,
                *operator,
                left.place(),
                facts.type_at(right.place()),
            )
        }
        Expr::Index {
            object,
            key: index,
            ..
        } => { add_index(facts, sinks, index, facts.type_at(object.place())) }
        Expr::Call {
            callee,
            arguments,
            keywords,
            ..
        } => {
            let called = callees_of(facts, owner, arguments.len(), callee)?;
            add_positional(facts, sinks, &called, arguments)?;
            add_named(facts, sinks, &called, keywords)
        }
        Expr::Name(_) | Expr::Int(_, _) | Expr::Str(_, _) | Expr::Tuple(_, _) => Ok(()),
        Expr::True(_) | Expr::False(_) | Expr::NoneValue(_) => Ok(()),
        Expr::Negative(_, _) | Expr::Not(_, _) | Expr::Attribute { .. } => Ok(()),
        Expr::IsNone(_, _) | Expr::IsNotNone(_, _) | Expr::Binary { .. } => Ok(()),
        Expr::And { .. } | Expr::Or { .. } => Ok(()),
    }
}

/// Adds the sinks of the items of a display of this type.
fn add_listed<'c>(
    facts: &Facts<'c, '_>,
    sinks: &mut Sinks,
    ty: &'c BoxType,
    items: &'c [Expr],
) -> Result<(), OutOfMemory>
    requires facts { AreFacts facts.now }
    requires ty { IsGiven ty.now }
    ensures { OnOk result (flows_kept sinks.new ≡ first_of_both (flows_kept sinks.old)
        (flows_to_sinks facts.now (item_sinks (tree_of ty.now) (exprs_of_list items.now)))) }
{
    match ty {
        BoxType::List(item) => add_each_item(facts, sinks, ty, item.as_ref(), items),
        _ => Ok(()),
    }
}

/// Adds the sinks of the items of a list of this type.
fn add_each_item<'c>(
    facts: &Facts<'c, '_>,
    sinks: &mut Sinks,
    list: &'c BoxType,
    item: &BoxType,
    items: &'c [Expr],
) -> Result<(), OutOfMemory>
    requires facts { AreFacts facts.now }
    requires given { IsGiven list.now }
    requires list { tree_of list.now ≡ ListOf (tree_of item.now) }
    ensures { OnOk result (flows_kept sinks.new ≡ first_of_both (flows_kept sinks.old)
        (flows_to_sinks facts.now (item_sinks (ListOf (tree_of item.now)) (exprs_of_list items.now)))) }
{
    for e in items {
        add_item(facts, sinks, list, item, e)?;
    }
    Ok(())
}

/// Adds the sink of an item of a list of this type.
fn add_item<'c>(
    facts: &Facts<'c, '_>,
    sinks: &mut Sinks,
    list: &'c BoxType,
    item: &BoxType,
    e: &'c Expr,
) -> Result<(), OutOfMemory>
    requires facts { AreFacts facts.now }
    requires given { IsGiven list.now }
    ensures { OnOk result (flows_kept sinks.new ≡ first_of_both (flows_kept sinks.old) (flows_to_sinks facts.now
        (one_sink (place_of (expr_of e.now)) (detail.an_item (tree_of list.now)) (tree_of item.now) ∷ []))) }
{
    add_into(facts, sinks, e.place(), item, SinkOf::Item(list))
}

/// Adds the sinks of the keys and values of a display of this type.
fn add_entries<'c>(
    facts: &Facts<'c, '_>,
    sinks: &mut Sinks,
    ty: &'c BoxType,
    entries: &'c [Entry],
) -> Result<(), OutOfMemory>
    requires facts { AreFacts facts.now }
    requires ty { IsGiven ty.now }
    ensures { OnOk result (flows_kept sinks.new ≡ first_of_both (flows_kept sinks.old)
        (flows_to_sinks facts.now (entry_sinks (tree_of ty.now) (entries_of_list entries.now)))) }
{
    match ty {
        BoxType::Dict(key, value) => {
            add_each_entry(facts, sinks, ty, key.as_ref(), value.as_ref(), entries)
        }
        _ => Ok(()),
    }
}

/// Adds the sinks of the keys and values of a dict of this type.
fn add_each_entry<'c>(
    facts: &Facts<'c, '_>,
    sinks: &mut Sinks,
    dict: &'c BoxType,
    key: &BoxType,
    value: &BoxType,
    entries: &'c [Entry],
) -> Result<(), OutOfMemory>
    requires facts { AreFacts facts.now }
    requires given { IsGiven dict.now }
    requires dict { tree_of dict.now ≡ DictOf (tree_of key.now) (tree_of value.now) }
    ensures { OnOk result (flows_kept sinks.new ≡ first_of_both (flows_kept sinks.old)
        (flows_to_sinks facts.now (entry_sinks (DictOf (tree_of key.now) (tree_of value.now)) (entries_of_list entries.now)))) }
{
    for entry in entries {
        add_key(facts, sinks, dict, key, &entry.key)?;
        add_value(facts, sinks, dict, value, &entry.value)?;
    }
    Ok(())
}

/// Adds the sink of a key of a dict of this type.
fn add_key<'c>(
    facts: &Facts<'c, '_>,
    sinks: &mut Sinks,
    dict: &'c BoxType,
    key: &BoxType,
    e: &'c Expr,
) -> Result<(), OutOfMemory>
    requires facts { AreFacts facts.now }
    requires given { IsGiven dict.now }
    ensures { OnOk result (flows_kept sinks.new ≡ first_of_both (flows_kept sinks.old) (flows_to_sinks facts.now
        (one_sink (place_of (expr_of e.now)) (detail.a_key (tree_of dict.now)) (tree_of key.now) ∷ []))) }
{
    add_into(facts, sinks, e.place(), key, SinkOf::Key(dict))
}

/// Adds the sink of a value of a dict of this type.
fn add_value<'c>(
    facts: &Facts<'c, '_>,
    sinks: &mut Sinks,
    dict: &'c BoxType,
    value: &BoxType,
    e: &'c Expr,
) -> Result<(), OutOfMemory>
    requires facts { AreFacts facts.now }
    requires given { IsGiven dict.now }
    ensures { OnOk result (flows_kept sinks.new ≡ first_of_both (flows_kept sinks.old) (flows_to_sinks facts.now
        (one_sink (place_of (expr_of e.now)) (detail.a_value (tree_of dict.now)) (tree_of value.now) ∷ []))) }
{
    add_into(facts, sinks, e.place(), value, SinkOf::Value(dict))
}

/// Adds the sinks of what an operator compares with an object of this type: only `in` and `not in` have one.
fn add_compared<'c>(
    facts: &Facts<'c, '_>,
    sinks: &mut Sinks,
    operator: ComparisonOperator,
    place: Place,
    ty: &'c BoxType,
) -> Result<(), OutOfMemory>
    requires facts { AreFacts facts.now }
    requires ty { IsGiven ty.now }
    ensures { OnOk result (flows_kept sinks.new ≡ first_of_both (flows_kept sinks.old)
        (flows_to_sinks facts.now (compared_sinks operator place (tree_of ty.now)))) }
{
    match operator {
        ComparisonOperator::In | ComparisonOperator::NotIn => add_sought(facts, sinks, place, ty),
        ComparisonOperator::Equal | ComparisonOperator::NotEqual => Ok(()),
        ComparisonOperator::Less | ComparisonOperator::LessEqual => Ok(()),
        ComparisonOperator::Greater | ComparisonOperator::GreaterEqual => Ok(()),
    }
}

/// Adds the sinks of what `in` looks for in an object of this type.
fn add_sought<'c>(
    facts: &Facts<'c, '_>,
    sinks: &mut Sinks,
    place: Place,
    ty: &'c BoxType,
) -> Result<(), OutOfMemory>
    requires facts { AreFacts facts.now }
    requires ty { IsGiven ty.now }
    ensures { OnOk result (flows_kept sinks.new ≡ first_of_both (flows_kept sinks.old)
        (flows_to_sinks facts.now (flat_map (sought_in place) (members (tree_of ty.now))))) }
{
    let members = members_of_type(facts.alloc, ty)?;
    for member in &members {
        add_sought_in(facts, sinks, place, *member)?;
    }
    Ok(())
}

/// Adds the sink of what `in` looks for in one member, if the member has it.
fn add_sought_in<'c>(
    facts: &Facts<'c, '_>,
    sinks: &mut Sinks,
    place: Place,
    member: &'c BoxType,
) -> Result<(), OutOfMemory>
    requires facts { AreFacts facts.now }
    requires member { IsGiven member.now }
    ensures { OnOk result (flows_kept sinks.new ≡ first_of_both (flows_kept sinks.old)
        (flows_to_sinks facts.now (sought_in place (tree_of member.now)))) }
{
    match member {
        BoxType::Str => add_into(facts, sinks, place, &BoxType::Str, SinkOf::Sought(member)),
        BoxType::Dict(_, _) => {
            let key = any_key(facts.alloc)?;
            add_into(facts, sinks, place, &key, SinkOf::Sought(member))
        }
        _ => Ok(()),
    }
}

/// Adds the sinks of an index of an object of this type.
fn add_index<'c>(
    facts: &Facts<'c, '_>,
    sinks: &mut Sinks,
    index: &'c Expr,
    ty: &'c BoxType,
) -> Result<(), OutOfMemory>
    requires facts { AreFacts facts.now }
    requires ty { IsGiven ty.now }
    ensures { OnOk result (flows_kept sinks.new ≡ first_of_both (flows_kept sinks.old)
        (flows_to_sinks facts.now (index_sinks (module_held facts.now) (expr_of index.now) (tree_of ty.now)))) }
{
    let members = members_of_type(facts.alloc, ty)?;
    for member in &members {
        add_index_in(facts, sinks, index, *member)?;
    }
    Ok(())
}

/// Adds the sink of an index of one member, if the member takes one.
fn add_index_in<'c>(
    facts: &Facts<'c, '_>,
    sinks: &mut Sinks,
    index: &'c Expr,
    member: &'c BoxType,
) -> Result<(), OutOfMemory>
    requires facts { AreFacts facts.now }
    requires member { IsGiven member.now }
    ensures { OnOk result (flows_kept sinks.new ≡ first_of_both (flows_kept sinks.old)
        (flows_to_sinks facts.now (index_in (module_held facts.now) (expr_of index.now) (tree_of member.now)))) }
{
    let place = index.place();
    match member {
        BoxType::List(_) => add_into(facts, sinks, place, &BoxType::Int, SinkOf::Index(member)),
        BoxType::Str => add_into(facts, sinks, place, &BoxType::Int, SinkOf::Index(member)),
        BoxType::Tuple(_) => add_into(facts, sinks, place, &BoxType::Int, SinkOf::Index(member)),
        BoxType::Dict(key, _) => {
            add_into(facts, sinks, place, key.as_ref(), SinkOf::Key(member))
        }
        _ => Ok(()),
    }
}

/// Returns the union of the types that `in` takes for a dict: `int`, `str` or `None`.
fn any_key(alloc: Global) -> Result<BoxType, OutOfMemory>
    ensures { IfOk result (λ t. tree_of t ≡ Union Int (Union Str NoneType)) }
{
    let none = Box::new(alloc, BoxType::NoneType)?;
    let others = BoxType::Union(Box::new(alloc, BoxType::Str)?, none);
    let int = Box::new(alloc, BoxType::Int)?;
    Ok(BoxType::Union(int, Box::new(alloc, others)?))
}
