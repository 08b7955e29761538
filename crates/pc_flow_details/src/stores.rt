//! The sinks of assigned values: of locals, fields, items, keys and values.

ghost use Rattle.std.specs.Prelude.{◌≡◌, OnOk, flat_map};
ghost use Rattle.pc_tree.specs.Tree.{FuncDef as FuncOf, expr_of, target_of};
ghost use Rattle.pc_types.specs.Boxed.{tree_of, IsGiven};
ghost use Rattle.pc_types.specs.Shape.{members};
ghost use Rattle.pc_detail_facts.specs.Held.{AreFacts, known_held, module_held};
ghost use Rattle.pc_flow_details.specs.Kept.{first_of_both, flows_to_sinks, flows_kept};
ghost use Rattle.pc_flow_details.specs.Locals.{AreLocals};
ghost use Rattle.pc_detail_rules.specs.Sinks.{assigned_sinks, field_store, item_store};
ghost use Rattle.pc_detail_rules.specs.Written.{annotated_locals};

use crate::locals::LocalAnnotations;
use crate::sink::{SinkAt, SinkOf, Sinks, add_into, add_only, add_sink};
use pc_detail_facts::{Facts, members_of_type};
use pc_source::{OutOfMemory, Place};
use pc_tree::{Expr, Target};
use pc_types::BoxType;

/// Adds the sinks of a value that a function with these locals assigns, and of the index of its target.
pub(crate) fn add_assigned<'c>(
    facts: &Facts<'c, '_>,
    sinks: &mut Sinks,
    locals: &LocalAnnotations<'c>,
    target: &'c Target,
    value: &'c Expr,
) -> Result<(), OutOfMemory>
    requires { AreFacts facts.now }
    ensures { (f : FuncOf) → AreLocals locals.now (annotated_locals f)
        → OnOk result (flows_kept sinks.new ≡ first_of_both (flows_kept sinks.old) (flows_to_sinks facts.now
        (assigned_sinks (module_held facts.now) (known_held facts.now) f (target_of target.now) (expr_of value.now)))) }
{
    match target {
        Target::Name(name) => {
            let name = name.text.as_str();
            add_only(
                facts,
                sinks,
                value.place(),
                SinkOf::Local(name),
                locals.get(name),
            )
        }
        Target::Attribute { object, name, .. } => {
            let ty = facts.type_at(object.place());
            add_field_stores(facts, sinks, value.place(), ty, name.text.as_str())
        }
        Target::Index {
            object,
            key: index,
            ..
        } => {
            let ty = facts.type_at(object.place());
            add_item_stores(facts, sinks, index.place(), value.place(), ty)
        }
    }
}

/// Adds the sinks of a value that is stored to a field of an object of this type.
fn add_field_stores<'c>(
    facts: &Facts<'c, '_>,
    sinks: &mut Sinks,
    place: Place,
    ty: &'c BoxType,
    name: &'c str,
) -> Result<(), OutOfMemory>
    requires facts { AreFacts facts.now }
    requires ty { IsGiven ty.now }
    ensures { OnOk result (flows_kept sinks.new ≡ first_of_both (flows_kept sinks.old) (flows_to_sinks facts.now
        (flat_map (field_store (module_held facts.now) place name.now)
        (members (tree_of ty.now))))) }
{
    let members = members_of_type(facts.alloc, ty)?;
    for member in &members {
        add_field_store(facts, sinks, place, *member, name)?;
    }
    Ok(())
}

/// Adds the sink of a value that is stored to a field of one member, if it has it.
fn add_field_store<'c>(
    facts: &Facts<'c, '_>,
    sinks: &mut Sinks,
    place: Place,
    member: &'c BoxType,
    name: &'c str,
) -> Result<(), OutOfMemory>
    requires { AreFacts facts.now }
    ensures { OnOk result (flows_kept sinks.new ≡ first_of_both (flows_kept sinks.old) (flows_to_sinks facts.now
        (field_store (module_held facts.now) place name.now (tree_of member.now)))) }
{
    let BoxType::Class(class) = member else {
        return Ok(());
    };
    match facts.field_named(*class, name) {
        Some(field) => {
            let sink = SinkAt {
                place,
                into: Some(&field.ty),
                sink: SinkOf::Field(*class, name),
                written: facts.field_annotation(*class, name),
            };
            add_sink(facts, sinks, sink)
        }
        None => Ok(()),
    }
}

/// Adds the sinks of the index and of the value that are stored to an item of an object of this type.
fn add_item_stores<'c>(
    facts: &Facts<'c, '_>,
    sinks: &mut Sinks,
    index: Place,
    value: Place,
    ty: &'c BoxType,
) -> Result<(), OutOfMemory>
    requires facts { AreFacts facts.now }
    requires ty { IsGiven ty.now }
    ensures { OnOk result (flows_kept sinks.new ≡ first_of_both (flows_kept sinks.old) (flows_to_sinks facts.now
        (flat_map (item_store index value)
        (members (tree_of ty.now))))) }
{
    let members = members_of_type(facts.alloc, ty)?;
    for member in &members {
        add_item_store(facts, sinks, index, value, *member)?;
    }
    Ok(())
}

/// Adds the sinks of the index and of the value that are stored to an item of one member.
fn add_item_store<'c>(
    facts: &Facts<'c, '_>,
    sinks: &mut Sinks,
    index: Place,
    value: Place,
    member: &'c BoxType,
) -> Result<(), OutOfMemory>
    requires facts { AreFacts facts.now }
    requires member { IsGiven member.now }
    ensures { OnOk result (flows_kept sinks.new ≡ first_of_both (flows_kept sinks.old) (flows_to_sinks facts.now
        (item_store index value (tree_of member.now)))) }
{
    match member {
        BoxType::List(item) => {
            add_into(facts, sinks, index, &BoxType::Int, SinkOf::Index(member))?;
            add_into(facts, sinks, value, item.as_ref(), SinkOf::Item(member))
        }
        BoxType::Dict(key, held) => {
            add_into(facts, sinks, index, key.as_ref(), SinkOf::Key(member))?;
            add_into(facts, sinks, value, held.as_ref(), SinkOf::Value(member))
        }
        _ => Ok(()),
    }
}
