//! Stores to attributes and items.

#![tactic(auto, using(pc_walk::proofs::Walks::goes_further))]

ghost use Rattle.std.specs.Prelude.{All, map, OnOk};
ghost use Rattle.pc_tree.specs.Tree.{expr_of, target_of, name_of, to_attribute, to_index};
ghost use Rattle.pc_flow.specs.WellFormed.{AreWellFormed};
ghost use Rattle.pc_rules.specs.Operations.{stored_types};
ghost use Rattle.pc_rules.specs.Computed.ModuleParents.{class_parents};
ghost use Rattle.pc_statements.specs.Storing.{HasStoreOffer, store_offer_with};
ghost use Rattle.pc_module_rules.specs.Computed.Statements.{store_finds, stored_finds};
ghost use Rattle.pc_walk.specs.Walks.{IsValidIn, WalkKept, Found};

use crate::store_offers::{
    StoreOffer, StoreTarget, only_type, store_codes, store_index_types, store_offers, stored_types,
};
use crate::typing::type_in;
use pc_flow::Env;
use pc_rules::find_codes;
use pc_source::{OutOfMemory, Place};
use pc_tree::{Expr, Name, Target};
use pc_types::TypeStore;
use pc_walk::{Walk, find_flows_in};

/// Appends the codes of a store at `place`, then the findings in the stored value and of its flow into the types of
/// `offers`.
fn find_stored<S: TypeStore>(
    walk: &mut Walk<'_, S>,
    env: &Env<S::Ty>,
    offers: &[StoreOffer<S::Ty>],
    place: Place,
    value: &Expr,
) -> Result<(), OutOfMemory>
    requires stands { IsValidIn S.TypeStore walk.old env.now }
    requires offers { All (HasStoreOffer (S.has walk.old.store.now)) offers.now }
    requires well_formed { AreWellFormed (class_parents walk.old.context.globals.now)
        (stored_types (map (store_offer_with S.tree) offers.now)) }
    ensures finds { OnOk result (Found S.TypeStore walk.old env.now walk.new
        (λ f k. stored_finds f k (map (store_offer_with S.tree) offers.now) place (expr_of value.now))) }
    ensures goes_on { WalkKept S.TypeStore walk.old walk.new }
{
    let codes = store_codes(walk.alloc, offers)?;
    find_codes(place, &codes, walk.found)?;
    let types = stored_types(walk.store, walk.alloc, offers)?;
    let want = only_type(walk.store, walk.alloc, offers, &types)?;
    let label = type_in(walk, env, &want, value)?;
    find_flows_in(walk, value.place(), &label, &types)?;
    Ok(())
}

/// Appends the findings of `object.field = value`, whose target is at `place`: those in the object, the codes of the
/// store, and those in the value and of its flow into the field's type. Language Reference 7.2 "Assignment statements".
fn find_attribute_store<S: TypeStore>(
    walk: &mut Walk<'_, S>,
    env: &Env<S::Ty>,
    place: Place,
    object: &Expr,
    field: &Name,
    value: &Expr,
) -> Result<(), OutOfMemory>
    requires { IsValidIn S.TypeStore walk.old env.now }
    ensures finds { OnOk result (Found S.TypeStore walk.old env.now walk.new
        (λ f k. store_finds f k (to_attribute place (expr_of object.now) (name_of field.now)) (expr_of value.now))) }
    ensures goes_on { WalkKept S.TypeStore walk.old walk.new }
{
    let label = type_in(walk, env, &None, object)?;
    let target = StoreTarget::Attribute(field.text.as_str());
    let offers = store_offers(
        walk.store,
        walk.alloc,
        walk.context.globals.classes,
        target,
        &label.ty,
    )?;
    find_stored(walk, env, &offers, place, value)?;
    Ok(())
}

/// Appends the findings of `object[index] = value`, whose target is at `place`: those in the object, those in the index
/// and of its flow into the key's type, the codes of the store, and those in the value and of its flow into the item's
/// type. Language Reference 7.2 "Assignment statements".
fn find_item_store<S: TypeStore>(
    walk: &mut Walk<'_, S>,
    env: &Env<S::Ty>,
    place: Place,
    object: &Expr,
    index: &Expr,
    value: &Expr,
) -> Result<(), OutOfMemory>
    requires { IsValidIn S.TypeStore walk.old env.now }
    ensures finds { OnOk result (Found S.TypeStore walk.old env.now walk.new
        (λ f k. store_finds f k (to_index place (expr_of object.now) (expr_of index.now)) (expr_of value.now))) }
    ensures goes_on { WalkKept S.TypeStore walk.old walk.new }
{
    let label = type_in(walk, env, &None, object)?;
    let classes = walk.context.globals.classes;
    let offers = store_offers(
        walk.store,
        walk.alloc,
        classes,
        StoreTarget::Index,
        &label.ty,
    )?;
    let at = type_in(walk, env, &None, index)?;
    let types = store_index_types(walk.store, walk.alloc, &offers)?;
    find_flows_in(walk, index.place(), &at, &types)?;
    find_stored(walk, env, &offers, place, value)?;
    Ok(())
}

/// Appends the findings of a store to an attribute or an item; nothing for a name.
pub(crate) fn find_store<S: TypeStore>(
    walk: &mut Walk<'_, S>,
    env: &Env<S::Ty>,
    target: &Target,
    value: &Expr,
) -> Result<(), OutOfMemory>
    requires { IsValidIn S.TypeStore walk.old env.now }
    ensures finds { OnOk result (Found S.TypeStore walk.old env.now walk.new
        (λ f k. store_finds f k (target_of target.now) (expr_of value.now))) }
    ensures goes_on { WalkKept S.TypeStore walk.old walk.new }
{
    match target {
        Target::Name(_) => Ok(()),
        Target::Attribute {
            place,
            object,
            name: field,
        } => { find_attribute_store(walk, env, *place, object, field, value) }
        Target::Index {
            place,
            object,
            key: index,
        } => { find_item_store(walk, env, *place, object, index, value) }
    }
}
