//! The details of the names that functions bind: reserved ones, those bound before, and parameters after a default.

ghost use Rattle.std.specs.Prelude.{◌≡◌, List, OnOk, if◌then◌else◌, is_some, map, option_map};
ghost use Rattle.pc_tree.specs.declared.code.Code.TheVariants.{E01, E24, E29, E31};
ghost use Rattle.pc_tree.specs.Lists.{name_seen};
ghost use Rattle.pc_tree.specs.Tree.{Name as TreeName, name_of, param_of};
ghost use Rattle.pc_scope.specs.Bindings.{bodies};
ghost use Rattle.pc_notes.specs.Notes.{or_else};
ghost use Rattle.pc_detail_texts.specs.Details as detail;
ghost use Rattle.pc_detail_facts.specs.Held.{body_of};
ghost use Rattle.pc_detail_rules.specs.Names.{default_order_after, default_order_among, first_of_all, is_method, late_after};
ghost use Rattle.pc_detail_rules.specs.Names.{late_among};
ghost use Rattle.pc_detail_rules.specs.Names.{late_in, parameters_together, twice_among};
ghost use Rattle.pc_name_details.specs.Naming.{AreFirst, body_rule};
ghost use Rattle.pc_name_details.specs.Naming.{param_lent, reserved_of_names};
ghost use Rattle.pc_name_details.specs.Offered.{AddsDetails, of_code, at_place};

use crate::bound_names::{bound_names, param_names};
use crate::first_places::FirstPlaces;
use crate::offers::Offers;
use crate::repeated::{Together, add_all_twice};
use pc_detail_facts::{Body, Facts};
use pc_detail_texts::{LateDefault, RuleFault};
use pc_scope::Owner;
use pc_source::OutOfMemory;
use pc_tree::{Code, Name, Param};

/// Returns whether an owner is a method.
fn is_method(owner: Owner) -> bool
    ensures { result ≡ is_method owner }
{
    matches!(owner, Owner::Method(_, _))
}

/// Returns the first of two parameters that has a default: an earlier one that has, or the next one.
fn first_with_default<'p>(before: Option<&'p Param>, param: &'p Param) -> Option<&'p Param>
    ensures { option_map param_lent result ≡ or_else (option_map param_lent before.entry)
        (if is_some (param_of param.now).default then Some (param_of param.now) else None) }
{
    if before.is_none() && param.default.is_some() {
        Some(param)
    } else {
        before
    }
}

/// Adds the detail of a binding of a reserved name.
fn add_reserved(facts: &Facts<'_, '_>, offers: &mut Offers, name: &Name) -> Result<(), OutOfMemory>
    ensures { OnOk result (AddsDetails facts.now (of_code E29 (at_place (name_of name.now).place
        (Some (detail.reserved (name_of name.now).text)))) offers.old offers.new) }
{
    if !offers.wants(Code::E29, name.place) {
        return Ok(());
    }
    let fault = RuleFault::Reserved(facts.words(name.text.as_str())?);
    offers.keep(Code::E29, name.place, fault)
}

/// Adds the details of bindings of reserved names.
pub(crate) fn add_all_reserved(
    facts: &Facts<'_, '_>,
    offers: &mut Offers,
    names: &[&Name],
) -> Result<(), OutOfMemory>
    ensures { OnOk result (AddsDetails facts.now (of_code E29 (reserved_of_names (map name_seen names.now)))
        offers.old offers.new) }
{
    for name in names {
        add_reserved(facts, offers, *name)?;
    }
    Ok(())
}

/// Finds the earlier binding of a name that a function binds.
fn add_late<'c>(
    facts: &Facts<'_, '_>,
    offers: &mut Offers,
    first: &FirstPlaces<'c>,
    name: &'c Name,
) -> Result<(), OutOfMemory>
    ensures { (before : List TreeName) → AreFirst first.now before → OnOk result (AddsDetails facts.now
        (of_code E24 (at_place (name_of name.now).place (late_after before (name_of name.now))))
        offers.old offers.new) }
{
    if !offers.wants(Code::E24, name.place) {
        return Ok(());
    }
    let word = name.text.as_str();
    let fault = RuleFault::LateAnnotation(facts.words(word)?, first.get(word));
    offers.keep(Code::E24, name.place, fault)
}

/// Finds the earlier bindings of the names that a function binds.
fn add_all_late(
    facts: &Facts<'_, '_>,
    offers: &mut Offers,
    names: &[&Name],
) -> Result<(), OutOfMemory>
    ensures { OnOk result (AddsDetails facts.now (of_code E24 (λ p. late_among p (map name_seen names.now)))
        offers.old offers.new) }
{
    let mut first = FirstPlaces::new(facts.alloc);
    for name in names {
        add_late(facts, offers, &first, *name)?;
        first.add(*name)?;
    }
    Ok(())
}

/// Adds the detail of a parameter after one with a default, `before`, if there is one before it.
fn add_default_order(
    facts: &Facts<'_, '_>,
    offers: &mut Offers,
    before: Option<&Param>,
    param: &Param,
) -> Result<(), OutOfMemory>
    ensures { OnOk result (AddsDetails facts.now (of_code E31 (at_place (param_of param.now).name.place
        (option_map (default_order_after (param_of param.now).name) (option_map param_lent before.entry))))
        offers.old offers.new) }
{
    let Some(before) = before else {
        return Ok(());
    };
    if !offers.wants(Code::E31, param.name.place) {
        return Ok(());
    }
    let late = LateDefault {
        name: facts.words(param.name.text.as_str())?,
        before: facts.words(before.name.text.as_str())?,
        at: before.name.place,
    };
    offers.keep(Code::E31, param.name.place, RuleFault::DefaultOrder(late))
}

/// Adds the details of the parameters that come after one with a default.
fn add_default_orders(
    facts: &Facts<'_, '_>,
    offers: &mut Offers,
    params: &[Param],
) -> Result<(), OutOfMemory>
    ensures { OnOk result (AddsDetails facts.now
        (of_code E31 (λ p. default_order_among p (map param_of params.now))) offers.old offers.new) }
{
    let mut with_default: Option<&Param> = None;
    for param in params {
        add_default_order(facts, offers, with_default, param)?;
        with_default = first_with_default(with_default, param);
    }
    Ok(())
}

/// Finds the parameters of a function or method that repeat a name.
fn add_params_twice(
    facts: &Facts<'_, '_>,
    offers: &mut Offers,
    body: Body<'_>,
) -> Result<(), OutOfMemory>
    ensures { OnOk result (AddsDetails facts.now
        (of_code E01 (λ p. twice_among p (parameters_together (body_of body.entry)))) offers.old offers.new) }
{
    let together = Together::Parameters(is_method(body.owner));
    let names = param_names(facts.alloc, &body.function.params)?;
    add_all_twice(facts, offers, together, &names)
}

/// Finds the earlier bindings of the names that a function or method binds.
fn add_late_names(
    facts: &Facts<'_, '_>,
    offers: &mut Offers,
    body: Body<'_>,
) -> Result<(), OutOfMemory>
    ensures { OnOk result (AddsDetails facts.now (of_code E24 (λ p. late_in p (body_of body.entry)))
        offers.old offers.new) }
{
    let names = bound_names(facts.alloc, body)?;
    add_all_late(facts, offers, &names)
}

/// Finds the details of the names that a function or method binds.
fn add_body(facts: &Facts<'_, '_>, offers: &mut Offers, body: Body<'_>) -> Result<(), OutOfMemory>
    ensures { OnOk result (AddsDetails facts.now (body_rule (body_of body.entry)) offers.old offers.new) }
{
    add_params_twice(facts, offers, body)?;
    add_default_orders(facts, offers, &body.function.params)?;
    add_late_names(facts, offers, body)
}

/// Finds the details of the names that functions and methods bind.
pub(crate) fn add_bodies(
    facts: &Facts<'_, '_>,
    offers: &mut Offers,
    bodies: &[Body<'_>],
) -> Result<(), OutOfMemory>
    ensures { OnOk result (AddsDetails facts.now (λ f. first_of_all (λ b. body_rule b f) (map body_of bodies.now))
        offers.old offers.new) }
{
    for body in bodies {
        add_body(facts, offers, *body)?;
    }
    Ok(())
}
