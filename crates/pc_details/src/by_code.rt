//! The details of targets, expressions and functions by the rules of codes.

ghost use Rattle.std.specs.Prelude.{◌≡◌, IfOk, flat_map, is_some, map};
ghost use Rattle.pc_tree.specs.Tree.{Expr as TreeExpr, Module as ModuleOf, ann_of, target_of};
ghost use Rattle.pc_scope.specs.Bindings.{bodies};
ghost use Rattle.pc_details.specs.ByCode.{ann_rule, expr_rule, function_rule, target_rule};
ghost use Rattle.pc_detail_rules.specs.Facts.{Known as KnownOf};
ghost use Rattle.pc_detail_facts.specs.Held.{AreFacts, ShowsDetail, body_of, known_held, module_held, owned_of};
ghost use Rattle.pc_detail_rules.specs.Names.{first_of_all};
ghost use Rattle.pc_detail_nodes.specs.NodesHeld.{ann_lent, anns_held, target_lent, targets_held};
ghost use Rattle.pc_detail_rules.specs.Operations.{attribute_here};
ghost use Rattle.pc_type_details.specs.Unsupported.{attribute_used};
ghost use Rattle.pc_name_details.specs.Uses.{AreBound, bindings_of};

use crate::overriding::override_detail;
use pc_detail_facts::{Body, Facts, OwnedExpr};
use pc_detail_nodes::Nodes;
use pc_detail_texts::{Detail, RuleFault};
use pc_name_details::{Bindings, early_detail, unassigned_detail, unknown_detail};
use pc_source::{OutOfMemory, Place};
use pc_tree::{Ann, Code, Target};
use pc_type_details::{
    Use, annotation_detail, annotation_nodes, any_call_detail, attribute_target, builtin_detail,
    call_detail, index_detail, keys_detail, list_test_detail, loop_detail, method_target,
    no_return_detail, no_test_detail, operator_detail, size_detail, store_detail, union_detail,
    used_attribute_detail, value_detail,
};

/// Returns how an attribute is used that is a callee, or that is not one.
fn use_of(is_callee: bool) -> Use
    ensures { (m : ModuleOf) (known : KnownOf) (e : TreeExpr)
        → attribute_used m known result e ≡ attribute_here m known is_callee e }
{
    if is_callee { Use::Called } else { Use::Read }
}

/// Returns the detail of a target by the rule of a code.
fn target_detail(
    facts: &Facts<'_, '_>,
    code: Code,
    target: &Target,
) -> Result<Option<Detail>, OutOfMemory>
    requires { AreFacts facts.now }
    ensures { IfOk result (ShowsDetail facts.now
        (target_rule (module_held facts.now) (known_held facts.now) code (target_of target.now))) }
{
    match code {
        Code::A3 | Code::E17 => store_detail(facts, target),
        Code::A4 | Code::E15 => attribute_target(facts, target),
        Code::E23 => method_target(facts, target),
        _ => Ok(None),
    }
}

/// Returns the detail of an expression, which may be a callee, by the rule of a code.
fn expr_detail<'m>(
    facts: &Facts<'m, '_>,
    bindings: &Bindings<'m>,
    code: Code,
    is_callee: bool,
    owned: OwnedExpr<'m>,
) -> Result<Option<Detail>, OutOfMemory>
    requires facts { AreFacts facts.now }
    requires bound { AreBound bindings.now (flat_map bindings_of (bodies (module_held facts.now))) }
    ensures { IfOk result (ShowsDetail facts.now
        (expr_rule (module_held facts.now) (known_held facts.now) is_callee code (owned_of owned.entry))) }
{
    let expr = owned.expr;
    match code {
        Code::A2 | Code::E13 | Code::E19 => operator_detail(facts, expr),
        Code::A3 | Code::E16 => index_detail(facts, expr),
        Code::A4 | Code::E15 => used_attribute_detail(facts, use_of(is_callee), expr),
        Code::A5 | Code::E18 => loop_detail(facts, expr),
        Code::A6 => any_call_detail(facts, owned),
        Code::A7 => list_test_detail(facts, expr),
        Code::E02 => unknown_detail(facts, bindings, owned),
        Code::E03 => early_detail(facts, expr),
        Code::E04 => unassigned_detail(facts, owned),
        Code::E14 => call_detail(facts, owned),
        Code::E20 => value_detail(facts, owned),
        Code::E22 => keys_detail(facts, expr),
        Code::E25 => Ok(Some(no_test_detail(facts, expr)?)),
        Code::E26 => size_detail(facts, expr),
        Code::E27 => builtin_detail(facts, owned),
        _ => Ok(None),
    }
}

/// Returns the detail of an annotation by the rule of a code.
fn ann_detail(facts: &Facts<'_, '_>, code: Code, ann: &Ann) -> Result<Option<Detail>, OutOfMemory>
    requires { AreFacts facts.now }
    ensures { IfOk result (ShowsDetail facts.now (ann_rule (module_held facts.now) code (ann_of ann.now))) }
{
    match code {
        Code::E09 => annotation_detail(facts, ann),
        Code::E10 => union_detail(facts, ann),
        Code::E26 => Ok(Some(Detail::Rule(RuleFault::Size(annotation_nodes(facts, ann)?)))),
        _ => Ok(None),
    }
}

/// Returns the detail of the first target at a place for which the rule of a code gives one.
pub(crate) fn of_targets<'m>(
    facts: &Facts<'m, '_>,
    nodes: &Nodes<'m>,
    code: Code,
    place: Place,
) -> Result<Option<Detail>, OutOfMemory>
    requires { AreFacts facts.now }
    ensures { IfOk result (ShowsDetail facts.now
        (first_of_all (target_rule (module_held facts.now) (known_held facts.now) code)
        (map target_lent (targets_held nodes.now place)))) }
{
    for target in nodes.targets_at(place) {
        let found = target_detail(facts, code, *target)?;
        if found.is_some() {
            return Ok(found);
        }
    }
    Ok(None)
}

/// Returns the detail of the first annotation at the place of a finding for which the rule of a code gives one.
pub(crate) fn of_anns<'m>(
    facts: &Facts<'m, '_>,
    nodes: &Nodes<'m>,
    code: Code,
    place: Place,
) -> Result<Option<Detail>, OutOfMemory>
    requires { AreFacts facts.now }
    ensures { IfOk result (ShowsDetail facts.now
        (first_of_all (ann_rule (module_held facts.now) code) (map ann_lent (anns_held nodes.now place)))) }
{
    for ann in nodes.anns_at(place) {
        let found = ann_detail(facts, code, *ann)?;
        if found.is_some() {
            return Ok(found);
        }
    }
    Ok(None)
}

/// Returns the detail of the first of some expressions for which the rule of a code gives one.
pub(crate) fn of_exprs<'m>(
    facts: &Facts<'m, '_>,
    bindings: &Bindings<'m>,
    code: Code,
    is_callee: bool,
    exprs: &[OwnedExpr<'m>],
) -> Result<Option<Detail>, OutOfMemory>
    requires facts { AreFacts facts.now }
    requires bound { AreBound bindings.now (flat_map bindings_of (bodies (module_held facts.now))) }
    ensures { IfOk result (ShowsDetail facts.now
        (first_of_all (expr_rule (module_held facts.now) (known_held facts.now) is_callee code)
        (map owned_of exprs.now))) }
{
    for owned in exprs {
        let found = expr_detail(facts, bindings, code, is_callee, *owned)?;
        if found.is_some() {
            return Ok(found);
        }
    }
    Ok(None)
}

/// Returns the detail of a function or method by the rule of a code.
pub(crate) fn function_detail(
    facts: &Facts<'_, '_>,
    code: Code,
    body: Body<'_>,
) -> Result<Option<Detail>, OutOfMemory>
    requires { AreFacts facts.now }
    ensures { IfOk result (ShowsDetail facts.now (function_rule (module_held facts.now) code (body_of body.entry))) }
{
    match code {
        Code::A8 | Code::E11 => override_detail(facts, code, body),
        Code::E21 => Ok(Some(no_return_detail(facts, body)?)),
        _ => Ok(None),
    }
}
