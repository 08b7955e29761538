//! A walk over a module that collects what the details of its findings need.

ghost use Rattle.std.specs.Prelude.{◌≡◌, Contains, IfOk, List, OnOk, flat_map, is_some, map};
ghost use Rattle.std.specs.BTreeMap.{get};
ghost use Rattle.std.specs.Option.{option_and_then, option_map, option_to_list};
ghost use Rattle.pc_tree.specs.declared.code.Finding.{Finding as FindingOf};
ghost use Rattle.pc_tree.specs.Lists.{keywords_of_list};
ghost use Rattle.pc_tree.specs.Tree.{expr_of};
ghost use Rattle.pc_scope.specs.Bindings.{bodies as bodies_in};
ghost use Rattle.pc_scope.specs.Expressions.{keyword_names};
ghost use Rattle.pc_notes.specs.Texts.{place_cmp};
ghost use Rattle.pc_detail_texts.specs.Mapped.{map_detail};
ghost use Rattle.pc_detail_texts.specs.Shown.{detail_of_value};
ghost use Rattle.pc_details.specs.ByCode.{by_nodes, function_rule, values_rule};
ghost use Rattle.pc_detail_facts.specs.Held.{AreFacts, ShowsDetail, body_of, known_held, module_held, owned_of, text_held};
ghost use Rattle.pc_flow_details.specs.Kept.{flow_of_value};
ghost use Rattle.pc_details.specs.Made.{HoldsLeft, HoldsOf, HoldsWalk, IsNoneOf, IsOf, IsToldAt, ShowsToldAt};
ghost use Rattle.pc_details.specs.Made.{facts_walked};
ghost use Rattle.pc_detail_rules.specs.Names.{arguments_of, arguments_together};
ghost use Rattle.pc_name_details.specs.Naming.{arguments_named, given_rule, walked_detail};
ghost use Rattle.pc_detail_rules.specs.Nodes.{exprs_of_module};
ghost use Rattle.pc_detail_nodes.specs.NodesHeld.{exprs_held, target_lent, targets_held};
ghost use Rattle.pc_name_details.specs.Offered.{AddsDetails, kept_of};
ghost use Rattle.pc_detail_rules.specs.Overrides.{detail_or};
ghost use Rattle.pc_name_details.specs.Uses.{AreBound, bindings_of};

use crate::by_code::{function_detail, of_anns, of_exprs, of_targets};
use pc_detail_facts::{Body, Facts, OwnedExpr};
use pc_detail_nodes::{Nodes, module_exprs};
use pc_detail_texts::{Detail, Flow, TypeFault};
use pc_flow_details::Sinks;
use pc_name_details::{Bindings, Offers, add_arguments, add_module, add_statements, main_fault};
use pc_source::{OutOfMemory, Place};
use pc_tree::{Code, Expr, Finding, KeywordArgument};

/// The result of a walk over a module: everything that the details of its findings need.
#[derive(Drop)]
pub(crate) struct WalkedModule<'m, 'n> {
    facts: &'m Facts<'m, 'n>,
    nodes: Nodes<'m>,
    sinks: Sinks,
    offers: Offers,
    bindings: Bindings<'m>,
}

/// Returns the arguments by name of an expression, if it is a call.
fn keywords_of(expr: &Expr) -> Option<&[KeywordArgument]>
    ensures { option_to_list (option_map (λ ks. arguments_named (keyword_names (keywords_of_list ks.now)))
        result) ≡ arguments_of (expr_of expr.now) }
{
    match expr {
        Expr::Call { keywords, .. } => Some(keywords),
        _ => None,
    }
}

/// Finds what already has the name of an argument, if an expression is a call.
fn add_given(
    facts: &Facts<'_, '_>,
    offers: &mut Offers,
    owned: OwnedExpr<'_>,
) -> Result<(), OutOfMemory>
    ensures { OnOk result
        (AddsDetails facts.now (given_rule (arguments_together (owned_of owned.entry))) offers.old offers.new) }
{
    match keywords_of(owned.expr) {
        Some(keywords) => add_arguments(facts, offers, keywords),
        None => Ok(()),
    }
}

/// Finds what already has the names of arguments, among those by name of each call.
fn add_all_given(
    facts: &Facts<'_, '_>,
    offers: &mut Offers,
    exprs: &[OwnedExpr<'_>],
) -> Result<(), OutOfMemory>
    ensures { OnOk result (AddsDetails facts.now (given_rule (flat_map arguments_together (map owned_of exprs.now)))
        offers.old offers.new) }
{
    for owned in exprs {
        add_given(facts, offers, *owned)?;
    }
    Ok(())
}

/// Finds the details of the names and the statements of a module, and of the arguments of its calls.
fn named_offers<'m>(
    facts: &Facts<'m, '_>,
    bodies: &[Body<'m>],
    exprs: &[OwnedExpr<'m>],
    findings: &[Finding],
) -> Result<Offers, OutOfMemory>
    requires facts { AreFacts facts.now }
    requires bodies { map body_of bodies.now ≡ bodies_in (module_held facts.now) }
    requires exprs { map owned_of exprs.now ≡ exprs_of_module (module_held facts.now) }
    ensures { IfOk result (λ o. (f : FindingOf) → Contains findings.now f → kept_of o f
        ≡ option_map (map_detail (text_held facts.now)) (walked_detail (module_held facts.now) f.place f.code)) }
{
    let mut offers = Offers::of(facts.alloc, findings)?;
    add_module(facts, &mut offers, bodies)?;
    add_statements(facts, &mut offers, bodies)?;
    add_all_given(facts, &mut offers, exprs)?;
    Ok(offers)
}

impl<'m, 'n> WalkedModule<'m, 'n> {
    /// Returns what a walk over a module finds.
    pub(crate) fn of(
        facts: &'m Facts<'m, 'n>,
        bodies: &[Body<'m>],
        findings: &[Finding],
    ) -> Result<WalkedModule<'m, 'n>, OutOfMemory>
        requires facts { AreFacts facts.now }
        requires bodies { map body_of bodies.now ≡ bodies_in (module_held facts.now) }
        ensures facts { IfOk result (λ w. facts_walked w ≡ facts.now) }
        ensures holds { IfOk result (HoldsWalk findings.now) }
        ensures left { IfOk result (HoldsLeft findings.now) }
    {
        let exprs = module_exprs(facts.alloc, facts.definitions, bodies)?;
        let nodes = Nodes::of(facts.alloc, facts.outline.tree, bodies, &exprs, findings)?;
        Ok(WalkedModule {
            facts,
            nodes,
            sinks: Sinks::of(facts, bodies)?,
            offers: named_offers(facts, bodies, &exprs, findings)?,
            bindings: Bindings::of(facts.alloc, bodies)?,
        })
    }

    /// Returns the detail of the function or method named at a place by the rule of a code.
    fn of_function(&self, code: Code, place: Place) -> Result<Option<Detail>, OutOfMemory>
        requires { AreFacts (facts_walked self.now) }
        ensures { IfOk result (ShowsDetail (facts_walked self.now)
            (option_and_then (function_rule (module_held (facts_walked self.now)) code)
            (option_map body_of (get place_cmp self.now.nodes.functions place)))) }
    {
        match self.nodes.body_named_at(place) {
            Some(body) => function_detail(self.facts, code, *body),
            None => Ok(None),
        }
    }

    /// Returns the detail of the first target or expression at a place for which the rule of a code gives one.
    fn of_values(&self, code: Code, place: Place) -> Result<Option<Detail>, OutOfMemory>
        requires facts { AreFacts (facts_walked self.now) }
        requires bound { AreBound self.now.bindings
            (flat_map bindings_of (bodies_in (module_held (facts_walked self.now)))) }
        ensures { IfOk result (ShowsDetail (facts_walked self.now) (values_rule (module_held (facts_walked self.now))
            (known_held (facts_walked self.now)) (is_some (get place_cmp self.now.nodes.callees place)) code
            (map target_lent (targets_held self.now.nodes place)) (map owned_of (exprs_held self.now.nodes place)))) }
    {
        let found = of_targets(self.facts, &self.nodes, code, place)?;
        if found.is_some() {
            return Ok(found);
        }
        let is_callee = self.nodes.is_callee_at(place);
        let exprs = self.nodes.exprs_at(place);
        of_exprs(self.facts, &self.bindings, code, is_callee, exprs)
    }

    /// Returns the detail of a finding by the nodes at its place: an annotation, a function, a target or an expression.
    fn by_nodes(&self, finding: Finding) -> Result<Option<Detail>, OutOfMemory>
        requires { HoldsOf finding self.now }
        ensures { IfOk result (ShowsDetail (facts_walked self.now) (by_nodes (module_held (facts_walked self.now))
            (known_held (facts_walked self.now)) finding.code finding.place)) }
    {
        let Finding { place, code } = finding;
        let found = of_anns(self.facts, &self.nodes, code, place)?;
        if found.is_some() {
            return Ok(found);
        }
        let found = self.of_function(code, place)?;
        if found.is_some() {
            return Ok(found);
        }
        self.of_values(code, place)
    }

    /// Returns the detail of a finding by the nodes at its place, or by what is bound there.
    fn by_rules(&mut self, finding: Finding) -> Result<Option<Detail>, OutOfMemory>
        requires { HoldsOf finding self.old }
        ensures kept { (findings : List FindingOf) → HoldsWalk findings self.old
            → OnOk result (HoldsWalk findings self.new) }
        ensures facts { OnOk result (facts_walked self.new ≡ facts_walked self.old) }
        ensures detail { IfOk result (IsOf (facts_walked self.old)
            (detail_or (by_nodes (module_held (facts_walked self.old)) (known_held (facts_walked self.old)) finding.code
            finding.place) (walked_detail (module_held (facts_walked self.old)) finding.place finding.code))) }
        ensures left { (left : List FindingOf) → HoldsLeft left self.old → IsNoneOf left finding
            → OnOk result (HoldsLeft left self.new) }
        ensures whole { (left : List FindingOf) → HoldsLeft left self.old → Contains left finding
            → IfOk result (ShowsDetail (facts_walked self.old) (detail_or
            (by_nodes (module_held (facts_walked self.old)) (known_held (facts_walked self.old)) finding.code
            finding.place) (walked_detail (module_held (facts_walked self.old)) finding.place finding.code))) }
    {
        match self.by_nodes(finding)? {
            Some(detail) => Ok(Some(detail)),
            None => Ok(self.offers.take(finding)),
        }
    }

    /// Returns the detail of a finding, if there is one.
    pub(crate) fn detail_of(&mut self, finding: Finding) -> Result<Option<Detail>, OutOfMemory>
        requires { HoldsOf finding self.old }
        ensures kept { (findings : List FindingOf) → HoldsWalk findings self.old
            → OnOk result (HoldsWalk findings self.new) }
        ensures facts { OnOk result (facts_walked self.new ≡ facts_walked self.old) }
        ensures detail { IfOk result (IsToldAt (facts_walked self.old) finding.place finding.code) }
        ensures left { (left : List FindingOf) → HoldsLeft left self.old → IsNoneOf left finding
            → OnOk result (HoldsLeft left self.new) }
        ensures whole { (left : List FindingOf) → HoldsLeft left self.old → Contains left finding
            → IfOk result (ShowsToldAt (facts_walked self.old) finding.place finding.code) }
    {
        match finding.code {
            Code::E12 => Ok(flow_detail(self.sinks.wrong.remove(&finding.place))),
            Code::A1 => Ok(flow_detail(self.sinks.dynamic.remove(&finding.place))),
            Code::E28 => Ok(Some(Detail::Rule(main_fault(self.facts)))),
            _ => self.by_rules(finding),
        }
    }
}

/// Returns a flow as a detail, if there is one.
fn flow_detail(flow: Option<Flow>) -> Option<Detail>
    ensures { option_map detail_of_value result ≡ option_map flow_of_value flow }
{
    match flow {
        Some(flow) => Some(Detail::Types(TypeFault::Flow(flow))),
        None => None,
    }
}
