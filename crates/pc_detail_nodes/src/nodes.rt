//! The nodes of a module at places of findings.

ghost use Rattle.std.specs.Prelude.{◌≡◌, Contains, IfOk, OnOk, Some, filter, is_some, map, ◌||◌};
ghost use Rattle.std.specs.BTreeMap.{get};
ghost use Rattle.std.specs.List.{list_any};
ghost use Rattle.std.specs.Option.{option_map, option_or};
ghost use Rattle.pc_source.specs.declared.place.Place.{Place as PlaceOf};
ghost use Rattle.pc_tree.specs.declared.code.Finding.{Finding as FindingOf};
ghost use Rattle.pc_tree.specs.Depth.{place_of, place_of_ann, place_of_target};
ghost use Rattle.pc_tree.specs.Tree.{Module as ModuleOf, expr_of, module_of, target_of};
ghost use Rattle.pc_scope.specs.Bindings.{bodies as bodies_in};
ghost use Rattle.pc_notes.specs.Notes.{is_same_place};
ghost use Rattle.pc_notes.specs.Texts.{place_cmp};
ghost use Rattle.pc_detail_nodes.specs.ByPlaces.{nodes_at};
ghost use Rattle.pc_detail_rules.specs.Explains.{calls_at};
ghost use Rattle.pc_detail_facts.specs.Held.{HoldsDefinitions, body_of, owned_of};
ghost use Rattle.pc_detail_rules.specs.Nodes.{exprs_of_module};
ghost use Rattle.pc_detail_nodes.specs.NodesHeld.{HoldsNodes, ann_lent, anns_held, body_among, body_at, exprs_held};
ghost use Rattle.pc_detail_nodes.specs.NodesHeld.{target_lent, targets_held};

use crate::annotations_at::all_anns;
use crate::by_place::ByPlace;
use crate::exprs::all_exprs;
use crate::stmts::{all_stmts, assigned_targets};
use pc_detail_facts::{Body, Definitions, OwnedExpr};
use pc_source::{OutOfMemory, Place};
use pc_tree::{Ann, Expr, Finding, Module, Target};
use std::alloc::Global;
use std::collections::BTreeMap;

/// Returns the place of a target.
fn target_place(target: &Target) -> Place
    ensures { result ≡ place_of_target (target_of target.now) }
{
    match target {
        Target::Name(name) => name.place,
        Target::Attribute { place, .. } | Target::Index { place, .. } => *place,
    }
}

/// Returns expressions at places of findings.
fn exprs_by_place<'m>(
    alloc: Global,
    findings: &[Finding],
    exprs: &[OwnedExpr<'m>],
) -> Result<ByPlace<OwnedExpr<'m>>, OutOfMemory>
    ensures { IfOk result (λ b. (f : FindingOf) → Contains findings.now f
        → option_map (map owned_of) (nodes_at b f.place)
        ≡ Some (filter (λ o. is_same_place f.place (place_of o.expr)) (map owned_of exprs.now))) }
{
    let mut by_place = ByPlace::of(alloc, findings)?;
    for owned in exprs {
        by_place.add(owned.expr.place(), *owned)?;
    }
    Ok(by_place)
}

/// Returns targets at places of findings.
fn targets_by_place<'m>(
    alloc: Global,
    findings: &[Finding],
    targets: &[&'m Target],
) -> Result<ByPlace<&'m Target>, OutOfMemory>
    ensures { IfOk result (λ b. (f : FindingOf) → Contains findings.now f
        → option_map (map target_lent) (nodes_at b f.place)
        ≡ Some (filter (λ t. is_same_place f.place (place_of_target t)) (map target_lent targets.now))) }
{
    let mut by_place = ByPlace::of(alloc, findings)?;
    for target in targets {
        by_place.add(target_place(*target), *target)?;
    }
    Ok(by_place)
}

/// Returns annotations at places of findings.
fn anns_by_place<'m>(
    alloc: Global,
    findings: &[Finding],
    anns: &[&'m Ann],
) -> Result<ByPlace<&'m Ann>, OutOfMemory>
    ensures { IfOk result (λ b. (f : FindingOf) → Contains findings.now f
        → option_map (map ann_lent) (nodes_at b f.place)
        ≡ Some (filter (λ a. is_same_place f.place (place_of_ann a)) (map ann_lent anns.now))) }
{
    let mut by_place = ByPlace::of(alloc, findings)?;
    for ann in anns {
        by_place.add(ann.place(), *ann)?;
    }
    Ok(by_place)
}

/// Marks the place of a callee, if an expression is a call.
fn add_callee(callees: &mut BTreeMap<Place, ()>, expr: &Expr) -> Result<(), OutOfMemory>
    ensures { OnOk result ((p : PlaceOf) → is_some (get place_cmp callees.new p)
        ≡ is_some (get place_cmp callees.old p) || calls_at p (expr_of expr.now)) }
{
    if let Expr::Call { callee, .. } = expr {
        callees.insert(callee.place(), ())?;
    }
    Ok(())
}

/// Returns the places of the callees of expressions.
fn callees_among(alloc: Global, exprs: &[OwnedExpr<'_>]) -> Result<BTreeMap<Place, ()>, OutOfMemory>
    ensures { IfOk result (λ m. (p : PlaceOf) → is_some (get place_cmp m p)
        ≡ list_any (λ o. calls_at p o.expr) (map owned_of exprs.now)) }
{
    let mut callees = BTreeMap::new(alloc);
    for owned in exprs {
        add_callee(&mut callees, owned.expr)?;
    }
    Ok(callees)
}

/// Keeps a function or method at the place of its name, unless one is kept there.
fn add_function<'m>(
    functions: &mut BTreeMap<Place, Body<'m>>,
    body: Body<'m>,
) -> Result<(), OutOfMemory>
    ensures { OnOk result ((p : PlaceOf) → option_map body_of (get place_cmp functions.new p)
        ≡ option_or (option_map body_of (get place_cmp functions.old p)) (body_at p (body_of body.entry))) }
{
    let place = body.function.name.place;
    if !functions.contains_key(&place) {
        functions.insert(place, body)?;
    }
    Ok(())
}

/// Returns the first function or method at each place of a name.
fn functions_by_place<'m>(
    alloc: Global,
    bodies: &[Body<'m>],
) -> Result<BTreeMap<Place, Body<'m>>, OutOfMemory>
    ensures { IfOk result (λ m. (p : PlaceOf) → option_map body_of (get place_cmp m p)
        ≡ body_among p (map body_of bodies.now)) }
{
    let mut functions = BTreeMap::new(alloc);
    for body in bodies {
        add_function(&mut functions, *body)?;
    }
    Ok(functions)
}

/// The nodes of a module that are at places of findings.
#[derive(Drop)]
pub struct Nodes<'m> {
    exprs: ByPlace<OwnedExpr<'m>>,
    targets: ByPlace<&'m Target>,
    anns: ByPlace<&'m Ann>,
    callees: BTreeMap<Place, ()>,
    functions: BTreeMap<Place, Body<'m>>,
}

/// Returns the expressions of a module, each before its parts, with their owners.
pub fn module_exprs<'m>(
    alloc: Global,
    definitions: &Definitions<'m>,
    bodies: &[Body<'m>],
) -> Result<Vec<OwnedExpr<'m>>, OutOfMemory>
    ensures { (m : ModuleOf) → HoldsDefinitions m definitions.now → map body_of bodies.now ≡ bodies_in m
        → IfOk result (λ v. map owned_of v.items ≡ exprs_of_module m) }
{
    all_exprs(alloc, &definitions.constants, bodies)
}

impl<'m> Nodes<'m> {
    /// Returns the nodes of a module at the places of findings, given its functions and methods and its expressions.
    pub fn of(
        alloc: Global,
        module: &'m Module,
        bodies: &[Body<'m>],
        exprs: &[OwnedExpr<'m>],
        findings: &[Finding],
    ) -> Result<Nodes<'m>, OutOfMemory>
        requires bodies { map body_of bodies.now ≡ bodies_in (module_of «module».now) }
        requires exprs { map owned_of exprs.now ≡ exprs_of_module (module_of «module».now) }
        ensures { IfOk result (HoldsNodes (module_of «module».now) findings.now) }
    {
        let stmts = all_stmts(alloc, bodies)?;
        let targets = assigned_targets(alloc, &stmts)?;
        let anns = all_anns(alloc, module)?;
        Ok(Nodes {
            exprs: exprs_by_place(alloc, findings, exprs)?,
            targets: targets_by_place(alloc, findings, &targets)?,
            anns: anns_by_place(alloc, findings, &anns)?,
            callees: callees_among(alloc, exprs)?,
            functions: functions_by_place(alloc, bodies)?,
        })
    }

    /// Returns the expressions at the place of a finding, each before its parts, in text order of constants and then of
    /// bodies.
    pub fn exprs_at(&self, place: Place) -> &[OwnedExpr<'m>]
        ensures { result.now ≡ exprs_held self.now place }
    {
        self.exprs.at(place)
    }

    /// Returns the targets of assignments at the place of a finding.
    pub fn targets_at(&self, place: Place) -> &[&'m Target]
        ensures { result.now ≡ targets_held self.now place }
    {
        self.targets.at(place)
    }

    /// Returns the annotations at the place of a finding, whole or parts of others.
    pub fn anns_at(&self, place: Place) -> &[&'m Ann]
        ensures { result.now ≡ anns_held self.now place }
    {
        self.anns.at(place)
    }

    /// Returns whether the expression at a place is a callee.
    pub fn is_callee_at(&self, place: Place) -> bool
        ensures { result ≡ is_some (get place_cmp self.now.callees place) }
    {
        self.callees.contains_key(&place)
    }

    /// Returns the first function or method whose name is at a place.
    pub fn body_named_at(&self, place: Place) -> Option<&Body<'m>>
        ensures { option_map (λ b. b.now) result ≡ get place_cmp self.now.functions place }
    {
        self.functions.get(&place)
    }
}
