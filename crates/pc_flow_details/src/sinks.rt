//! Where the values of a module go: for each wrong or dynamic flow its first sink.

ghost use Rattle.std.specs.Prelude.{◌≡◌, IfOk, OnOk, flat_map, map, option_map};
ghost use Rattle.pc_source.specs.declared.place.Place.{Place as PlaceOf};
ghost use Rattle.pc_tree.specs.declared.code.Code.TheVariants.{A1, E12};
ghost use Rattle.pc_tree.specs.Lists.{branches_of_list};
ghost use Rattle.pc_tree.specs.Tree.{class_of, constant_of, member_of, option_expr_of, option_literal_of, param_of, stmt_of};
ghost use Rattle.pc_tree.specs.Tree.{stmts_of_list};
ghost use Rattle.pc_scope.specs.declared.resolution.Owner.TheVariants as owners;
ghost use Rattle.pc_scope.specs.Bindings.{bodies as bodies_in, classes_in, constants_in};
ghost use Rattle.pc_flow_details.specs.Goes.{IsHeldSink, sink_held};
ghost use Rattle.pc_detail_facts.specs.Held.{AreFacts, body_of, known_held, module_held};
ghost use Rattle.pc_flow_details.specs.Kept.{first_of_both, flow_kept, flows_to_sinks, flows_kept, taken_below, taken_in_body};
ghost use Rattle.pc_detail_rules.specs.Nodes.{function_name, stmts_in, stmts_in_branches, stmts_in_suite};
ghost use Rattle.pc_flow_details.specs.Locals.{AreLocals};
ghost use Rattle.pc_detail_facts.specs.Annotated.{annotation_lent};
ghost use Rattle.pc_detail_rules.specs.Sinks.{default_sink, default_of_field, sinks_of};
ghost use Rattle.pc_detail_rules.specs.ToldTypes.{told_among};
ghost use Rattle.pc_detail_rules.specs.Written.{annotated_locals};
ghost use Rattle.pc_detail_rules.specs.Sinks.{parameter_default, sinks_of_body, sinks_of_class};
ghost use Rattle.pc_detail_rules.specs.Sinks.{sinks_of_constant, sinks_of_stmt, value_place};

use crate::expression_sinks::{search, search_suite};
use crate::locals::LocalAnnotations;
use crate::sink::{SinkOf, Sinks, add_only};
use crate::stores::add_assigned;
use pc_detail_facts::{Body, Facts, option_ann};
use pc_scope::Owner;
use pc_source::{OutOfMemory, Place};
use pc_tree::{Ann, Branch, ClassDef, Constant, Expr, Literal, Member, Param, Stmt, StmtKind};
use std::collections::BTreeMap;

impl Sinks {
    /// Returns the wrong and the dynamic flows of a module with their sinks.
    pub fn of<'c>(facts: &Facts<'c, '_>, bodies: &[Body<'c>]) -> Result<Sinks, OutOfMemory>
        requires facts { AreFacts facts.now }
        requires bodies { map body_of bodies.now ≡ bodies_in (module_held facts.now) }
        ensures wrong { IfOk result (λ s. (place : PlaceOf) → flow_kept s.wrong place
            ≡ told_among (module_held facts.now) (sinks_of (module_held facts.now) (known_held facts.now)) place
            ((known_held facts.now).flows E12 place)) }
        ensures dynamic { IfOk result (λ s. (place : PlaceOf) → flow_kept s.dynamic place
            ≡ told_among (module_held facts.now) (sinks_of (module_held facts.now) (known_held facts.now)) place
            ((known_held facts.now).flows A1 place)) }
    {
        let wrong = BTreeMap::new(facts.alloc);
        let dynamic = BTreeMap::new(facts.alloc);
        let mut sinks = Sinks { wrong, dynamic };
        add_constants(facts, &mut sinks)?;
        add_classes(facts, &mut sinks)?;
        add_functions(facts, &mut sinks, bodies)?;
        search_constants(facts, &mut sinks)?;
        search_bodies(facts, &mut sinks, bodies)?;
        Ok(sinks)
    }
}

/// Adds the sinks of the values of constants.
fn add_constants(facts: &Facts<'_, '_>, sinks: &mut Sinks) -> Result<(), OutOfMemory>
    requires { AreFacts facts.now }
    ensures { OnOk result (flows_kept sinks.new ≡ first_of_both (flows_kept sinks.old) (flows_to_sinks facts.now
        (flat_map sinks_of_constant
        (constants_in (module_held facts.now).items)))) }
{
    for constant in &facts.definitions.constants {
        add_constant(facts, sinks, *constant)?;
    }
    Ok(())
}

/// Adds the sink of the value of a constant.
fn add_constant<'c>(
    facts: &Facts<'c, '_>,
    sinks: &mut Sinks,
    constant: &'c Constant,
) -> Result<(), OutOfMemory>
    requires { AreFacts facts.now }
    ensures { OnOk result (flows_kept sinks.new ≡ first_of_both (flows_kept sinks.old)
        (flows_to_sinks facts.now (sinks_of_constant (constant_of constant.now)))) }
{
    let sink = SinkOf::Constant(constant.name.text.as_str());
    let written = option_ann(&constant.annotation);
    add_only(facts, sinks, constant.value.place(), sink, written)
}

/// Adds the sinks of the defaults of fields.
fn add_classes(facts: &Facts<'_, '_>, sinks: &mut Sinks) -> Result<(), OutOfMemory>
    requires { AreFacts facts.now }
    ensures { OnOk result (flows_kept sinks.new ≡ first_of_both (flows_kept sinks.old) (flows_to_sinks facts.now
        (flat_map sinks_of_class (classes_in (module_held facts.now).items)))) }
{
    for class in &facts.definitions.classes {
        add_class(facts, sinks, *class)?;
    }
    Ok(())
}

/// Adds the sinks of the defaults of the fields of a class.
fn add_class<'c>(
    facts: &Facts<'c, '_>,
    sinks: &mut Sinks,
    class: &'c ClassDef,
) -> Result<(), OutOfMemory>
    requires { AreFacts facts.now }
    ensures { OnOk result (flows_kept sinks.new ≡ first_of_both (flows_kept sinks.old) (flows_to_sinks facts.now
        (sinks_of_class (class_of class.now)))) }
{
    for member in &class.members {
        add_member(facts, sinks, class, member)?;
    }
    Ok(())
}

/// Adds the sink of the default of a member of a class, if it has one.
fn add_member<'c>(
    facts: &Facts<'c, '_>,
    sinks: &mut Sinks,
    class: &'c ClassDef,
    member: &'c Member,
) -> Result<(), OutOfMemory>
    requires { AreFacts facts.now }
    ensures { OnOk result (flows_kept sinks.new ≡ first_of_both (flows_kept sinks.old) (flows_to_sinks facts.now
        (default_of_field (class_of class.now).name.text (member_of member.now)))) }
{
    match member {
        Member::Field(field) => {
            let sink = SinkOf::FieldDefault(class.name.text.as_str(), field.name.text.as_str());
            add_default(facts, sinks, &field.default, sink, Some(&field.annotation))
        }
        Member::Method(_) => Ok(()),
    }
}

/// Adds the sink of a default, if there is one, with its annotation.
#[tactic(auto, using(crate::proofs::Stored::literal_at))]
fn add_default<'c>(
    facts: &Facts<'c, '_>,
    sinks: &mut Sinks,
    default: &Option<Literal>,
    sink: SinkOf<'c>,
    written: Option<&'c Ann>,
) -> Result<(), OutOfMemory>
    requires facts { AreFacts facts.now }
    requires held { IsHeldSink sink }
    ensures { OnOk result (flows_kept sinks.new ≡ first_of_both (flows_kept sinks.old) (flows_to_sinks facts.now
        (default_sink (sink_held facts.now sink.entry) (option_map annotation_lent written.entry)
        (option_literal_of default.now)))) }
{
    match default {
        Some(literal) => add_only(facts, sinks, literal.place, sink, written),
        None => Ok(()),
    }
}

/// Adds the sinks in functions and methods: of their defaults, and in their statements.
fn add_functions<'c>(
    facts: &Facts<'c, '_>,
    sinks: &mut Sinks,
    bodies: &[Body<'c>],
) -> Result<(), OutOfMemory>
    requires { AreFacts facts.now }
    ensures { OnOk result (flows_kept sinks.new ≡ first_of_both (flows_kept sinks.old) (flows_to_sinks facts.now
        (flat_map (sinks_of_body (module_held facts.now) (known_held facts.now)) (map body_of bodies.now)))) }
{
    for body in bodies {
        add_function(facts, sinks, *body)?;
    }
    Ok(())
}

/// Adds the sinks in a function or method: of its defaults, and in its statements.
fn add_function<'c>(
    facts: &Facts<'c, '_>,
    sinks: &mut Sinks,
    body: Body<'c>,
) -> Result<(), OutOfMemory>
    requires { AreFacts facts.now }
    ensures { OnOk result (flows_kept sinks.new ≡ first_of_both (flows_kept sinks.old)
        (flows_to_sinks facts.now (sinks_of_body (module_held facts.now) (known_held facts.now) (body_of body.entry)))) }
{
    add_parameters(facts, sinks, body, &body.function.params)?;
    let locals = LocalAnnotations::of(facts.alloc, body.function)?;
    add_suite(facts, sinks, body, &locals, &body.function.body)
}

/// Adds the sinks of the defaults of the parameters of a function.
fn add_parameters<'c>(
    facts: &Facts<'c, '_>,
    sinks: &mut Sinks,
    body: Body<'c>,
    params: &'c [Param],
) -> Result<(), OutOfMemory>
    requires { AreFacts facts.now }
    ensures { OnOk result (flows_kept sinks.new ≡ first_of_both (flows_kept sinks.old) (flows_to_sinks facts.now
        (flat_map (parameter_default (function_name (module_held facts.now) (body_of body.entry)))
        (map param_of params.now)))) }
{
    for param in params {
        add_parameter(facts, sinks, body, param)?;
    }
    Ok(())
}

/// Adds the sink of the default of a parameter of a function, if it has one.
fn add_parameter<'c>(
    facts: &Facts<'c, '_>,
    sinks: &mut Sinks,
    body: Body<'c>,
    param: &'c Param,
) -> Result<(), OutOfMemory>
    requires { AreFacts facts.now }
    ensures { OnOk result (flows_kept sinks.new ≡ first_of_both (flows_kept sinks.old) (flows_to_sinks facts.now
        (parameter_default (function_name (module_held facts.now) (body_of body.entry)) (param_of param.now)))) }
{
    let sink = SinkOf::ParameterDefault(body, param.name.text.as_str());
    let written = option_ann(&param.annotation);
    add_default(facts, sinks, &param.default, sink, written)
}

/// Adds the sinks of the statements of a suite.
#[cycle(statements)]
fn add_suite<'c>(
    facts: &Facts<'c, '_>,
    sinks: &mut Sinks,
    body: Body<'c>,
    locals: &LocalAnnotations<'c>,
    suite: &'c [Stmt],
) -> Result<(), OutOfMemory>
    requires facts { AreFacts facts.now }
    requires locals { AreLocals locals.now (annotated_locals (body_of body).function) }
    ensures { OnOk result (flows_kept sinks.new ≡ first_of_both (flows_kept sinks.old) (flows_to_sinks facts.now
        (flat_map (sinks_of_stmt (module_held facts.now) (known_held facts.now) (body_of body.entry))
        (stmts_in_suite (stmts_of_list suite.now))))) }
{
    for statement in suite {
        add_nested(facts, sinks, body, locals, statement)?;
    }
    Ok(())
}

/// Adds the sinks of a statement, and of the statements in its suites.
#[cycle(statements)]
fn add_nested<'c>(
    facts: &Facts<'c, '_>,
    sinks: &mut Sinks,
    body: Body<'c>,
    locals: &LocalAnnotations<'c>,
    statement: &'c Stmt,
) -> Result<(), OutOfMemory>
    requires facts { AreFacts facts.now }
    requires locals { AreLocals locals.now (annotated_locals (body_of body).function) }
    ensures { OnOk result (flows_kept sinks.new ≡ first_of_both (flows_kept sinks.old) (flows_to_sinks facts.now
        (flat_map (sinks_of_stmt (module_held facts.now) (known_held facts.now) (body_of body.entry)) (stmts_in (stmt_of statement.now))))) }
{
    add_statement(facts, sinks, body, locals, statement)?;
    let (branches, last) = statement.kind.suites();
    add_branches(facts, sinks, body, locals, branches)?;
    add_suite(facts, sinks, body, locals, last)
}

/// Adds the sinks of the statements of branches.
#[cycle(statements)]
fn add_branches<'c>(
    facts: &Facts<'c, '_>,
    sinks: &mut Sinks,
    body: Body<'c>,
    locals: &LocalAnnotations<'c>,
    branches: &'c [Branch],
) -> Result<(), OutOfMemory>
    requires facts { AreFacts facts.now }
    requires locals { AreLocals locals.now (annotated_locals (body_of body).function) }
    ensures { OnOk result (flows_kept sinks.new ≡ first_of_both (flows_kept sinks.old) (flows_to_sinks facts.now
        (flat_map (sinks_of_stmt (module_held facts.now) (known_held facts.now) (body_of body.entry))
        (stmts_in_branches (branches_of_list branches.now))))) }
{
    for branch in branches {
        add_suite(facts, sinks, body, locals, &branch.body)?;
    }
    Ok(())
}

/// Adds the sinks of a statement: of the value that it returns, binds or stores, or of the item of a loop.
fn add_statement<'c>(
    facts: &Facts<'c, '_>,
    sinks: &mut Sinks,
    body: Body<'c>,
    locals: &LocalAnnotations<'c>,
    statement: &'c Stmt,
) -> Result<(), OutOfMemory>
    requires facts { AreFacts facts.now }
    requires locals { AreLocals locals.now (annotated_locals (body_of body).function) }
    ensures { OnOk result (flows_kept sinks.new ≡ first_of_both (flows_kept sinks.old) (flows_to_sinks facts.now
        (sinks_of_stmt (module_held facts.now) (known_held facts.now) (body_of body.entry) (stmt_of statement.now)))) }
{
    match &statement.kind {
        StmtKind::Return(value) => {
            let place = value_place(statement.first, value);
            let written = option_ann(&body.function.returns);
            add_only(facts, sinks, place, SinkOf::Return(body), written)
        }
        StmtKind::Annotated {
            target: name,
            value,
            ..
        } => {
            let place = value_place(statement.first, value);
            let name = name.text.as_str();
            add_only(facts, sinks, place, SinkOf::Local(name), locals.get(name))
        }
        StmtKind::Assign(target, value) => add_assigned(facts, sinks, locals, target, value),
        StmtKind::For {
            target: name,
            iterable,
            ..
        } => {
            let name = name.text.as_str();
            let sink = SinkOf::LoopTarget(name);
            add_only(facts, sinks, iterable.place(), sink, locals.get(name))
        }
        StmtKind::Pass | StmtKind::Break | StmtKind::Continue => Ok(()),
        StmtKind::Assert(_, _) | StmtKind::Expr(_) => Ok(()),
        StmtKind::While(_, _) | StmtKind::If(_, _) => Ok(()),
    }
}

/// Adds the sinks in the values of constants.
fn search_constants(facts: &Facts<'_, '_>, sinks: &mut Sinks) -> Result<(), OutOfMemory>
    requires { AreFacts facts.now }
    ensures { OnOk result (flows_kept sinks.new ≡ first_of_both (flows_kept sinks.old)
        (flows_to_sinks facts.now (taken_below facts.now owners.Module (map (λ c. c.value)
        (constants_in (module_held facts.now).items))))) }
{
    for constant in &facts.definitions.constants {
        search(facts, sinks, Owner::Module, &constant.value)?;
    }
    Ok(())
}

/// Adds the sinks in the expressions of functions and methods.
fn search_bodies<'c>(
    facts: &Facts<'c, '_>,
    sinks: &mut Sinks,
    bodies: &[Body<'c>],
) -> Result<(), OutOfMemory>
    requires { AreFacts facts.now }
    ensures { OnOk result (flows_kept sinks.new ≡ first_of_both (flows_kept sinks.old)
        (flows_to_sinks facts.now (flat_map (taken_in_body facts.now) (map body_of bodies.now)))) }
{
    for body in bodies {
        search_body(facts, sinks, *body)?;
    }
    Ok(())
}

/// Adds the sinks in the expressions of a function or method.
fn search_body<'c>(
    facts: &Facts<'c, '_>,
    sinks: &mut Sinks,
    body: Body<'c>,
) -> Result<(), OutOfMemory>
    requires { AreFacts facts.now }
    ensures { OnOk result (flows_kept sinks.new ≡ first_of_both (flows_kept sinks.old)
        (flows_to_sinks facts.now (taken_in_body facts.now (body_of body.entry)))) }
{
    search_suite(facts, sinks, body.owner, &body.function.body)
}

/// Returns the place of a value, or this one if there is none.
fn value_place(place: Place, value: &Option<Box<Expr>>) -> Place
    ensures { result ≡ value_place place (option_expr_of value.now) }
{
    match value {
        Some(value) => value.place(),
        None => place,
    }
}
