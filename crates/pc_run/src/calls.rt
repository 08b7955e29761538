//! Calls: the callee, its arguments, and the body that is entered.

ghost use Rattle.std.specs.Prelude.{◌≤◌, ◌<◌, ℕ, map};
ghost use Rattle.pc_tree.specs.Tree.{expr_of};
ghost use Rattle.pc_value.specs.Meaning.{value_of};
ghost use Rattle.pc_run.specs.Internal.Nodes.{call_in, test_in};
ghost use Rattle.pc_run.specs.Internal.Nodes.{entered_body};
ghost use Rattle.pc_machine.specs.Performed.{callee_in, callee_called};
ghost use Rattle.pc_machine.specs.Machine.{TellsProgress, progress_of, named_of, callee_seen, value_if_any};
ghost use Rattle.pc_machine.specs.Machine.{method_of_def};
ghost use Rattle.pc_tree.specs.Lists.{exprs_of_list, keywords_of_list};
ghost use Rattle.pc_tree.specs.Tree.{attribute, name_of};

use crate::evaluate::{eval, eval_all, eval_keywords};
use crate::forms::{instance_test, value_of_flow};
use crate::statements::exec;
use pc_machine::{Callee, Halt, Machine, NamedValue, raised};
use pc_source::Place;
use pc_tree::{Expr, FuncDef, KeywordArgument, Name};
use pc_value::{Exception, Value};
use std::alloc::Global;

/// Evaluates a callee before the arguments: a name or an attribute is looked up, and its event recorded.
#[cycle(evaluate)]
#[inline(never)]
fn eval_callee<'m>(
    machine: &mut Machine<'m>,
    alloc: Global,
    callee: &'m Expr,
) -> Result<Callee<'m>, Halt>
    ensures plain { (n : ℕ) → machine.old.fuel < n
        → TellsProgress callee_seen result machine.new (callee_in n (expr_of callee.now) (progress_of machine.old)) }
    ensures fuel { machine.new.fuel ≤ machine.old.fuel }
{
    if let Expr::Name(name) = callee {
        return machine.callee_of_name(alloc, name);
    }
    if let Expr::Attribute {
        place,
        object,
        name: method,
    } = callee
    {
        machine.charge()?;
        let v = eval(machine, alloc, object)?;
        return machine.callee_of_attribute(alloc, *place, v, method.text.as_str());
    }
    let v = eval(machine, alloc, callee)?;
    Ok(Callee::Value(v))
}

/// Evaluates a test `isinstance(e, T)`, of whose arguments only the first is evaluated.
#[cycle(evaluate)]
#[inline(never)]
fn eval_instance_test<'m>(
    machine: &mut Machine<'m>,
    alloc: Global,
    place: Place,
    name: &'m Name,
    object: &'m Expr,
    test: &'m Expr,
) -> Result<Value, Halt>
    ensures plain { (n : ℕ) → machine.old.fuel < n
        → TellsProgress value_of result machine.new
        (test_in n place (name_of name.now) (expr_of object.now) (expr_of test.now) (progress_of machine.old)) }
    ensures fuel { machine.new.fuel ≤ machine.old.fuel }
{
    machine.charge()?;
    machine.emit(name.place)?;
    let v = eval(machine, alloc, object)?;
    machine.test_instance(place, &v, test)
}

/// Evaluates a call: the callee, the arguments, its event, its action. Language Reference 6.3.4 "Calls".
#[cycle(evaluate)]
#[inline(never)]
pub(crate) fn eval_call<'m>(
    machine: &mut Machine<'m>,
    alloc: Global,
    place: Place,
    callee: &'m Expr,
    arguments: &'m [Expr],
    by_name: &'m [KeywordArgument],
) -> Result<Value, Halt>
    ensures plain { (n : ℕ) → machine.old.fuel < n
        → TellsProgress value_of result machine.new
        (call_in n place (expr_of callee.now) (exprs_of_list arguments.now) (keywords_of_list by_name.now)
        (progress_of machine.old)) }
    ensures fuel { machine.new.fuel ≤ machine.old.fuel }
{
    if let Some((name, object, test)) = instance_test(callee, arguments, by_name) {
        return eval_instance_test(machine, alloc, place, name, object, test);
    }
    let called = eval_callee(machine, alloc, callee)?;
    let values = eval_all(machine, alloc, arguments)?;
    let named = eval_keywords(machine, alloc, by_name)?;
    machine.emit(place)?;
    call(machine, alloc, called, &values, &named)
}

/// Calls a callee with evaluated arguments and returns its value; a value that cannot be called is TypeError.
#[cycle(evaluate)]
#[inline(never)]
pub fn call<'m>(
    machine: &mut Machine<'m>,
    alloc: Global,
    callee: Callee<'m>,
    values: &[Value],
    named: &[NamedValue<'m>],
) -> Result<Value, Halt>
    ensures plain { (n : ℕ) → machine.old.fuel < n
        → TellsProgress value_of result machine.new
        (callee_called n (callee_seen callee.entry) (map value_of values.now) (map named_of named.now)
        (progress_of machine.old)) }
    ensures fuel { machine.new.fuel ≤ machine.old.fuel }
{
    match callee {
        Callee::Value(_) => Err(raised(Exception::TypeError)),
        Callee::Function(def) => enter(machine, alloc, def, None, values, named),
        Callee::Class(class) => machine.make_instance(alloc, class, values, named),
        Callee::Reserved(name) => machine.call_reserved(alloc, name, values, named),
        Callee::Method(object, def) => enter(machine, alloc, def, Some(object), values, named),
        Callee::BuiltinMethod(object, method) => machine.call_builtin_method(
            alloc, object, method, values, named,
        ),
    }
}

/// Runs the body of a function, or of a method with its object, in a frame of its own and returns its value.
#[cycle(evaluate)]
#[inline(never)]
fn enter<'m>(
    machine: &mut Machine<'m>,
    alloc: Global,
    def: &'m FuncDef,
    object: Option<Value>,
    values: &[Value],
    named: &[NamedValue<'m>],
) -> Result<Value, Halt>
    ensures plain { (n : ℕ) → machine.old.fuel < n
        → TellsProgress value_of result machine.new
        (entered_body n (method_of_def def.entry) (value_if_any object) (map value_of values.now)
        (map named_of named.now) (progress_of machine.old)) }
    ensures fuel { machine.new.fuel ≤ machine.old.fuel }
{
    let depth = machine.depth;
    let caller = machine.open(alloc, def, object, values, named)?;
    let ended = exec(machine, alloc, &def.body);
    machine.frame = caller;
    machine.depth = depth;
    Ok(value_of_flow(ended?))
}
