//! The forms of calls and of a `for`'s iterable.

ghost use Rattle.std.specs.Prelude.{◌≡◌, ◌<◌, ◌+◌, ◌-◌, ◌^◌, ℕ};
ghost use Rattle.pc_tree.specs.Tree.{expr_of};
ghost use Rattle.pc_value.specs.Meaning.{value_of};
ghost use Rattle.pc_machine.specs.Evaluation.{is_none_value, value_of_flow, call_form, iterable_form};
ghost use Rattle.pc_machine.specs.Machine.{flow_of};
ghost use Rattle.pc_run.specs.Internal.CallForms.{form_seen, range_seen};
ghost use Rattle.pc_tree.specs.Lists.{exprs_of_list, keywords_of_list};
ghost use Rattle.pc_value.specs.declared.action.Iteration.{Iteration as RustIteration};
ghost use Rattle.pc_value.specs.declared.action.Action.TheVariants as rust_action;
ghost use Rattle.pc_machine.specs.declared.state.Callee.TheVariants as callee;

use pc_machine::Completion;
use pc_source::Place;
use pc_tree::{Expr, KeywordArgument, Name};
use pc_value::{Action, Value};

/// Returns whether a value is None.
pub fn is_nothing(value: &Value) -> bool
    ensures { result ≡ is_none_value (value_of value.now) }
{
    match value {
        Value::None => true,
        Value::Int(_) => false,
        Value::Bool(_) => false,
        Value::Str(_) => false,
        Value::Tuple(_) => false,
        Value::Location(_) => false,
    }
}

/// Returns the value of a call, given the way its body ended.
pub fn value_of_flow(flow: Completion) -> Value
    ensures { value_of result ≡ value_of_flow (flow_of flow) }
{
    match flow {
        Completion::Next => Value::None,
        Completion::Breaking => Value::None,
        Completion::Continuing => Value::None,
        Completion::Leaves(value) => value,
    }
}

/// Returns the callee, object and test of a call of the form `isinstance(e, T)`; `None` for any other call.
pub fn instance_test<'m>(
    callee: &'m Expr,
    arguments: &'m [Expr],
    by_name: &'m [KeywordArgument],
) -> Option<(&'m Name, &'m Expr, &'m Expr)>
    ensures { form_seen result
        ≡ call_form (expr_of callee.now) (exprs_of_list arguments.now) (keywords_of_list by_name.now) }
{
    let Expr::Name(name) = callee else {
        return None;
    };
    if arguments.len() != 2 {
        return None;
    }
    if !by_name.is_empty() {
        return None;
    }
    if name.text.as_str() != "isinstance" {
        return None;
    }
    Some((name, &arguments[0], &arguments[1]))
}

/// Returns the place, name and arguments of a call of `range`; `None` for any other expression.
pub fn range_call<'m>(e: &'m Expr) -> Option<(Place, &'m Name, &'m [Expr], &'m [KeywordArgument])>
    ensures { range_seen result ≡ iterable_form (expr_of e.now) }
{
    let Expr::Call {
        place,
        callee,
        arguments,
        keywords: by_name,
    } = e
    else {
        return None;
    };
    let Expr::Name(name) = callee.as_ref() else {
        return None;
    };
    if name.text.as_str() == "range" {
        Some((*place, name, arguments, by_name))
    } else {
        None
    }
}

/// Advances the action to the next turn of a `for`.
pub fn advance(turn: &mut Action)
    requires { (over : RustIteration) × ((i : ℕ) × ((turn.now ≡ rust_action.Turn over i) × (i < 2 ^ 64 - 1))) }
    ensures { (over : RustIteration) (i : ℕ) → turn.old ≡ rust_action.Turn over i
        → turn.new ≡ rust_action.Turn over (i + 1) }
{
    if let Action::Turn(_, index) = turn {
        *index += 1;
    }
}
