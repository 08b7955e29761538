//! The locals that a condition tests.

ghost use Rattle.std.specs.Prelude.{◌≡◌, ◌++◌, ℕ, IfOk, OnOk};
ghost use Rattle.std.specs.Option.{option_to_list};
ghost use Rattle.pc_tree.specs.Tree.{expr_of};
ghost use Rattle.pc_tree.specs.Lists.{exprs_of_list, keywords_of_list};
ghost use Rattle.pc_scope.specs.Expressions.{is_instance_test};
ghost use Rattle.pc_flow.specs.Agreement.{is_among};
ghost use Rattle.pc_flow.specs.Narrowing.{first_argument, local_named, local_of_argument};
ghost use Rattle.pc_flow.specs.Narrowing.{tested_by_call, tested_locals};
ghost use Rattle.pc_flow.specs.Naming.{meanings};

use crate::naming::{OwnerNames, local_named};
use pc_scope::is_instance_test;
use pc_source::OutOfMemory;
use pc_tree::{Expr, KeywordArgument};
use std::alloc::Global;

/// Appends the local that an expression names, if it is the name of a local.
fn add_named(names: &OwnerNames, e: &Expr, tested: &mut Vec<usize>) -> Result<(), OutOfMemory>
    ensures { OnOk result
        (tested.new.items ≡ tested.old.items ++ option_to_list (local_named (meanings names.now) (expr_of e.now))) }
{
    match local_named(names, e) {
        None => Ok(()),
        Some(local) => {
            tested.push(local)?;
            Ok(())
        }
    }
}

/// Appends the local that a call tests, if it is an `isinstance` test.
fn add_tested_by_call(
    names: &OwnerNames,
    callee: &Expr,
    arguments: &[Expr],
    by_name: &[KeywordArgument],
    tested: &mut Vec<usize>,
) -> Result<(), OutOfMemory>
    ensures { OnOk result
        (tested.new.items ≡ tested.old.items
        ++ tested_by_call (is_instance_test (expr_of callee.now) (exprs_of_list arguments.now)
        (keywords_of_list by_name.now))
        (local_of_argument (meanings names.now) (first_argument (exprs_of_list arguments.now)))) }
{
    if !is_instance_test(callee, arguments, by_name) {
        return Ok(());
    }
    match arguments {
        [first, ..] => add_named(names, first, tested),
        [] => Ok(()),
    }
}

/// Appends the locals that a condition tests, against `None` or by `isinstance`, in text order, each as often as it is
/// tested. Typing specification, "Type narrowing".
pub fn add_tested(
    names: &OwnerNames,
    condition: &Expr,
    tested: &mut Vec<usize>,
) -> Result<(), OutOfMemory>
    ensures { OnOk result
        (tested.new.items ≡ tested.old.items ++ tested_locals (meanings names.now) (expr_of condition.now)) }
{
    match condition {
        Expr::IsNone(_, e) => add_named(names, e, tested),
        Expr::IsNotNone(_, e) => add_named(names, e, tested),
        Expr::Not(_, e) => add_tested(names, e, tested),
        Expr::And {
            left: a,
            right: b,
            ..
        } => {
            add_tested(names, a, tested)?;
            add_tested(names, b, tested)
        }
        Expr::Or {
            left: a,
            right: b,
            ..
        } => {
            add_tested(names, a, tested)?;
            add_tested(names, b, tested)
        }
        Expr::Call {
            callee,
            arguments,
            keywords: by_name,
            ..
        } => { add_tested_by_call(names, callee, arguments, by_name, tested) }
        Expr::Name(_)
        | Expr::Int(_, _)
        | Expr::Str(_, _)
        | Expr::True(_)
        | Expr::False(_)
        | Expr::NoneValue(_)
        | Expr::Tuple(_, _)
        | Expr::List(_, _)
        | Expr::Dict(_, _)
        | Expr::Negative(_, _)
        | Expr::Binary { .. }
        | Expr::Compare { .. }
        | Expr::Attribute { .. }
        | Expr::Index { .. } => Ok(()),
    }
}

/// Returns the locals that at least one of two conditions tests, each once, in ascending order.
pub(crate) fn tested_by_both(
    alloc: Global,
    names: &OwnerNames,
    left: &Expr,
    right: &Expr,
) -> Result<Vec<usize>, OutOfMemory>
    ensures { (x : ℕ) → IfOk result (λ tested. is_among tested.items x
        ≡ is_among (tested_locals (meanings names.now) (expr_of left.now)
        ++ tested_locals (meanings names.now) (expr_of right.now)) x) }
{
    let mut tested = Vec::new(alloc);
    add_tested(names, left, &mut tested)?;
    add_tested(names, right, &mut tested)?;
    tested.sort_unstable();
    tested.dedup();
    Ok(tested)
}
