//! The `isinstance` test: the form of call that narrows a name.

ghost use Rattle.std.specs.Prelude.{◌≡◌, codes};
ghost use Rattle.pc_tree.specs.Tree.{expr_of};
ghost use Rattle.pc_tree.specs.Lists.{exprs_of_list, keywords_of_list};
ghost use Rattle.pc_scope.specs.Expressions.{is_named, are_two, is_instance_test};

use pc_tree::{Expr, KeywordArgument};

/// Returns whether an expression is the name `isinstance`.
fn is_isinstance(e: &Expr) -> bool
    ensures { result ≡ is_named (codes "isinstance") (expr_of e.now) }
{
    let Expr::Name(name) = e else {
        return false;
    };
    "isinstance" == name.text.as_str()
}

/// Returns whether there are exactly two positional arguments and no keyword argument.
fn are_two(arguments: &[Expr], by_name: &[KeywordArgument]) -> bool
    ensures { result ≡ are_two (exprs_of_list arguments.now) (keywords_of_list by_name.now) }
{
    if arguments.len() != 2 {
        return false;
    }
    by_name.is_empty()
}

/// Returns whether a call is an `isinstance` test: `isinstance` with exactly two positional arguments. Own rule of the
/// profile.
pub fn is_instance_test(callee: &Expr, arguments: &[Expr], by_name: &[KeywordArgument]) -> bool
    ensures { result ≡ is_instance_test (expr_of callee.now) (exprs_of_list arguments.now)
        (keywords_of_list by_name.now) }
{
    is_isinstance(callee) && are_two(arguments, by_name)
}
