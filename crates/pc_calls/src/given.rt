//! The arguments that a call gives, by position and by name.

ghost use Rattle.std.specs.Prelude.{◌≡◌, IfOk};
ghost use Rattle.pc_tree.specs.Lists.{exprs_of_list, keywords_of_list};
ghost use Rattle.pc_rules.specs.Calls.{arguments_given};
ghost use Rattle.pc_calls.specs.JudgedCalls.{given_with};

use crate::arguments::Given;
use indexmap::IndexSet;
use pc_source::OutOfMemory;
use pc_tree::{Expr, Keys, KeywordArgument};
use std::alloc::Global;

/// Counts the arguments of a call by position and collects the names of those by name, each once. Language Reference
/// 6.3.4 "Calls".
pub fn given<'e>(
    alloc: Global,
    keys: Keys,
    arguments: &'e [Expr],
    by_name: &'e [KeywordArgument],
) -> Result<Given<'e>, OutOfMemory>
    ensures { IfOk result (λ g. given_with g
        ≡ arguments_given (exprs_of_list arguments.now) (keywords_of_list by_name.now)) }
{
    let mut named = IndexSet::with_hasher(alloc, keys);
    for argument in by_name {
        named.insert(argument.name.text.as_str())?;
    }
    Ok(Given {
        positional: arguments.len(),
        named,
    })
}
