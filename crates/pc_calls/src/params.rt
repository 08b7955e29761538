//! Arguments for free parameters, and calls that suit a built-in.

ghost use Rattle.std.specs.Prelude.{◌≡◌, List, length};
ghost use Rattle.pc_types.specs.Tree.{Tree};
ghost use Rattle.pc_rules.specs.Calls.{is_suited, is_free, builtin_signature};
ghost use Rattle.pc_calls.specs.JudgedCalls.{given_with};

use crate::arguments::Given;

/// Returns whether a parameter of this number, if there is one, is past those that arguments by position fill.
pub fn is_free(positional: usize, number: Option<usize>) -> bool
    ensures { result ≡ is_free positional number }
{
    match number {
        Some(number) => positional <= number,
        None => false,
    }
}

/// Returns whether a call suits a built-in with this many parameters, which cannot be given by name.
pub fn is_suited_by(given: &Given, count: usize) -> bool
    ensures { (types : List Tree) (returns : Tree) → length types ≡ count
        → result ≡ is_suited (given_with given.now) (builtin_signature types returns) }
{
    given.positional == count && given.named.is_empty()
}
