//! The number of arguments that a call gives by position, and the names of those given by name.

ghost use Rattle.std.specs.Prelude.{◌≡◌};
ghost use Rattle.pc_scope.specs.Resolution.{is_one_of};
ghost use Rattle.pc_rules.specs.Calls.{is_one, is_two};
ghost use Rattle.pc_calls.specs.JudgedCalls.{names_in, given_with};

use indexmap::IndexSet;
use pc_tree::Keys;

/// A set of names.
pub type KeywordNames<'e> = IndexSet<&'e str, Keys>;

/// The arguments that a call gives: the number of those by position, and the names of those by name, each once.
#[derive(Drop)]
pub struct Given<'e> {
    pub positional: usize,
    pub named: KeywordNames<'e>,
}

/// Returns whether a name is among these names.
pub fn is_among(names: &KeywordNames, name: &str) -> bool
    ensures { result ≡ is_one_of name.now (names_in names.now) }
{
    names.contains(name)
}

/// Returns whether there is exactly one argument, by position.
pub fn is_one(given: &Given) -> bool
    ensures { result ≡ is_one (given_with given.now) }
{
    given.positional == 1 && given.named.is_empty()
}

/// Returns whether there are exactly two arguments, by position.
pub fn is_two(given: &Given) -> bool
    ensures { result ≡ is_two (given_with given.now) }
{
    given.positional == 2 && given.named.is_empty()
}
