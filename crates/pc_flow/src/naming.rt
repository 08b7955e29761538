//! The local that an expression names, and the test by a second argument of `isinstance`.

ghost use Rattle.std.specs.Prelude.{◌≡◌};
ghost use Rattle.pc_tree.specs.Tree.{expr_of};
ghost use Rattle.pc_flow.specs.Narrowing.{as_local, local_named, test_named, test_of};
ghost use Rattle.pc_flow.specs.Tests.{option_tested};
ghost use Rattle.pc_flow.specs.Naming.{meanings};

use crate::testing::Test;
use pc_scope::{Builtin, NameMeaning, Owner, Scopes};
use pc_tree::Expr;

/// The names of an owner, resolved by the scopes of its module. The owner is the module or a function or method of it.
#[derive(Drop)]
pub struct OwnerNames<'s> {
    pub scopes: &'s Scopes,
    pub owner: Owner,
}

impl<'s> OwnerNames<'s> {
    /// Returns the meaning of a name, which must be in normal form NFKC. Language Reference 4.2.2 "Resolution of
    /// names".
    pub fn resolve(&self, name: &str) -> NameMeaning
        ensures { result ≡ meanings self.now name.now }
    {
        self.scopes.resolve(self.owner, name)
    }
}

/// Returns the local that a name means, if it means a local.
fn as_local(meaning: NameMeaning) -> Option<usize>
    ensures { result ≡ as_local meaning }
{
    match meaning {
        NameMeaning::Local(local) => Some(local),
        _ => None,
    }
}

/// Returns the local that an expression names, if it is the name of a local. Language Reference 4.2.2 "Resolution of
/// names".
pub fn local_named(names: &OwnerNames, e: &Expr) -> Option<usize>
    ensures { result ≡ local_named (meanings names.now) (expr_of e.now) }
{
    match e {
        Expr::Name(name) => as_local(names.resolve(name.text.as_str())),
        _ => None,
    }
}

/// Returns the test by `isinstance` with a name of this meaning, if it is one.
fn test_named(meaning: NameMeaning) -> Option<Test>
    ensures { option_tested result ≡ test_named meaning }
{
    match meaning {
        NameMeaning::Class(class) => Some(Test::Class(class)),
        NameMeaning::Builtin(Builtin::Int) => Some(Test::Int),
        NameMeaning::Builtin(Builtin::Str) => Some(Test::Str),
        NameMeaning::Builtin(Builtin::Bool) => Some(Test::Bool),
        NameMeaning::Builtin(Builtin::List) => Some(Test::List),
        _ => None,
    }
}

/// Returns the test by `isinstance` with this second argument, if it is one. Own rule of the profile.
pub fn test_of(names: &OwnerNames, e: &Expr) -> Option<Test>
    ensures { option_tested result ≡ test_of (meanings names.now) (expr_of e.now) }
{
    match e {
        Expr::Name(name) => test_named(names.resolve(name.text.as_str())),
        _ => None,
    }
}
