//! The scopes of a module.

ghost use Rattle.std.specs.Prelude.{◌≡◌, length};
ghost use Rattle.pc_tree.specs.Tree.{Module as Tree};
ghost use Rattle.pc_scope.specs.Resolution.{resolve, locals_of};
ghost use Rattle.pc_scope.specs.Tables.{meaning_by_tables};
ghost use Rattle.pc_scope.specs.ModuleScopes.{ModuleScopes, AreScopes};

use crate::resolution::{NameMeaning, Owner};
use crate::tables::Names;
use std::marker::Model;

/// The scopes of a module, which resolve its names.
#[derive(Drop)]
pub struct Scopes {
    pub(crate) names: Names,
}

impl Model for Scopes {
    ghost Value = { ModuleScopes };

    ghost view = { λ s. record { tables = s.names } };
}

impl Scopes {
    /// Returns the meaning of a name to its owner: the module, or a function or method of it. The name must be in
    /// normal form NFKC. Language Reference 4.2.2 "Resolution of names".
    pub fn resolve(&self, owner: Owner, name: &str) -> NameMeaning
        ensures by_tables { result ≡ meaning_by_tables self.now.tables owner name.now }
        ensures resolved { (m : Tree) → AreScopes m self.now → result ≡ resolve m owner name.now }
    {
        self.names.mean(owner, name)
    }

    /// Returns the number of locals of an owner: the module, which has none, or a function or method of it. Locals are
    /// numbered from 0. Language Reference 4.2.1 "Binding of names".
    pub fn count_locals(&self, owner: Owner) -> usize
        ensures { (m : Tree) → AreScopes m self.now → result ≡ length (locals_of m owner) }
    {
        self.names.count_locals(owner)
    }
}
