//! The name tables of a module.

ghost use Rattle.std.specs.Prelude.{◌≡◌, length, map};
ghost use Rattle.pc_scope.specs.Resolution.{index_of};
ghost use Rattle.pc_scope.specs.Reserved.{beside};
ghost use Rattle.pc_scope.specs.Tables.{Tables, meaning_by_tables, locals_for};
ghost use Rattle.pc_scope.specs.Internal.WalkViews.{text_entry, locals_in, methods_texts, locals_seen};

use crate::globals::GlobalMeanings;
use crate::local_names::Locals;
use crate::reserved::builtin;
use crate::resolution::{NameMeaning, Owner};
use std::marker::Model;

/// The name tables of a module: the first binding of each name at module level, and the locals of its functions and
/// methods.
#[derive(Drop)]
pub struct Names {
    pub globals: GlobalMeanings,
    pub functions: Vec<Locals>,
    pub methods: Vec<Vec<Locals>>,
}

impl Model for Names {
    ghost Value = { Tables };

    ghost view = { λ s. record {
      globals = map text_entry s.globals.entries;
      functions = map locals_in s.functions.items;
      methods = map methods_texts s.methods.items;
    } };
}

impl Names {
    /// Returns the locals of an owner, or `None` unless it is a function or method of the module.
    fn locals(&self, owner: Owner) -> Option<&Locals>
        ensures { locals_seen result ≡ locals_for self.now owner }
    {
        match owner {
            Owner::Module => None,
            Owner::Func(function) => self.functions.get(function),
            Owner::Method(class, method) => match self.methods.get(class) {
                Some(methods) => methods.get(method),
                None => None,
            },
        }
    }

    /// Returns the number of a name among an owner's locals, or `None` if it is no local.
    fn local(&self, owner: Owner, name: &str) -> Option<usize>
        ensures { result ≡ index_of name.now (locals_for self.now owner) }
    {
        match self.locals(owner) {
            Some(locals) => locals.number_of(name),
            None => None,
        }
    }

    /// Returns the number of locals of an owner.
    pub fn count_locals(&self, owner: Owner) -> usize
        ensures { result ≡ length (locals_for self.now owner) }
    {
        match self.locals(owner) {
            Some(locals) => locals.len(),
            None => 0,
        }
    }

    /// Returns the first binding of a name at module level, if there is one.
    fn global(&self, name: &str) -> Option<NameMeaning>
        ensures { result ≡ beside self.now.globals name.now }
    {
        self.globals.get(name).copied()
    }

    /// Returns the meaning of a name: a local, a built-in, the first binding at module level, or nothing.
    pub fn mean(&self, owner: Owner, name: &str) -> NameMeaning
        ensures { result ≡ meaning_by_tables self.now owner name.now }
    {
        if let Some(number) = self.local(owner, name) {
            return NameMeaning::Local(number);
        }
        if let Some(found) = builtin(name) {
            return NameMeaning::Builtin(found);
        }
        match self.global(name) {
            Some(found) => found,
            None => NameMeaning::None,
        }
    }
}
