//! The names that functions and methods bind.

ghost use Rattle.std.specs.Prelude.{[], ◌∷◌, ◌++◌, ◌≡◌, IfOk, List, OnOk, flat_map, map};
ghost use Rattle.pc_tree.specs.Tree.{name_of};
ghost use Rattle.pc_detail_facts.specs.Held.{body_of};
ghost use Rattle.pc_name_details.specs.Uses.{AreBound, Binding, binding, binding_held, bindings_of};

use crate::bound_names::bound_names;
use pc_detail_facts::Body;
use pc_source::{OutOfMemory, Place};
use pc_tree::Name;
use std::alloc::Global;
use std::collections::BTreeMap;

/// The names that functions and methods bind, each with the first of these and the first place there.
#[derive(Drop)]
pub struct Bindings<'m> {
    first: BTreeMap<&'m str, (Body<'m>, Place)>,
}

impl<'m> Bindings<'m> {
    /// Returns the first function or method that binds a name, and the place there.
    pub(crate) fn get(&self, word: &'m str) -> Option<(Body<'m>, Place)>
        ensures { result ≡ binding_held self.now word.now }
    {
        self.first.get(&word).copied()
    }

    /// Adds a name that a function or method binds, behind the others.
    fn add(&mut self, body: Body<'m>, name: &'m Name) -> Result<(), OutOfMemory>
        ensures { (before : List Binding) → AreBound self.old before
            → OnOk result (AreBound self.new (before ++ binding (body_of body.entry) (name_of name.now) ∷ [])) }
    {
        let word = name.text.as_str();
        if self.first.contains_key(&word) {
            return Ok(());
        }
        self.first.insert(word, (body, name.place))?;
        Ok(())
    }

    /// Adds the names that a function or method binds, behind the others.
    fn add_body(&mut self, alloc: Global, body: Body<'m>) -> Result<(), OutOfMemory>
        ensures { (before : List Binding) → AreBound self.old before
            → OnOk result (AreBound self.new (before ++ bindings_of (body_of body.entry))) }
    {
        let names = bound_names(alloc, body)?;
        for name in &names {
            self.add(body, *name)?;
        }
        Ok(())
    }

    /// Returns the names that functions and methods bind.
    pub fn of(alloc: Global, bodies: &[Body<'m>]) -> Result<Bindings<'m>, OutOfMemory>
        ensures { IfOk result (λ b. AreBound b (flat_map bindings_of (map body_of bodies.now))) }
    {
        let mut bindings = Bindings {
            first: BTreeMap::new(alloc),
        };
        for body in bodies {
            bindings.add_body(alloc, *body)?;
        }
        Ok(bindings)
    }
}
