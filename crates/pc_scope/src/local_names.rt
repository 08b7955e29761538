//! The names of a function's locals.

ghost use Rattle.std.specs.Prelude.{◌≡◌, [], ◌∷◌, ◌++◌, false, length, position, bytes_eq, OnOk, IfOk};
ghost use Rattle.pc_tree.specs.Text.{text_bytes};
ghost use Rattle.pc_scope.specs.Resolution.{index_of, is_one_of};
ghost use Rattle.pc_scope.specs.Internal.WalkViews.{locals_in, with_new_local};

use crate::reserved::builtin;
use indexmap::IndexSet;
use pc_source::OutOfMemory;
use pc_tree::{Keys, Text};
use std::alloc::Global;

/// The locals of a function, numbered by their order: a short list, or a set if there may be more.
#[derive(Drop)]
pub enum Locals {
    Few(Vec<Text>),
    Many(IndexSet<String, Keys>),
}

/// A list is enough if the parameters and bound names are fewer than this: to compare them one by one costs less than
/// to hash one.
const FEW: usize = 16;

/// Returns the position of a text in a list.
fn place_of(texts: &[Text], name: &str) -> Option<usize>
    ensures { result ≡ position (λ t. bytes_eq name.now (text_bytes t)) texts.now }
{
    texts.iter().position(|text| name == text.as_str())
}

impl Locals {
    /// Returns no locals, with capacity for this many parameters and names bound in the body if a list is enough for
    /// them.
    pub fn new(
        alloc: Global,
        keys: Keys,
        parameters: usize,
        names: usize,
    ) -> Result<Locals, OutOfMemory>
        ensures { IfOk result (λ l. locals_in l ≡ []) }
    {
        let most = parameters.saturating_add(names);
        if most < FEW {
            return Ok(Locals::Few(Vec::with_capacity(alloc, most + 1)?));
        }
        Ok(Locals::Many(IndexSet::with_hasher(alloc, keys)))
    }

    /// Returns the number of locals.
    pub fn len(&self) -> usize
        ensures { result ≡ length (locals_in self.now) }
    {
        match self {
            Locals::Few(texts) => texts.len(),
            Locals::Many(texts) => texts.len(),
        }
    }

    /// Returns the number of a name, or `None` if it is no local.
    pub fn number_of(&self, name: &str) -> Option<usize>
        ensures { result ≡ index_of name.now (locals_in self.now) }
    {
        match self {
            Locals::Few(texts) => place_of(texts, name),
            Locals::Many(texts) => texts.get_index_of(name),
        }
    }

    /// Returns whether a name is a local.
    fn has(&self, name: &str) -> bool
        ensures { result ≡ is_one_of name.now (locals_in self.now) }
    {
        self.number_of(name).is_some()
    }

    /// Adds a local that must be new.
    fn add(&mut self, alloc: Global, name: &str) -> Result<(), OutOfMemory>
        requires { is_one_of name.now (locals_in self.old) ≡ false }
        ensures { OnOk result (locals_in self.new ≡ locals_in self.old ++ (name.now ∷ [])) }
    {
        match self {
            Locals::Few(texts) => texts.push(Text::of(alloc, name)?)?,
            Locals::Many(texts) => {
                texts.insert(String::from_str(alloc, name)?)?;
            }
        }
        Ok(())
    }

    /// Adds a local, unless the name is reserved or already a local.
    pub fn bind(&mut self, alloc: Global, name: &str) -> Result<(), OutOfMemory>
        ensures { OnOk result (locals_in self.new ≡ with_new_local (locals_in self.old) name.now) }
    {
        if builtin(name).is_some() || self.has(name) {
            return Ok(());
        }
        self.add(alloc, name)
    }
}
