//! The names of a module's classes, by their numbers.

ghost use Rattle.std.specs.Prelude.{◌≡◌, map, IfOk};
ghost use Rattle.pc_tree.specs.Tree.{module_of};
ghost use Rattle.pc_annotations.specs.Text.{class_names, class_text};

use pc_source::OutOfMemory;
use pc_tree::{ItemKind, Module};
use std::alloc::Global;

/// The names of the classes of a module, in order, so that one is found by its number in one step.
#[derive(Drop)]
pub struct ClassNames<'m> {
    tree: &'m Module,
    names: Vec<&'m str>,
    pub ghost all: { map (λ n. n.now) names.items ≡ class_names (module_of tree.now) },
}

impl<'m> ClassNames<'m> {
    /// Returns the names of the classes of a module.
    ///
    /// # Errors
    ///
    /// `OutOfMemory` only if an allocation failed.
    pub fn of(alloc: Global, tree: &'m Module) -> Result<ClassNames<'m>, OutOfMemory>
        ensures { IfOk result (λ c. module_of c.tree.now ≡ module_of tree.now) }
    {
        let mut names = Vec::new(alloc);
        for item in &tree.items {
            if let ItemKind::Class(class) = &item.kind {
                names.push(class.name.text.as_str())?;
            }
        }
        Ok(ClassNames { tree, names })
    }

    /// Returns the name of the class with this number, or an empty text if there is no such class.
    pub(crate) fn name(&self, number: usize) -> &str
        ensures { result.now ≡ class_text (module_of self.now.tree.now) number }
    {
        match self.names.get(number) {
            Some(name) => name,
            None => "",
        }
    }
}
