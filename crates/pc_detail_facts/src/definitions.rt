//! The definitions of a module, in text order, and its functions, methods and expressions with the owner of their names.

ghost use Rattle.std.specs.Prelude.{◌≡◌, ◌++◌, ◌∷◌, [], IfOk, OnOk, map};
ghost use Rattle.pc_tree.specs.Tree.{Module as ModuleOf, class_of, item_of, module_of};
ghost use Rattle.pc_scope.specs.Bindings.{class_bodies, classes_in, constants_in, function_bodies, functions_in};
ghost use Rattle.pc_scope.specs.Bindings.{method_bodies, methods_in};
ghost use Rattle.pc_annotations.specs.Text.{class_text};
ghost use Rattle.pc_detail_facts.specs.Held.{HoldsDefinitions, body_of, class_lent, constant_lent, function_lent};

use pc_scope::Owner;
use pc_source::OutOfMemory;
use pc_tree::{ClassDef, Constant, Expr, FuncDef, Item, ItemKind, Member, Module};
use std::alloc::Global;

/// A function or a method, with the owner of its names.
#[derive(Clone, Copy)]
pub struct Body<'m> {
    pub owner: Owner,
    pub function: &'m FuncDef,
}

/// An expression, with the function or method that contains it.
#[derive(Clone, Copy)]
pub struct OwnedExpr<'m> {
    pub owner: Owner,
    pub expr: &'m Expr,
}

/// The constants, the functions and the classes of a module, each in text order.
#[derive(Drop)]
pub struct Definitions<'m> {
    pub constants: Vec<&'m Constant>,
    pub functions: Vec<&'m FuncDef>,
    pub classes: Vec<&'m ClassDef>,
}

impl<'m> Definitions<'m> {
    /// Adds an item of the module.
    fn add(&mut self, item: &'m Item) -> Result<(), OutOfMemory>
        ensures constants { OnOk result (map constant_lent self.new.constants.items
            ≡ map constant_lent self.old.constants.items ++ constants_in (item_of item.now ∷ [])) }
        ensures functions { OnOk result (map function_lent self.new.functions.items
            ≡ map function_lent self.old.functions.items ++ functions_in (item_of item.now ∷ [])) }
        ensures classes { OnOk result (map class_lent self.new.classes.items
            ≡ map class_lent self.old.classes.items ++ classes_in (item_of item.now ∷ [])) }
    {
        match &item.kind {
            ItemKind::Constant(constant) => Ok(self.constants.push(constant)?),
            ItemKind::Class(class) => Ok(self.classes.push(class)?),
            ItemKind::Def(function) => Ok(self.functions.push(function)?),
        }
    }

    /// Returns the definitions of a module.
    pub fn of(alloc: Global, module: &'m Module) -> Result<Definitions<'m>, OutOfMemory>
        ensures { IfOk result (HoldsDefinitions (module_of «module».now)) }
    {
        let mut definitions = Definitions {
            constants: Vec::new(alloc),
            functions: Vec::new(alloc),
            classes: Vec::new(alloc),
        };
        for item in &module.items {
            definitions.add(item)?;
        }
        Ok(definitions)
    }

    /// Returns the name of the class with this number, or an empty text if there is no such class.
    pub(crate) fn class_name(&self, class: usize) -> &'m str
        ensures { (m : ModuleOf) → HoldsDefinitions m self.now → result.now ≡ class_text m class }
    {
        match self.classes.get(class) {
            Some(def) => def.name.text.as_str(),
            None => "",
        }
    }

    /// Returns the functions of the module, and then the methods of its classes.
    pub fn bodies(&self, alloc: Global) -> Result<Vec<Body<'m>>, OutOfMemory>
        ensures { IfOk result (λ v. map body_of v.items
            ≡ function_bodies 0 (map function_lent self.now.functions.items)
            ++ class_bodies 0 (map class_lent self.now.classes.items)) }
    {
        let mut bodies = Vec::new(alloc);
        let mut number = 0;
        for function in &self.functions {
            let owner = Owner::Func(number);
            bodies.push(Body {
                owner,
                function: *function,
            })?;
            number += 1;
        }
        let mut class = 0;
        for def in &self.classes {
            add_methods(&mut bodies, class, *def)?;
            class += 1;
        }
        Ok(bodies)
    }
}

/// Adds the methods of a class with this number.
fn add_methods<'m>(
    bodies: &mut Vec<Body<'m>>,
    class: usize,
    def: &'m ClassDef,
) -> Result<(), OutOfMemory>
    ensures { OnOk result (map body_of bodies.new.items
        ≡ map body_of bodies.old.items ++ method_bodies class 0 (methods_in (class_of def.now).members)) }
{
    let mut number = 0;
    for member in &def.members {
        match member {
            Member::Field(_) => {}
            Member::Method(function) => {
                let owner = Owner::Method(class, number);
                bodies.push(Body { owner, function })?;
                number += 1;
            }
        }
    }
    Ok(())
}
