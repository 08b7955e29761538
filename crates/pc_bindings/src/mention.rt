//! Names, each with the scope that it occurs in.

ghost use Rattle.std.specs.Prelude.{◌≡◌, ◌++◌, ◌∷◌, [], map, OnOk};
ghost use Rattle.pc_tree.specs.Tree.{expr_of, name_of};
ghost use Rattle.pc_bindings.specs.Mentions.{is_self, class_of_self, as_member, mention_at};
ghost use Rattle.pc_bindings.specs.Written.{scope_of, mention_of, borrowed_class};

use pc_source::OutOfMemory;
use pc_tree::{ClassDef, Expr, FuncDef, Name};

/// The scope that a name occurs in: the module, a function of it, a method of a class, or the members of a class.
/// Language Reference 4.2.2 "Resolution of names".
#[derive(Clone, Copy, Debug)]
pub enum Scope<'m> {
    Module,
    Function(&'m FuncDef),
    Method(&'m ClassDef, &'m FuncDef),
    Class(&'m ClassDef),
}

/// A name of a module, with its scope.
#[derive(Clone, Copy, Debug)]
pub struct Mention<'m> {
    pub scope: Scope<'m>,
    pub name: &'m Name,
}

/// Adds a name that occurs in a scope.
pub fn add_name<'m>(
    mentions: &mut Vec<Mention<'m>>,
    scope: Scope<'m>,
    name: &'m Name,
) -> Result<(), OutOfMemory>
    ensures { OnOk result (map mention_of mentions.new.items
        ≡ map mention_of mentions.old.items ++ mention_at (scope_of scope.entry) (name_of name.now) ∷ []) }
{
    mentions.push(Mention { scope, name })?;
    Ok(())
}

/// Returns whether an expression is the name `self`.
fn is_self(e: &Expr) -> bool
    ensures { result ≡ is_self (expr_of e.now) }
{
    let Expr::Name(name) = e else {
        return false;
    };
    "self" == name.text.as_str()
}

/// Returns the class of a method, if an expression in the method is its `self`.
fn class_of_self<'m>(scope: Scope<'m>, e: &Expr) -> Option<&'m ClassDef>
    ensures { borrowed_class result ≡ class_of_self (scope_of scope.entry) (expr_of e.now) }
{
    match scope {
        Scope::Module => None,
        Scope::Function(_) => None,
        Scope::Method(class, _) => { if is_self(e) { Some(class) } else { None } }
        Scope::Class(_) => None,
    }
}

/// Adds the name of an attribute as that of a member of a class, if there is one.
fn add_as_member<'m>(
    mentions: &mut Vec<Mention<'m>>,
    class: Option<&'m ClassDef>,
    field: &'m Name,
) -> Result<(), OutOfMemory>
    ensures { OnOk result (map mention_of mentions.new.items
        ≡ map mention_of mentions.old.items ++ as_member (borrowed_class class.entry) (name_of field.now)) }
{
    match class {
        None => Ok(()),
        Some(class) => add_name(mentions, Scope::Class(class), field),
    }
}

/// Adds the name of an attribute as that of a member of the class, if its object is the `self` of a method.
pub fn add_attribute<'m>(
    mentions: &mut Vec<Mention<'m>>,
    scope: Scope<'m>,
    object: &Expr,
    field: &'m Name,
) -> Result<(), OutOfMemory>
    ensures { OnOk result (map mention_of mentions.new.items ≡ map mention_of mentions.old.items
        ++ as_member (class_of_self (scope_of scope.entry) (expr_of object.now)) (name_of field.now)) }
{
    let class = class_of_self(scope, object);
    add_as_member(mentions, class, field)
}
