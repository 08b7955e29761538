//! The context of an expression: all that its check reads apart from the environment.

use pc_annotations::ModuleOutline;
use pc_class::{ClassTable, ParameterList};
use pc_flow::{DeclaredTypes, OwnerNames};

/// The parameters and the return type of a function.
#[derive(Drop)]
pub struct Signature<Ty: Drop> {
    pub params: ParameterList<Ty>,
    pub ret: Ty,
}

/// The globals of a module: its outline, its classes, and its functions and constants with their types. For an
/// initializer, `known` and `constants` cover only the classes and constants before it.
///
/// Language Reference 3.12, 4.2.2 "Resolution of names"; own rules of the profile.
#[derive(Drop)]
pub struct ModuleContext<'m, Ty: Drop> {
    /// The module's tree, the meanings of its names, and the parents of its classes.
    pub outline: &'m ModuleOutline<'m>,
    /// The fields and methods of its classes.
    pub classes: &'m ClassTable<Ty>,
    /// The signatures of its functions.
    pub functions: &'m [Signature<Ty>],
    /// The types of its constants.
    pub constants: &'m [Ty],
    /// The number of its classes that may be named: the first `known` ones.
    pub known: usize,
    /// Whether the types of labels are noted.
    pub keeps: bool,
}

/// The context of an expression: the globals it may name, the meanings of names there, and the declared types of the
/// locals. The environment is separate. Outside function bodies, in an initializer, no function may be called.
///
/// Own rule of the profile.
#[derive(Drop)]
pub struct ExprContext<'s, Ty: Drop> {
    /// The globals that may be named.
    pub globals: &'s ModuleContext<'s, Ty>,
    /// Whether the expression is in the body of a function.
    pub in_body: bool,
    /// The meanings of names there.
    pub names: &'s OwnerNames<'s>,
    /// The declared types of the locals.
    pub declared: &'s DeclaredTypes<Ty>,
}
