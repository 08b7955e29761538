//! The state of a run: classes, functions, globals and locals.

ghost use Rattle.std.specs.Prelude.{map};
ghost use Rattle.pc_machine.specs.Globals.{ArePlaced, name_of_global};

use pc_tree::{FuncDef, Literal, NameMap};
use pc_value::Value;

/// A parameter of a def, or a field of a class. Language Reference 8.7 "Function definitions".
#[derive(Clone, Copy)]
pub struct FormalParameter<'m> {
    /// The name that an argument by name uses.
    pub name: &'m str,
    /// The parameter's default as written, if it has one.
    pub default: Option<&'m Literal>,
}

/// A class that was made. Language Reference 8.8 "Class definitions".
#[derive(Drop)]
pub struct Class<'m> {
    /// The numbers of the class itself and its ancestors.
    pub ancestors: Vec<usize>,
    /// All its fields, inherited ones first.
    pub fields: Vec<FormalParameter<'m>>,
    /// All its methods, the nearest first.
    pub methods: Vec<&'m FuncDef>,
}

/// The meaning of a name that the module binds. Language Reference 4.2.1 "Binding of names".
#[derive(Drop)]
pub enum Bound<'m> {
    /// The value of a constant.
    Value(Value),
    /// A def of the module.
    Function(&'m FuncDef),
    /// The number of a class, in the order in which classes are made.
    Class(usize),
}

/// A name that the module has bound. Language Reference 4.2.1 "Binding of names".
#[derive(Drop)]
pub struct Global<'m> {
    /// The name.
    pub name: &'m str,
    /// The meaning of the name.
    pub bound: Bound<'m>,
}

/// The names that the module has bound, in order; the first binding of a name counts.
/// Language Reference 4.2.1 "Binding of names".
#[derive(Drop)]
pub struct Globals<'m> {
    /// The names and their bindings.
    pub bindings: Vec<Global<'m>>,
    /// The position of each name's first binding.
    pub places: NameMap<'m, usize>,
    ghost placed: { ArePlaced places (map name_of_global bindings.items) },
}

/// A local of a function. Language Reference 4.2.1 "Binding of names".
#[derive(Drop)]
pub struct Local<'m> {
    /// The name.
    pub name: &'m str,
    /// The local's value, if it is bound.
    pub value: Option<Value>,
}

/// An argument by name. Language Reference 6.3.4 "Calls".
#[derive(Drop)]
pub struct NamedValue<'m> {
    /// The name of the parameter.
    pub name: &'m str,
    /// The argument's value.
    pub value: Value,
}

/// The way a statement ends. Language Reference 7 "Simple statements".
#[derive(Drop)]
pub enum Completion {
    /// The next statement follows.
    Next,
    /// The innermost loop is left.
    Breaking,
    /// The innermost loop begins its next turn.
    Continuing,
    /// The function is left with a value.
    Leaves(Value),
}

/// The meaning of a name where it is read. Language Reference 4.2.2 "Resolution of names".
#[derive(Clone, Copy)]
pub enum Meaning<'a, 'm> {
    /// The value of a local or of the module.
    Value(&'a Value),
    /// A local that is not bound.
    Unbound,
    /// A def of the module.
    Function(&'m FuncDef),
    /// The number of a class.
    Class(usize),
    /// A name predefined by the language.
    Reserved,
    /// Nothing has that name.
    Nothing,
}

/// The built-in methods of lists and dicts. Library Reference, "Mutable Sequence Types" and "Mapping Types".
#[derive(Clone, Copy)]
pub enum BuiltinMethod {
    /// `append` of a list.
    ListAppend,
    /// `pop` of a list.
    ListPop,
    /// `get` of a dict.
    DictGet,
}

/// The meaning of a callee. Language Reference 6.3.4 "Calls".
#[derive(Drop)]
pub enum Callee<'m> {
    /// A value, which cannot be called.
    Value(Value),
    /// A def of the module.
    Function(&'m FuncDef),
    /// The number of a class.
    Class(usize),
    /// A reserved name.
    Reserved(&'m str),
    /// An object with a method of its class.
    Method(Value, &'m FuncDef),
    /// An object with a built-in method.
    BuiltinMethod(Value, BuiltinMethod),
}

/// The test of a call of `isinstance`. Library Reference, "Built-in Functions".
#[derive(Clone, Copy)]
pub enum InstanceTest {
    /// A whole number or a truth value.
    Int,
    /// A text.
    Str,
    /// A truth value.
    Bool,
    /// A list.
    List,
    /// An instance of the class with this number, or of one that descends from it.
    Class(usize),
}
