//! Meanings of names: built-ins, owners, resolutions.

/// A built-in of the profile: the meaning of a reserved name, which no module can bind.
///
/// Own rule of the profile.
#[derive(Clone, Copy, PartialEq, Eq, Debug)]
pub enum Builtin {
    Any,
    Annotations,
    Bool,
    Dataclass,
    Dict,
    Int,
    IsInstance,
    Len,
    List,
    Object,
    Print,
    Range,
    Str,
    Tuple,
}

/// The owner of a lookup: the module, or a function or method of it. Functions, classes and the methods of each class
/// are numbered from 0 in text order.
#[derive(Clone, Copy, PartialEq, Eq, Debug)]
pub enum Owner {
    Module,
    Func(usize),
    Method(usize, usize),
}

/// The meaning of a name. Constants, functions and classes are numbered from 0 in text order, locals from 0 by their
/// first binding; the first local of a method is `self`.
///
/// Python Language Reference 3.12, 4.2.2 "Resolution of names".
#[derive(Clone, Copy, PartialEq, Eq, Debug)]
pub enum NameMeaning {
    Local(usize),
    Const(usize),
    Func(usize),
    Class(usize),
    Builtin(Builtin),
    None,
}
