//! The contents of a class table.

use crate::entries::MemberMaps;
use crate::table::{Method, Parameter};
use pc_shared_maps::NamedMaps;

/// A range of a list: from `start` to before `end`.
#[derive(Clone, Copy)]
pub(crate) struct Span {
    pub start: usize,
    pub end: usize,
}

/// A class of a table: its base, the maps of its fields and methods, whether one of its fields has a default, and the
/// fields and methods that it binds itself.
#[derive(Clone, Copy)]
pub(crate) struct ClassNode {
    pub base: Option<usize>,
    pub held: MemberMaps,
    pub defaulted: bool,
    pub fields: Span,
    pub methods: Span,
}

/// The contents of a class table: the maps of names, the classes in text order, and all fields and methods that they
/// bind.
#[derive(Drop)]
pub(crate) struct ClassArena<Ty: Drop> {
    pub named: NamedMaps,
    pub classes: Vec<ClassNode>,
    pub fields: Vec<Parameter<Ty>>,
    pub methods: Vec<Method<Ty>>,
}
