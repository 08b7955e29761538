//! Boxed types, and the store that makes them.

ghost use Rattle.std.specs.Prelude.{◌≡◌, IfOk, unwrap_or};
ghost use Rattle.pc_types.specs.Boxed.{tree_of, IsGiven};
ghost use Rattle.pc_types.specs.Join.{join};
ghost use Rattle.pc_types.specs.Tree.{Object};

use crate::adding::adds_nothing;
use crate::flow::{is_assignable, is_static};
use crate::join::{join, join_all, join_or_object};
use crate::shape::{
    LIMIT, copies, copy, count_each, count_nodes, head, members, part, parts, union,
};
use crate::{Head, Parents, TypeStore};
use pc_source::OutOfMemory;
use std::alloc::Global;

/// A boxed type: a tree whose parts are in boxes and vectors.
#[derive(Drop)]
pub enum BoxType {
    Any,
    Object,
    Never,
    Int,
    Bool,
    Str,
    NoneType,
    /// The class with this number.
    Class(usize),
    List(Box<BoxType>),
    /// The key and the value.
    Dict(Box<BoxType>, Box<BoxType>),
    Tuple(Vec<BoxType>),
    /// The first member and the others.
    Union(Box<BoxType>, Box<BoxType>),
}

/// A store of boxed types. It keeps no state.
#[derive(Drop)]
pub struct BoxStore;

impl BoxStore {
    /// Returns a store.
    pub fn new() -> BoxStore {
        BoxStore
    }

    /// Returns the join of `joined` and `ty`, or `object` if there is none. Allocates nothing if the join is found to
    /// be `joined`.
    pub fn join_onto(
        &self,
        alloc: Global,
        parents: &Parents,
        joined: BoxType,
        ty: &BoxType,
    ) -> Result<BoxType, OutOfMemory>
        requires left { IsGiven joined }
        requires right { IsGiven ty.now }
        ensures given { IfOk result IsGiven }
        ensures value { IfOk result (λ u. tree_of u
            ≡ unwrap_or (join parents.now (tree_of joined) (tree_of ty.now)) Object) }
    {
        if adds_nothing(parents, &joined, ty) {
            return Ok(joined);
        }
        join_or_object(alloc, parents, &joined, ty)
    }
}

impl TypeStore for BoxStore {
    type Ty = BoxType;

    ghost has = { λ _ t. IsGiven t };

    ghost tree = { tree_of };

    ghost normal = { λ _ t h. h.normal };

    ghost small = { λ _ t h. h.small };

    fn any(&mut self, _alloc: Global) -> Result<BoxType, OutOfMemory> {
        Ok(BoxType::Any)
    }

    fn object(&mut self, _alloc: Global) -> Result<BoxType, OutOfMemory> {
        Ok(BoxType::Object)
    }

    fn never(&mut self, _alloc: Global) -> Result<BoxType, OutOfMemory> {
        Ok(BoxType::Never)
    }

    fn int(&mut self, _alloc: Global) -> Result<BoxType, OutOfMemory> {
        Ok(BoxType::Int)
    }

    fn bool(&mut self, _alloc: Global) -> Result<BoxType, OutOfMemory> {
        Ok(BoxType::Bool)
    }

    fn str(&mut self, _alloc: Global) -> Result<BoxType, OutOfMemory> {
        Ok(BoxType::Str)
    }

    fn none(&mut self, _alloc: Global) -> Result<BoxType, OutOfMemory> {
        Ok(BoxType::NoneType)
    }

    fn class(&mut self, _alloc: Global, number: usize) -> Result<BoxType, OutOfMemory> {
        Ok(BoxType::Class(number))
    }

    fn list(&mut self, alloc: Global, item: &BoxType) -> Result<Option<BoxType>, OutOfMemory> {
        if count_nodes(item) >= LIMIT {
            return Ok(None);
        }
        let item = copy(alloc, item)?;
        Ok(Some(BoxType::List(Box::new(alloc, item)?)))
    }

    fn dict(
        &mut self,
        alloc: Global,
        key: &BoxType,
        value: &BoxType,
    ) -> Result<Option<BoxType>, OutOfMemory> {
        if count_nodes(key) + count_nodes(value) >= LIMIT {
            return Ok(None);
        }
        let key = Box::new(alloc, copy(alloc, key)?)?;
        Ok(Some(BoxType::Dict(key, Box::new(alloc, copy(alloc, value)?)?)))
    }

    fn tuple(&mut self, alloc: Global, parts: &[BoxType]) -> Result<Option<BoxType>, OutOfMemory> {
        if count_each(parts) >= LIMIT {
            return Ok(None);
        }
        Ok(Some(BoxType::Tuple(copies(alloc, parts)?)))
    }

    fn copy(&self, alloc: Global, ty: &BoxType) -> Result<BoxType, OutOfMemory> {
        copy(alloc, ty)
    }

    fn head(&self, ty: &BoxType) -> Head {
        head(ty)
    }

    fn nodes(&self, ty: &BoxType) -> usize {
        count_nodes(ty)
    }

    fn part(&self, alloc: Global, ty: &BoxType, number: usize) -> Result<BoxType, OutOfMemory> {
        copy(alloc, part(ty, number))
    }

    fn boxed<'t>(&'t self, ty: &'t BoxType) -> &'t BoxType {
        ty
    }

    fn mark(&self, ty: &BoxType) -> usize {
        count_nodes(ty)
    }

    fn members(&self, alloc: Global, ty: &BoxType) -> Result<Vec<BoxType>, OutOfMemory> {
        members(alloc, ty)
    }

    fn parts(&self, alloc: Global, ty: &BoxType) -> Result<Vec<BoxType>, OutOfMemory> {
        parts(alloc, ty)
    }

    fn union(&mut self, alloc: Global, types: &[BoxType]) -> Result<Option<BoxType>, OutOfMemory> {
        let union = union(alloc, types)?;
        if count_nodes(&union) > LIMIT {
            return Ok(None);
        }
        Ok(Some(union))
    }

    fn join(
        &mut self,
        alloc: Global,
        parents: &Parents,
        s: &BoxType,
        t: &BoxType,
    ) -> Result<Option<BoxType>, OutOfMemory> {
        join(alloc, parents, s, t)
    }

    fn join_all(
        &mut self,
        alloc: Global,
        parents: &Parents,
        types: &[BoxType],
    ) -> Result<BoxType, OutOfMemory> {
        join_all(alloc, parents, types)
    }

    fn is_static(&mut self, parents: &Parents, s: &BoxType, t: &BoxType) -> bool {
        is_static(parents, s, t)
    }

    fn is_assignable(&mut self, parents: &Parents, s: &BoxType, t: &BoxType) -> bool {
        is_assignable(parents, s, t)
    }
}
