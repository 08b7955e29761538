//! Joins of types of an interned store.

ghost use Rattle.std.specs.Prelude.{◌≡◌, ◌↔◌, ◌∷◌, [], All, IfOk, IfSome, IsTrue, List, MatchOption, None, Some, map};
ghost use Rattle.pc_types.specs.Tree.{Tree, Never, Object};
ghost use Rattle.pc_types.specs.Below.{Bases};
ghost use Rattle.pc_types.specs.Join.{join};
ghost use Rattle.pc_types.specs.Boxed.{tree_of, IsGiven};
ghost use Rattle.pc_types.specs.Store.{Means, MeansAny, KeepsTypes};
ghost use Rattle.pc_types.specs.JoinedTypes.{types_joined};
ghost use Rattle.pc_intern.specs.Table.{tree_at};
ghost use Rattle.pc_intern.specs.Store.{IsInterned, IsJoined, tree_of_type};

use crate::gathering::Gathered;
use crate::memo::Joined;
use crate::store::{InternStore, TypeId};
use crate::table::Numbers;
use pc_source::OutOfMemory;
use pc_types::{BoxStore, BoxType, Parents, TypeStore};
use std::alloc::Global;

/// Fewest types whose join is kept even if none of them has parts: fewer are joined faster than two lists of parents
/// are compared.
const MANY_TYPES: usize = 8;

/// Most types whose join is kept, so that the kept lists are short.
const MOST_TYPES: usize = 256;

/// Most classes of two lists of parents that may be compared for each part of the types to join.
const CLASSES_FOR_A_NODE: usize = 16;

/// Fewest nodes of two types whose join is kept: the join of smaller ones is faster than a lookup.
const MANY_NODES: usize = 16;

impl InternStore {
    /// Returns whether a type of the store is `Never`.
    fn is_never(&self, ty: &TypeId) -> bool
        requires { IsInterned self.now ty.now }
        ensures { IsTrue result ↔ (tree_of_type ty.now ≡ Never) }
    {
        matches!(self.table.ty(ty.number), BoxType::Never)
    }

    /// Returns the join of two types if it is found without looking at their members: if they are equal, or one is
    /// `Never`.
    pub(crate) fn join_at_once(&self, s: &TypeId, t: &TypeId) -> Option<TypeId>
        requires left { IsInterned self.now s.now }
        requires right { IsInterned self.now t.now }
        ensures held { IfSome result (IsInterned self.now) }
        ensures value { (bases : Bases)
            → IfSome result (λ u. join bases (tree_of_type s.now) (tree_of_type t.now) ≡ Some (tree_of_type u)) }
    {
        if self.is_same(s, t) || self.is_never(t) {
            return Some(self.held(s.number));
        }
        if self.is_never(s) {
            return Some(self.held(t.number));
        }
        None
    }

    /// Returns the join of several types that are all one and the same type, which is that type; `None` if they differ or
    /// there are none.
    pub(crate) fn same_joined(&self, types: &[TypeId]) -> Option<TypeId>
        requires { All (IsInterned self.now) types.now }
        ensures held { IfSome result (IsInterned self.now) }
        ensures value { (bases : Bases)
            → IfSome result (λ t. tree_of_type t ≡ types_joined bases (map tree_of_type types.now)) }
    {
        let Some((first, others)) = types.split_first() else {
            return None;
        };
        for ty in others {
            if ty.number != first.number {
                return None;
            }
        }
        Some(self.held(first.number))
    }

    /// Returns whether there are few parents in proportion to the members of types, so that comparing the lists of
    /// parents takes no longer than a join of the types.
    fn are_parents_few(&self, size: usize) -> bool {
        self.parents.count() / CLASSES_FOR_A_NODE <= size
    }

    /// Returns whether the join of types is to be kept: there are many types or one has parts, and there are not too
    /// many.
    pub(crate) fn are_kept(&self, types: &[TypeId]) -> bool
        requires { All (IsInterned self.now) types.now }
    {
        let count = types.len();
        if count > MOST_TYPES {
            return false;
        }
        let mut size = count;
        for ty in types {
            size = size.saturating_add(self.table.parts(ty.number).len());
        }
        (size > count || count >= MANY_TYPES) && self.are_parents_few(size)
    }

    /// Returns whether the join of two types is to be kept: they are large.
    pub(crate) fn is_pair_kept(&self, s: &TypeId, t: &TypeId) -> bool
        requires left { IsInterned self.now s.now }
        requires right { IsInterned self.now t.now }
    {
        let (left, right) = (self.table.parts(s.number), self.table.parts(t.number));
        let mut size = left.len().saturating_add(right.len());
        // Types with few parts may still be large: their nodes are counted if that does not take long.
        if size < MANY_NODES {
            let store = BoxStore::new();
            let nodes = store.nodes(self.table.ty(s.number));
            size = nodes.saturating_add(store.nodes(self.table.ty(t.number)));
        }
        size >= MANY_NODES && self.are_parents_few(size)
    }

    /// Returns the join of several types from the left, as a boxed type: intermediate joins are not put into the table.
    fn boxes_joined(
        &self,
        alloc: Global,
        parents: &Parents,
        types: &[TypeId],
    ) -> Result<BoxType, OutOfMemory>
        requires { All (IsInterned self.now) types.now }
        ensures given { IfOk result IsGiven }
        ensures value { IfOk result (λ b. tree_of b ≡ types_joined parents.now (map tree_of_type types.now)) }
    {
        let mut gathered = Gathered::new(alloc);
        for ty in types {
            gathered = self.gather(alloc, parents, gathered, ty)?;
        }
        Ok(gathered.joined)
    }

    /// Returns the join of several types from the left.
    pub(crate) fn joined(
        &mut self,
        alloc: Global,
        parents: &Parents,
        types: &[TypeId],
    ) -> Result<TypeId, OutOfMemory>
        requires { All (IsInterned self.old) types.now }
        ensures value { IfOk result
            (λ t. Means IsInterned tree_of_type self.new t (types_joined parents.now (map tree_of_type types.now))) }
        ensures kept { KeepsTypes IsInterned self.old self.new }
    {
        let joined = self.boxes_joined(alloc, parents, types)?;
        self.made(alloc, &joined)
    }

    /// Returns the join of several types from the left. A join kept earlier is reused, a new one is kept.
    #[tactic(auto, using(crate::proofs::Kept::many_kept))]
    pub(crate) fn joined_once(
        &mut self,
        alloc: Global,
        parents: &Parents,
        types: &[TypeId],
    ) -> Result<TypeId, OutOfMemory>
        requires { All (IsInterned self.old) types.now }
        ensures value { IfOk result
            (λ t. Means IsInterned tree_of_type self.new t (types_joined parents.now (map tree_of_type types.now))) }
        ensures kept { KeepsTypes IsInterned self.old self.new }
    {
        let types_of = self.numbers(alloc, types)?;
        if let Some(kept) = self.kept_join(parents, &types_of) {
            return Ok(kept);
        }
        let ty = self.joined(alloc, parents, types)?;
        let joined = ty.number;
        self.keep_join(
            parents,
            Joined {
                types: types_of,
                joined,
            },
        );
        Ok(ty)
    }

    /// Returns the join of two types, if there is one. A join kept earlier is reused, a new one is kept.
    #[tactic(auto, using(crate::proofs::Kept::two_kept))]
    pub(crate) fn pair_joined(
        &mut self,
        alloc: Global,
        parents: &Parents,
        s: &TypeId,
        t: &TypeId,
    ) -> Result<Option<TypeId>, OutOfMemory>
        requires left { IsInterned self.old s.now }
        requires right { IsInterned self.old t.now }
        ensures value { IfOk result
            (λ u. MeansAny IsInterned tree_of_type self.new u (join parents.now (tree_of_type s.now) (tree_of_type t.now))) }
        ensures kept { KeepsTypes IsInterned self.old self.new }
    {
        let types = Numbers::from_slice(alloc, &[s.number, t.number])?;
        if let Some(kept) = self.kept_pair(parents, s, t, &types) {
            return Ok(Some(kept));
        }
        let Some(ty) = self.boxes_join(alloc, parents, s, t)? else {
            return Ok(None);
        };
        let made = self.made(alloc, &ty)?;
        let joined = made.number;
        self.keep_join(parents, Joined { types, joined });
        Ok(Some(made))
    }

    /// Returns the join of two types as a boxed type, if there is one.
    pub(crate) fn boxes_join(
        &self,
        alloc: Global,
        parents: &Parents,
        s: &TypeId,
        t: &TypeId,
    ) -> Result<Option<BoxType>, OutOfMemory>
        requires left { IsInterned self.now s.now }
        requires right { IsInterned self.now t.now }
        ensures { IfOk result (λ o.
            MatchOption o (join parents.now (tree_of_type s.now) (tree_of_type t.now) ≡ None)
            (λ u. IsGiven u × (join parents.now (tree_of_type s.now) (tree_of_type t.now) ≡ Some (tree_of u)))) }
    {
        let (s, t) = (self.table.ty(s.number), self.table.ty(t.number));
        Ok(BoxStore::new().join(alloc, parents, s, t)?)
    }

    /// Returns whether a type of the store is `object`.
    fn is_object(&self, ty: &TypeId) -> bool
        requires { IsInterned self.now ty.now }
        ensures { tree_of_type ty.now ≡ Object → IsTrue result }
    {
        matches!(self.table.ty(ty.number), BoxType::Object)
    }

    /// Returns the join of types, given by their numbers, if the store has kept it under the same parents.
    fn kept_join(&self, parents: &Parents, types: &Numbers) -> Option<TypeId>
        ensures held { IfSome result (IsInterned self.now) }
        ensures value { (us : List Tree) → map (tree_at self.now) types.now.items ≡ map Some us
            → IfSome result (λ t. tree_of_type t ≡ types_joined parents.now us) }
    {
        let joined = self.joins.recall(types)?;
        if !self.parents.is_same(parents) {
            return None;
        }
        Some(self.held(joined))
    }

    /// Returns the join of two types, given by their numbers too, if the store has kept it under the same parents.
    fn kept_pair(
        &self,
        parents: &Parents,
        s: &TypeId,
        t: &TypeId,
        types: &Numbers,
    ) -> Option<TypeId>
        requires left { IsInterned self.now s.now }
        requires right { IsInterned self.now t.now }
        requires types { types.now.items ≡ s.now.number ∷ t.now.number ∷ [] }
        ensures held { IfSome result (IsInterned self.now) }
        ensures value { IfSome result
            (λ u. join parents.now (tree_of_type s.now) (tree_of_type t.now) ≡ Some (tree_of_type u)) }
    {
        let kept = self.kept_join(parents, types)?;
        // `object` may be kept for two types without a join, as the join of several types.
        if self.is_object(&kept) {
            return None;
        }
        Some(kept)
    }

    /// Keeps a join if the parents are the store's.
    fn keep_join(&mut self, parents: &Parents, joined: Joined)
        requires { IsJoined parents.now self.old joined }
        ensures { self.new ≡ self.old }
    {
        if self.parents.is_same(parents) {
            self.joins.keep(joined);
        }
    }
}
