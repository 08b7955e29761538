//! The interface of a store of types.

ghost use Rattle.std.specs.Prelude.{◌≡◌, ◌↔◌, ◌<◌, ◌≤◌, List, Option, ℕ, length, map, slice_get, All, IsTrue, IfOk};
ghost use Rattle.std.specs.Prelude.{Some};
ghost use Rattle.pc_types.specs.Tree.{Tree, Any, Object, Never, Int, Bool, Str, NoneType, Class, ListOf, DictOf};
ghost use Rattle.pc_types.specs.Tree.{TupleOf};
ghost use Rattle.pc_types.specs.Below.{Static};
ghost use Rattle.pc_types.specs.Boxed.{tree_of, IsGiven};
ghost use Rattle.pc_types.specs.Assignable.{Assignable};
ghost use Rattle.pc_types.specs.Computed.{static_test, assignable_test};
ghost use Rattle.pc_types.specs.Normal.{IsKey, IsNormal};
ghost use Rattle.pc_types.specs.Shape.{nodes, node_limit, members, parts, trees, union};
ghost use Rattle.pc_types.specs.Join.{join};
ghost use Rattle.pc_types.specs.JoinedTypes.{types_joined};
ghost use Rattle.pc_types.specs.Head.{head_of, part_count};
ghost use Rattle.pc_types.specs.Store.{Means, KeepsTypes, MeansWithin, MeansAny};

use crate::{BoxType, Head, Parents};
use pc_source::OutOfMemory;
use std::alloc::Global;

/// A store of types. Each of its types means a type tree of at most 256 nodes in normal form, whatever happens to the
/// store later.
pub trait TypeStore {
    /// A type of the store.
    type Ty: Drop;

    /// The store gave this type.
    ghost has: { Self → Self.Ty → Type 0 };

    /// The tree that a type means.
    ghost tree: { Self.Ty → Tree };

    /// Returns the type `Any`.
    fn any(&mut self, alloc: Global) -> Result<Self::Ty, OutOfMemory>
        ensures value { IfOk result (λ t. Means has tree self.new t Any) }
        ensures kept { KeepsTypes has self.old self.new };

    /// Returns the type `object`.
    fn object(&mut self, alloc: Global) -> Result<Self::Ty, OutOfMemory>
        ensures value { IfOk result (λ t. Means has tree self.new t Object) }
        ensures kept { KeepsTypes has self.old self.new };

    /// Returns the type `Never`.
    fn never(&mut self, alloc: Global) -> Result<Self::Ty, OutOfMemory>
        ensures value { IfOk result (λ t. Means has tree self.new t Never) }
        ensures kept { KeepsTypes has self.old self.new };

    /// Returns the type `int`.
    fn int(&mut self, alloc: Global) -> Result<Self::Ty, OutOfMemory>
        ensures value { IfOk result (λ t. Means has tree self.new t Int) }
        ensures kept { KeepsTypes has self.old self.new };

    /// Returns the type `bool`.
    fn bool(&mut self, alloc: Global) -> Result<Self::Ty, OutOfMemory>
        ensures value { IfOk result (λ t. Means has tree self.new t Bool) }
        ensures kept { KeepsTypes has self.old self.new };

    /// Returns the type `str`.
    fn str(&mut self, alloc: Global) -> Result<Self::Ty, OutOfMemory>
        ensures value { IfOk result (λ t. Means has tree self.new t Str) }
        ensures kept { KeepsTypes has self.old self.new };

    /// Returns the type `None`.
    fn none(&mut self, alloc: Global) -> Result<Self::Ty, OutOfMemory>
        ensures value { IfOk result (λ t. Means has tree self.new t NoneType) }
        ensures kept { KeepsTypes has self.old self.new };

    /// Returns the type of the class with this number.
    fn class(&mut self, alloc: Global, number: usize) -> Result<Self::Ty, OutOfMemory>
        ensures value { IfOk result (λ t. Means has tree self.new t (Class number)) }
        ensures kept { KeepsTypes has self.old self.new };

    /// Returns `list[item]`, or `None` if it has over 256 nodes.
    fn list(&mut self, alloc: Global, item: &Self::Ty) -> Result<Option<Self::Ty>, OutOfMemory>
        requires { has self.old item.now }
        ensures value { IfOk result (λ t. MeansWithin has tree self.new t (ListOf (tree item.now))) }
        ensures kept { KeepsTypes has self.old self.new };

    /// Returns `dict[key, value]`, or `None` if it has over 256 nodes. The key must be `int` or `str`.
    fn dict(
        &mut self,
        alloc: Global,
        key: &Self::Ty,
        value: &Self::Ty,
    ) -> Result<Option<Self::Ty>, OutOfMemory>
        requires key { has self.old key.now }
        requires value { has self.old value.now }
        requires suits { IsKey (tree key.now) }
        ensures value { IfOk result (λ t. MeansWithin has tree self.new t (DictOf (tree key.now) (tree value.now))) }
        ensures kept { KeepsTypes has self.old self.new };

    /// Returns `tuple[parts]`, or `None` if it has over 256 nodes.
    fn tuple(&mut self, alloc: Global, parts: &[Self::Ty]) -> Result<Option<Self::Ty>, OutOfMemory>
        requires { All (has self.old) parts.now }
        ensures value { IfOk result (λ t. MeansWithin has tree self.new t (TupleOf (trees (map tree parts.now)))) }
        ensures kept { KeepsTypes has self.old self.new };

    /// Returns a copy of a type: another handle with the same meaning.
    fn copy(&self, alloc: Global, ty: &Self::Ty) -> Result<Self::Ty, OutOfMemory>
        requires { has self.now ty.now }
        ensures { IfOk result (λ t. Means has tree self.now t (tree ty.now)) };

    /// Returns the head of a type.
    fn head(&self, ty: &Self::Ty) -> Head
        requires { has self.now ty.now }
        ensures head { result ≡ head_of (tree ty.now) }
        ensures parts { length (parts (tree ty.now)) ≡ part_count result };

    /// Returns the number of nodes of a type, from 1 to 256.
    fn nodes(&self, ty: &Self::Ty) -> usize
        requires { has self.now ty.now }
        ensures { result ≡ nodes (tree ty.now) };

    /// Returns the part of a type with this number, from 0: a list's item, a dict's key and value, a tuple's parts, a
    /// union's members in order.
    fn part(&self, alloc: Global, ty: &Self::Ty, number: usize) -> Result<Self::Ty, OutOfMemory>
        requires ty { has self.now ty.now }
        requires number { number < length (parts (tree ty.now)) }
        ensures { IfOk result (λ t. has self.now t × (slice_get (parts (tree ty.now)) number ≡ Some (tree t))) };

    /// Returns a borrowed boxed type of the same tree: the one that the store keeps, or the type itself.
    fn boxed<'t>(&'t self, ty: &'t Self::Ty) -> &'t BoxType
        requires { has self.now ty.now }
        ensures given { IsGiven result.now }
        ensures value { tree_of result.now ≡ tree ty.now };

    /// Returns a number by which a type may be looked up. It is a hint without any promise: types with different
    /// numbers mostly mean different trees, and a type found by it has to be compared.
    fn mark(&self, ty: &Self::Ty) -> usize
        requires { has self.now ty.now };

    /// Returns the members of a type in order: none for `Never`, those of a union, else the type itself.
    fn members(&self, alloc: Global, ty: &Self::Ty) -> Result<Vec<Self::Ty>, OutOfMemory>
        requires { has self.now ty.now }
        ensures held { IfOk result (λ ts. All (has self.now) ts.items) }
        ensures value { IfOk result (λ ts. map tree ts.items ≡ members (tree ty.now)) };

    /// Returns the parts of a type in order: a list's item, a dict's key and value, a tuple's parts, a union's members.
    fn parts(&self, alloc: Global, ty: &Self::Ty) -> Result<Vec<Self::Ty>, OutOfMemory>
        requires { has self.now ty.now }
        ensures held { IfOk result (λ ts. All (has self.now) ts.items) }
        ensures value { IfOk result (λ ts. map tree ts.items ≡ parts (tree ty.now)) };

    /// Returns the union of members that are in the order of a union, or `None` if it has over 256 nodes. It is `Never`
    /// for none, and the member itself for one.
    fn union(&mut self, alloc: Global, types: &[Self::Ty]) -> Result<Option<Self::Ty>, OutOfMemory>
        requires types { All (has self.old) types.now }
        requires order { IsNormal (union (map tree types.now)) }
        ensures value { IfOk result (λ t. MeansWithin has tree self.new t (union (map tree types.now))) }
        ensures kept { KeepsTypes has self.old self.new };

    /// Returns the join of two types, or `None` if a part has none or it has over 256 nodes.
    fn join(
        &mut self,
        alloc: Global,
        parents: &Parents,
        s: &Self::Ty,
        t: &Self::Ty,
    ) -> Result<Option<Self::Ty>, OutOfMemory>
        requires left { has self.old s.now }
        requires right { has self.old t.now }
        ensures value { IfOk result (λ u. MeansAny has tree self.new u (join parents.now (tree s.now) (tree t.now))) }
        ensures kept { KeepsTypes has self.old self.new };

    /// Returns the join of several types from the left, `Never` for none. A join that does not exist is replaced by
    /// `object`.
    fn join_all(
        &mut self,
        alloc: Global,
        parents: &Parents,
        types: &[Self::Ty],
    ) -> Result<Self::Ty, OutOfMemory>
        requires { All (has self.old) types.now }
        ensures value { IfOk result (λ t. Means has tree self.new t (types_joined parents.now (map tree types.now))) }
        ensures kept { KeepsTypes has self.old self.new };

    /// Returns whether the first is a static subtype of the second: a subtype with each `Any` read as `object`.
    fn is_static(&mut self, parents: &Parents, s: &Self::Ty, t: &Self::Ty) -> bool
        requires left { has self.old s.now }
        requires right { has self.old t.now }
        ensures value { IsTrue result ↔ Static parents.now (tree s.now) (tree t.now) }
        ensures test { result ≡ static_test parents.now (tree s.now) (tree t.now) }
        ensures kept { KeepsTypes has self.old self.new };

    /// Returns whether the first is assignable to the second: a subtype for some reading of each `Any`.
    fn is_assignable(&mut self, parents: &Parents, s: &Self::Ty, t: &Self::Ty) -> bool
        requires left { has self.old s.now }
        requires right { has self.old t.now }
        ensures value { IsTrue result ↔ Assignable parents.now (tree s.now) (tree t.now) }
        ensures test { result ≡ assignable_test parents.now (tree s.now) (tree t.now) }
        ensures kept { KeepsTypes has self.old self.new };

    /// Each type is in normal form.
    ghost normal: { (store : Self) (ty : Self.Ty) → has store ty → IsNormal (tree ty) };

    /// Each type has at most 256 nodes.
    ghost small: { (store : Self) (ty : Self.Ty) → has store ty → nodes (tree ty) ≤ node_limit };
}
