//! The interned store.

ghost use Rattle.std.specs.Prelude.{◌≡◌, ◌↔◌, ◌<◌, [], All, IfOk, IfSome, IsTrue, List, Some, length, map};
ghost use Rattle.pc_types.specs.Tree.{Tree};
ghost use Rattle.pc_types.specs.Boxed.{tree_of, IsGiven};
ghost use Rattle.pc_types.specs.Head.{head_of};
ghost use Rattle.pc_types.specs.Shape.{parts};
ghost use Rattle.pc_types.specs.Store.{Means, KeepsTypes};
ghost use Rattle.pc_types.specs.JoinedTypes.{types_joined};
ghost use Rattle.pc_types.specs.Computed.{static_test, assignable_test};
ghost use Rattle.pc_intern.specs.Table.{tree_at};
ghost use Rattle.pc_intern.specs.Store.{IsInterned, IsRight, tree_of_type, number_of};

use crate::memo::{Answers, Joins, Memo};
use crate::table::{Numbers, Table, TypeNode};
use pc_source::OutOfMemory;
use pc_tree::Keys;
use pc_types::{BoxStore, BoxType, Head, Parents, TypeStore};
use std::alloc::Global;
use std::marker::Model;
use std::snapshot::Snapshot;

/// A type of an interned store: its number, and its meaning, which only contracts use.
#[derive(Drop)]
pub struct TypeId {
    pub(crate) number: usize,
    meaning: Snapshot<BoxType>,
}

/// A store whose types are numbers: it has each type tree once, so two types are equal exactly if their numbers are. It
/// remembers the results of comparing pairs of types.
#[derive(Drop)]
pub struct InternStore {
    pub(crate) table: Table,
    pub(crate) parents: Parents,
    memo: Memo,
    pub(crate) joins: Joins,
}

impl Model for InternStore {
    ghost use Rattle.std.specs.Prelude.{List};
    ghost use Rattle.std.specs.Coded.{coded_list};
    ghost use Rattle.pc_types.specs.declared.boxed.BoxType.{BoxType};
    ghost use Rattle.pc_types.specs.contracts.boxed.BoxType as boxed;

    ghost Value = { List BoxType };

    ghost coded = { coded_list boxed.the_row.coded };

    ghost use Rattle.pc_intern.specs.Store.{AreRight, AreJoined};

    ghost view = { λ s. s.table };

    ghost invariant = { λ s. AreRight s.parents s.table s.memo.places.items
        × AreJoined s.parents s.table s.joins.places.items };
}

/// Compares two types of a table.
fn compare(table: &Table, parents: &Parents, s: usize, t: usize) -> Answers
    requires left { s < length table.now }
    requires right { t < length table.now }
    ensures pair { (result.s ≡ s) × (result.t ≡ t) }
    ensures right { IsRight parents.now table.now result }
{
    let mut store = BoxStore::new();
    Answers {
        s,
        t,
        is_static: store.is_static(parents, table.ty(s), table.ty(t)),
        is_assignable: store.is_assignable(parents, table.ty(s), table.ty(t)),
    }
}

impl InternStore {
    /// Returns a store without types, which remembers how types compare under these parents.
    pub fn new(alloc: Global, keys: Keys, parents: Parents) -> Result<InternStore, OutOfMemory>
        ensures { IfOk result (λ s. s ≡ []) }
    {
        Ok(InternStore {
            table: Table::new(alloc, keys),
            parents,
            memo: Memo::new(alloc)?,
            joins: Joins::new(alloc)?,
        })
    }

    /// Returns whether two types of the store are equal, by their numbers.
    pub fn is_same(&self, s: &TypeId, t: &TypeId) -> bool
        requires left { IsInterned self.now s.now }
        requires right { IsInterned self.now t.now }
        ensures { IsTrue result ↔ (tree_of_type s.now ≡ tree_of_type t.now) }
    {
        self.table.stands_once();
        s.number == t.number
    }

    /// Returns the type with this number.
    pub(crate) fn held(&self, number: usize) -> TypeId
        requires { number < length self.now }
        ensures held { IsInterned self.now result }
        ensures number { result.number ≡ number }
    {
        TypeId {
            number,
            meaning: Snapshot::of(self.table.ty(number)),
        }
    }

    /// Returns a type of the store that means the tree of a boxed type.
    pub(crate) fn made(&mut self, alloc: Global, ty: &BoxType) -> Result<TypeId, OutOfMemory>
        requires { IsGiven ty.now }
        ensures value { IfOk result (λ t. Means IsInterned tree_of_type self.new t (tree_of ty.now)) }
        ensures kept { KeepsTypes IsInterned self.old self.new }
    {
        let number = self.table.intern(alloc, ty)?;
        Ok(TypeId {
            number,
            meaning: Snapshot::of(ty),
        })
    }

    /// Returns the type with this head and parts with these numbers, if the store has it.
    fn known(&self, head: Head, numbers: Numbers) -> Option<TypeId>
        ensures held { IfSome result (IsInterned self.now) }
        ensures head { IfSome result (λ t. head_of (tree_of_type t) ≡ head) }
        ensures parts { (us : List Tree) → map (tree_at self.now) numbers.items ≡ map Some us
            → IfSome result (λ t. parts (tree_of_type t) ≡ us) }
    {
        let number = self.table.find(&TypeNode {
            head,
            parts: numbers,
        })?;
        Some(self.held(number))
    }

    /// Returns the numbers of types.
    pub(crate) fn numbers(&self, alloc: Global, types: &[TypeId]) -> Result<Numbers, OutOfMemory>
        requires { All (IsInterned self.now) types.now }
        ensures numbers { IfOk result (λ v. v.items ≡ map number_of types.now) }
        ensures trees { IfOk result (λ v. map (tree_at self.now) v.items ≡ map Some (map tree_of_type types.now)) }
    {
        let mut numbers = Numbers::with_capacity(alloc, types.len())?;
        for ty in types {
            numbers.push(ty.number)?;
        }
        Ok(numbers)
    }

    /// Returns boxed types with the same meaning as types of the store.
    fn boxes(&self, alloc: Global, types: &[TypeId]) -> Result<Vec<BoxType>, OutOfMemory>
        requires { All (IsInterned self.now) types.now }
        ensures given { IfOk result (λ v. All IsGiven v.items) }
        ensures same { IfOk result (λ v. map tree_of v.items ≡ map tree_of_type types.now) }
    {
        let store = BoxStore::new();
        let mut boxes = Vec::new(alloc);
        for ty in types {
            boxes.push(store.copy(alloc, self.table.ty(ty.number))?)?;
        }
        Ok(boxes)
    }

    /// Compares two types by number or memo. The memo is used for types with parts, under the store's parents, if these
    /// are few. `None` if the types must be compared structurally.
    fn answers(&mut self, parents: &Parents, s: &TypeId, t: &TypeId) -> Option<Answers>
        requires left { IsInterned self.old s.now }
        requires right { IsInterned self.old t.now }
        ensures static_test { IfSome result
            (λ a. a.is_static ≡ static_test parents.now (tree_of_type s.now) (tree_of_type t.now)) }
        ensures assignable_test { IfSome result
            (λ a. a.is_assignable ≡ assignable_test parents.now (tree_of_type s.now) (tree_of_type t.now)) }
        ensures same { self.new ≡ self.old }
    {
        if self.is_same(s, t) {
            parents.ordered();
            return Some(Answers {
                s: s.number,
                t: t.number,
                is_static: true,
                is_assignable: true,
            });
        }
        if self.table.is_simple(s.number) && self.table.is_simple(t.number) {
            return None;
        }
        if !self.is_memo_asked(s, t) || !self.parents.is_same(parents) {
            return None;
        }
        if let Some(answers) = self.memo.recall(s.number, t.number) {
            return Some(answers);
        }
        let answers = compare(&self.table, parents, s.number, t.number);
        self.memo.keep(answers);
        Some(answers)
    }
}

impl TypeStore for InternStore {
    type Ty = TypeId;

    ghost use Rattle.pc_intern.specs.Store.{IsInterned, tree_of_type};

    ghost has = { IsInterned };

    ghost tree = { tree_of_type };

    ghost normal = { λ _ _ h. h.normal };

    ghost small = { λ _ _ h. h.small };

    fn any(&mut self, alloc: Global) -> Result<TypeId, OutOfMemory> {
        self.made(alloc, &BoxType::Any)
    }

    fn object(&mut self, alloc: Global) -> Result<TypeId, OutOfMemory> {
        self.made(alloc, &BoxType::Object)
    }

    fn never(&mut self, alloc: Global) -> Result<TypeId, OutOfMemory> {
        self.made(alloc, &BoxType::Never)
    }

    fn int(&mut self, alloc: Global) -> Result<TypeId, OutOfMemory> {
        self.made(alloc, &BoxType::Int)
    }

    fn bool(&mut self, alloc: Global) -> Result<TypeId, OutOfMemory> {
        self.made(alloc, &BoxType::Bool)
    }

    fn str(&mut self, alloc: Global) -> Result<TypeId, OutOfMemory> {
        self.made(alloc, &BoxType::Str)
    }

    fn none(&mut self, alloc: Global) -> Result<TypeId, OutOfMemory> {
        self.made(alloc, &BoxType::NoneType)
    }

    fn class(&mut self, alloc: Global, number: usize) -> Result<TypeId, OutOfMemory> {
        self.made(alloc, &BoxType::Class(number))
    }

    fn list(&mut self, alloc: Global, item: &TypeId) -> Result<Option<TypeId>, OutOfMemory> {
        let numbers = Numbers::from_slice(alloc, &[item.number])?;
        if let Some(known) = self.known(Head::List, numbers) {
            return Ok(Some(known));
        }
        match BoxStore::new().list(alloc, self.table.ty(item.number))? {
            None => Ok(None),
            Some(ty) => Ok(Some(self.made(alloc, &ty)?)),
        }
    }

    fn dict(
        &mut self,
        alloc: Global,
        key: &TypeId,
        value: &TypeId,
    ) -> Result<Option<TypeId>, OutOfMemory> {
        let numbers = Numbers::from_slice(alloc, &[key.number, value.number])?;
        if let Some(known) = self.known(Head::Dict, numbers) {
            return Ok(Some(known));
        }
        let (key, value) = (self.table.ty(key.number), self.table.ty(value.number));
        match BoxStore::new().dict(alloc, key, value)? {
            None => Ok(None),
            Some(ty) => Ok(Some(self.made(alloc, &ty)?)),
        }
    }

    fn tuple(&mut self, alloc: Global, parts: &[TypeId]) -> Result<Option<TypeId>, OutOfMemory> {
        let numbers = self.numbers(alloc, parts)?;
        if let Some(known) = self.known(Head::Tuple(parts.len()), numbers) {
            return Ok(Some(known));
        }
        if self.is_tuple_large(parts) {
            return Ok(None);
        }
        let boxes = self.boxes(alloc, parts)?;
        match BoxStore::new().tuple(alloc, &boxes)? {
            None => Ok(None),
            Some(ty) => Ok(Some(self.made(alloc, &ty)?)),
        }
    }

    fn copy(&self, _alloc: Global, ty: &TypeId) -> Result<TypeId, OutOfMemory> {
        Ok(self.held(ty.number))
    }

    fn head(&self, ty: &TypeId) -> Head {
        self.table.head(ty.number)
    }

    fn nodes(&self, ty: &TypeId) -> usize {
        BoxStore::new().nodes(self.table.ty(ty.number))
    }

    fn part(&self, _alloc: Global, ty: &TypeId, number: usize) -> Result<TypeId, OutOfMemory> {
        Ok(self.held(self.table.parts(ty.number)[number]))
    }

    fn boxed<'t>(&'t self, ty: &'t TypeId) -> &'t BoxType {
        self.table.ty(ty.number)
    }

    fn mark(&self, ty: &TypeId) -> usize {
        ty.number
    }

    fn members(&self, alloc: Global, ty: &TypeId) -> Result<Vec<TypeId>, OutOfMemory> {
        match self.head(ty) {
            Head::Never => Ok(Vec::new(alloc)),
            Head::Union(_) => Ok(self.parts(alloc, ty)?),
            _ => Ok(vec![in alloc; self.held(ty.number)]?),
        }
    }

    fn parts(&self, alloc: Global, ty: &TypeId) -> Result<Vec<TypeId>, OutOfMemory> {
        let mut parts = Vec::with_capacity(alloc, self.table.parts(ty.number).len())?;
        for number in self.table.parts(ty.number) {
            parts.push(self.held(*number))?;
        }
        Ok(parts)
    }

    fn union(&mut self, alloc: Global, types: &[TypeId]) -> Result<Option<TypeId>, OutOfMemory> {
        if let [single] = types {
            return Ok(Some(self.held(single.number)));
        }
        let numbers = self.numbers(alloc, types)?;
        if let Some(known) = self.known(Head::Union(types.len()), numbers) {
            return Ok(Some(known));
        }
        let boxes = self.boxes(alloc, types)?;
        match BoxStore::new().union(alloc, &boxes)? {
            None => Ok(None),
            Some(ty) => Ok(Some(self.made(alloc, &ty)?)),
        }
    }

    fn join(
        &mut self,
        alloc: Global,
        parents: &Parents,
        s: &TypeId,
        t: &TypeId,
    ) -> Result<Option<TypeId>, OutOfMemory> {
        if let Some(joined) = self.join_at_once(s, t) {
            return Ok(Some(joined));
        }
        if self.is_pair_kept(s, t) {
            return self.pair_joined(alloc, parents, s, t);
        }
        match self.boxes_join(alloc, parents, s, t)? {
            None => Ok(None),
            Some(ty) => Ok(Some(self.made(alloc, &ty)?)),
        }
    }

    fn join_all(
        &mut self,
        alloc: Global,
        parents: &Parents,
        types: &[TypeId],
    ) -> Result<TypeId, OutOfMemory> {
        if let [only] = types {
            return Ok(self.held(only.number));
        }
        if let Some(joined) = self.same_joined(types) {
            return Ok(joined);
        }
        if !self.are_kept(types) {
            return self.joined(alloc, parents, types);
        }
        self.joined_once(alloc, parents, types)
    }

    fn is_static(&mut self, parents: &Parents, s: &TypeId, t: &TypeId) -> bool {
        parents.ordered();
        if let Some(answers) = self.answers(parents, s, t) {
            return answers.is_static;
        }
        let (s, t) = (self.table.ty(s.number), self.table.ty(t.number));
        BoxStore::new().is_static(parents, s, t)
    }

    fn is_assignable(&mut self, parents: &Parents, s: &TypeId, t: &TypeId) -> bool {
        parents.ordered();
        if let Some(answers) = self.answers(parents, s, t) {
            return answers.is_assignable;
        }
        let (s, t) = (self.table.ty(s.number), self.table.ty(t.number));
        BoxStore::new().is_assignable(parents, s, t)
    }
}
