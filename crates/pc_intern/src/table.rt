//! The table of an interned store, which has each type tree once.

ghost use Rattle.std.specs.Prelude.{◌≡◌, ◌↔◌, ◌<◌, ◌++◌, ℕ, List, [], All, length, slice_get, map, IfOk, IfSome};
ghost use Rattle.std.specs.Prelude.{IsTrue, OnOk, Some};
ghost use Rattle.pc_types.specs.Tree.{Tree};
ghost use Rattle.pc_types.specs.Boxed.{tree_of, IsGiven};
ghost use Rattle.pc_types.specs.Head.{head_of};
ghost use Rattle.pc_types.specs.Shape.{members, parts};
ghost use Rattle.pc_intern.specs.Table.{tree_at, basic_types, IsNode, IsNodeAt, Grows};

use indexmap::IndexMap;
use pc_source::OutOfMemory;
use pc_tree::Keys;
use pc_types::{BoxStore, BoxType, Head, TypeStore};
use smallvec::SmallVec;
use std::alloc::Global;
use std::marker::Model;

/// The number of basic types: types that have no parts and are not classes.
const BASIC_TYPES: usize = 7;

/// Numbers of types, in order. Few types have more than four parts.
pub(crate) type Numbers = SmallVec<usize, 4>;

/// The key of a type in the table: its head, and the numbers of its parts.
#[derive(PartialEq, Eq, Hash, Drop)]
pub(crate) struct TypeNode {
    pub(crate) head: Head,
    pub(crate) parts: Numbers,
}

/// The types of a store, by number. Contracts see them as the list of the types in this order.
#[derive(Drop)]
pub(crate) struct Table {
    entries: IndexMap<TypeNode, BoxType, Keys>,
    /// The number of each basic type that is in the table, at its place, so that it is found without hashing.
    basic: [Option<usize>; BASIC_TYPES],
}

impl Model for Table {
    ghost use Rattle.std.specs.Prelude.{List};
    ghost use Rattle.std.specs.Map.{values_of};
    ghost use Rattle.std.specs.Coded.{coded_list};
    ghost use Rattle.pc_types.specs.declared.boxed.BoxType.{BoxType};
    ghost use Rattle.pc_types.specs.contracts.boxed.BoxType as boxed;

    ghost Value = { List BoxType };

    ghost coded = { coded_list boxed.the_row.coded };

    ghost use Rattle.pc_intern.specs.Table.{IsTable, AreBasic};

    ghost view = { λ t. values_of t.entries.entries };

    ghost invariant = { λ t. IsTable t.entries.entries × AreBasic (values_of t.entries.entries) t.basic };
}

/// Returns the place of a basic type, or `None` for any other type.
fn basic_place(ty: &BoxType) -> Option<usize>
    ensures { IfSome result (λ p. slice_get basic_types p ≡ Some (tree_of ty.now)) }
{
    match ty {
        BoxType::Any => Some(0),
        BoxType::Object => Some(1),
        BoxType::Never => Some(2),
        BoxType::Int => Some(3),
        BoxType::Bool => Some(4),
        BoxType::Str => Some(5),
        BoxType::NoneType => Some(6),
        _ => None,
    }
}

impl Table {
    /// Returns an empty table.
    pub(crate) fn new(alloc: Global, keys: Keys) -> Table
        ensures { result ≡ [] }
    {
        Table {
            entries: IndexMap::with_hasher(alloc, keys),
            basic: [None; BASIC_TYPES],
        }
    }

    /// Returns the type with this number.
    pub(crate) fn ty(&self, number: usize) -> &BoxType
        requires { number < length self.now }
        ensures value { slice_get self.now number ≡ Some result.now }
        ensures given { IsGiven result.now }
    {
        &self.entries[number]
    }

    /// Returns the head of a type, which its node has.
    pub(crate) fn head(&self, number: usize) -> Head
        requires { number < length self.now }
        ensures { (b : _) → slice_get self.now number ≡ Some b → result ≡ head_of (tree_of b) }
    {
        self.entries.keys().as_slice()[number].head
    }

    /// Returns the numbers of a type's parts, in order.
    pub(crate) fn parts(&self, number: usize) -> &[usize]
        requires { number < length self.now }
        ensures { (b : _) → slice_get self.now number ≡ Some b
            → map (tree_at self.now) result.now ≡ map Some (parts (tree_of b)) }
    {
        self.entries.keys().as_slice()[number].parts.as_slice()
    }

    /// Returns whether a type has no parts.
    pub(crate) fn is_simple(&self, number: usize) -> bool
        requires { number < length self.now }
        ensures { (b : _) → slice_get self.now number ≡ Some b → IsTrue result ↔ (parts (tree_of b) ≡ []) }
    {
        self.parts(number).is_empty()
    }

    /// Gives proofs the fact that no tree has two numbers. It does nothing.
    pub(crate) fn stands_once(&self)
        ensures { (m : ℕ) (n : ℕ) (t : Tree) → tree_at self.now m ≡ Some t → tree_at self.now n ≡ Some t → m ≡ n }
    {
        let _ = &self.entries;
    }

    /// Returns the number of the type with this head and these parts, if it is in the table.
    pub(crate) fn find(&self, node: &TypeNode) -> Option<usize>
        ensures { IfSome result (λ n. IsNodeAt self.now node.now n) }
    {
        let (number, _, _) = self.entries.get_full(node)?;
        Some(number)
    }

    /// Returns the number of a type with this head and these parts. Adds the type if it is not in the table.
    fn add(&mut self, alloc: Global, node: TypeNode, ty: &BoxType) -> Result<usize, OutOfMemory>
        requires given { IsGiven ty.now }
        requires node { IsNode self.old node (tree_of ty.now) }
        ensures value { IfOk result (λ n. tree_at self.new n ≡ Some (tree_of ty.now)) }
        ensures grows { Grows self.old self.new }
    {
        if let Some((number, _, _)) = self.entries.get_full(&node) {
            return Ok(number);
        }
        let number = self.entries.len();
        let ty = BoxStore::new().copy(alloc, ty)?;
        self.entries.insert(node, ty)?;
        Ok(number)
    }

    /// Returns the number of the basic type with this place. Adds it if it is not in the table.
    fn intern_basic(
        &mut self,
        alloc: Global,
        place: usize,
        ty: &BoxType,
    ) -> Result<usize, OutOfMemory>
        requires given { IsGiven ty.now }
        requires place { slice_get basic_types place ≡ Some (tree_of ty.now) }
        ensures value { IfOk result (λ n. tree_at self.new n ≡ Some (tree_of ty.now)) }
        ensures grows { Grows self.old self.new }
    {
        if let Some(known) = self.basic[place] {
            return Ok(known);
        }
        let node = TypeNode {
            head: BoxStore::new().head(ty),
            parts: Numbers::new(alloc),
        };
        let number = self.add(alloc, node, ty)?;
        self.basic[place] = Some(number);
        Ok(number)
    }

    /// Returns the number of a type. Adds the type and its parts if they are not in the table.
    #[cycle(intern)]
    pub(crate) fn intern(&mut self, alloc: Global, ty: &BoxType) -> Result<usize, OutOfMemory>
        requires { IsGiven ty.now }
        ensures value { IfOk result (λ n. tree_at self.new n ≡ Some (tree_of ty.now)) }
        ensures grows { Grows self.old self.new }
    {
        if let Some(place) = basic_place(ty) {
            return self.intern_basic(alloc, place, ty);
        }
        let parts = self.intern_parts(alloc, ty)?;
        let node = TypeNode {
            head: BoxStore::new().head(ty),
            parts,
        };
        self.add(alloc, node, ty)
    }

    /// Returns the numbers of a type's parts. Adds each part that is not in the table.
    #[cycle(intern)]
    fn intern_parts(&mut self, alloc: Global, ty: &BoxType) -> Result<Numbers, OutOfMemory>
        requires { IsGiven ty.now }
        ensures value { IfOk result (λ v. map (tree_at self.new) v.items ≡ map Some (parts (tree_of ty.now))) }
        ensures grows { Grows self.old self.new }
    {
        match ty {
            BoxType::List(item) => {
                let item = self.intern(alloc, item)?;
                Ok(Numbers::from_slice(alloc, &[item])?)
            }
            BoxType::Dict(key, value) => {
                let key = self.intern(alloc, key)?;
                let value = self.intern(alloc, value)?;
                Ok(Numbers::from_slice(alloc, &[key, value])?)
            }
            BoxType::Tuple(parts) => self.intern_each(alloc, parts),
            BoxType::Union(first, others) => {
                let first = self.intern(alloc, first)?;
                let mut numbers = Numbers::from_slice(alloc, &[first])?;
                self.intern_members(alloc, others, &mut numbers)?;
                Ok(numbers)
            }
            _ => Ok(Numbers::new(alloc)),
        }
    }

    /// Returns the numbers of types. Adds each type that is not in the table.
    #[cycle(intern)]
    fn intern_each(&mut self, alloc: Global, types: &[BoxType]) -> Result<Numbers, OutOfMemory>
        requires { All IsGiven types.now }
        ensures value { IfOk result (λ v. map (tree_at self.new) v.items ≡ map Some (map tree_of types.now)) }
        ensures grows { Grows self.old self.new }
    {
        let mut numbers = Numbers::new(alloc);
        for ty in types {
            numbers.push(self.intern(alloc, ty)?)?;
        }
        Ok(numbers)
    }

    /// Appends the numbers of a type's members. Adds each member that is not in the table.
    #[cycle(intern)]
    fn intern_members(
        &mut self,
        alloc: Global,
        ty: &BoxType,
        numbers: &mut Numbers,
    ) -> Result<(), OutOfMemory>
        requires { IsGiven ty.now }
        ensures value { (us : List Tree) → map (tree_at self.old) numbers.old.items ≡ map Some us
            → OnOk result (map (tree_at self.new) numbers.new.items ≡ map Some (us ++ members (tree_of ty.now))) }
        ensures grows { Grows self.old self.new }
    {
        match ty {
            BoxType::Never => Ok(()),
            BoxType::Union(first, others) => {
                numbers.push(self.intern(alloc, first)?)?;
                self.intern_members(alloc, others, numbers)
            }
            _ => {
                numbers.push(self.intern(alloc, ty)?)?;
                Ok(())
            }
        }
    }
}
