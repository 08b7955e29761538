//! Tables of the members that classes have by name. Each class has a table, which shares the entries of its base.
ghost use Rattle.std.specs.Prelude.{◌≡◌, ◌<◌, ◌++◌, ◌∷◌, [], IfOk, OnOk, Some, slice_get, length, List, ℕ};
ghost use Rattle.pc_tree.specs.Tree.{member_of};
ghost use Rattle.pc_tree.specs.Stopping.{HeldMember, held_by, name_of_member, is_field};
ghost use Rattle.pc_tree.specs.Names.{texts_in};
ghost use Rattle.pc_shared_maps.specs.SharedMaps.{held_at};
ghost use Rattle.pc_stopping.specs.Holdings.{HasIn, Keeps, number_of, holding_of, with_member};

use indexmap::IndexSet;
use pc_shared_maps::SharedMaps;
use pc_source::OutOfMemory;
use pc_tree::{Keys, Member, NameSet};
use std::alloc::Global;

/// The number of the empty table.
pub const EMPTY: usize = 0;

/// The kind of member that a class or its ancestors have under a name.
#[derive(Clone, Copy, Debug, PartialEq, Eq)]
pub enum Holding {
    Nothing,
    /// Methods, and no field.
    Method,
    Field,
}

/// The numbered names of members, and the tables from these numbers to holdings.
#[derive(Drop)]
pub struct Holdings<'m> {
    pub numbers: NameSet<'m>,
    pub tables: SharedMaps,
}

/// Returns the value of a table that represents a holding.
fn number_of(holding: Holding) -> usize
    ensures { result ≡ number_of holding }
{
    match holding {
        Holding::Nothing => 0,
        Holding::Method => 1,
        Holding::Field => 2,
    }
}

/// Returns the holding that a value of a table represents; without a value it is nothing.
fn holding_of(value: Option<usize>) -> Holding
    ensures { result ≡ holding_of value }
{
    match value {
        None | Some(0) => Holding::Nothing,
        Some(1) => Holding::Method,
        Some(_) => Holding::Field,
    }
}

/// Returns the holding of a name after one more member of that name.
fn with_member(had: Holding, member: &Member) -> Holding
    ensures { result ≡ with_member had (is_field (member_of member.now)) }
{
    match member {
        Member::Field(_) => Holding::Field,
        Member::Method(_) => match had {
            Holding::Nothing => Holding::Method,
            Holding::Method => Holding::Method,
            Holding::Field => Holding::Field,
        },
    }
}

impl<'m> Holdings<'m> {
    /// Returns no names and the empty table.
    pub fn new(alloc: Global, keys: Keys) -> Result<Holdings<'m>, OutOfMemory>
        ensures { IfOk result (λ h. HasIn h EMPTY []) }
    {
        let numbers = IndexSet::with_hasher(alloc, keys);
        let tables = SharedMaps::new(alloc)?;
        Ok(Holdings { numbers, tables })
    }

    /// Returns the number of a name, and adds the name if it is new.
    pub fn number(&mut self, name: &'m str) -> Result<usize, OutOfMemory>
        ensures named { IfOk result (λ k. slice_get (texts_in self.new.numbers) k ≡ Some name.now) }
        ensures tables { self.new.tables ≡ self.old.tables }
        ensures kept { OnOk result ((t : ℕ) (hs : List HeldMember) → HasIn self.old t hs → HasIn self.new t hs) }
    {
        let (number, _) = self.numbers.insert_full(name)?;
        Ok(number)
    }

    /// Returns the holding in a table at the number of a name.
    pub fn held(&self, table: usize, number: usize) -> Holding
        requires { table < length self.now.tables }
        ensures { result ≡ holding_of (held_at self.now.tables table number) }
    {
        holding_of(self.tables.get(table, number))
    }

    /// Adds a table that is `table` with one more member, whose name has this number. Returns its number.
    pub fn hold(
        &mut self,
        table: usize,
        number: usize,
        member: &Member,
    ) -> Result<usize, OutOfMemory>
        requires { table < length self.old.tables }
        ensures within { IfOk result (λ t. t < length self.new.tables) }
        ensures held { IfOk result
            (λ t. (hs : List HeldMember)
            → slice_get (texts_in self.old.numbers) number ≡ Some (name_of_member (member_of member.now)).text
            → HasIn self.old table hs → HasIn self.new t (hs ++ held_by (member_of member.now) ∷ [])) }
        ensures keeps { OnOk result (Keeps self.old self.new) }
    {
        let had = self.held(table, number);
        let value = number_of(with_member(had, member));
        let added = self.tables.put(table, number, value)?;
        Ok(added)
    }
}
