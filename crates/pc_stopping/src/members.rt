//! E06: a member name used twice in a class, a field name that an ancestor has, or a method name that an ancestor has
//! as a field. Own rule of the profile.
ghost use Rattle.std.specs.Prelude.{◌≡◌, ◌<◌, ◌||◌, ◌++◌, ◌∷◌, [], map, IfOk, OnOk, List, ℕ, Option, Some, slice_get};
ghost use Rattle.std.specs.Prelude.{length};
ghost use Rattle.pc_tree.specs.declared.code.Code.TheVariants.{E06};
ghost use Rattle.pc_tree.specs.Tree.{Item as ItemOf, item_of, member_of, module_of, option_name_of};
ghost use Rattle.pc_tree.specs.Stopping.{HeldMember, is_field, is_among, is_reserved_member, name_of_member};
ghost use Rattle.pc_tree.specs.Stopping.{clashes_among, clashing_in, clashing_members, own_members, option_text};
ghost use Rattle.pc_tree.specs.Names.{texts_in};
ghost use Rattle.pc_tree.specs.Code.{at_code};
ghost use Rattle.pc_stopping.specs.Holdings.{HasIn, Keeps};
ghost use Rattle.pc_stopping.specs.Members.{clashes_with, held_unless, base_at, HoldsTables, IsTableOf};

use crate::holdings::{EMPTY, Holding, Holdings};
use crate::reserved::has_reserved_name;
use indexmap::{IndexMap, IndexSet};
use pc_source::{OutOfMemory, is_reserved};
use pc_tree::{
    Code, Findings, Item, ItemKind, Keys, Member, Module, Name, NameMap, NameSet, bind_first,
    find_if, put,
};
use std::alloc::Global;

/// Returns whether a member clashes with the inherited holding of its name: a field with any, a method with a field.
fn clashes(had: Holding, member: &Member) -> bool
    ensures { result ≡ clashes_with had (is_field (member_of member.now)) }
{
    match member {
        Member::Field(_) => match had {
            Holding::Nothing => false,
            Holding::Method => true,
            Holding::Field => true,
        },
        Member::Method(_) => match had {
            Holding::Nothing => false,
            Holding::Method => false,
            Holding::Field => true,
        },
    }
}

/// Returns whether a member repeats a name of its class or clashes with what the class inherits.
fn is_clash(again: bool, inherited: Holding, member: &Member) -> bool
    ensures { result ≡ (again || clashes_with inherited (is_field (member_of member.now))) }
{
    again || clashes(inherited, member)
}

/// Returns the table of a class after a member: with it, or unchanged if the member clashes or its name is reserved.
fn table_behind(
    holdings: &mut Holdings<'_>,
    table: usize,
    number: usize,
    clash: bool,
    member: &Member,
) -> Result<usize, OutOfMemory>
    requires { table < length holdings.old.tables }
    ensures within { IfOk result (λ t. t < length holdings.new.tables) }
    ensures keeps { OnOk result (Keeps holdings.old holdings.new) }
    ensures has { IfOk result
        (λ t. (all : List HeldMember)
        → slice_get (texts_in holdings.old.numbers) number ≡ Some (name_of_member (member_of member.now)).text
        → HasIn holdings.old table all
        → HasIn holdings.new t (all
        ++ held_unless (is_reserved_member (member_of member.now) || clash) (member_of member.now))) }
{
    if has_reserved_name(member) {
        return Ok(table);
    }
    if clash {
        return Ok(table);
    }
    holdings.hold(table, number, member)
}

/// Adds E06 if a member clashes with an earlier one of its class or with what the class inherits. Returns the table of
/// the class after the member.
fn find_member<'m>(
    found: &mut Findings,
    holdings: &mut Holdings<'m>,
    before: &mut NameSet<'m>,
    inherited: usize,
    table: usize,
    member: &'m Member,
) -> Result<usize, OutOfMemory>
    requires inherited { inherited < length holdings.old.tables }
    requires table { table < length holdings.old.tables }
    ensures within { IfOk result (λ t. t < length holdings.new.tables) }
    ensures keeps { OnOk result (Keeps holdings.old holdings.new) }
    ensures passed { OnOk result
        ((text : List ℕ) → is_among (texts_in before.new) text
        ≡ is_among ((name_of_member (member_of member.now)).text ∷ texts_in before.old) text) }
    ensures found { (hs : List HeldMember) → HasIn holdings.old inherited hs
        → OnOk result (found.new.items
        ≡ found.old.items ++ at_code E06 (clashes_among (texts_in before.old) hs (member_of member.now ∷ []))) }
    ensures has { IfOk result
        (λ t. (hs all : List HeldMember) → HasIn holdings.old inherited hs → HasIn holdings.old table all
        → HasIn holdings.new t (all ++ own_members (texts_in before.old) hs (member_of member.now ∷ []))) }
{
    let name = member.name();
    let again = put(before, name.text.as_str())?;
    let number = holdings.number(name.text.as_str())?;
    let clash = is_clash(again, holdings.held(inherited, number), member);
    find_if(found, clash, Code::E06, name.place)?;
    table_behind(holdings, table, number, clash, member)
}

/// Adds E06 for each member of a class that clashes. Returns the table of the class: what it inherits and its own
/// members.
fn find_in_class<'m>(
    found: &mut Findings,
    alloc: Global,
    keys: Keys,
    holdings: &mut Holdings<'m>,
    inherited: usize,
    members: &'m [Member],
) -> Result<usize, OutOfMemory>
    requires { inherited < length holdings.old.tables }
    ensures keeps { OnOk result (Keeps holdings.old holdings.new) }
    ensures found { (hs : List HeldMember) → HasIn holdings.old inherited hs
        → OnOk result (found.new.items
        ≡ found.old.items ++ at_code E06 (clashes_among [] hs (map member_of members.now))) }
    ensures has { IfOk result
        (λ t. (hs : List HeldMember) → HasIn holdings.old inherited hs
        → HasIn holdings.new t (hs ++ own_members [] hs (map member_of members.now))) }
{
    let mut before = IndexSet::with_hasher(alloc, keys);
    let mut table = inherited;
    for member in members {
        table = find_member(found, holdings, &mut before, inherited, table, member)?;
    }
    Ok(table)
}

/// Returns the table of a base, or the empty table if there is no base or no class has its name.
fn base_table(bound: &NameMap<'_, usize>, base: &Option<Name>) -> usize
    ensures { result ≡ base_at bound.now (option_text (option_name_of base.now)) }
{
    match base {
        Some(name) => match bound.get(name.text.as_str()) {
            Some(table) => *table,
            None => EMPTY,
        },
        None => EMPTY,
    }
}

/// Adds E06 for each member that clashes if the item is a class. Returns the table of the item's name, provided that no
/// earlier item binds it.
fn find_in_item<'m>(
    found: &mut Findings,
    alloc: Global,
    keys: Keys,
    holdings: &mut Holdings<'m>,
    bound: &NameMap<'m, usize>,
    item: &'m Item,
) -> Result<usize, OutOfMemory>
    requires { (base : Option (List ℕ)) → base_at bound.now base < length holdings.old.tables }
    ensures keeps { OnOk result (Keeps holdings.old holdings.new) }
    ensures found { (before : List ItemOf) → HoldsTables holdings.old bound.now before
        → OnOk result (found.new.items ≡ found.old.items ++ at_code E06 (clashing_in before (item_of item.now ∷ []))) }
    ensures has { IfOk result
        (λ t. (before : List ItemOf) → HoldsTables holdings.old bound.now before
        → IsTableOf holdings.new before (item_of item.now) t) }
{
    match &item.kind {
        ItemKind::Constant(_) => Ok(EMPTY),
        ItemKind::Class(class) => {
            let inherited = base_table(bound, &class.base);
            let own = find_in_class(found, alloc, keys, holdings, inherited, &class.members)?;
            if is_reserved(class.name.text.as_str()) {
                return Ok(EMPTY);
            }
            Ok(own)
        }
        ItemKind::Def(_) => Ok(EMPTY),
    }
}

/// Adds E06 for each member that clashes in a class among these items, given tables that hold nothing yet.
fn find_in_items<'m>(
    found: &mut Findings,
    alloc: Global,
    keys: Keys,
    holdings: &mut Holdings<'m>,
    bound: &mut NameMap<'m, usize>,
    items: &'m [Item],
) -> Result<(), OutOfMemory>
    requires { HoldsTables holdings.old bound.old [] }
    ensures { OnOk result (found.new.items ≡ found.old.items ++ at_code E06 (clashing_in [] (map item_of items.now))) }
{
    for item in items {
        let table = find_in_item(found, alloc, keys, holdings, bound, item)?;
        bind_first(bound, item.name().text.as_str(), table)?;
    }
    Ok(())
}

/// Adds E06 for each member of a class that clashes. Members of a base are looked up in its table; no table is copied.
///
/// # Errors
///
/// `OutOfMemory` only if an allocation failed.
pub fn find_in_classes(
    found: &mut Findings,
    alloc: Global,
    keys: Keys,
    program: &Module,
) -> Result<(), OutOfMemory>
    ensures { OnOk result (found.new.items ≡ found.old.items
        ++ at_code E06 (clashing_members (module_of program.now))) }
{
    let mut holdings = Holdings::new(alloc, keys)?;
    let mut bound = IndexMap::with_hasher(alloc, keys);
    find_in_items(
        found,
        alloc,
        keys,
        &mut holdings,
        &mut bound,
        &program.items,
    )
}
