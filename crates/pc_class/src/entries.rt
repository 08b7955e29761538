//! The members of a class, judged by the names that it inherits.
#![tactic(auto, using(pc_tree::proofs::Finds::at_both, pc_tree::proofs::Joints::joined))]

ghost use Rattle.std.specs.Prelude.{◌≡◌, ◌++◌, [], map, OnOk, IfOk};
ghost use Rattle.pc_tree.specs.declared.code.Code.TheVariants.{E06, E08};
ghost use Rattle.pc_tree.specs.Tree.{member_of};
ghost use Rattle.pc_tree.specs.Code.{at_code};
ghost use Rattle.pc_scope.specs.Resolution.{is_one_of};
ghost use Rattle.pc_scope.specs.Internal.WalkViews.{texts_in};
ghost use Rattle.pc_class.specs.Entries.{HasMaps, inherited_in, member_binds, member_clashes, entry_of_member, entries_of_members};
ghost use Rattle.pc_class.specs.Entries.{entry_seen, entry_default, clash_places, late_places, defaulted_in};

use indexmap::IndexSet;
use pc_shared_maps::{NameNumbers, NamedMaps, number};
use pc_source::{OutOfMemory, is_reserved};
use pc_tree::{Code, Findings, Keys, Member, find_if};
use std::alloc::Global;

/// The maps of the fields and of the methods that a class has, by name.
#[derive(Clone, Copy)]
pub struct MemberMaps {
    pub fields: usize,
    pub methods: usize,
}

/// A member of a class: the number of methods before it, whether it binds its name, and whether that clashes.
#[derive(Clone, Copy)]
pub struct ClassMember<'m> {
    pub member: &'m Member,
    pub number: usize,
    pub binds: bool,
    pub clashes: bool,
}

/// Returns whether a name is among the earlier ones.
fn is_among(before: &NameNumbers, name: &str) -> bool
    ensures { result ≡ is_one_of name.now (texts_in before.now) }
{
    before.contains(name)
}

/// Returns whether a member binds its name: the name is not reserved, not an earlier member's, and not that of an
/// inherited field; for a field it is also not `mro` and not that of an inherited method. Own rule of the profile.
#[tactic(auto, using(crate::proofs::ReservedNames::reserved_same))]
fn binds(named: &NamedMaps, base: MemberMaps, before: &NameNumbers, member: &Member) -> bool
    requires { HasMaps named.now base }
    ensures { result ≡ member_binds (inherited_in named.now base) (texts_in before.now) (member_of member.now) }
{
    match member {
        Member::Field(field) => {
            let name = field.name.text.as_str();
            !(is_reserved(name) || name == "mro")
                && (!is_among(before, name)
                    && !(named.has(base.fields, name) || named.has(base.methods, name)))
        }
        Member::Method(def) => {
            let name = def.name.text.as_str();
            !is_reserved(name) && (!is_among(before, name) && !named.has(base.fields, name))
        }
    }
}

/// Returns whether a member has the name of an earlier one or clashes with an ancestor's. Own rule of the profile.
fn clashes(named: &NamedMaps, base: MemberMaps, before: &NameNumbers, member: &Member) -> bool
    requires { HasMaps named.now base }
    ensures { result ≡ member_clashes (inherited_in named.now base) (texts_in before.now) (member_of member.now) }
{
    match member {
        Member::Field(field) => {
            let name = field.name.text.as_str();
            is_among(before, name)
                || (named.has(base.fields, name) || named.has(base.methods, name))
        }
        Member::Method(def) => {
            let name = def.name.text.as_str();
            is_among(before, name) || named.has(base.fields, name)
        }
    }
}

/// Returns the entry of a member, given the names of the members before it and the maps of the class's base: the
/// member, its `number`, whether it binds its name, and whether that clashes.
fn judge<'m>(
    named: &NamedMaps,
    base: MemberMaps,
    before: &NameNumbers,
    number: usize,
    member: &'m Member,
) -> ClassMember<'m>
    requires { HasMaps named.now base }
    ensures { entry_seen result
        ≡ entry_of_member (inherited_in named.now base) (texts_in before.now) number (member_of member.now) }
{
    ClassMember {
        member,
        number,
        binds: binds(named, base, before, member),
        clashes: clashes(named, base, before, member),
    }
}

/// Returns the entries of the members of a class in order, given the maps of its base.
pub fn entries<'m>(
    alloc: Global,
    keys: Keys,
    named: &NamedMaps,
    base: MemberMaps,
    members: &'m [Member],
) -> Result<Vec<ClassMember<'m>>, OutOfMemory>
    requires { HasMaps named.now base }
    ensures { IfOk result (λ es. map entry_seen es.items
        ≡ entries_of_members (inherited_in named.now base) [] 0 (map member_of members.now)) }
{
    let mut all = Vec::new(alloc);
    let mut before = IndexSet::with_hasher(alloc, keys);
    let mut methods = 0;
    for member in members {
        all.push(judge(named, base, &before, methods, member))?;
        number(&mut before, alloc, member.name().text.as_str())?;
        match member {
            Member::Field(_) => {}
            Member::Method(_) => methods += 1,
        }
    }
    Ok(all)
}

/// Adds E06 for each member whose name clashes. Own rule of the profile.
pub fn find_clashes(found: &mut Findings, entries: &[ClassMember]) -> Result<(), OutOfMemory>
    ensures { OnOk result (found.new.items
        ≡ found.old.items ++ at_code E06 (clash_places (map entry_seen entries.now))) }
{
    for entry in entries {
        find_if(found, entry.clashes, Code::E06, entry.member.name().place)?;
    }
    Ok(())
}

/// Returns whether the field that an entry binds has a default, or `None` if it binds no field.
fn default_of(entry: &ClassMember) -> Option<bool>
    ensures { result ≡ entry_default (entry_seen entry.now) }
{
    if !entry.binds {
        return None;
    }
    match entry.member {
        Member::Field(field) => Some(field.default.is_some()),
        Member::Method(_) => None,
    }
}

/// Appends E08 for each field without a default after one with a default; `defaulted` says whether there was a default
/// before these entries. Returns whether there was one before or among them. Library reference, `dataclasses`.
pub fn find_late_fields(
    found: &mut Findings,
    defaulted: bool,
    entries: &[ClassMember],
) -> Result<bool, OutOfMemory>
    ensures found { OnOk result
        (found.new.items ≡ found.old.items ++ at_code E08 (late_places defaulted (map entry_seen entries.now))) }
    ensures defaulted { IfOk result (λ d. d ≡ defaulted_in defaulted (map entry_seen entries.now)) }
{
    let mut defaulted = defaulted;
    for entry in entries {
        if let Some(has_default) = default_of(entry) {
            find_if(
                found,
                defaulted && !has_default,
                Code::E08,
                entry.member.name().place,
            )?;
            defaulted = defaulted || has_default;
        }
    }
    Ok(defaulted)
}
