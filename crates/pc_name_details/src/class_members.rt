//! The details of members of classes: one of the same name before or above, and a field with a default before.

ghost use Rattle.std.specs.Prelude.{[], ◌&&◌, ◌<◌, ◌||◌, ◌≡◌, IfOk, OnOk, find, is_none, length, map, option_map};
ghost use Rattle.std.specs.Prelude.{reverse, slice_get, take};
ghost use Rattle.pc_tree.specs.Code.{finding};
ghost use Rattle.pc_tree.specs.declared.code.Code.TheVariants.{E06, E08};
ghost use Rattle.pc_tree.specs.Stopping.{is_field, is_reserved_member, name_of_member};
ghost use Rattle.pc_tree.specs.Tree.{Member as TreeMember, class_of, member_of};
ghost use Rattle.pc_scope.specs.Bindings.{classes_in};
ghost use Rattle.pc_class.specs.Entries.{inherited_by, member_binds};
ghost use Rattle.pc_class.specs.Facts.{class_facts_at, classes_of};
ghost use Rattle.pc_class.specs.Findings.{base_class};
ghost use Rattle.pc_detail_texts.specs.Mapped.{map_detail};
ghost use Rattle.pc_detail_facts.specs.Held.{AreFacts, module_held, text_held};
ghost use Rattle.pc_detail_rules.specs.Names.{clash_detail, clash_in_class, clashes_with, field_order_detail, has_default};
ghost use Rattle.pc_detail_rules.specs.Names.{member_detail, members_above, members_of_number, order_in_class};
ghost use Rattle.pc_detail_rules.specs.Names.{twice_member_detail};
ghost use Rattle.pc_name_details.specs.Naming.{AreFirstDefaults, HasNumber, clash_member, first_default_above};
ghost use Rattle.pc_name_details.specs.Naming.{first_default_after, first_default_of, has_word, is_taken_by, member_bound};
ghost use Rattle.pc_name_details.specs.Naming.{member_lent, members_rule, numbered_held, order_after, owned_member};
ghost use Rattle.pc_name_details.specs.Naming.{place_held};
ghost use Rattle.pc_name_details.specs.Offered.{AddsDetails, KeepsDetail, at_place, of_code};

use crate::first_places::FirstPlaces;
use crate::offers::Offers;
use pc_detail_facts::Facts;
use pc_detail_texts::{LateDefault, MemberName, RuleFault};
use pc_source::{OutOfMemory, is_reserved};
use pc_tree::{ClassDef, Code, Member};

/// A member with the class that has it.
#[derive(Clone, Copy)]
pub(crate) struct OwnedMember<'m> {
    class: &'m ClassDef,
    member: &'m Member,
}

/// Returns whether a member is a field.
fn is_field(member: &Member) -> bool
    ensures { result ≡ is_field (member_of member.now) }
{
    matches!(member, Member::Field(_))
}

/// Returns whether one of two members is a field.
fn is_either_field(first: &Member, second: &Member) -> bool
    ensures { result ≡ (is_field (member_of first.now) || is_field (member_of second.now)) }
{
    is_field(first) || is_field(second)
}

/// Returns whether a member is a field with a default.
fn has_default(member: &Member) -> bool
    ensures { result ≡ has_default (member_of member.now) }
{
    match member {
        Member::Field(field) => field.default.is_some(),
        Member::Method(_) => false,
    }
}

/// Returns whether a member has a reserved name, which for a field is also `mro`.
fn has_reserved_name(member: &Member) -> bool
    ensures { result ≡ is_reserved_member (member_of member.now) }
{
    match member {
        Member::Field(field) => {
            let word = field.name.text.as_str();
            is_reserved(word) || word == "mro"
        }
        Member::Method(def) => is_reserved(def.name.text.as_str()),
    }
}

/// Returns whether a member has this name.
fn has_word(member: &Member, word: &str) -> bool
    ensures { result ≡ has_word word.now (member_of member.now) }
{
    word == member.name().text.as_str()
}

/// Returns the first member of this name.
fn member_named<'m>(members: &'m [Member], word: &str) -> Option<&'m Member>
    ensures { option_map member_lent result ≡ find (has_word word.now) (map member_of members.now) }
{
    for member in members {
        if has_word(member, word) {
            return Some(member);
        }
    }
    None
}

/// Returns the first member with a default: an earlier one, or this one, if it binds its name.
fn first_default<'m>(
    before: Option<OwnedMember<'m>>,
    member: OwnedMember<'m>,
    binds: bool,
) -> Option<OwnedMember<'m>>
    ensures { option_map owned_member result
        ≡ first_default_after (option_map owned_member before.entry) (owned_member member.entry) binds }
{
    if before.is_none() && binds && has_default(member.member) {
        Some(member)
    } else {
        before
    }
}

/// Returns whether a class or one above it has a member that keeps one below of this name from binding it.
fn is_taken(facts: &Facts<'_, '_>, above: usize, member: &Member) -> bool
    requires { AreFacts facts.now }
    ensures { result ≡ is_taken_by (inherited_by (class_facts_at (classes_of (module_held facts.now)) above))
        (member_of member.now) }
{
    match member {
        Member::Field(field) => facts.has_member(above, field.name.text.as_str()),
        Member::Method(def) => facts.field_named(above, def.name.text.as_str()).is_some(),
    }
}

/// Returns whether the first member of its name in the class of this number binds it.
fn binds(facts: &Facts<'_, '_>, number: usize, class: &ClassDef, member: &Member) -> bool
    requires facts { AreFacts facts.now }
    requires numbered { HasNumber facts.now number (class_of class.now) }
    ensures { result ≡ member_binds
        (inherited_by (base_class (module_held facts.now) number (class_of class.now))) [] (member_of member.now) }
{
    if has_reserved_name(member) {
        return false;
    }
    match facts.outline.parents.base(number) {
        Some(above) => !is_taken(facts, above, member),
        None => true,
    }
}

/// Returns whether a member of the class of this number binds its name, behind members of these names.
fn binds_behind<'m>(
    facts: &Facts<'m, '_>,
    before: &FirstPlaces<'m>,
    number: usize,
    class: &ClassDef,
    member: &'m Member,
) -> bool
    requires facts { AreFacts facts.now }
    requires numbered { HasNumber facts.now number (class_of class.now) }
    ensures { result ≡ (is_none (place_held before.now (name_of_member (member_of member.now)).text)
        && member_binds (inherited_by (base_class (module_held facts.now) number (class_of class.now))) []
        (member_of member.now)) }
{
    before.get(member.name().text.as_str()).is_none() && binds(facts, number, class, member)
}

/// Returns the member of this name that the class of this number binds.
fn member_bound<'m>(facts: &Facts<'m, '_>, number: usize, word: &str) -> Option<OwnedMember<'m>>
    requires { AreFacts facts.now }
    ensures { option_map owned_member result ≡ member_bound (module_held facts.now) number word.now }
{
    let class = facts.definitions.classes.get(number).copied()?;
    let member = member_named(&class.members, word)?;
    if binds(facts, number, class, member) {
        Some(OwnedMember { class, member })
    } else {
        None
    }
}

/// Returns the member of the class of this number that clashes with a member of a class below it.
fn clash_in<'m>(facts: &Facts<'m, '_>, above: usize, member: &Member) -> Option<OwnedMember<'m>>
    requires { AreFacts facts.now }
    ensures { let m = module_held facts.now in option_map owned_member result ≡ find (clashes_with
        (member_of member.now)) (reverse (members_of_number m above (slice_get (classes_in m.items) above))) }
{
    let other = member_bound(facts, above, member.name().text.as_str())?;
    if is_either_field(member, other.member) {
        Some(other)
    } else {
        None
    }
}

/// Returns the nearest member above a class that clashes with this one.
fn clash_above<'m>(facts: &Facts<'m, '_>, number: usize, member: &Member) -> Option<OwnedMember<'m>>
    requires { AreFacts facts.now }
    ensures { option_map owned_member result ≡ find (clashes_with (member_of member.now))
        (reverse (members_above (module_held facts.now) number)) }
{
    let mut below = number;
    'up: while let Some(above) = facts.outline.parents.base(below) {
        let found = clash_in(facts, above, member);
        if found.is_some() {
            return found;
        }
        below = above;
    }
    None
}

/// Adds the detail of a member of a class that has the name of an earlier one.
fn keep_member(
    facts: &Facts<'_, '_>,
    offers: &mut Offers,
    member: &Member,
    other: OwnedMember<'_>,
) -> Result<(), OutOfMemory>
    ensures { OnOk result (KeepsDetail (finding (name_of_member (member_of member.now)).place E06)
        (map_detail (text_held facts.now) (member_detail (owned_member other.entry))) offers.old offers.new) }
{
    let name = other.member.name();
    let shown = MemberName {
        class: facts.words(other.class.name.text.as_str())?,
        name: facts.words(name.text.as_str())?,
    };
    let fault = RuleFault::Member(shown, name.place);
    offers.keep(Code::E06, member.name().place, fault)
}

/// Returns the earlier member of the name of the one at a position, or else the nearest above that it clashes with.
fn clash_at<'m>(
    facts: &Facts<'m, '_>,
    number: usize,
    class: &'m ClassDef,
    position: usize,
) -> Option<OwnedMember<'m>>
    requires facts { AreFacts facts.now }
    requires within { position < length class.now.members.items }
    ensures { (member : TreeMember) → slice_get (class_of class.now).members position ≡ Some member
        → option_map owned_member result ≡ clash_member (module_held facts.now) (numbered_held number class.now)
        (take position (class_of class.now).members) member }
{
    let member = &class.members[position];
    match member_named(&class.members[..position], member.name().text.as_str()) {
        Some(before) => Some(OwnedMember {
            class,
            member: before,
        }),
        None => clash_above(facts, number, member),
    }
}

/// Finds the earlier member of the name of a member, or else the nearest above with which it clashes.
fn add_clash<'m>(
    facts: &Facts<'m, '_>,
    offers: &mut Offers,
    number: usize,
    class: &'m ClassDef,
    position: usize,
) -> Result<(), OutOfMemory>
    requires facts { AreFacts facts.now }
    requires numbered { HasNumber facts.now number (class_of class.now) }
    requires within { position < length class.now.members.items }
    ensures { (member : TreeMember) → slice_get (class_of class.now).members position ≡ Some member
        → OnOk result (AddsDetails facts.now (of_code E06 (at_place (name_of_member member).place
        (clash_detail (module_held facts.now) (numbered_held number class.now)
        (take position (class_of class.now).members) member))) offers.old offers.new) }
{
    let member = &class.members[position];
    if !offers.wants(Code::E06, member.name().place) {
        return Ok(());
    }
    match clash_at(facts, number, class, position) {
        Some(other) => keep_member(facts, offers, member, other),
        None => Ok(()),
    }
}

/// Finds the members of a class that clash with others.
fn add_clashes_in<'m>(
    facts: &Facts<'m, '_>,
    offers: &mut Offers,
    number: usize,
    class: &'m ClassDef,
) -> Result<(), OutOfMemory>
    requires facts { AreFacts facts.now }
    requires numbered { HasNumber facts.now number (class_of class.now) }
    ensures { OnOk result (AddsDetails facts.now
        (of_code E06 (λ p. clash_in_class (module_held facts.now) p (numbered_held number class.now)))
        offers.old offers.new) }
{
    for position in 0..class.members.len() {
        add_clash(facts, offers, number, class, position)?;
    }
    Ok(())
}

/// Finds the members of classes that clash with others.
fn add_clashes(facts: &Facts<'_, '_>, offers: &mut Offers) -> Result<(), OutOfMemory>
    requires { AreFacts facts.now }
    ensures { OnOk result (AddsDetails facts.now (of_code E06 (twice_member_detail (module_held facts.now)))
        offers.old offers.new) }
{
    let mut number = 0;
    for class in &facts.definitions.classes {
        add_clashes_in(facts, offers, number, *class)?;
        number += 1;
    }
    Ok(())
}

/// Adds the detail of a member after a field with a default, if the member needs one.
fn add_order(
    facts: &Facts<'_, '_>,
    offers: &mut Offers,
    before: Option<OwnedMember<'_>>,
    member: &Member,
) -> Result<(), OutOfMemory>
    ensures { OnOk result (AddsDetails facts.now (of_code E08 (at_place (name_of_member (member_of member.now)).place
        (order_after (option_map owned_member before.entry) (member_of member.now)))) offers.old offers.new) }
{
    let Some(before) = before else {
        return Ok(());
    };
    let name = member.name();
    if !offers.wants(Code::E08, name.place) {
        return Ok(());
    }
    let with_default = before.member.name();
    let late = LateDefault {
        name: facts.words(name.text.as_str())?,
        before: facts.words(with_default.text.as_str())?,
        at: with_default.place,
    };
    let class = facts.words(before.class.name.text.as_str())?;
    offers.keep(Code::E08, name.place, RuleFault::FieldOrder(late, class))
}

/// Adds the details of the members of a class that come after a field with a default. Returns the first such field, of
/// the class or above it, if there is one.
fn add_orders_in<'m>(
    facts: &Facts<'m, '_>,
    offers: &mut Offers,
    number: usize,
    class: &'m ClassDef,
    above: Option<OwnedMember<'m>>,
) -> Result<Option<OwnedMember<'m>>, OutOfMemory>
    requires facts { AreFacts facts.now }
    requires numbered { HasNumber facts.now number (class_of class.now) }
    requires above { option_map owned_member above ≡ first_default_above (module_held facts.now) number }
    ensures added { OnOk result (AddsDetails facts.now
        (of_code E08 (λ p. order_in_class (module_held facts.now) p (numbered_held number class.now)))
        offers.old offers.new) }
    ensures first { IfOk result (λ o. option_map owned_member o
        ≡ first_default_of (module_held facts.now) (numbered_held number class.now)) }
{
    let mut before = FirstPlaces::new(facts.alloc);
    let mut first = above;
    for member in &class.members {
        add_order(facts, offers, first, member)?;
        let binds = binds_behind(facts, &before, number, class, member);
        first = first_default(first, OwnedMember { class, member }, binds);
        before.add(member.name())?;
    }
    Ok(first)
}

/// Returns the first field with a default above the class of this number, given that of each class before it.
fn first_above<'m>(
    facts: &Facts<'m, '_>,
    first: &[Option<OwnedMember<'m>>],
    number: usize,
) -> Option<OwnedMember<'m>>
    requires facts { AreFacts facts.now }
    requires first { AreFirstDefaults (module_held facts.now) first.now }
    requires before { length first.now ≡ number }
    ensures { option_map owned_member result ≡ first_default_above (module_held facts.now) number }
{
    let base = facts.outline.parents.base(number)?;
    *first.get(base)?
}

/// Adds the details of the members of classes that come after a field with a default.
fn add_orders<'m>(facts: &Facts<'m, '_>, offers: &mut Offers) -> Result<(), OutOfMemory>
    requires { AreFacts facts.now }
    ensures { OnOk result (AddsDetails facts.now (of_code E08 (field_order_detail (module_held facts.now)))
        offers.old offers.new) }
{
    let mut first: Vec<Option<OwnedMember<'m>>> = Vec::new(facts.alloc);
    for class in &facts.definitions.classes {
        let number = first.len();
        let above = first_above(facts, &first, number);
        let here = add_orders_in(facts, offers, number, *class, above)?;
        first.push(here)?;
    }
    Ok(())
}

/// Finds the details of the members of classes.
pub(crate) fn add_members(facts: &Facts<'_, '_>, offers: &mut Offers) -> Result<(), OutOfMemory>
    requires { AreFacts facts.now }
    ensures { OnOk result (AddsDetails facts.now (members_rule (module_held facts.now)) offers.old offers.new) }
{
    add_clashes(facts, offers)?;
    add_orders(facts, offers)
}
