//! The details of names that are bound again.

ghost use Rattle.std.specs.Prelude.{◌≡◌, List, OnOk, map, option_map, ◌&&◌, None, bytes_eq, codes};
ghost use Rattle.pc_tree.specs.declared.code.Code.TheVariants.{E01};
ghost use Rattle.pc_tree.specs.Lists.{name_seen};
ghost use Rattle.pc_tree.specs.Tree.{Name as TreeName, name_of};
ghost use Rattle.pc_detail_texts.specs.Shown.{earlier_of_value};
ghost use Rattle.pc_detail_rules.specs.Names.{repeated_after, repeated_name, twice_after};
ghost use Rattle.pc_detail_rules.specs.Names.{twice_among};
ghost use Rattle.pc_name_details.specs.Naming.{AreFirst, earlier_held, has_self};
ghost use Rattle.pc_name_details.specs.Naming.{together_of};
ghost use Rattle.pc_name_details.specs.Offered.{AddsDetails, of_code, at_place};

use crate::first_places::FirstPlaces;
use crate::offers::Offers;
use pc_detail_facts::Facts;
use pc_detail_texts::{Earlier, RuleFault};
use pc_source::{OutOfMemory, Place};
use pc_tree::{Code, Name};

/// A kind of names that are bound together: items, the parameters of a function or of a method, or arguments by name.
#[derive(Clone, Copy)]
pub(crate) enum Together {
    Items,
    Parameters(bool),
    Arguments,
}

impl Together {
    /// Returns what already has a name that is bound at this place too.
    fn earlier(self, place: Place) -> Earlier
        ensures { earlier_of_value result ≡ earlier_held self place }
    {
        match self {
            Together::Items => Earlier::Item(place),
            Together::Parameters(_) => Earlier::Parameter(place),
            Together::Arguments => Earlier::Argument(place),
        }
    }

    /// Returns whether `self` comes before these names.
    fn has_self(self) -> bool
        ensures { result ≡ has_self self }
    {
        matches!(self, Together::Parameters(true))
    }
}

/// Returns whether a name is `self`.
fn is_self(name: &Name) -> bool
    ensures { result ≡ bytes_eq (name_of name.now).text (codes "self") }
{
    name.text.as_str() == "self"
}

/// Returns the earlier binding of a name that no name before it has: `self`, if that comes before.
fn earlier_self(together: Together, name: &Name) -> Option<Earlier>
    ensures { option_map earlier_of_value result ≡ repeated_name
        (has_self together && bytes_eq (name_of name.now).text (codes "self")) (earlier_held together) None }
{
    if together.has_self() && is_self(name) {
        Some(Earlier::Receiver)
    } else {
        None
    }
}

/// Returns what already has a name, among the names before it.
fn earlier<'c>(first: &FirstPlaces<'c>, together: Together, name: &'c Name) -> Option<Earlier>
    ensures { (before : List TreeName) → AreFirst first.now before → option_map earlier_of_value result
        ≡ repeated_after (together_of together before) before (name_of name.now) }
{
    match first.get(name.text.as_str()) {
        Some(place) => Some(together.earlier(place)),
        None => earlier_self(together, name),
    }
}

/// Finds what already has a name, among the names before it.
fn add_twice<'c>(
    facts: &Facts<'_, '_>,
    offers: &mut Offers,
    first: &FirstPlaces<'c>,
    together: Together,
    name: &'c Name,
) -> Result<(), OutOfMemory>
    ensures { (before : List TreeName) → AreFirst first.now before → OnOk result (AddsDetails facts.now
        (of_code E01 (at_place (name_of name.now).place
        (twice_after (together_of together before) before (name_of name.now)))) offers.old offers.new) }
{
    if !offers.wants(Code::E01, name.place) {
        return Ok(());
    }
    match earlier(first, together, name) {
        Some(earlier) => {
            let fault = RuleFault::Twice(facts.words(name.text.as_str())?, earlier);
            offers.keep(Code::E01, name.place, fault)
        }
        None => Ok(()),
    }
}

/// Finds what already has a name, for each of some names that are bound together.
pub(crate) fn add_all_twice(
    facts: &Facts<'_, '_>,
    offers: &mut Offers,
    together: Together,
    names: &[&Name],
) -> Result<(), OutOfMemory>
    ensures { OnOk result (AddsDetails facts.now
        (of_code E01 (λ p. twice_among p (together_of together (map name_seen names.now))))
        offers.old offers.new) }
{
    let mut first = FirstPlaces::new(facts.alloc);
    for name in names {
        add_twice(facts, offers, &first, together, *name)?;
        first.add(*name)?;
    }
    Ok(())
}
