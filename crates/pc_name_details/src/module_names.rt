//! The details of the names of a module: of its items, of the heads of its classes, and of all that they bind.

ghost use Rattle.std.specs.Prelude.{◌≡◌, List, IfOk, OnOk, Some, bytes_eq, codes, map};
ghost use Rattle.pc_tree.specs.declared.code.Code.TheVariants.{E01, E29};
ghost use Rattle.pc_tree.specs.Lists.{keywords_of_list, name_seen};
ghost use Rattle.pc_tree.specs.Stopping.{name_of_item};
ghost use Rattle.pc_tree.specs.Tree.{Name as TreeName, class_of, item_of, option_name_of};
ghost use Rattle.pc_scope.specs.Bindings.{bodies as bodies_in, classes_in};
ghost use Rattle.pc_scope.specs.Expressions.{keyword_names};
ghost use Rattle.pc_detail_texts.specs.Mapped.{map_detail};
ghost use Rattle.pc_detail_texts.specs.Shown.{main_of_value, rule_fault_of_value};
ghost use Rattle.pc_name_details.specs.declared.repeated.Together.TheVariants as together;
ghost use Rattle.pc_detail_facts.specs.Held.{AreFacts, body_of, class_lent, module_held, text_held};
ghost use Rattle.pc_detail_rules.specs.Names.{first_of_all, items_together, main_detail};
ghost use Rattle.pc_detail_rules.specs.Names.{no_main_of, reserved_detail};
ghost use Rattle.pc_detail_rules.specs.Names.{twice_among};
ghost use Rattle.pc_name_details.specs.Naming.{AreFirst, base_rule, names_of_classes, decorator_rule};
ghost use Rattle.pc_name_details.specs.Naming.{head_rule, names_rule, together_of};
ghost use Rattle.pc_name_details.specs.Offered.{AddsDetails, of_code};
ghost use Rattle.pc_detail_rules.specs.Overrides.{detail_or};

use crate::bound_names::{add_names_of_bodies, add_names_of_classes, argument_names};
use crate::class_members::add_members;
use crate::first_places::FirstPlaces;
use crate::naming::{add_all_reserved, add_bodies};
use crate::offers::Offers;
use crate::repeated::{Together, add_all_twice};
use pc_detail_facts::{Body, Facts};
use pc_detail_texts::{Elsewhere, NoMain, RuleFault};
use pc_source::OutOfMemory;
use pc_tree::{ClassDef, Code, Item, ItemKind, KeywordArgument, Name};

/// Returns whether an item is named `main`.
fn is_main(item: &Item) -> bool
    ensures { result ≡ bytes_eq (codes "main") (name_of_item (item_of item.now)).text }
{
    "main" == item.name().text.as_str()
}

/// Returns why an item named `main` is no function without parameters.
fn no_main(item: &Item) -> NoMain
    ensures { main_of_value result ≡ no_main_of (Some (item_of item.now)) }
{
    match &item.kind {
        ItemKind::Def(def) => NoMain::HasParameters(def.name.place),
        ItemKind::Constant(constant) => NoMain::IsNoFunction(constant.name.place),
        ItemKind::Class(class) => NoMain::IsNoFunction(class.name.place),
    }
}

/// Adds the detail of the word `dataclass` before a class where it is not imported.
fn add_decorator(
    facts: &Facts<'_, '_>,
    offers: &mut Offers,
    class: &ClassDef,
) -> Result<(), OutOfMemory>
    ensures { OnOk result (AddsDetails facts.now (decorator_rule (class_of class.now)) offers.old offers.new) }
{
    if !offers.wants(Code::E02, class.decorator) {
        return Ok(());
    }
    let fault = RuleFault::UnknownName(facts.words("dataclass")?, Elsewhere::NotImported);
    offers.keep(Code::E02, class.decorator, fault)
}

/// Adds the detail of a base that is none, since no class of its name comes before it.
fn add_base<'m>(
    facts: &Facts<'m, '_>,
    offers: &mut Offers,
    classes: &FirstPlaces<'m>,
    base: &'m Option<Name>,
) -> Result<(), OutOfMemory>
    ensures { (names : List TreeName) → AreFirst classes.now names → OnOk result (AddsDetails facts.now
        (base_rule names (option_name_of base.now)) offers.old offers.new) }
{
    let Some(base) = base else {
        return Ok(());
    };
    if !offers.wants(Code::E07, base.place) {
        return Ok(());
    }
    let word = base.text.as_str();
    let fault = RuleFault::Base(facts.words(word)?, classes.get(word));
    offers.keep(Code::E07, base.place, fault)
}

/// Returns the names of the classes, each with the place where it first occurs.
fn class_places<'m>(facts: &Facts<'m, '_>) -> Result<FirstPlaces<'m>, OutOfMemory>
    ensures { IfOk result
        (λ f. AreFirst f (names_of_classes (map class_lent facts.now.definitions.now.classes.items))) }
{
    let mut first = FirstPlaces::new(facts.alloc);
    for class in &facts.definitions.classes {
        first.add(&class.name)?;
    }
    Ok(first)
}

/// Finds the details of the heads of classes.
fn add_heads(facts: &Facts<'_, '_>, offers: &mut Offers) -> Result<(), OutOfMemory>
    requires { AreFacts facts.now }
    ensures { let classes = classes_in (module_held facts.now).items in OnOk result (AddsDetails facts.now
        (λ f. first_of_all (λ c. head_rule (names_of_classes classes) c f) classes) offers.old offers.new) }
{
    let places = class_places(facts)?;
    for class in &facts.definitions.classes {
        add_decorator(facts, offers, *class)?;
        add_base(facts, offers, &places, &class.base)?;
    }
    Ok(())
}

/// Returns the names of the items of the module.
fn item_names<'m>(facts: &Facts<'m, '_>) -> Result<Vec<&'m Name>, OutOfMemory>
    requires { AreFacts facts.now }
    ensures { IfOk result (λ v. map name_seen v.items ≡ map name_of_item (module_held facts.now).items) }
{
    let mut names = Vec::new(facts.alloc);
    for item in &facts.outline.tree.items {
        names.push(item.name())?;
    }
    Ok(names)
}

/// Finds the details of the names of items, and of all reserved names that are bound.
fn add_items<'m>(
    facts: &Facts<'m, '_>,
    offers: &mut Offers,
    bodies: &[Body<'m>],
) -> Result<(), OutOfMemory>
    requires facts { AreFacts facts.now }
    requires bodies { map body_of bodies.now ≡ bodies_in (module_held facts.now) }
    ensures { OnOk result (AddsDetails facts.now
        (λ f. detail_or (of_code E01 (λ p. twice_among p (items_together (module_held facts.now))) f)
        (of_code E29 (reserved_detail (module_held facts.now)) f)) offers.old offers.new) }
{
    let mut names = item_names(facts)?;
    add_all_twice(facts, offers, Together::Items, &names)?;
    add_names_of_classes(&mut names, &facts.definitions.classes)?;
    add_names_of_bodies(&mut names, bodies)?;
    add_all_reserved(facts, offers, &names)
}

/// Finds the details of the names of the module, which has these functions and methods.
pub fn add_module<'m>(
    facts: &Facts<'m, '_>,
    offers: &mut Offers,
    bodies: &[Body<'m>],
) -> Result<(), OutOfMemory>
    requires facts { AreFacts facts.now }
    requires bodies { map body_of bodies.now ≡ bodies_in (module_held facts.now) }
    ensures { OnOk result (AddsDetails facts.now (names_rule (module_held facts.now)) offers.old offers.new) }
{
    add_items(facts, offers, bodies)?;
    add_heads(facts, offers)?;
    add_members(facts, offers)?;
    add_bodies(facts, offers, bodies)
}

/// Finds what already has a name, among the arguments by name of a call.
pub fn add_arguments(
    facts: &Facts<'_, '_>,
    offers: &mut Offers,
    keywords: &[KeywordArgument],
) -> Result<(), OutOfMemory>
    ensures { OnOk result (AddsDetails facts.now (of_code E01 (λ p. twice_among p
        (together_of together.Arguments (keyword_names (keywords_of_list keywords.now))))) offers.old offers.new) }
{
    let names = argument_names(facts.alloc, keywords)?;
    add_all_twice(facts, offers, Together::Arguments, &names)
}

/// Returns the detail of `E28`: why there is no function `main` without parameters.
pub fn main_fault(facts: &Facts<'_, '_>) -> RuleFault
    requires { AreFacts facts.now }
    ensures { rule_fault_of_value result ≡ map_detail (text_held facts.now) (main_detail (module_held facts.now)) }
{
    for item in &facts.outline.tree.items {
        if is_main(item) {
            return RuleFault::Main(no_main(item));
        }
    }
    RuleFault::Main(NoMain::NoSuchName)
}
