//! The details of names that are used where they mean nothing, too early, or without a value.

ghost use Rattle.std.specs.Prelude.{[], ◌∷◌, ◌≡◌, ◌≤◌, IfOk, List, OnOk, bytes_eq, flat_map, length, map, option_map};
ghost use Rattle.std.specs.Prelude.{slice_get};
ghost use Rattle.pc_tree.specs.Lists.{name_seen};
ghost use Rattle.pc_tree.specs.Stopping.{bound_by};
ghost use Rattle.pc_tree.specs.Tree.{Name as TreeName, expr_of, func_of, member_of, name_of};
ghost use Rattle.pc_scope.specs.Bindings.{bodies, methods_in};
ghost use Rattle.pc_scope.specs.Resolution.{function_of, resolve_in_module};
ghost use Rattle.pc_annotations.specs.Text.{class_text};
ghost use Rattle.pc_detail_texts.specs.Details as detail;
ghost use Rattle.pc_detail_texts.specs.Mapped.{short_early, short_elsewhere};
ghost use Rattle.pc_detail_texts.specs.Shown.{early_of_value, elsewhere_of_value};
ghost use Rattle.pc_detail_facts.specs.Held.{AreFacts, ShowsDetail, function_lent, module_held, owned_of};
ghost use Rattle.pc_detail_rules.specs.Names.{class_around, early_at, early_detail, early_of, elsewhere, elsewhere_among};
ghost use Rattle.pc_detail_rules.specs.Names.{places_named};
ghost use Rattle.pc_detail_rules.specs.Names.{unassigned_detail, unknown_detail};
ghost use Rattle.pc_name_details.specs.Uses.{AreBound, bindings_of, first_three};

use crate::bindings::Bindings;
use pc_detail_facts::{Facts, OwnedExpr};
use pc_detail_texts::{Detail, Early, Elsewhere, RuleFault};
use pc_scope::{NameMeaning, Owner};
use pc_source::{OutOfMemory, Place};
use pc_tree::{Expr, FuncDef, Member, Name, add_bound};

/// The number of places where a local is bound that a detail names.
const BINDINGS: usize = 3;

/// Returns whether a name is this word.
fn is_word(name: &Name, word: &str) -> bool
    ensures { result ≡ bytes_eq word.now (name_of name.now).text }
{
    word == name.text.as_str()
}

/// Adds the place of a name, if it is this word and there are not enough places.
fn add_place(places: &mut Vec<Place>, name: &Name, word: &str) -> Result<(), OutOfMemory>
    requires { length places.old.items ≤ 3 }
    ensures places { OnOk result ((rest : List TreeName) → first_three places.new.items (places_named word.now rest)
        ≡ first_three places.old.items (places_named word.now (name_of name.now ∷ rest))) }
    ensures few { OnOk result (length places.new.items ≤ 3) }
{
    if places.len() >= BINDINGS {
        return Ok(());
    }
    if !is_word(name, word) {
        return Ok(());
    }
    places.push(name.place)?;
    Ok(())
}

/// Returns the class around, if it has a member of this name.
fn class_around(facts: &Facts<'_, '_>, owner: Owner, word: &str) -> Option<usize>
    requires { AreFacts facts.now }
    ensures { option_map (class_text (module_held facts.now)) result
        ≡ class_around (module_held facts.now) word.now owner }
{
    match owner {
        Owner::Method(class, _) => {
            if facts.has_member(class, word) {
                Some(class)
            } else {
                None
            }
        }
        Owner::Module | Owner::Func(_) => None,
    }
}

/// Returns the first function that binds a name, and where.
fn bound_elsewhere<'m>(
    facts: &Facts<'m, '_>,
    bindings: &Bindings<'m>,
    word: &'m str,
) -> Result<Elsewhere, OutOfMemory>
    requires facts { AreFacts facts.now }
    requires bound { AreBound bindings.now (flat_map bindings_of (bodies (module_held facts.now))) }
    ensures { IfOk result (λ e. elsewhere_of_value e
        ≡ short_elsewhere (elsewhere_among (module_held facts.now) word.now (bodies (module_held facts.now)))) }
{
    match bindings.get(word) {
        Some((body, place)) => Ok(Elsewhere::InFunction(facts.body_words(body)?, place)),
        None => Ok(Elsewhere::Nowhere),
    }
}

/// Returns where else a name is bound: by the class around, or by another function.
fn elsewhere<'m>(
    facts: &Facts<'m, '_>,
    bindings: &Bindings<'m>,
    owner: Owner,
    word: &'m str,
) -> Result<Elsewhere, OutOfMemory>
    requires facts { AreFacts facts.now }
    requires bound { AreBound bindings.now (flat_map bindings_of (bodies (module_held facts.now))) }
    ensures { IfOk result (λ e. elsewhere_of_value e
        ≡ short_elsewhere (elsewhere (module_held facts.now) word.now
        (class_around (module_held facts.now) word.now owner))) }
{
    match class_around(facts, owner, word) {
        Some(class) => Ok(Elsewhere::InClass(facts.class_words(class)?)),
        None => bound_elsewhere(facts, bindings, word),
    }
}

/// Returns the detail of `E02`: the name, and where else it is bound.
pub fn unknown_detail<'m>(
    facts: &Facts<'m, '_>,
    bindings: &Bindings<'m>,
    owned: OwnedExpr<'m>,
) -> Result<Option<Detail>, OutOfMemory>
    requires facts { AreFacts facts.now }
    requires bound { AreBound bindings.now (flat_map bindings_of (bodies (module_held facts.now))) }
    ensures { IfOk result (ShowsDetail facts.now (unknown_detail (module_held facts.now) (owned_of owned.entry))) }
{
    let Expr::Name(name) = owned.expr else {
        return Ok(None);
    };
    let word = name.text.as_str();
    let elsewhere = elsewhere(facts, bindings, owned.owner, word)?;
    let fault = RuleFault::UnknownName(facts.words(word)?, elsewhere);
    Ok(Some(Detail::Rule(fault)))
}

/// Returns the name of a class or a constant that is used too early, at its place.
fn early_name(
    facts: &Facts<'_, '_>,
    word: &str,
    name: Option<&Name>,
) -> Result<Option<Early>, OutOfMemory>
    ensures { IfOk result (λ e. option_map early_of_value e
        ≡ option_map short_early (early_at word.now (option_map name_seen name.entry))) }
{
    match name {
        Some(name) => Ok(Some(Early::Name(facts.words(word)?, name.place))),
        None => Ok(None),
    }
}

/// Returns what an initializer uses too early by this name.
fn early_use(facts: &Facts<'_, '_>, word: &str) -> Result<Option<Early>, OutOfMemory>
    requires { AreFacts facts.now }
    ensures { IfOk result (λ e. option_map early_of_value e
        ≡ option_map short_early (early_of (module_held facts.now) word.now
        (resolve_in_module (module_held facts.now) word.now))) }
{
    match facts.outline.scopes.resolve(Owner::Module, word) {
        NameMeaning::Func(_) => Ok(Some(Early::Function(facts.words(word)?))),
        NameMeaning::Class(class) => match facts.definitions.classes.get(class) {
            Some(def) => early_name(facts, word, Some(&def.name)),
            None => Ok(None),
        },
        NameMeaning::Const(number) => match facts.definitions.constants.get(number) {
            Some(constant) => early_name(facts, word, Some(&constant.name)),
            None => Ok(None),
        },
        NameMeaning::Local(_) | NameMeaning::Builtin(_) | NameMeaning::None => Ok(None),
    }
}

/// Returns the detail of what an initializer uses too early by this name.
fn early_name_detail(facts: &Facts<'_, '_>, word: &str) -> Result<Option<Detail>, OutOfMemory>
    requires { AreFacts facts.now }
    ensures { IfOk result (ShowsDetail facts.now (option_map detail.early (early_of (module_held facts.now) word.now
        (resolve_in_module (module_held facts.now) word.now)))) }
{
    match early_use(facts, word)? {
        Some(early) => Ok(Some(Detail::Rule(RuleFault::Early(early)))),
        None => Ok(None),
    }
}

/// Returns the detail of `E03`: what the initializer uses too early.
pub fn early_detail(facts: &Facts<'_, '_>, expr: &Expr) -> Result<Option<Detail>, OutOfMemory>
    requires { AreFacts facts.now }
    ensures { IfOk result (ShowsDetail facts.now (early_detail (module_held facts.now) (expr_of expr.now))) }
{
    match expr {
        Expr::Name(name) => early_name_detail(facts, name.text.as_str()),
        _ => Ok(Some(Detail::Rule(RuleFault::Early(Early::Callee)))),
    }
}

/// Returns the function or method of an owner.
fn function_of<'m>(facts: &Facts<'m, '_>, owner: Owner) -> Option<&'m FuncDef>
    requires { AreFacts facts.now }
    ensures { option_map function_lent result ≡ function_of (module_held facts.now) owner }
{
    match owner {
        Owner::Module => None,
        Owner::Func(number) => facts.function_at(number),
        Owner::Method(class, number) => match facts.definitions.classes.get(class) {
            Some(def) => method_at(&def.members, number),
            None => None,
        },
    }
}

/// Returns the first places where a function binds a name in its body.
fn bound_places(facts: &Facts<'_, '_>, def: &FuncDef, word: &str) -> Result<Vec<Place>, OutOfMemory>
    ensures { IfOk result
        (λ v. v.items ≡ first_three [] (places_named word.now (bound_by (func_of def.now).body))) }
{
    let mut names = Vec::new(facts.alloc);
    add_bound(&mut names, &def.body)?;
    let mut places = Vec::new(facts.alloc);
    for name in &names {
        add_place(&mut places, *name, word)?;
    }
    Ok(places)
}

/// Returns the detail of `E04`: the local, and the first three places where its function binds it.
pub fn unassigned_detail(
    facts: &Facts<'_, '_>,
    owned: OwnedExpr<'_>,
) -> Result<Option<Detail>, OutOfMemory>
    requires { AreFacts facts.now }
    ensures { IfOk result
        (ShowsDetail facts.now (unassigned_detail (module_held facts.now) (owned_of owned.entry))) }
{
    let Expr::Name(name) = owned.expr else {
        return Ok(None);
    };
    let Some(def) = function_of(facts, owned.owner) else {
        return Ok(None);
    };
    let word = name.text.as_str();
    let places = bound_places(facts, def, word)?;
    let fault = RuleFault::Unassigned(facts.words(word)?, places);
    Ok(Some(Detail::Rule(fault)))
}

/// Returns the method with a number among members.
fn method_at(members: &[Member], number: usize) -> Option<&FuncDef>
    ensures { option_map function_lent result ≡ slice_get (methods_in (map member_of members.now)) number }
{
    let mut before = 0;
    for member in members {
        if let Member::Method(def) = member {
            if before == number {
                return Some(def);
            }
            before += 1;
        }
    }
    None
}
