//! The details of attributes, and of names that are no values.

ghost use Rattle.std.specs.Prelude.{◌≡◌, ◌&&◌, All, IfOk, filter, option_map};
ghost use Rattle.pc_tree.specs.Tree.{expr_of, target_of};
ghost use Rattle.pc_tree.specs.Depth.{place_of};
ghost use Rattle.pc_types.specs.Boxed.{tree_of, IsGiven};
ghost use Rattle.pc_types.specs.Shape.{members};
ghost use Rattle.pc_annotations.specs.Bases.{bases_of};
ghost use Rattle.pc_detail_texts.specs.Mapped.{short_hint, short_value};
ghost use Rattle.pc_detail_texts.specs.Shown.{hint_of_value, no_value_of_value};
ghost use Rattle.pc_detail_facts.specs.Held.{AreFacts, ShowsDetail, ShowsOne, known_held, module_held, owned_of};
ghost use Rattle.pc_detail_facts.specs.Held.{IsGivenLent, trees_lent};
ghost use Rattle.pc_detail_rules.specs.Operations.{has_member};
ghost use Rattle.pc_detail_rules.specs.Operations.{attribute_detail, attribute_target, class_below, hint_of, meaning_here};
ghost use Rattle.pc_detail_rules.specs.Operations.{method_of, method_target, numbers_from, value_detail};
ghost use Rattle.pc_type_details.specs.Unsupported.{attribute_used, found_for, lacks_name};
ghost use Rattle.pc_class.specs.Facts.{classes_of};
ghost use Rattle.pc_class.specs.Tables.{method_lent};
ghost use Rattle.pc_scope.specs.Bindings.{classes_in};
ghost use Rattle.pc_scope.specs.Resolution.{resolve};
ghost use Rattle.pc_types.specs.Join.{absorbs};
ghost use Rattle.pc_types.specs.Tree.{Class};
ghost use Rattle.pc_annotations.specs.Text.{class_text};

use crate::operations::{Use, add_if};
use pc_class::Method;
use pc_detail_facts::{Facts, OwnedExpr, members_of_type};
use pc_detail_texts::{Attribute, AttributeHint, Detail, NoValue, RuleFault, TypeFault};
use pc_scope::NameMeaning;
use pc_source::OutOfMemory;
use pc_tree::{Expr, Target};
use pc_types::BoxType;

/// Returns whether a member of a type has no attribute of this name, for such a use.
fn lacks(facts: &Facts<'_, '_>, used: Use, member: &BoxType, name: &str) -> bool
    requires { AreFacts facts.now }
    ensures { result ≡ lacks_name (module_held facts.now) used name.now (tree_of member.now) }
{
    match member {
        BoxType::Any => false,
        BoxType::Class(class) => !facts.has_member(*class, name),
        BoxType::List(_) => !matches!(used, Use::Called) || (name != "append" && name != "pop"),
        BoxType::Dict(_, _) => !matches!(used, Use::Called) || name != "get",
        _ => true,
    }
}

/// Returns whether a class is below another one.
fn is_below(facts: &Facts<'_, '_>, class: usize, above: usize) -> bool
    requires { AreFacts facts.now }
    ensures { result ≡ absorbs (bases_of (module_held facts.now)) (Class above) (Class class) }
{
    if class == above {
        return false;
    }
    facts.classes.is_sub(class, above)
}

/// Returns whether a class is below another one and has a member of this name.
fn is_class_below(facts: &Facts<'_, '_>, class: usize, above: usize, name: &str) -> bool
    requires { AreFacts facts.now }
    ensures { result ≡ (absorbs (bases_of (module_held facts.now)) (Class above) (Class class)
        && has_member (module_held facts.now) name.now class) }
{
    is_below(facts, class, above) && facts.has_member(class, name)
}

/// Returns the first class below one that has a member of this name.
fn class_below(facts: &Facts<'_, '_>, above: usize, name: &str) -> Option<usize>
    requires { AreFacts facts.now }
    ensures { option_map (class_text (module_held facts.now)) result
        ≡ class_below (module_held facts.now) name.now above
        (numbers_from 0 (classes_in (module_held facts.now).items)) }
{
    for class in 0..facts.definitions.classes.len() {
        if is_class_below(facts, class, above, name) {
            return Some(class);
        }
    }
    None
}

/// Returns what else is known of a name that these members lack: a class below has it, or a list or a dict has it
/// as a method.
fn hint(
    facts: &Facts<'_, '_>,
    lacking: &[&BoxType],
    name: &str,
) -> Result<AttributeHint, OutOfMemory>
    requires { AreFacts facts.now }
    ensures { IfOk result (λ h. hint_of_value h
        ≡ short_hint (hint_of (module_held facts.now) name.now (trees_lent lacking.now))) }
{
    for member in lacking {
        match *member {
            BoxType::Class(class) => {
                if let Some(below) = class_below(facts, *class, name) {
                    return Ok(AttributeHint::Below(facts.class_words(below)?));
                }
            }
            other => {
                if !lacks(facts, Use::Called, other, name) {
                    return Ok(AttributeHint::OnlyCalled);
                }
            }
        }
    }
    Ok(AttributeHint::Nothing)
}

/// Returns the members of a type that have no attribute of this name, for such a use.
fn nameless<'t>(
    facts: &Facts<'_, '_>,
    used: Use,
    ty: &'t BoxType,
    name: &str,
) -> Result<Vec<&'t BoxType>, OutOfMemory>
    requires facts { AreFacts facts.now }
    requires ty { IsGiven ty.now }
    ensures trees { IfOk result (λ v. trees_lent v.items
        ≡ filter (lacks_name (module_held facts.now) used name.now) (members (tree_of ty.now))) }
    ensures given { IfOk result (λ v. All IsGivenLent v.items) }
{
    let members = members_of_type(facts.alloc, ty)?;
    let mut lacking = Vec::new(facts.alloc);
    for member in &members {
        add_if(&mut lacking, *member, lacks(facts, used, *member, name))?;
    }
    Ok(lacking)
}

/// Returns the detail of `E15` and `A4`: the type of the object, its members that lack the name, the name, and what
/// else is known of it.
fn missing(
    facts: &Facts<'_, '_>,
    used: Use,
    object: &Expr,
    name: &str,
) -> Result<Detail, OutOfMemory>
    requires { AreFacts facts.now }
    ensures { IfOk result (ShowsOne facts.now (attribute_detail (module_held facts.now)
        (found_for (module_held facts.now) used name.now)
        ((known_held facts.now).types (place_of (expr_of object.now))) name.now)) }
{
    let ty = facts.type_of(object);
    let lacking = nameless(facts, used, ty, name)?;
    let of = facts.unsupported(ty, &lacking)?;
    let hint = hint(facts, &lacking, name)?;
    let name = facts.words(name)?;
    let attribute = Attribute { of, name, hint };
    Ok(Detail::Types(TypeFault::Attribute(attribute)))
}

/// Returns the detail of `E15` and `A4` in an expression: at a callee, or at an attribute that is read.
pub fn used_attribute_detail(
    facts: &Facts<'_, '_>,
    used: Use,
    expr: &Expr,
) -> Result<Option<Detail>, OutOfMemory>
    requires { AreFacts facts.now }
    ensures { IfOk result (ShowsDetail facts.now
        (attribute_used (module_held facts.now) (known_held facts.now) used (expr_of expr.now))) }
{
    let Expr::Attribute { object, name, .. } = expr else {
        return Ok(None);
    };
    let detail = missing(facts, used, object, name.text.as_str())?;
    Ok(Some(detail))
}

/// Returns the detail of `E15` and `A4` at a target.
pub fn attribute_target(
    facts: &Facts<'_, '_>,
    target: &Target,
) -> Result<Option<Detail>, OutOfMemory>
    requires { AreFacts facts.now }
    ensures { IfOk result (ShowsDetail facts.now
        (attribute_target (module_held facts.now) (known_held facts.now) (target_of target.now))) }
{
    let Target::Attribute { object, name, .. } = target else {
        return Ok(None);
    };
    let detail = missing(facts, Use::Assigned, object, name.text.as_str())?;
    Ok(Some(detail))
}

/// Returns the first method of this name among the members of a type.
fn method_in<'m>(
    facts: &Facts<'m, '_>,
    ty: &BoxType,
    name: &str,
) -> Result<Option<&'m Method<BoxType>>, OutOfMemory>
    requires facts { AreFacts facts.now }
    requires ty { IsGiven ty.now }
    ensures { IfOk result (λ found. option_map (method_lent tree_of) found
        ≡ method_of (classes_of (module_held facts.now)) name.now (members (tree_of ty.now))) }
{
    for member in &members_of_type(facts.alloc, ty)? {
        if let BoxType::Class(class) = *member {
            if let Some(method) = facts.classes.method(*class, name) {
                return Ok(Some(method));
            }
        }
    }
    Ok(None)
}

/// Returns the detail of `E23`: the method that is assigned to.
pub fn method_target(facts: &Facts<'_, '_>, target: &Target) -> Result<Option<Detail>, OutOfMemory>
    requires { AreFacts facts.now }
    ensures { IfOk result (ShowsDetail facts.now
        (method_target (module_held facts.now) (known_held facts.now) (target_of target.now))) }
{
    let Target::Attribute { object, name, .. } = target else {
        return Ok(None);
    };
    match method_in(facts, facts.type_of(object), name.text.as_str())? {
        Some(method) => {
            let method = facts.method_words(method)?;
            Ok(Some(Detail::Rule(RuleFault::MethodStore(method))))
        }
        None => Ok(None),
    }
}

/// Returns what an expression means that is no value.
fn no_value(facts: &Facts<'_, '_>, owned: OwnedExpr<'_>) -> Result<Option<NoValue>, OutOfMemory>
    requires { AreFacts facts.now }
    ensures { IfOk result (λ v. option_map no_value_of_value v
        ≡ option_map short_value (meaning_here (module_held facts.now) (known_held facts.now)
        (resolve (module_held facts.now) owned.entry.owner) (expr_of owned.entry.expr.now))) }
{
    match owned.expr {
        Expr::Name(name) => {
            let word = name.text.as_str();
            match facts.outline.scopes.resolve(owned.owner, word) {
                NameMeaning::Func(_) => Ok(Some(NoValue::Function(facts.words(word)?))),
                NameMeaning::Class(_) => Ok(Some(NoValue::Class(facts.words(word)?))),
                NameMeaning::Builtin(_) => Ok(Some(NoValue::Reserved(facts.words(word)?))),
                NameMeaning::Local(_) | NameMeaning::Const(_) | NameMeaning::None => Ok(None),
            }
        }
        Expr::Attribute { object, name, .. } => {
            match method_in(facts, facts.type_of(object), name.text.as_str())? {
                Some(method) => Ok(Some(NoValue::Method(facts.method_words(method)?))),
                None => Ok(None),
            }
        }
        _ => Ok(None),
    }
}

/// Returns the detail of `E20`: what the name means.
pub fn value_detail(
    facts: &Facts<'_, '_>,
    owned: OwnedExpr<'_>,
) -> Result<Option<Detail>, OutOfMemory>
    requires { AreFacts facts.now }
    ensures { IfOk result (ShowsDetail facts.now
        (value_detail (module_held facts.now) (known_held facts.now) (owned_of owned.entry))) }
{
    match no_value(facts, owned)? {
        Some(meaning) => Ok(Some(Detail::Rule(RuleFault::NotAValue(meaning)))),
        None => Ok(None),
    }
}
