//! The names that classes and functions bind.

ghost use Rattle.std.specs.Prelude.{◌++◌, ◌≡◌, IfOk, OnOk, flat_map, map};
ghost use Rattle.pc_tree.specs.Lists.{keywords_of_list, name_seen};
ghost use Rattle.pc_tree.specs.Tree.{class_of, param_of};
ghost use Rattle.pc_scope.specs.Bindings.{param_names};
ghost use Rattle.pc_scope.specs.Expressions.{keyword_names};
ghost use Rattle.pc_detail_facts.specs.Held.{body_of, class_lent};
ghost use Rattle.pc_detail_rules.specs.Names.{names_of_body, names_of_members};

use pc_detail_facts::Body;
use pc_source::OutOfMemory;
use pc_tree::{ClassDef, KeywordArgument, Name, Param, add_bound};
use std::alloc::Global;

/// Adds the names of parameters.
fn add_params<'m>(names: &mut Vec<&'m Name>, params: &'m [Param]) -> Result<(), OutOfMemory>
    ensures { OnOk result (map name_seen names.new.items
        ≡ map name_seen names.old.items ++ param_names (map param_of params.now)) }
{
    for param in params {
        names.push(&param.name)?;
    }
    Ok(())
}

/// Adds the names that a function or method binds: its parameters, and then those of its body.
pub(crate) fn add_names_bound<'m>(
    names: &mut Vec<&'m Name>,
    body: Body<'m>,
) -> Result<(), OutOfMemory>
    ensures { OnOk result (map name_seen names.new.items
        ≡ map name_seen names.old.items ++ names_of_body (body_of body.entry)) }
{
    add_params(names, &body.function.params)?;
    add_bound(names, &body.function.body)
}

/// Returns the names of parameters.
pub(crate) fn param_names(alloc: Global, params: &[Param]) -> Result<Vec<&Name>, OutOfMemory>
    ensures { IfOk result (λ v. map name_seen v.items ≡ param_names (map param_of params.now)) }
{
    let mut names = Vec::new(alloc);
    add_params(&mut names, params)?;
    Ok(names)
}

/// Returns the names that a function or method binds: its parameters, and then those of its body.
pub(crate) fn bound_names<'m>(alloc: Global, body: Body<'m>) -> Result<Vec<&'m Name>, OutOfMemory>
    ensures { IfOk result (λ v. map name_seen v.items ≡ names_of_body (body_of body.entry)) }
{
    let mut names = Vec::new(alloc);
    add_names_bound(&mut names, body)?;
    Ok(names)
}

/// Returns the names of arguments that are given by name.
pub(crate) fn argument_names(
    alloc: Global,
    keywords: &[KeywordArgument],
) -> Result<Vec<&Name>, OutOfMemory>
    ensures { IfOk result (λ v. map name_seen v.items ≡ keyword_names (keywords_of_list keywords.now)) }
{
    let mut names = Vec::new(alloc);
    for keyword in keywords {
        names.push(&keyword.name)?;
    }
    Ok(names)
}

/// Adds the names of the members of a class.
fn add_member_names<'m>(names: &mut Vec<&'m Name>, def: &'m ClassDef) -> Result<(), OutOfMemory>
    ensures { OnOk result (map name_seen names.new.items
        ≡ map name_seen names.old.items ++ names_of_members (class_of def.now)) }
{
    for member in &def.members {
        names.push(member.name())?;
    }
    Ok(())
}

/// Adds the names of the members of classes.
pub(crate) fn add_names_of_classes<'m>(
    names: &mut Vec<&'m Name>,
    classes: &[&'m ClassDef],
) -> Result<(), OutOfMemory>
    ensures { OnOk result (map name_seen names.new.items
        ≡ map name_seen names.old.items ++ flat_map names_of_members (map class_lent classes.now)) }
{
    for class in classes {
        add_member_names(names, *class)?;
    }
    Ok(())
}

/// Adds the names that functions and methods bind.
pub(crate) fn add_names_of_bodies<'m>(
    names: &mut Vec<&'m Name>,
    bodies: &[Body<'m>],
) -> Result<(), OutOfMemory>
    ensures { OnOk result (map name_seen names.new.items
        ≡ map name_seen names.old.items ++ flat_map names_of_body (map body_of bodies.now)) }
{
    for body in bodies {
        add_names_bound(names, *body)?;
    }
    Ok(())
}
