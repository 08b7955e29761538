//! The annotations of a module, each before its parts.
#![tactic(auto, using(crate::proofs::WalkedLists::then_parts))]

ghost use Rattle.std.specs.Prelude.{◌≡◌, ◌++◌, map, flat_map, IfOk, OnOk};
ghost use Rattle.std.specs.Option.{option_to_list};
ghost use Rattle.pc_tree.specs.Tree.{ann_of, func_of, item_of, member_of, module_of, option_ann_of, param_of, stmt_of};
ghost use Rattle.pc_annotations.specs.Listed.{anns_of_list};
ghost use Rattle.pc_detail_rules.specs.Nodes.{ann_of_stmt, anns_in, anns_in_all, anns_of_function, anns_of_item};
ghost use Rattle.pc_detail_rules.specs.Nodes.{anns_of_member};
ghost use Rattle.pc_detail_nodes.specs.NodesHeld.{ann_lent};
ghost use Rattle.pc_detail_facts.specs.Held.{stmt_lent};

use crate::stmts::add_stmts;
use pc_source::OutOfMemory;
use pc_tree::{Ann, FuncDef, Item, ItemKind, Member, Module, Param, Stmt, StmtKind};
use std::alloc::Global;

/// Adds an annotation, if there is one.
fn add_option<'m>(anns: &mut Vec<&'m Ann>, annotation: &'m Option<Ann>) -> Result<(), OutOfMemory>
    ensures { OnOk result (map ann_lent anns.new.items
        ≡ map ann_lent anns.old.items ++ option_to_list (option_ann_of annotation.now)) }
{
    match annotation {
        Some(annotation) => Ok(anns.push(annotation)?),
        None => Ok(()),
    }
}

/// Adds the annotations of parameters.
fn add_params<'m>(anns: &mut Vec<&'m Ann>, params: &'m [Param]) -> Result<(), OutOfMemory>
    ensures { OnOk result (map ann_lent anns.new.items ≡ map ann_lent anns.old.items
        ++ flat_map (λ p. option_to_list p.annotation) (map param_of params.now)) }
{
    for param in params {
        add_option(anns, &param.annotation)?;
    }
    Ok(())
}

/// Adds the annotation of a statement, if it has one.
fn add_of_stmt<'m>(anns: &mut Vec<&'m Ann>, statement: &'m Stmt) -> Result<(), OutOfMemory>
    ensures { OnOk result (map ann_lent anns.new.items
        ≡ map ann_lent anns.old.items ++ ann_of_stmt (stmt_of statement.now)) }
{
    match &statement.kind {
        StmtKind::Annotated { annotation, .. } => Ok(anns.push(annotation)?),
        _ => Ok(()),
    }
}

/// Adds the annotations of statements.
fn add_of_stmts<'m>(anns: &mut Vec<&'m Ann>, stmts: &[&'m Stmt]) -> Result<(), OutOfMemory>
    ensures { OnOk result (map ann_lent anns.new.items
        ≡ map ann_lent anns.old.items ++ flat_map ann_of_stmt (map stmt_lent stmts.now)) }
{
    for statement in stmts {
        add_of_stmt(anns, *statement)?;
    }
    Ok(())
}

/// Adds the annotations of a function: of its parameters, of its return, and in its body.
fn add_of_function<'m>(
    alloc: Global,
    anns: &mut Vec<&'m Ann>,
    def: &'m FuncDef,
) -> Result<(), OutOfMemory>
    ensures { OnOk result (map ann_lent anns.new.items
        ≡ map ann_lent anns.old.items ++ anns_of_function (func_of def.now)) }
{
    add_params(anns, &def.params)?;
    add_option(anns, &def.returns)?;
    let mut stmts = Vec::new(alloc);
    add_stmts(&mut stmts, &def.body)?;
    add_of_stmts(anns, &stmts)
}

/// Adds the annotations of a member of a class.
fn add_of_member<'m>(
    alloc: Global,
    anns: &mut Vec<&'m Ann>,
    member: &'m Member,
) -> Result<(), OutOfMemory>
    ensures { OnOk result (map ann_lent anns.new.items
        ≡ map ann_lent anns.old.items ++ anns_of_member (member_of member.now)) }
{
    match member {
        Member::Field(field) => Ok(anns.push(&field.annotation)?),
        Member::Method(def) => add_of_function(alloc, anns, def),
    }
}

/// Adds the annotations of members of a class.
fn add_of_members<'m>(
    alloc: Global,
    anns: &mut Vec<&'m Ann>,
    members: &'m [Member],
) -> Result<(), OutOfMemory>
    ensures { OnOk result (map ann_lent anns.new.items
        ≡ map ann_lent anns.old.items ++ flat_map anns_of_member (map member_of members.now)) }
{
    for member in members {
        add_of_member(alloc, anns, member)?;
    }
    Ok(())
}

/// Adds the annotations of an item of a module.
fn add_of_item<'m>(
    alloc: Global,
    anns: &mut Vec<&'m Ann>,
    item: &'m Item,
) -> Result<(), OutOfMemory>
    ensures { OnOk result (map ann_lent anns.new.items
        ≡ map ann_lent anns.old.items ++ anns_of_item (item_of item.now)) }
{
    match &item.kind {
        ItemKind::Constant(constant) => add_option(anns, &constant.annotation),
        ItemKind::Class(class) => add_of_members(alloc, anns, &class.members),
        ItemKind::Def(def) => add_of_function(alloc, anns, def),
    }
}

/// Adds an annotation and its parts.
#[cycle(anns)]
fn add_parts<'m>(anns: &mut Vec<&'m Ann>, annotation: &'m Ann) -> Result<(), OutOfMemory>
    ensures { OnOk result (map ann_lent anns.new.items
        ≡ map ann_lent anns.old.items ++ anns_in (ann_of annotation.now)) }
{
    anns.push(annotation)?;
    match annotation {
        Ann::Name(_) | Ann::NoneValue(_) | Ann::ApplyEmpty(_, _) => Ok(()),
        Ann::Apply {
            arguments: parts,
            ..
        } => add_each(anns, parts),
        Ann::Union(_, parts) => add_each(anns, parts),
    }
}

/// Adds annotations and their parts.
#[cycle(anns)]
fn add_each<'m>(anns: &mut Vec<&'m Ann>, parts: &'m [Ann]) -> Result<(), OutOfMemory>
    ensures { OnOk result (map ann_lent anns.new.items
        ≡ map ann_lent anns.old.items ++ anns_in_all (anns_of_list parts.now)) }
{
    for part in parts {
        add_parts(anns, part)?;
    }
    Ok(())
}

/// Returns the whole annotations of a module.
fn whole_anns(alloc: Global, module: &Module) -> Result<Vec<&Ann>, OutOfMemory>
    ensures { IfOk result (λ v. map ann_lent v.items ≡ flat_map anns_of_item (module_of «module».now).items) }
{
    let mut anns = Vec::new(alloc);
    for item in &module.items {
        add_of_item(alloc, &mut anns, item)?;
    }
    Ok(anns)
}

/// Returns the annotations of a module, each before its parts.
pub(crate) fn all_anns(alloc: Global, module: &Module) -> Result<Vec<&Ann>, OutOfMemory>
    ensures { IfOk result (λ v. map ann_lent v.items
        ≡ flat_map anns_in (flat_map anns_of_item (module_of «module».now).items)) }
{
    let whole = whole_anns(alloc, module)?;
    let mut anns = Vec::new(alloc);
    for annotation in &whole {
        add_parts(&mut anns, *annotation)?;
    }
    Ok(anns)
}
