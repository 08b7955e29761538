//! The names that statements bind.
ghost use Rattle.std.specs.Prelude.{◌≡◌, ◌++◌, map, OnOk};
ghost use Rattle.std.specs.Option.{option_to_list};
ghost use Rattle.pc_source.specs.declared.place.Place.{Place as PlaceOf};
ghost use Rattle.pc_tree.specs.Tree.{stmts_of_list, stmt_of_kind};
ghost use Rattle.pc_tree.specs.Lists.{branches_of_list, name_seen};
ghost use Rattle.pc_tree.specs.Stopping.{bound_by, bound_by_stmt, bound_by_branches};

use crate::tree::{Branch, Name, Stmt, StmtKind};
use pc_source::OutOfMemory;

/// Adds the names that `body` binds, in text order. Language Reference 4.2.1 "Binding of names".
#[cycle(bound)]
pub fn add_bound<'m>(names: &mut Vec<&'m Name>, body: &'m [Stmt]) -> Result<(), OutOfMemory>
    ensures { OnOk result (map name_seen names.new.items
        ≡ map name_seen names.old.items ++ bound_by (stmts_of_list body.now)) }
{
    for statement in body {
        add_bound_by(names, &statement.kind)?;
    }
    Ok(())
}

/// Adds the names that a statement binds, itself and in its suites, in text order. Language Reference 4.2.1 "Binding of
/// names".
#[cycle(bound)]
pub fn add_bound_by<'m>(names: &mut Vec<&'m Name>, kind: &'m StmtKind) -> Result<(), OutOfMemory>
    ensures { (p : PlaceOf) → OnOk result
        (map name_seen names.new.items ≡ map name_seen names.old.items ++ bound_by_stmt (stmt_of_kind p kind.now)) }
{
    add_own(names, kind.own_name())?;
    let (branches, last) = kind.suites();
    add_bound_in(names, branches)?;
    add_bound(names, last)
}

/// Adds the names that the suites of `branches` bind, in text order. Language Reference 4.2.1 "Binding of names".
#[cycle(bound)]
pub fn add_bound_in<'m>(
    names: &mut Vec<&'m Name>,
    branches: &'m [Branch],
) -> Result<(), OutOfMemory>
    ensures { OnOk result (map name_seen names.new.items
        ≡ map name_seen names.old.items ++ bound_by_branches (branches_of_list branches.now)) }
{
    for branch in branches {
        add_bound(names, &branch.body)?;
    }
    Ok(())
}

/// Adds the name, if there is one.
fn add_own<'m>(names: &mut Vec<&'m Name>, own: Option<&'m Name>) -> Result<(), OutOfMemory>
    ensures { OnOk result (map name_seen names.new.items
        ≡ map name_seen names.old.items ++ map name_seen (option_to_list own.entry)) }
{
    match own {
        None => Ok(()),
        Some(name) => {
            names.push(name)?;
            Ok(())
        }
    }
}
