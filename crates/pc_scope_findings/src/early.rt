//! E03: an initializer that uses a name not yet defined, or calls an expression that is not a name. Own rule of the
//! profile.
#![tactic(auto, using(crate::proofs::Seeking::early_sought, pc_tree::proofs::Finds::at_both, pc_tree::proofs::Joints::joined))]

ghost use Rattle.std.specs.Prelude.{◌≡◌, ◌++◌, map, OnOk, false};
ghost use Rattle.pc_tree.specs.declared.code.Code.TheVariants.{E03};
ghost use Rattle.pc_tree.specs.Tree.{expr_of, item_of};
ghost use Rattle.pc_scope.specs.declared.resolution.Owner.TheVariants as owners;
ghost use Rattle.pc_scope.specs.Expressions.{parts_in};
ghost use Rattle.pc_tree.specs.Code.{at_code};
ghost use Rattle.pc_scope_findings.specs.Internal.FindingLists.{early_among, early_in};
ghost use Rattle.pc_scope.specs.Tables.{meaning_by_tables};

use crate::parts::{Sought, seek};
use pc_scope::Scopes;
use pc_source::OutOfMemory;
use pc_tree::{Expr, Findings, Item, ItemKind};

/// Adds E03 for each name that an initializer after this many constants and classes uses too early, and for each callee
/// that is not a name. Own rule of the profile.
fn find_early(
    found: &mut Findings,
    scopes: &Scopes,
    constants: usize,
    classes: usize,
    e: &Expr,
) -> Result<(), OutOfMemory>
    ensures { OnOk result (found.new.items
        ≡ found.old.items ++ at_code E03
        (early_among constants classes (meaning_by_tables scopes.now.tables owners.Module)
        (parts_in false (expr_of e.now)))) }
{
    seek(found, scopes, Sought::Early(constants, classes), e)
}

/// Adds E03 for each name used too early in an initializer and for each callee there that is not a name.
pub fn find_early_names(
    found: &mut Findings,
    scopes: &Scopes,
    items: &[Item],
) -> Result<(), OutOfMemory>
    ensures { OnOk result (found.new.items
        ≡ found.old.items ++ at_code E03
        (early_in 0 0 (meaning_by_tables scopes.now.tables owners.Module) (map item_of items.now))) }
{
    let mut constants = 0;
    let mut classes = 0;
    for item in items {
        match &item.kind {
            ItemKind::Constant(constant) => {
                find_early(found, scopes, constants, classes, &constant.value)?;
                constants += 1;
            }
            ItemKind::Class(_) => classes += 1,
            ItemKind::Def(_) => {}
        }
    }
    Ok(())
}
