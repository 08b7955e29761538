//! The rules on one function, applied to each function and method.
#![tactic(auto, using(pc_tree::proofs::Finds::at_both, pc_tree::proofs::Joints::joined))]

ghost use Rattle.std.specs.Prelude.{◌≡◌, ◌++◌, map, true, OnOk};
ghost use Rattle.pc_tree.specs.Tree.{func_of, member_of, item_of};
ghost use Rattle.pc_tree.specs.Stopping.{of_members};
ghost use Rattle.pc_tree.specs.Code.{at_code};
ghost use Rattle.pc_stopping.specs.Found.{code_of, places_by, in_defs};

use crate::calls::find_given_in_body;
use crate::defaults::find_late_plain;
use crate::loops::find_loose;
use crate::reserved::find_reserved_names;
use crate::twice::find_parameters_again;
use pc_source::OutOfMemory;
use pc_tree::{Findings, FuncDef, Item, ItemKind, Keys, Member};
use std::alloc::Global;

/// A rule on one function or method. Each has one code.
#[derive(Clone, Copy, PartialEq, Eq, Debug)]
pub enum FunctionRule {
    /// A parameter has the name of an earlier one, or of the object of a method: E01.
    ParametersAgain,
    /// A call is given a name twice: E01.
    GivenAgain,
    /// `break` or `continue` is outside a loop: E05.
    OutsideLoop,
    /// A reserved name is bound: E29.
    ReservedName,
    /// A parameter without a default follows one with a default: E31.
    LatePlain,
}

/// Adds the findings of a rule in one function or method.
fn find_by(
    found: &mut Findings,
    alloc: Global,
    keys: Keys,
    rule: FunctionRule,
    is_method: bool,
    def: &FuncDef,
) -> Result<(), OutOfMemory>
    ensures { OnOk result (found.new.items
        ≡ found.old.items ++ at_code (code_of rule) (places_by rule is_method (func_of def.now))) }
{
    match rule {
        FunctionRule::ParametersAgain => find_parameters_again(
            found,
            alloc,
            keys,
            is_method,
            &def.params,
        ),
        FunctionRule::GivenAgain => find_given_in_body(found, alloc, keys, &def.body),
        FunctionRule::OutsideLoop => find_loose(found, &def.body),
        FunctionRule::ReservedName => find_reserved_names(found, alloc, def),
        FunctionRule::LatePlain => find_late_plain(found, &def.params),
    }
}

/// Adds the findings of a rule in the methods of a class.
fn find_in_methods(
    found: &mut Findings,
    alloc: Global,
    keys: Keys,
    rule: FunctionRule,
    members: &[Member],
) -> Result<(), OutOfMemory>
    ensures { OnOk result (found.new.items
        ≡ found.old.items ++ at_code (code_of rule) (of_members (places_by rule true) (map member_of members.now))) }
{
    for member in members {
        match member {
            Member::Field(_) => {}
            Member::Method(def) => find_by(found, alloc, keys, rule, true, def)?,
        }
    }
    Ok(())
}

/// Adds the findings of a rule in the functions and methods of a module.
pub fn find_in_defs(
    found: &mut Findings,
    alloc: Global,
    keys: Keys,
    rule: FunctionRule,
    items: &[Item],
) -> Result<(), OutOfMemory>
    ensures { OnOk result (found.new.items
        ≡ found.old.items ++ at_code (code_of rule) (in_defs rule (map item_of items.now))) }
{
    for item in items {
        match &item.kind {
            ItemKind::Constant(_) => {}
            ItemKind::Class(class) => find_in_methods(found, alloc, keys, rule, &class.members)?,
            ItemKind::Def(def) => find_by(found, alloc, keys, rule, false, def)?,
        }
    }
    Ok(())
}
