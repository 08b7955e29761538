//! All the findings that stop a run.
ghost use Rattle.std.specs.Prelude.{◌≡◌, ◌↔◌, ◌++◌, Contains, OnOk, IfOk};
ghost use Rattle.pc_tree.specs.declared.code.Code.TheVariants.{E01, E29};
ghost use Rattle.pc_tree.specs.declared.code.Finding.{Finding as FindingOf};
ghost use Rattle.pc_tree.specs.Tree.{module_of};
ghost use Rattle.pc_tree.specs.Stopping.{twice, reserved_bound, has_none, is_runnable, IsStopping};
ghost use Rattle.pc_tree.specs.Code.{at_code};
ghost use Rattle.pc_stopping.specs.Found.{found_in_scopes};

use crate::calls::find_given_in_constants;
use crate::defs::{FunctionRule, find_in_defs};
use crate::entry::find_no_main;
use crate::members::find_in_classes;
use crate::reserved::{find_reserved_in_classes, find_reserved_items};
use crate::twice::find_items_again;
use pc_source::OutOfMemory;
use pc_tree::{Findings, Keys, Module};
use std::alloc::Global;

/// Adds E01 for each name that is bound or given twice.
#[tactic(auto, using(pc_tree::proofs::Finds::at_both, pc_tree::proofs::Joints::joined))]
fn find_twice(
    found: &mut Findings,
    alloc: Global,
    keys: Keys,
    program: &Module,
) -> Result<(), OutOfMemory>
    ensures { OnOk result (found.new.items ≡ found.old.items ++ at_code E01 (twice (module_of program.now))) }
{
    let items = program.items.as_slice();
    find_items_again(found, alloc, keys, items)?;
    find_in_defs(found, alloc, keys, FunctionRule::ParametersAgain, items)?;
    find_given_in_constants(found, alloc, keys, items)?;
    find_in_defs(found, alloc, keys, FunctionRule::GivenAgain, items)
}

/// Adds E29 for each reserved name that is bound.
#[tactic(auto, using(pc_tree::proofs::Finds::at_both, pc_tree::proofs::Joints::joined))]
fn find_reserved(
    found: &mut Findings,
    alloc: Global,
    keys: Keys,
    program: &Module,
) -> Result<(), OutOfMemory>
    ensures { OnOk result (found.new.items ≡ found.old.items ++ at_code E29 (reserved_bound (module_of program.now))) }
{
    let items = program.items.as_slice();
    find_reserved_items(found, alloc, items)?;
    find_reserved_in_classes(found, items)?;
    find_in_defs(found, alloc, keys, FunctionRule::ReservedName, items)
}

/// Adds the findings that stop a run and concern names or the places of statements: E01, E05, E28, E29, E31. Own rules
/// of the profile.
///
/// # Errors
///
/// `OutOfMemory` if the findings or the sets of earlier names cannot grow.
pub fn find_in_scopes(
    found: &mut Findings,
    alloc: Global,
    keys: Keys,
    program: &Module,
) -> Result<(), OutOfMemory>
    ensures { OnOk result (found.new.items ≡ found.old.items ++ found_in_scopes (module_of program.now)) }
{
    find_twice(found, alloc, keys, program)?;
    find_in_defs(
        found,
        alloc,
        keys,
        FunctionRule::OutsideLoop,
        &program.items,
    )?;
    find_no_main(found, program)?;
    find_reserved(found, alloc, keys, program)?;
    find_in_defs(found, alloc, keys, FunctionRule::LatePlain, &program.items)
}

/// Returns the findings that stop each run of a module, in any order: a name bound or given twice (E01), `break` or
/// `continue` outside a loop (E05), members that clash (E06), no `main` without parameters (E28), a reserved name that
/// is bound (E29), a parameter without a default after one with a default (E31). The module runs exactly if there is
/// none. Own rule of the profile.
///
/// # Errors
///
/// `OutOfMemory` if the findings, the sets of earlier names or the tables of members cannot grow.
pub fn stops(alloc: Global, keys: Keys, program: &Module) -> Result<Findings, OutOfMemory>
    ensures found { IfOk result
        (λ fs. (f : FindingOf) → Contains fs.items f ↔ IsStopping (module_of program.now) f.place f.code) }
    ensures none { IfOk result (λ fs. has_none fs.items ≡ is_runnable (module_of program.now)) }
{
    let mut found = Vec::new(alloc);
    find_in_scopes(&mut found, alloc, keys, program)?;
    find_in_classes(&mut found, alloc, keys, program)?;
    Ok(found)
}
