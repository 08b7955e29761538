//! The tests in conditions, by `pc_flow`.
use pc_flow::{OwnerNames, add_tested, local_named, test_of};
use pc_scope::{Owner, is_instance_test, scopes};
use pc_source::OutOfMemory;
use pc_tree::{Expr, FuncDef, ItemKind, Module, StmtKind};
use std::alloc::Global;

/// Returns the condition of the `if` that is the first statement of a function.
pub(crate) fn condition_in(def: &FuncDef) -> Option<&Expr> {
    match &def.body.first()?.kind {
        StmtKind::If(branches, _) => Some(&branches.first()?.condition),
        _ => None,
    }
}

/// Returns the condition of the `if` that is the first statement of a module's first item, a function.
fn condition_of(module: &Module) -> Option<&Expr> {
    match &module.items.first()?.kind {
        ItemKind::Def(def) => condition_in(def),
        _ => None,
    }
}

/// Returns whether an expression is an `isinstance` test.
fn is_test(e: &Expr) -> bool {
    match e {
        Expr::Call {
            callee,
            arguments,
            keywords: by_name,
            ..
        } => is_instance_test(callee, arguments, by_name),
        _ => false,
    }
}

/// Returns the locals that a condition tests, then the local that it names, the type that its `isinstance` tests for,
/// and whether it is an `isinstance` test.
fn test_text(alloc: Global, names: &OwnerNames, condition: &Expr) -> Result<String, OutOfMemory> {
    let mut tested = Vec::new(alloc);
    add_tested(names, condition, &mut tested)?;
    let (named, test) = (local_named(names, condition), test_of(names, condition));
    let is_test = is_test(condition);
    Ok(format!(in alloc; "{tested:?}; {named:?} {test:?} {is_test}")?)
}

/// Returns the text of the tests of a condition, as `test_text` does, for that of a module's first function; words that
/// say so if it has no condition.
pub fn condition_text(alloc: Global, module: &Module) -> Result<String, OutOfMemory> {
    let Some(condition) = condition_of(module) else {
        return Ok(String::from_str(alloc, "no condition")?);
    };
    let scopes = scopes(alloc, module)?;
    let names = OwnerNames {
        scopes: &scopes,
        owner: Owner::Func(0),
    };
    test_text(alloc, &names, condition)
}
