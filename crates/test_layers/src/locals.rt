//! The locals of a row: as declared, and as assigned on a path.
ghost use Rattle.std.specs.Prelude.{◌≡◌, IfOk, length};
ghost use Rattle.std.specs.Option.{option_copied};
ghost use Rattle.pc_scope.specs.ModuleScopes.{AreScopes};
ghost use Rattle.pc_annotations.specs.ModuleOutlines.{module_in};
ghost use Rattle.pc_types.specs.Boxed.{IsGiven, tree_of};
ghost use Rattle.pc_types.specs.WellFormed.{IsWellFormed};
ghost use Rattle.pc_flow.specs.Stored.{HasOne, HasEach, env_of};
ghost use Rattle.pc_flow.specs.WellFormed.{IsWellFormedEnv};

use pc_annotations::{ModuleOutline, read_option, type_text};
use pc_flow::{DeclaredTypes, Env};
use pc_scope::{NameMeaning, Owner};
use pc_source::Fault;
use pc_tree::{Ann, FuncDef, ItemKind, Module, Param};
use pc_types::{BoxStore, BoxType, TypeStore};
use std::alloc::{AllocError, Global};

/// The greatest number of locals of a row.
const LOCALS: usize = 3;

/// The module and the function to which the environments of a row belong.
#[derive(Drop)]
pub(crate) struct Environment<'a> {
    pub outline: &'a ModuleOutline<'a>,
    /// The function whose parameters are the locals, as declared.
    pub declared: &'a FuncDef,
}

/// Returns the function of this name.
pub(crate) fn function<'m>(tree: &'m Module, name: &str) -> Option<&'m FuncDef> {
    for item in &tree.items {
        if let ItemKind::Def(def) = &item.kind
            && def.name.text.as_str() == name
        {
            return Some(def);
        }
    }
    None
}

/// Returns whether an annotation is just the name `Never`, which is not read as a type.
fn is_never(annotation: &Option<Ann>) -> bool {
    match annotation {
        Some(Ann::Name(name)) => name.text.as_str() == "Never",
        _ => false,
    }
}

/// Returns the type of a parameter's annotation, and `Never` if it names that.
fn type_of(row: &Environment, alloc: Global, annotation: &Option<Ann>) -> Result<BoxType, Fault>
    requires { AreScopes (module_in row.now.outline.now) row.now.outline.now.scopes.now }
    ensures given { IfOk result IsGiven }
    ensures well_formed { IfOk result (λ t. IsWellFormed row.now.outline.now.parents.now (tree_of t)) }
{
    row.outline.parents.ordered();
    let mut store = BoxStore::new();
    if is_never(annotation) {
        return Ok(store.never(alloc)?);
    }
    let mut aside = Vec::new(alloc);
    Ok(read_option(&mut store, alloc, row.outline, &mut aside, annotation)?)
}

/// Returns the local of a parameter's name in the function of the locals.
fn local_of(row: &Environment, param: &Param) -> Option<usize> {
    let name = param.name.text.as_str();
    match row.outline.scopes.resolve(Owner::Func(0), name) {
        NameMeaning::Local(local) => Some(local),
        _ => None,
    }
}

/// Returns the environment in which exactly the locals that are parameters of a function are assigned.
pub(crate) fn assigned(
    row: &Environment,
    alloc: Global,
    def: &FuncDef,
) -> Result<Env<BoxType>, Fault>
    requires { AreScopes (module_in row.now.outline.now) row.now.outline.now.scopes.now }
    ensures given { IfOk result (λ e. HasEach IsGiven e) }
    ensures well_formed { IfOk result
        (λ e. IsWellFormedEnv row.now.outline.now.parents.now (env_of tree_of e)) }
    ensures locals { IfOk result (λ e. length e ≡ 3) }
{
    let mut env = Env::new(alloc, LOCALS)?;
    for param in &def.params {
        if let Some(local) = local_of(row, param) {
            let ty = type_of(row, alloc, &param.annotation)?;
            env.assign(alloc, local, ty)?;
        }
    }
    Ok(env)
}

/// Returns the declared types of the locals that have an annotation.
pub(crate) fn declared_types(
    row: &Environment,
    alloc: Global,
) -> Result<DeclaredTypes<BoxType>, Fault>
    requires { AreScopes (module_in row.now.outline.now) row.now.outline.now.scopes.now }
    ensures given { IfOk result (λ d. HasEach IsGiven d) }
    ensures well_formed { IfOk result
        (λ d. IsWellFormedEnv row.now.outline.now.parents.now (env_of tree_of d)) }
{
    let mut declared = DeclaredTypes::new(alloc, LOCALS)?;
    for param in &row.declared.params {
        if param.annotation.is_some()
            && let Some(local) = local_of(row, param)
        {
            let ty = type_of(row, alloc, &param.annotation)?;
            declared.declare(local, ty);
        }
    }
    Ok(declared)
}

/// Appends a local with its type, if it has one.
fn add_local(
    row: &Environment,
    alloc: Global,
    param: &Param,
    ty: Option<&BoxType>,
    out: &mut String,
) -> Result<(), Fault>
    requires { HasOne IsGiven (option_copied ty) }
{
    let Some(ty) = ty else { return Ok(()) };
    if !out.is_empty() {
        out.push_str(", ")?;
    }
    let text = type_text(&BoxStore::new(), alloc, row.outline.tree, ty)?;
    write!(out, "{}: {text}", param.name.text.as_str())?;
    Ok(())
}

/// Returns the assigned locals with their current types.
pub(crate) fn env_text(
    row: &Environment,
    alloc: Global,
    env: &Env<BoxType>,
) -> Result<String, Fault>
    requires { HasEach IsGiven env.now }
{
    let mut out = String::new(alloc);
    for param in &row.declared.params {
        if let Some(local) = local_of(row, param) {
            add_local(row, alloc, param, env.current(local), &mut out)?;
        }
    }
    if out.is_empty() {
        out.push_str("nothing")?;
    }
    Ok(out)
}

/// Returns the numbers of the locals whose names are among the words.
pub(crate) fn numbers(
    row: &Environment,
    alloc: Global,
    words: &str,
) -> Result<Vec<usize>, AllocError> {
    let mut numbers = Vec::new(alloc);
    let params = &row.declared.params;
    for local in 0..params.len() {
        let name = params[local].name.text.as_str();
        if words.split(' ').any(|word| word == name) {
            numbers.push(local)?;
        }
    }
    Ok(numbers)
}
