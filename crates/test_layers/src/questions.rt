//! Questions about types, over any store: the relations of two types, their join, and the parts of a type.
ghost use Rattle.std.specs.Prelude.{◌≡◌, All, IfOk, IfSome};
ghost use Rattle.pc_scope.specs.ModuleScopes.{AreScopes};
ghost use Rattle.pc_types.specs.Store.{KeepsTypes};
ghost use Rattle.pc_annotations.specs.ModuleOutlines.{module_in};

use pc_annotations::{ModuleOutline, read_ann, type_text};
use pc_notes::transfer;
use pc_source::OutOfMemory;
use pc_tree::{Ann, Findings, ItemKind, Module};
use pc_types::{BoxStore, Parents, TypeStore};
use std::alloc::Global;

/// A question about two types, or about the first one.
#[derive(Clone, Copy)]
pub enum Question {
    /// Whether the first type is static to the second, and whether it is assignable to it.
    Flow,
    /// The join of the two types.
    Join,
    /// The join of all parts of the first type.
    JoinAll,
    /// The number of nodes of the first type.
    Nodes,
    /// The parts of the first type, at once and one by one.
    Parts,
    /// The members of the first type.
    Members,
    /// A copy of the first type.
    Copy,
    /// The first type, after a transfer to boxes and back.
    Taken,
    /// The type that a constructor of the store builds.
    Made,
}

/// Returns the annotation of the module's constant with this number, if it has one.
fn annotation(module: &Module, number: usize) -> Option<&Ann> {
    let mut before = number;
    for item in &module.items {
        if let ItemKind::Constant(constant) = &item.kind {
            if before == 0 {
                return constant.annotation.as_ref();
            }
            before -= 1;
        }
    }
    None
}

/// Returns the type of the constant with this number: that of its annotation, or else `Never`, which no annotation
/// spells.
fn type_of<S: TypeStore>(
    store: &mut S,
    alloc: Global,
    outline: &ModuleOutline,
    number: usize,
    found: &mut Findings,
) -> Result<S::Ty, OutOfMemory>
    requires { AreScopes (module_in outline.now) outline.now.scopes.now }
    ensures held { IfOk result (S.has store.new) }
    ensures kept { KeepsTypes S.has store.old store.new }
{
    match annotation(outline.tree, number) {
        Some(annotation) => read_ann(store, alloc, outline, found, annotation),
        None => store.never(alloc),
    }
}

/// Returns the word for an answer.
fn yes_or_no(answer: bool) -> &'static str {
    if answer { "yes" } else { "no" }
}

/// Returns whether the first type is static to the second, and whether it is assignable to it.
fn flow<S: TypeStore>(
    store: &mut S,
    alloc: Global,
    parents: &Parents,
    s: &S::Ty,
    t: &S::Ty,
) -> Result<String, OutOfMemory>
    requires left { S.has store.old s.now }
    requires right { S.has store.old t.now }
{
    let is_static = yes_or_no(store.is_static(parents, s, t));
    let is_assignable = yes_or_no(store.is_assignable(parents, s, t));
    Ok(format!(in alloc; "{is_static} {is_assignable}")?)
}

/// Returns the text of the join of two types, or `none`.
fn join<S: TypeStore>(
    store: &mut S,
    alloc: Global,
    outline: &ModuleOutline,
    s: &S::Ty,
    t: &S::Ty,
) -> Result<String, OutOfMemory>
    requires left { S.has store.old s.now }
    requires right { S.has store.old t.now }
{
    match store.join(alloc, outline.parents, s, t)? {
        Some(joined) => type_text(store, alloc, outline.tree, &joined),
        None => Ok(String::from_str(alloc, "none")?),
    }
}

/// Returns the text of the join of all parts of a type.
fn join_all<S: TypeStore>(
    store: &mut S,
    alloc: Global,
    outline: &ModuleOutline,
    ty: &S::Ty,
) -> Result<String, OutOfMemory>
    requires { S.has store.old ty.now }
{
    let parts = store.parts(alloc, ty)?;
    let joined = store.join_all(alloc, outline.parents, &parts)?;
    type_text(store, alloc, outline.tree, &joined)
}

/// Appends the text of a type after those of others.
fn add<S: TypeStore>(
    store: &S,
    alloc: Global,
    tree: &Module,
    ty: &S::Ty,
    text: &mut String,
) -> Result<(), OutOfMemory>
    requires { S.has store.now ty.now }
{
    if !text.is_empty() {
        text.push_str(", ")?;
    }
    text.push_str(type_text(store, alloc, tree, ty)?.as_str())?;
    Ok(())
}

/// Returns the texts of types, one after another.
fn listed<S: TypeStore>(
    store: &S,
    alloc: Global,
    tree: &Module,
    types: &[S::Ty],
) -> Result<String, OutOfMemory>
    requires { All (S.has store.now) types.now }
{
    let mut text = String::new(alloc);
    for ty in types {
        add(store, alloc, tree, ty, &mut text)?;
    }
    Ok(text)
}

/// Returns the texts of the parts of a type, requested one by one.
fn one_by_one<S: TypeStore>(
    store: &S,
    alloc: Global,
    tree: &Module,
    ty: &S::Ty,
) -> Result<String, OutOfMemory>
    requires { S.has store.now ty.now }
{
    let mut text = String::new(alloc);
    for number in 0..store.head(ty).part_count() {
        add(
            store,
            alloc,
            tree,
            &store.part(alloc, ty, number)?,
            &mut text,
        )?;
    }
    Ok(text)
}

/// Returns the texts of the parts of a type, requested at once and one by one; one list if both are the same.
fn parts<S: TypeStore>(
    store: &S,
    alloc: Global,
    tree: &Module,
    ty: &S::Ty,
) -> Result<String, OutOfMemory>
    requires { S.has store.now ty.now }
{
    let at_once = listed(store, alloc, tree, &store.parts(alloc, ty)?)?;
    let one_by_one = one_by_one(store, alloc, tree, ty)?;
    if at_once.as_str() == one_by_one.as_str() {
        return Ok(at_once);
    }
    let (at_once, one_by_one) = (at_once.as_str(), one_by_one.as_str());
    Ok(format!(in alloc; "{at_once} at once, {one_by_one} one by one")?)
}

/// Returns the text of a type after its transfer to a store of boxes and back.
fn taken<S: TypeStore>(
    store: &mut S,
    alloc: Global,
    tree: &Module,
    ty: &S::Ty,
) -> Result<String, OutOfMemory>
    requires { S.has store.old ty.now }
{
    let mut boxes = BoxStore::new();
    let taken = transfer(store, &mut boxes, alloc, ty)?;
    let again = transfer(&boxes, store, alloc, &taken)?;
    type_text(store, alloc, tree, &again)
}

/// Returns the union of `int` and `str` that a store builds.
fn int_or_str<S: TypeStore>(store: &mut S, alloc: Global) -> Result<Option<S::Ty>, OutOfMemory>
    ensures { IfOk result (λ o. IfSome o (S.has store.new)) }
{
    let mut members = Vec::new(alloc);
    members.push(store.int(alloc)?)?;
    members.push(store.str(alloc)?)?;
    store.union(alloc, &members)
}

/// Returns the type that the store's constructor of this name builds: of `int` if it has parts; for unions that of
/// `int` and `str`, and the one of no types.
fn make<S: TypeStore>(
    store: &mut S,
    alloc: Global,
    name: &str,
) -> Result<Option<S::Ty>, OutOfMemory>
    ensures { IfOk result (λ o. IfSome o (S.has store.new)) }
{
    match name {
        "any" => Ok(Some(store.any(alloc)?)),
        "object" => Ok(Some(store.object(alloc)?)),
        "never" => Ok(Some(store.never(alloc)?)),
        "bool" => Ok(Some(store.bool(alloc)?)),
        "str" => Ok(Some(store.str(alloc)?)),
        "none" => Ok(Some(store.none(alloc)?)),
        "class" => Ok(Some(store.class(alloc, 0)?)),
        "list" => {
            let int = store.int(alloc)?;
            store.list(alloc, &int)
        }
        "dict" => {
            let int = store.int(alloc)?;
            store.dict(alloc, &int, &int)
        }
        "tuple" => {
            let mut parts = Vec::new(alloc);
            parts.push(store.int(alloc)?)?;
            store.tuple(alloc, &parts)
        }
        "union" => int_or_str(store, alloc),
        "union of none" => store.union(alloc, &[]),
        _ => Ok(Some(store.int(alloc)?)),
    }
}

/// Returns the text of the type that the store's constructor of this name builds.
pub fn built_type_text<S: TypeStore>(
    store: &mut S,
    alloc: Global,
    tree: &Module,
    name: &str,
) -> Result<String, OutOfMemory> {
    match make(store, alloc, name)? {
        Some(ty) => type_text(store, alloc, tree, &ty),
        None => Ok(String::from_str(alloc, "none")?),
    }
}

/// Returns the answer of a store about two types, or about the first one.
fn answer_of_types<S: TypeStore>(
    store: &mut S,
    alloc: Global,
    outline: &ModuleOutline,
    question: Question,
    s: &S::Ty,
    t: &S::Ty,
) -> Result<String, OutOfMemory>
    requires left { S.has store.old s.now }
    requires right { S.has store.old t.now }
{
    let tree = outline.tree;
    match question {
        Question::Flow => flow(store, alloc, outline.parents, s, t),
        Question::Join => join(store, alloc, outline, s, t),
        Question::JoinAll => join_all(store, alloc, outline, s),
        Question::Nodes => Ok(format!(in alloc; "{}", store.nodes(s))?),
        Question::Parts => parts(store, alloc, tree, s),
        Question::Members => listed(store, alloc, tree, &store.members(alloc, s)?),
        Question::Copy => type_text(store, alloc, tree, &store.copy(alloc, s)?),
        Question::Taken => taken(store, alloc, tree, s),
        Question::Made => Ok(String::new(alloc)),
    }
}

/// Returns the answer of a store about the types of the module's first two constants.
pub fn store_answer<S: TypeStore>(
    store: &mut S,
    alloc: Global,
    outline: &ModuleOutline,
    question: Question,
) -> Result<String, OutOfMemory>
    requires { AreScopes (module_in outline.now) outline.now.scopes.now }
{
    let mut found = Vec::new(alloc);
    let s = type_of(store, alloc, outline, 0, &mut found)?;
    let t = type_of(store, alloc, outline, 1, &mut found)?;
    if !found.is_empty() {
        return Ok(String::from_str(alloc, "an annotation with findings")?);
    }
    answer_of_types(store, alloc, outline, question, &s, &t)
}
