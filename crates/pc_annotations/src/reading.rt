//! Parts of annotations read as types.

ghost use Rattle.std.specs.Prelude.{◌≡◌, ◌++◌, ◌∷◌, [], IfOk, OnOk};
ghost use Rattle.pc_tree.specs.Code.{finding};
ghost use Rattle.pc_tree.specs.declared.code.Code.TheVariants.{E09, E10};
ghost use Rattle.pc_tree.specs.Tree.{module_of, name_of, ann_of};
ghost use Rattle.pc_scope.specs.Resolution.{resolve_in_module};
ghost use Rattle.pc_scope.specs.ModuleScopes.{AreScopes};
ghost use Rattle.pc_types.specs.Tree.{Any};
ghost use Rattle.pc_types.specs.Store.{KeepsTypes};
ghost use Rattle.pc_annotations.specs.Annotations.{reading, read_anns};
ghost use Rattle.pc_annotations.specs.Listed.{anns_of_list, part_findings, parts_findings};
ghost use Rattle.pc_annotations.specs.Internal.TypesRead.{IsRead, AreRead, with_one};
ghost use Rattle.std.specs.Option.{option_map};

use crate::built::{apply, empty_tuple, named_type};
use crate::outline::ModuleOutline;
use crate::union::unite;
use pc_scope::{NameMeaning, Owner};
use pc_source::{OutOfMemory, Place};
use pc_tree::{Ann, Code, Finding, Findings, Name};
use pc_types::{Head, TypeStore};
use std::alloc::Global;

/// The result of reading a part of an annotation: the head of its type, and the type, `None` if it has over 256 nodes.
#[derive(Drop)]
pub(crate) struct ReadAnnotation<Ty: Drop> {
    pub head: Head,
    pub ty: Option<Ty>,
}

/// The result of reading several parts: the heads of their types, and the types, `None` if they have over 256 nodes
/// together.
#[derive(Drop)]
pub(crate) struct Readings<Ty: Drop> {
    pub heads: Vec<Head>,
    pub types: Option<Vec<Ty>>,
}

/// Returns the meaning of a name in an annotation.
fn meaning(outline: &ModuleOutline, name: &Name) -> NameMeaning
    requires { AreScopes (module_of outline.now.tree.now) outline.now.scopes.now }
    ensures { result ≡ resolve_in_module (module_of outline.now.tree.now) (name_of name.now).text }
{
    outline.scopes.resolve(Owner::Module, name.text.as_str())
}

/// Returns a type as the result of reading.
pub(crate) fn read_as<S: TypeStore>(store: &S, ty: S::Ty) -> ReadAnnotation<S::Ty>
    requires { S.has store.now ty }
    ensures { IsRead S.has S.tree store.now result.head result.ty (S.tree ty) }
{
    ReadAnnotation {
        head: store.head(&ty),
        ty: Some(ty),
    }
}

/// Adds a finding and returns `Any` in place of a type.
fn fault<S: TypeStore>(
    store: &mut S,
    alloc: Global,
    found: &mut Findings,
    place: Place,
    code: Code,
) -> Result<ReadAnnotation<S::Ty>, OutOfMemory>
    ensures typed { IfOk result (λ r. IsRead S.has S.tree store.new r.head r.ty Any) }
    ensures pushed { OnOk result (found.new.items ≡ found.old.items ++ finding place code ∷ []) }
    ensures kept { KeepsTypes S.has store.old store.new }
{
    found.push(Finding { place, code })?;
    let any = store.any(alloc)?;
    Ok(read_as(store, any))
}

/// Returns the type of a part of an annotation. Appends its findings.
#[cycle(read)]
pub(crate) fn read<S: TypeStore>(
    outline: &ModuleOutline,
    store: &mut S,
    alloc: Global,
    found: &mut Findings,
    ann: &Ann,
) -> Result<ReadAnnotation<S::Ty>, OutOfMemory>
    requires { AreScopes (module_of outline.now.tree.now) outline.now.scopes.now }
    ensures typed { IfOk result
        (λ r. IsRead S.has S.tree store.new r.head r.ty
        (reading (module_of outline.now.tree.now) outline.now.parents.now (ann_of ann.now))) }
    ensures pushed { OnOk result
        (found.new.items ≡ found.old.items
        ++ part_findings (module_of outline.now.tree.now) outline.now.parents.now (ann_of ann.now)) }
    ensures kept { KeepsTypes S.has store.old store.new }
{
    match ann {
        Ann::Name(name) => {
            let meaning = meaning(outline, name);
            match named_type(store, alloc, outline.tree.imports_any, meaning)? {
                Some(ty) => Ok(read_as(store, ty)),
                None => fault(store, alloc, found, name.place, Code::E09),
            }
        }
        Ann::NoneValue(_) => {
            let none = store.none(alloc)?;
            Ok(read_as(store, none))
        }
        Ann::Apply {
            place,
            head,
            arguments,
        } => {
            let before = found.len();
            let types = read_each(outline, store, alloc, found, arguments)?;
            let meaning = meaning(outline, head);
            match apply(store, alloc, meaning, &types)? {
                Some(reading) => Ok(reading),
                None => {
                    // An annotation of any other form is one fault as a whole: the findings of its parts are removed.
                    found.truncate(before);
                    fault(store, alloc, found, *place, Code::E09)
                }
            }
        }
        Ann::ApplyEmpty(place, head) => {
            let meaning = meaning(outline, head);
            match empty_tuple(store, alloc, meaning)? {
                Some(reading) => Ok(reading),
                None => fault(store, alloc, found, *place, Code::E09),
            }
        }
        Ann::Union(place, parts) => {
            let types = read_each(outline, store, alloc, found, parts)?;
            match unite(outline, store, alloc, types)? {
                Some(reading) => Ok(reading),
                None => fault(store, alloc, found, *place, Code::E10),
            }
        }
    }
}

/// Returns the types of several parts. Appends their findings in order.
#[cycle(read)]
fn read_each<S: TypeStore>(
    outline: &ModuleOutline,
    store: &mut S,
    alloc: Global,
    found: &mut Findings,
    parts: &[Ann],
) -> Result<Readings<S::Ty>, OutOfMemory>
    requires { AreScopes (module_of outline.now.tree.now) outline.now.scopes.now }
    ensures typed { IfOk result
        (λ r. AreRead S.has S.tree store.new r.heads.items r.types
        (read_anns (module_of outline.now.tree.now) outline.now.parents.now (anns_of_list parts.now))) }
    ensures pushed { OnOk result
        (found.new.items ≡ found.old.items
        ++ parts_findings (module_of outline.now.tree.now) outline.now.parents.now (anns_of_list parts.now)) }
    ensures kept { KeepsTypes S.has store.old store.new }
{
    let mut heads = Vec::new(alloc);
    let mut types = Some(Vec::new(alloc));
    for part in parts {
        let reading = read(outline, store, alloc, found, part)?;
        heads.push(reading.head)?;
        types = with_type(types, reading.ty)?;
    }
    Ok(Readings { heads, types })
}

/// Appends a type to a list of types. Returns `None` if either is missing.
fn with_type<Ty: Drop>(
    types: Option<Vec<Ty>>,
    ty: Option<Ty>,
) -> Result<Option<Vec<Ty>>, OutOfMemory>
    ensures { IfOk result (λ o. option_map (λ v. v.items) o ≡ with_one (option_map (λ v. v.items) types) ty) }
{
    let Some(mut types) = types else {
        return Ok(None)
    };
    let Some(ty) = ty else { return Ok(None) };
    types.push(ty)?;
    Ok(Some(types))
}
