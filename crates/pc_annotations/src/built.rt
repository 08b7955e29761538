//! Types of names and of `N[..]` in annotations.

ghost use Rattle.std.specs.Prelude.{◌≡◌, List, IfOk};
ghost use Rattle.std.specs.Option.{option_map};
ghost use Rattle.pc_scope.specs.declared.resolution.Builtin.TheVariants as builtin;
ghost use Rattle.pc_types.specs.Tree.{Tree};
ghost use Rattle.pc_types.specs.Store.{KeepsTypes, MeansAny};
ghost use Rattle.pc_annotations.specs.Annotations.{atom, named_type, built_type, applied_type, empty_type};
ghost use Rattle.pc_annotations.specs.Internal.TypesRead.{AreRead, IsReadAny};

use crate::reading::{ReadAnnotation, Readings, read_as};
use pc_scope::{Builtin, NameMeaning};
use pc_source::OutOfMemory;
use pc_types::{Head, TypeStore};
use std::alloc::Global;

/// Returns the type of a built-in name: `int`, `bool`, `str`, `object`, and `Any` if `imports_any`; `None` for any
/// other. Typing specification, "Type annotations".
fn atom<S: TypeStore>(
    store: &mut S,
    alloc: Global,
    imports_any: bool,
    builtin: Builtin,
) -> Result<Option<S::Ty>, OutOfMemory>
    ensures value { IfOk result (λ t. MeansAny S.has S.tree store.new t (atom imports_any builtin)) }
    ensures kept { KeepsTypes S.has store.old store.new }
{
    match builtin {
        Builtin::Int => Ok(Some(store.int(alloc)?)),
        Builtin::Bool => Ok(Some(store.bool(alloc)?)),
        Builtin::Str => Ok(Some(store.str(alloc)?)),
        Builtin::Object => Ok(Some(store.object(alloc)?)),
        Builtin::Any => {
            if imports_any {
                Ok(Some(store.any(alloc)?))
            } else {
                Ok(None)
            }
        }
        _ => Ok(None),
    }
}

/// Returns the type of a name with this meaning, a class or a built-in type; `None` for any other. `Any` is a type only
/// if `imports_any`.
pub(crate) fn named_type<S: TypeStore>(
    store: &mut S,
    alloc: Global,
    imports_any: bool,
    meaning: NameMeaning,
) -> Result<Option<S::Ty>, OutOfMemory>
    ensures value { IfOk result (λ t. MeansAny S.has S.tree store.new t (named_type imports_any meaning)) }
    ensures kept { KeepsTypes S.has store.old store.new }
{
    match meaning {
        NameMeaning::Builtin(builtin) => atom(store, alloc, imports_any, builtin),
        NameMeaning::Class(class) => Ok(Some(store.class(alloc, class)?)),
        _ => Ok(None),
    }
}

/// Returns `tuple[()]` if the name means `tuple`; else `None`.
pub(crate) fn empty_tuple<S: TypeStore>(
    store: &mut S,
    alloc: Global,
    meaning: NameMeaning,
) -> Result<Option<ReadAnnotation<S::Ty>>, OutOfMemory>
    ensures value { IfOk result
        (λ r. IsReadAny S.has S.tree store.new (option_map (λ x. (x.head, x.ty)) r) (empty_type meaning)) }
    ensures kept { KeepsTypes S.has store.old store.new }
{
    match meaning {
        NameMeaning::Builtin(Builtin::Tuple) => {
            let ty = store.tuple(alloc, &[])?;
            Ok(Some(ReadAnnotation {
                head: Head::Tuple(0),
                ty,
            }))
        }
        _ => Ok(None),
    }
}

/// Returns `list[T]` if there is exactly one argument; else `None`.
fn list_of<S: TypeStore>(
    store: &mut S,
    alloc: Global,
    arguments: &Readings<S::Ty>,
) -> Result<Option<ReadAnnotation<S::Ty>>, OutOfMemory>
    requires { (ts : List Tree) × AreRead S.has S.tree store.old arguments.now.heads.items arguments.now.types ts }
    ensures value { (ts : List Tree)
        → AreRead S.has S.tree store.old arguments.now.heads.items arguments.now.types ts
        → IfOk result
        (λ r. IsReadAny S.has S.tree store.new (option_map (λ x. (x.head, x.ty)) r) (built_type builtin.List ts)) }
    ensures kept { KeepsTypes S.has store.old store.new }
{
    if arguments.heads.len() != 1 {
        return Ok(None);
    }
    let ty = match &arguments.types {
        None => None,
        Some(types) => store.list(alloc, &types[0])?,
    };
    Ok(Some(ReadAnnotation {
        head: Head::List,
        ty,
    }))
}

/// Returns `dict[K, V]` if there are two arguments, the first of which is `int` or `str`; else `None`.
fn dict_of<S: TypeStore>(
    store: &mut S,
    alloc: Global,
    arguments: &Readings<S::Ty>,
) -> Result<Option<ReadAnnotation<S::Ty>>, OutOfMemory>
    requires { (ts : List Tree) × AreRead S.has S.tree store.old arguments.now.heads.items arguments.now.types ts }
    ensures value { (ts : List Tree)
        → AreRead S.has S.tree store.old arguments.now.heads.items arguments.now.types ts
        → IfOk result
        (λ r. IsReadAny S.has S.tree store.new (option_map (λ x. (x.head, x.ty)) r) (built_type builtin.Dict ts)) }
    ensures kept { KeepsTypes S.has store.old store.new }
{
    if arguments.heads.len() != 2 {
        return Ok(None);
    }
    if !matches!(arguments.heads[0], Head::Int | Head::Str) {
        return Ok(None);
    }
    let ty = match &arguments.types {
        None => None,
        Some(types) => store.dict(alloc, &types[0], &types[1])?,
    };
    Ok(Some(ReadAnnotation {
        head: Head::Dict,
        ty,
    }))
}

/// Returns `tuple[T1, ..]` if there is an argument; else `None`.
fn tuple_of<S: TypeStore>(
    store: &mut S,
    alloc: Global,
    arguments: &Readings<S::Ty>,
) -> Result<Option<ReadAnnotation<S::Ty>>, OutOfMemory>
    requires { (ts : List Tree) × AreRead S.has S.tree store.old arguments.now.heads.items arguments.now.types ts }
    ensures value { (ts : List Tree)
        → AreRead S.has S.tree store.old arguments.now.heads.items arguments.now.types ts
        → IfOk result
        (λ r. IsReadAny S.has S.tree store.new (option_map (λ x. (x.head, x.ty)) r) (built_type builtin.Tuple ts)) }
    ensures kept { KeepsTypes S.has store.old store.new }
{
    let count = arguments.heads.len();
    if count == 0 {
        return Ok(None);
    }
    let head = Head::Tuple(count);
    match &arguments.types {
        None => Ok(Some(ReadAnnotation { head, ty: None })),
        Some(types) => {
            let ty = store.tuple(alloc, types)?;
            Ok(Some(ReadAnnotation { head, ty }))
        }
    }
}

/// Returns the type of a name applied to arguments, if the name means a built-in that takes them. Typing specification,
/// "Type annotations".
pub(crate) fn apply<S: TypeStore>(
    store: &mut S,
    alloc: Global,
    meaning: NameMeaning,
    arguments: &Readings<S::Ty>,
) -> Result<Option<ReadAnnotation<S::Ty>>, OutOfMemory>
    requires { (ts : List Tree) × AreRead S.has S.tree store.old arguments.now.heads.items arguments.now.types ts }
    ensures value { (ts : List Tree)
        → AreRead S.has S.tree store.old arguments.now.heads.items arguments.now.types ts
        → IfOk result
        (λ r. IsReadAny S.has S.tree store.new (option_map (λ x. (x.head, x.ty)) r) (applied_type meaning ts)) }
    ensures kept { KeepsTypes S.has store.old store.new }
{
    match meaning {
        NameMeaning::Builtin(Builtin::List) => list_of(store, alloc, arguments),
        NameMeaning::Builtin(Builtin::Dict) => dict_of(store, alloc, arguments),
        NameMeaning::Builtin(Builtin::Tuple) => tuple_of(store, alloc, arguments),
        _ => Ok(None),
    }
}
