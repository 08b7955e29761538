//! Displays of lists, dicts and tuples: their labels, and the expected types of their parts.

ghost use Rattle.std.specs.Prelude.{◌≡◌, List, All, IfOk, map};
ghost use Rattle.std.specs.Option.{option_map};
ghost use Rattle.std.specs.List.{list_all};
ghost use Rattle.pc_types.specs.Tree.{Tree, ListOf, DictOf, TupleOf};
ghost use Rattle.pc_types.specs.Shape.{trees};
ghost use Rattle.pc_types.specs.Normal.{IsKey};
ghost use Rattle.pc_types.specs.Computed.{static_test, assignable_test};
ghost use Rattle.pc_types.specs.Store.{KeepsTypes};
ghost use Rattle.pc_flow.specs.Environment.{join_all};
ghost use Rattle.pc_rules.specs.Operations.{display_label};
ghost use Rattle.pc_rules.specs.Context.{Context};
ghost use Rattle.pc_rules.specs.Lawful.{list_item, dict_parts, tuple_parts, members_of_expected, list_label};
ghost use Rattle.pc_rules.specs.Computed.Expressions.{dict_label};
ghost use Rattle.pc_rules.specs.Computed.Standing.{HasIfAny, MeansLabel};
ghost use Rattle.pc_operations.specs.Displays.{key_value_with, HasKeyValueIfAny, IsItem, IsListItem, IsDictParts};
ghost use Rattle.pc_operations.specs.Displays.{IsEntry};
ghost use Rattle.pc_operations.specs.Displays.{is_tuple, own_dict_label};

use crate::members::join_types;
use pc_rules::{Label, clean, in_error};
use pc_source::OutOfMemory;
use pc_tree::Code;
use pc_types::{Head, Parents, TypeStore};
use std::alloc::Global;

/// The key type and the value type of a dict.
#[derive(Drop)]
pub struct KeyValue<Ty: Drop> {
    pub key: Ty,
    pub value: Ty,
}

/// Returns the members of an expected type, none if there is no such type.
fn expected_members<S: TypeStore>(
    store: &S,
    alloc: Global,
    want: &Option<S::Ty>,
) -> Result<Vec<S::Ty>, OutOfMemory>
    requires { HasIfAny (S.has store.now) want.now }
    ensures held { IfOk result (λ ts. All (S.has store.now) ts.items) }
    ensures value { IfOk result (λ ts. map S.tree ts.items ≡ members_of_expected (option_map S.tree want.now)) }
{
    match want {
        Some(ty) => store.members(alloc, ty),
        None => Ok(Vec::new(alloc)),
    }
}

/// Returns the label of a tuple display with items of these types; E26 if the type has too many nodes.
pub fn tuple_label<S: TypeStore>(
    store: &mut S,
    alloc: Global,
    types: &[S::Ty],
) -> Result<Label<S::Ty>, OutOfMemory>
    requires { All (S.has store.old) types.now }
    ensures value { IfOk result
        (λ l. MeansLabel S.has S.tree store.new l (display_label (TupleOf (trees (map S.tree types.now))))) }
    ensures kept { KeepsTypes S.has store.old store.new }
{
    let made = store.tuple(alloc, types)?;
    match made {
        Some(ty) => Ok(clean(alloc, ty)),
        None => in_error(store, alloc, Code::E26),
    }
}

/// Returns the label of a list display with items of this type; E26 if the type has too many nodes.
fn list_of<S: TypeStore>(
    store: &mut S,
    alloc: Global,
    item: &S::Ty,
) -> Result<Label<S::Ty>, OutOfMemory>
    requires { S.has store.old item.now }
    ensures value { IfOk result (λ l. MeansLabel S.has S.tree store.new l (display_label (ListOf (S.tree item.now)))) }
    ensures kept { KeepsTypes S.has store.old store.new }
{
    let made = store.list(alloc, item)?;
    match made {
        Some(ty) => Ok(clean(alloc, ty)),
        None => in_error(store, alloc, Code::E26),
    }
}

/// Returns the label of a list display: a list of the expected items, else of the join of its items, of `Any` if it is
/// empty.
pub fn list_label<S: TypeStore>(
    store: &mut S,
    alloc: Global,
    parents: &Parents,
    item: &Option<S::Ty>,
    types: &[S::Ty],
) -> Result<Label<S::Ty>, OutOfMemory>
    requires item { HasIfAny (S.has store.old) item.now }
    requires small { IsListItem (option_map S.tree item.now) }
    requires types { All (S.has store.old) types.now }
    ensures value { IfOk result
        (λ l. MeansLabel S.has S.tree store.new l
        (list_label parents.now (option_map S.tree item.now) (map S.tree types.now))) }
    ensures kept { KeepsTypes S.has store.old store.new }
{
    if let Some(item) = item {
        return list_of(store, alloc, item);
    }
    let item = if types.is_empty() {
        store.any(alloc)?
    } else {
        join_types(store, alloc, parents, types)?
    };
    list_of(store, alloc, &item)
}

/// Returns the label of a dict display with keys and values of these types; E26 if the type has too many nodes.
fn dict_of<S: TypeStore>(
    store: &mut S,
    alloc: Global,
    key: &S::Ty,
    value: &S::Ty,
) -> Result<Label<S::Ty>, OutOfMemory>
    requires key { S.has store.old key.now }
    requires value { S.has store.old value.now }
    requires suits { IsKey (S.tree key.now) }
    ensures value { IfOk result
        (λ l. MeansLabel S.has S.tree store.new l (display_label (DictOf (S.tree key.now) (S.tree value.now)))) }
    ensures kept { KeepsTypes S.has store.old store.new }
{
    let made = store.dict(alloc, key, value)?;
    match made {
        Some(ty) => Ok(clean(alloc, ty)),
        None => in_error(store, alloc, Code::E26),
    }
}

/// Returns the label of a dict display with keys of this type and values of the join of these types.
fn dict_of_join<S: TypeStore>(
    store: &mut S,
    alloc: Global,
    parents: &Parents,
    key: &S::Ty,
    values: &[S::Ty],
) -> Result<Label<S::Ty>, OutOfMemory>
    requires key { S.has store.old key.now }
    requires suits { IsKey (S.tree key.now) }
    requires values { All (S.has store.old) values.now }
    ensures value { IfOk result
        (λ l. MeansLabel S.has S.tree store.new l
        (display_label (DictOf (S.tree key.now) (join_all parents.now (map S.tree values.now))))) }
    ensures kept { KeepsTypes S.has store.old store.new }
{
    let value = join_types(store, alloc, parents, values)?;
    dict_of(store, alloc, key, &value)
}

/// Returns whether each of several types is a static subtype of `into`.
fn are_static<S: TypeStore>(store: &mut S, parents: &Parents, types: &[S::Ty], into: &S::Ty) -> bool
    requires types { All (S.has store.old) types.now }
    requires into { S.has store.old into.now }
    ensures value { result ≡ list_all (λ t. static_test parents.now t (S.tree into.now)) (map S.tree types.now) }
    ensures kept { KeepsTypes S.has store.old store.new }
{
    for ty in types {
        if !store.is_static(parents, ty, into) {
            return false;
        }
    }
    true
}

/// Returns the label of a dict display without an expected dict: its keys are all `int` or all `str`, else it is E22.
fn own_dict_label<S: TypeStore>(
    store: &mut S,
    alloc: Global,
    parents: &Parents,
    keys: &[S::Ty],
    values: &[S::Ty],
) -> Result<Label<S::Ty>, OutOfMemory>
    requires keys { All (S.has store.old) keys.now }
    requires values { All (S.has store.old) values.now }
    ensures value { IfOk result
        (λ l. MeansLabel S.has S.tree store.new l
        (own_dict_label parents.now (map S.tree keys.now) (map S.tree values.now))) }
    ensures kept { KeepsTypes S.has store.old store.new }
{
    if keys.is_empty() {
        return in_error(store, alloc, Code::E22);
    }
    let int = store.int(alloc)?;
    if are_static(store, parents, keys, &int) {
        return dict_of_join(store, alloc, parents, &int, values);
    }
    let str = store.str(alloc)?;
    if are_static(store, parents, keys, &str) {
        return dict_of_join(store, alloc, parents, &str, values);
    }
    in_error(store, alloc, Code::E22)
}

/// Returns the label of a dict display: the expected dict, else the dict of its own keys and values.
pub fn dict_label<S: TypeStore>(
    store: &mut S,
    alloc: Global,
    parents: &Parents,
    parts: &Option<KeyValue<S::Ty>>,
    keys: &[S::Ty],
    values: &[S::Ty],
) -> Result<Label<S::Ty>, OutOfMemory>
    requires parts { HasKeyValueIfAny (S.has store.old) parts.now }
    requires small { IsDictParts (option_map (key_value_with S.tree) parts.now) }
    requires keys { All (S.has store.old) keys.now }
    requires values { All (S.has store.old) values.now }
    ensures value { (ctx : Context) (declared : List Tree) → ctx.bases ≡ parents.now
        → IfOk result (λ l. MeansLabel S.has S.tree store.new l
        (dict_label ctx declared (static_test parents.now) (assignable_test parents.now)
        (option_map (key_value_with S.tree) parts.now) (map S.tree keys.now) (map S.tree values.now))) }
    ensures kept { KeepsTypes S.has store.old store.new }
{
    match parts {
        Some(parts) => dict_of(store, alloc, &parts.key, &parts.value),
        None => own_dict_label(store, alloc, parents, keys, values),
    }
}

/// Returns the expected type of the items of a list display: the item type of the first list among the members of the
/// display's expected type.
pub fn list_item<S: TypeStore>(
    store: &S,
    alloc: Global,
    want: &Option<S::Ty>,
) -> Result<Option<S::Ty>, OutOfMemory>
    requires { HasIfAny (S.has store.now) want.now }
    ensures { IfOk result (λ o.
        IsItem S.has S.tree store.now o (list_item (members_of_expected (option_map S.tree want.now)))) }
{
    let members = expected_members(store, alloc, want)?;
    for i in 0..members.len() {
        let member = &members[i];
        if let Head::List = store.head(member) {
            return Ok(Some(store.part(alloc, member, 0)?));
        }
    }
    Ok(None)
}

/// Returns the expected types of the entries of a dict display: the key and value types of the first dict among the
/// members of the display's expected type.
pub fn dict_parts<S: TypeStore>(
    store: &S,
    alloc: Global,
    want: &Option<S::Ty>,
) -> Result<Option<KeyValue<S::Ty>>, OutOfMemory>
    requires { HasIfAny (S.has store.now) want.now }
    ensures { IfOk result (λ o.
        IsEntry S.has S.tree store.now o (dict_parts (members_of_expected (option_map S.tree want.now)))) }
{
    let members = expected_members(store, alloc, want)?;
    for i in 0..members.len() {
        let member = &members[i];
        if let Head::Dict = store.head(member) {
            let key = store.part(alloc, member, 0)?;
            let value = store.part(alloc, member, 1)?;
            return Ok(Some(KeyValue { key, value }));
        }
    }
    Ok(None)
}

/// Returns whether a type is a tuple of this length.
#[tactic(auto, using(crate::proofs::Displayed::tuple_is))]
fn is_tuple<S: TypeStore>(store: &S, ty: &S::Ty, length: usize) -> bool
    requires { S.has store.now ty.now }
    ensures { result ≡ is_tuple length (S.tree ty.now) }
{
    match store.head(ty) {
        Head::Tuple(count) => count == length,
        _ => false,
    }
}

/// Returns the expected types of the items of a tuple display of this length: those of the first such tuple among the
/// members of the display's expected type, none if there is no such tuple.
pub fn tuple_parts<S: TypeStore>(
    store: &S,
    alloc: Global,
    length: usize,
    want: &Option<S::Ty>,
) -> Result<Vec<S::Ty>, OutOfMemory>
    requires { HasIfAny (S.has store.now) want.now }
    ensures held { IfOk result (λ ts. All (S.has store.now) ts.items) }
    ensures value { IfOk result
        (λ ts. map S.tree ts.items ≡ tuple_parts length (members_of_expected (option_map S.tree want.now))) }
{
    let members = expected_members(store, alloc, want)?;
    for i in 0..members.len() {
        let member = &members[i];
        if is_tuple(store, member, length) {
            return store.parts(alloc, member);
        }
    }
    Ok(Vec::new(alloc))
}
