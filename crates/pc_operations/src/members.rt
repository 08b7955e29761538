//! The result of each operation on one member of a type, by the member's head.
#![tactic(auto, using(crate::proofs::ByHead::by_head))]

ghost use Rattle.std.specs.Prelude.{◌≡◌, All, IfOk, map};
ghost use Rattle.pc_types.specs.Store.{Means, KeepsTypes};
ghost use Rattle.pc_types.specs.Tree.{Union, Int, Str, NoneType};
ghost use Rattle.pc_flow.specs.Environment.{join_all};
ghost use Rattle.pc_class.specs.Tables.{HasEntries, classes_with};
ghost use Rattle.pc_rules.specs.Operations.{suits_not, negative_member, attribute_member, index_member, iterate_member};
ghost use Rattle.pc_rules.specs.Operations.{contain_member, length_member};
ghost use Rattle.pc_operations.specs.JudgedOperations.{IsOffer, item_at};

use pc_class::ClassTable;
use pc_rules::Offer;
use pc_source::OutOfMemory;
use pc_tree::Code;
use pc_types::{Head, Parents, TypeStore};
use std::alloc::Global;

/// Returns the result of an operation with this code, which gives `Any`.
fn with_code<S: TypeStore>(
    store: &mut S,
    alloc: Global,
    code: Code,
) -> Result<Offer<S::Ty>, OutOfMemory>
    ensures value { IfOk result (λ o. IsOffer S.has S.tree store.new o (suits_not code)) }
    ensures kept { KeepsTypes S.has store.old store.new }
{
    let gives = store.any(alloc)?;
    Ok(Offer {
        found: Some(code),
        gives,
        takes: None,
    })
}

/// Returns the result of unary `-` on a member.
pub(crate) fn negative_offer<S: TypeStore>(
    store: &mut S,
    alloc: Global,
    member: &S::Ty,
) -> Result<Offer<S::Ty>, OutOfMemory>
    requires { S.has store.old member.now }
    ensures value { IfOk result (λ o. IsOffer S.has S.tree store.new o (negative_member (S.tree member.now))) }
    ensures kept { KeepsTypes S.has store.old store.new }
{
    match store.head(member) {
        Head::Int | Head::Bool => {
            let gives = store.int(alloc)?;
            Ok(Offer {
                found: None,
                gives,
                takes: None,
            })
        }
        Head::Any => with_code(store, alloc, Code::A2),
        _ => with_code(store, alloc, Code::E13),
    }
}

/// Returns the result of `len` on a member.
pub(crate) fn length_offer<S: TypeStore>(
    store: &mut S,
    alloc: Global,
    member: &S::Ty,
) -> Result<Offer<S::Ty>, OutOfMemory>
    requires { S.has store.old member.now }
    ensures value { IfOk result (λ o. IsOffer S.has S.tree store.new o (length_member (S.tree member.now))) }
    ensures kept { KeepsTypes S.has store.old store.new }
{
    let found = match store.head(member) {
        Head::Str | Head::List | Head::Dict | Head::Tuple(_) => None,
        Head::Any => Some(Code::A6),
        _ => return with_code(store, alloc, Code::E27),
    };
    let gives = store.int(alloc)?;
    Ok(Offer {
        found,
        gives,
        takes: None,
    })
}

/// Returns the join of several types, from the left; `Never` for none.
pub(crate) fn join_types<S: TypeStore>(
    store: &mut S,
    alloc: Global,
    parents: &Parents,
    types: &[S::Ty],
) -> Result<S::Ty, OutOfMemory>
    requires { All (S.has store.old) types.now }
    ensures value { IfOk result (λ t. Means S.has S.tree store.new t (join_all parents.now (map S.tree types.now))) }
    ensures kept { KeepsTypes S.has store.old store.new }
{
    store.join_all(alloc, parents, types)
}

/// Returns the result of iterating over a member: a list's items, a dict's keys, `str` for a `str`, the join of a
/// tuple's items.
pub(crate) fn iterate_offer<S: TypeStore>(
    store: &mut S,
    alloc: Global,
    parents: &Parents,
    member: &S::Ty,
) -> Result<Offer<S::Ty>, OutOfMemory>
    requires { S.has store.old member.now }
    ensures value { IfOk result
        (λ o. IsOffer S.has S.tree store.new o (iterate_member parents.now (S.tree member.now))) }
    ensures kept { KeepsTypes S.has store.old store.new }
{
    let gives = match store.head(member) {
        Head::List | Head::Dict => store.part(alloc, member, 0)?,
        Head::Str => store.str(alloc)?,
        Head::Tuple(_) => {
            let items = store.parts(alloc, member)?;
            join_types(store, alloc, parents, &items)?
        }
        Head::Any => return with_code(store, alloc, Code::A5),
        _ => return with_code(store, alloc, Code::E18),
    };
    Ok(Offer {
        found: None,
        gives,
        takes: None,
    })
}

/// Returns the union of the types that `in` takes for a dict: `int`, `str` or `None`.
fn looked_for<S: TypeStore>(store: &mut S, alloc: Global) -> Result<S::Ty, OutOfMemory>
    ensures value { IfOk result (λ t. Means S.has S.tree store.new t (Union Int (Union Str NoneType))) }
    ensures kept { KeepsTypes S.has store.old store.new }
{
    let mut types = Vec::new(alloc);
    types.push(store.int(alloc)?)?;
    types.push(store.str(alloc)?)?;
    types.push(store.none(alloc)?)?;
    match store.union(alloc, &types)? {
        Some(union) => Ok(union),
        None => store.any(alloc),
    }
}

/// Returns the result of `in` on a member of its right operand's type.
pub(crate) fn contain_offer<S: TypeStore>(
    store: &mut S,
    alloc: Global,
    member: &S::Ty,
) -> Result<Offer<S::Ty>, OutOfMemory>
    requires { S.has store.old member.now }
    ensures value { IfOk result (λ o. IsOffer S.has S.tree store.new o (contain_member (S.tree member.now))) }
    ensures kept { KeepsTypes S.has store.old store.new }
{
    let mut found = None;
    let takes = match store.head(member) {
        Head::Str => Some(store.str(alloc)?),
        Head::Dict => Some(looked_for(store, alloc)?),
        Head::List | Head::Tuple(_) => None,
        Head::Any => {
            found = Some(Code::A2);
            None
        }
        _ => return with_code(store, alloc, Code::E19),
    };
    let gives = store.bool(alloc)?;
    Ok(Offer {
        found,
        gives,
        takes,
    })
}

/// Returns the type of a tuple's item: the one at `literal` if that is below its length, else the join of all.
fn tuple_item<S: TypeStore>(
    store: &mut S,
    alloc: Global,
    parents: &Parents,
    literal: Option<usize>,
    items: &[S::Ty],
) -> Result<S::Ty, OutOfMemory>
    requires { All (S.has store.old) items.now }
    ensures value { IfOk result
        (λ t. Means S.has S.tree store.new t (item_at parents.now literal (map S.tree items.now))) }
    ensures kept { KeepsTypes S.has store.old store.new }
{
    if let Some(i) = literal {
        if i < items.len() {
            return store.copy(alloc, &items[i]);
        }
    }
    join_types(store, alloc, parents, items)
}

/// Returns the result of an index on a member. `literal` is the index if it is an int literal.
pub(crate) fn index_offer<S: TypeStore>(
    store: &mut S,
    alloc: Global,
    parents: &Parents,
    literal: Option<usize>,
    member: &S::Ty,
) -> Result<Offer<S::Ty>, OutOfMemory>
    requires { S.has store.old member.now }
    ensures value { IfOk result
        (λ o. IsOffer S.has S.tree store.new o (index_member parents.now literal (S.tree member.now))) }
    ensures kept { KeepsTypes S.has store.old store.new }
{
    let gives = match store.head(member) {
        Head::List => store.part(alloc, member, 0)?,
        Head::Str => store.str(alloc)?,
        Head::Tuple(_) => {
            let items = store.parts(alloc, member)?;
            tuple_item(store, alloc, parents, literal, &items)?
        }
        Head::Dict => {
            let takes = store.part(alloc, member, 0)?;
            let gives = store.part(alloc, member, 1)?;
            return Ok(Offer {
                found: None,
                gives,
                takes: Some(takes),
            });
        }
        Head::Any => return with_code(store, alloc, Code::A3),
        _ => return with_code(store, alloc, Code::E16),
    };
    let takes = store.int(alloc)?;
    Ok(Offer {
        found: None,
        gives,
        takes: Some(takes),
    })
}

/// Returns the result of reading an attribute on a member: a field gives its type; a method is no value (E20).
pub(crate) fn attribute_offer<S: TypeStore>(
    store: &mut S,
    alloc: Global,
    classes: &ClassTable<S::Ty>,
    name: &str,
    member: &S::Ty,
) -> Result<Offer<S::Ty>, OutOfMemory>
    requires member { S.has store.old member.now }
    requires classes { HasEntries (S.has store.old) classes.now }
    ensures value { IfOk result
        (λ o. IsOffer S.has S.tree store.new o
        (attribute_member (classes_with S.tree classes.now) name.now (S.tree member.now))) }
    ensures kept { KeepsTypes S.has store.old store.new }
{
    let class = match store.head(member) {
        Head::Class(class) => class,
        Head::Any => return with_code(store, alloc, Code::A4),
        _ => return with_code(store, alloc, Code::E15),
    };
    if let Some(field) = classes.field(class, name) {
        let gives = store.copy(alloc, &field.ty)?;
        return Ok(Offer {
            found: None,
            gives,
            takes: None,
        });
    }
    match classes.method(class, name) {
        Some(_) => with_code(store, alloc, Code::E20),
        None => with_code(store, alloc, Code::E15),
    }
}
