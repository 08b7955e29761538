//! The types of a field on all members of a type. Of a large union nothing else need be kept where each member has the
//! field.

ghost use Rattle.std.specs.Prelude.{◌≡◌, [], All, IfOk, IfSome, map};
ghost use Rattle.pc_types.specs.Shape.{members};
ghost use Rattle.pc_types.specs.Store.{KeepsTypes};
ghost use Rattle.pc_class.specs.Tables.{HasEntries, classes_with};
ghost use Rattle.pc_flow.specs.Environment.{join_all};
ghost use Rattle.pc_rules.specs.Operations.{attribute_member, clean, supported};
ghost use Rattle.pc_rules.specs.Computed.Standing.{MeansLabel};

use crate::kinds::is_single;
use crate::members::join_types;
use pc_class::ClassTable;
use pc_rules::Label;
use pc_source::OutOfMemory;
use pc_types::{Head, Parents, TypeStore};
use std::alloc::Global;

/// The type of the field of a name on a member, if the member has that field.
fn field_type<S: TypeStore>(
    store: &S,
    alloc: Global,
    classes: &ClassTable<S::Ty>,
    name: &str,
    member: &S::Ty,
) -> Result<Option<S::Ty>, OutOfMemory>
    requires member { S.has store.now member.now }
    requires classes { HasEntries (S.has store.now) classes.now }
    ensures held { IfOk result (λ o. IfSome o (S.has store.now)) }
    ensures value { IfOk result (λ o. IfSome o (λ t.
        supported (S.tree t) [] ≡ attribute_member (classes_with S.tree classes.now) name.now (S.tree member.now))) }
{
    let Head::Class(class) = store.head(member) else {
        return Ok(None);
    };
    match classes.field(class, name) {
        Some(field) => Ok(Some(store.copy(alloc, &field.ty)?)),
        None => Ok(None),
    }
}

/// The types of the field of a name on the members of a union, in order, if each member has that field.
pub(crate) fn field_types<S: TypeStore>(
    store: &S,
    alloc: Global,
    classes: &ClassTable<S::Ty>,
    name: &str,
    ty: &S::Ty,
) -> Result<Option<Vec<S::Ty>>, OutOfMemory>
    requires ty { S.has store.now ty.now }
    requires classes { HasEntries (S.has store.now) classes.now }
    ensures held { IfOk result (λ o. IfSome o (λ ts. All (S.has store.now) ts.items)) }
    ensures value { IfOk result (λ o. IfSome o (λ ts. map (λ t. supported (S.tree t) []) ts.items
        ≡ map (attribute_member (classes_with S.tree classes.now) name.now) (members (S.tree ty.now)))) }
{
    if is_single(store, ty) {
        return Ok(None);
    }
    let members = store.members(alloc, ty)?;
    let mut types = Vec::with_capacity(alloc, members.len())?;
    for i in 0..members.len() {
        match field_type(store, alloc, classes, name, &members[i])? {
            Some(ty) => types.push(ty)?,
            None => return Ok(None),
        }
    }
    Ok(Some(types))
}

/// The label of an attribute where nothing is found, of the types that it has on the members: their join.
pub(crate) fn fields_label<S: TypeStore>(
    store: &mut S,
    alloc: Global,
    parents: &Parents,
    types: &[S::Ty],
) -> Result<Label<S::Ty>, OutOfMemory>
    requires { All (S.has store.old) types.now }
    ensures value { IfOk result
        (λ l. MeansLabel S.has S.tree store.new l (clean (join_all parents.now (map S.tree types.now)))) }
    ensures kept { KeepsTypes S.has store.old store.new }
{
    let ty = join_types(store, alloc, parents, types)?;
    let codes = Vec::new(alloc);
    Ok(Label { ty, codes })
}
