//! Types copied from one store into another.

ghost use Rattle.std.specs.Prelude.{◌≡◌, IfOk, All, map, length};
ghost use Rattle.pc_types.specs.Shape.{parts};
ghost use Rattle.pc_types.specs.Head.{part_count};
ghost use Rattle.pc_types.specs.Normal.{IsNormal};
ghost use Rattle.pc_types.specs.Store.{Means, MeansWithin, KeepsTypes};
ghost use Rattle.pc_types.specs.Internal.Rebuilding.{rebuilt};

use pc_source::OutOfMemory;
use pc_types::{Head, TypeStore};
use std::alloc::Global;

/// Returns the type of a store with this head and these parts, or `None` if it has over 256 nodes.
fn rebuild<T: TypeStore>(
    store: &mut T,
    alloc: Global,
    head: Head,
    parts: &[T::Ty],
) -> Result<Option<T::Ty>, OutOfMemory>
    requires held { All (T.has store.old) parts.now }
    requires count { length parts.now ≡ part_count head }
    requires normal { IsNormal (rebuilt head (map T.tree parts.now)) }
    ensures value { IfOk result (λ t. MeansWithin T.has T.tree store.new t (rebuilt head (map T.tree parts.now))) }
    ensures kept { KeepsTypes T.has store.old store.new }
{
    let made = match head {
        Head::Any => store.any(alloc)?,
        Head::Object => store.object(alloc)?,
        Head::Never => store.never(alloc)?,
        Head::Int => store.int(alloc)?,
        Head::Bool => store.bool(alloc)?,
        Head::Str => store.str(alloc)?,
        Head::None => store.none(alloc)?,
        Head::Class(number) => store.class(alloc, number)?,
        Head::List => return store.list(alloc, &parts[0]),
        Head::Dict => return store.dict(alloc, &parts[0], &parts[1]),
        Head::Tuple(_) => return store.tuple(alloc, parts),
        Head::Union(_) => return store.union(alloc, parts),
    };
    Ok(Some(made))
}

/// Returns the type of a second store with the same meaning as a type of a first.
pub fn transfer<S: TypeStore, T: TypeStore>(
    from: &S,
    into: &mut T,
    alloc: Global,
    ty: &S::Ty,
) -> Result<T::Ty, OutOfMemory>
    requires { S.has from.now ty.now }
    ensures value { IfOk result (λ t. Means T.has T.tree into.new t (S.tree ty.now)) }
    ensures kept { KeepsTypes T.has into.old into.new }
{
    let parts = from.parts(alloc, ty)?;
    let mut taken = Vec::new(alloc);
    for part in &parts {
        taken.push(transfer(from, into, alloc, part)?)?;
    }
    let Some(made) = rebuild(into, alloc, from.head(ty), &taken)? else {
        // A type that a store gave is within the limit of nodes.
        unreachable!()
    };
    Ok(made)
}
