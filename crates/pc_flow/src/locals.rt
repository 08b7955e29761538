//! Types of locals, by their numbers.

ghost use Rattle.std.specs.Prelude.{◌≡◌, Some, None, IfOk, replicate, slice_set, slice_index_or};
ghost use Rattle.std.specs.Option.{option_copied};

use pc_source::OutOfMemory;
use std::alloc::Global;

/// Returns a list for this many locals, none with a type.
pub(crate) fn no_types<Ty: Drop>(
    alloc: Global,
    locals: usize,
) -> Result<Vec<Option<Ty>>, OutOfMemory>
    ensures { IfOk result (λ types. types.items ≡ replicate locals None) }
{
    let mut types = Vec::new(alloc);
    while types.len() < locals {
        types.push(None)?;
    }
    Ok(types)
}

/// Returns the type of a local, or `None` if it has none or there is no local with this number.
pub(crate) fn type_of<Ty: Drop>(types: &[Option<Ty>], local: usize) -> Option<&Ty>
    ensures { option_copied result ≡ slice_index_or types.now local None }
{
    types.get(local)?.as_ref()
}

/// Gives a local a type. Does nothing if there is no local with this number.
pub(crate) fn set_type<Ty: Drop>(types: &mut [Option<Ty>], local: usize, ty: Ty)
    ensures { types.new ≡ slice_set types.old local (Some ty) }
{
    if local < types.len() {
        types[local] = Some(ty);
    }
}
