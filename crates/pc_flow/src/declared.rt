//! The declared types of a function's locals.

ghost use Rattle.std.specs.Prelude.{◌≡◌, List, Option, Some, None, IfOk, replicate, slice_set, slice_index_or};
ghost use Rattle.std.specs.Option.{option_copied};

use crate::locals::{no_types, set_type, type_of};
use pc_source::OutOfMemory;
use std::alloc::Global;
use std::marker::Model;

/// The declared type of each local of a function, by number, or none while it is unknown. The environments of the
/// function share this table, which is filled as the text is read. Contracts see it as that list.
///
/// Own rule of the profile.
#[derive(Drop)]
pub struct DeclaredTypes<Ty: Drop> {
    types: Vec<Option<Ty>>,
}

impl<Ty: Drop> Model for DeclaredTypes<Ty> {
    ghost Value = { List (Option Ty) };

    ghost view = { λ d. d.types.items };
}

impl<Ty: Drop> DeclaredTypes<Ty> {
    /// Returns a table for this many locals, with no declared type known.
    pub fn new(alloc: Global, locals: usize) -> Result<DeclaredTypes<Ty>, OutOfMemory>
        ensures { IfOk result (λ d. d ≡ replicate locals None) }
    {
        Ok(DeclaredTypes {
            types: no_types(alloc, locals)?,
        })
    }

    /// Returns the declared types by the numbers of the locals.
    pub(crate) fn types(&self) -> &[Option<Ty>]
        ensures { result.now ≡ self.now }
    {
        &self.types
    }

    /// Returns the declared type of a local, or `None` if it is unknown or there is no local with this number.
    pub fn declared(&self, local: usize) -> Option<&Ty>
        ensures { option_copied result ≡ slice_index_or self.now local None }
    {
        type_of(&self.types, local)
    }

    /// Declares a local: it has this declared type from now on. Does nothing if there is no local with this number.
    pub fn declare(&mut self, local: usize, ty: Ty)
        ensures { self.new ≡ slice_set self.old local (Some ty) }
    {
        set_type(&mut self.types, local, ty);
    }
}
