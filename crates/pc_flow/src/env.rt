//! Environments: the current types of a function's locals.

ghost use Rattle.std.specs.Prelude.{◌≡◌, List, Option, Some, None, IfOk, OnOk, OnErr, length, replicate, take};
ghost use Rattle.std.specs.Prelude.{slice_set, slice_index_or};
ghost use Rattle.std.specs.Option.{option_copied};

use crate::chunk::{Chunk, chunk_width, empty_chunks, set_in};
use pc_source::OutOfMemory;
use std::alloc::Global;
use std::marker::Model;
use std::rc::Rc;

/// The current type of each local of a function, by number, or none if it is not assigned. Contracts see it as that
/// list. Environments share chunks of locals of equal width, so that a copy costs one pointer for each chunk.
///
/// Typing specification, "Type narrowing"; own rules of the profile.
#[derive(Drop)]
pub struct Env<Ty: Drop> {
    chunks: Vec<Rc<Chunk<Ty>>>,
    locals: usize,
    width: usize,
}

impl<Ty: Drop> Model for Env<Ty> {
    ghost use Rattle.std.specs.Prelude.{List, Option};
    ghost use Rattle.std.specs.Rc.{rc_value};
    ghost use Rattle.pc_flow.specs.Chunks.{row_types, IsRow};

    ghost Value = { List (Option Ty) };

    ghost view = { λ e. row_types rc_value e.locals e.chunks.items };

    ghost invariant = { λ e. IsRow rc_value e.width e.locals e.chunks.items };
}

impl<Ty: Drop> Env<Ty> {
    /// Returns an environment of this many locals, none of them assigned.
    pub fn new(alloc: Global, locals: usize) -> Result<Env<Ty>, OutOfMemory>
        ensures { IfOk result (λ e. e ≡ replicate locals None) }
    {
        let width = chunk_width(locals);
        let chunks = empty_chunks(alloc, locals, width)?;
        Ok(Env {
            chunks,
            locals,
            width,
        })
    }

    /// Returns a copy: the same current types.
    pub(crate) fn copied(&self, alloc: Global) -> Result<Env<Ty>, OutOfMemory>
        ensures { IfOk result (λ e. e ≡ self.now) }
    {
        Ok(Env {
            chunks: Vec::from_clones(alloc, &self.chunks)?,
            locals: self.locals,
            width: self.width,
        })
    }

    /// Returns the environment of the first `locals` locals, or of all if there are fewer.
    pub(crate) fn first(self, locals: usize) -> Env<Ty>
        ensures { result ≡ take locals self }
    {
        Env {
            locals: self.locals.min(locals),
            chunks: self.chunks,
            width: self.width,
        }
    }

    /// Returns the number of locals.
    pub(crate) fn len(&self) -> usize
        ensures { result ≡ length self.now }
    {
        self.locals
    }

    /// Returns the current type of a local, or `None` if it is not assigned or there is no local with this number.
    pub fn current(&self, local: usize) -> Option<&Ty>
        ensures { option_copied result ≡ slice_index_or self.now local None }
    {
        if local < self.locals {
            self.chunks[local / self.width].get(local % self.width)
        } else {
            None
        }
    }

    /// Sets the current type of a local; with `None` the local is not assigned. Does nothing if there is no local with
    /// this number. A failure changes nothing.
    pub(crate) fn set(
        &mut self,
        alloc: Global,
        local: usize,
        ty: Option<Ty>,
    ) -> Result<(), OutOfMemory>
        ensures set { OnOk result (self.new ≡ slice_set self.old local ty) }
        ensures unchanged { OnErr result (self.new ≡ self.old) }
    {
        if local >= self.locals {
            return Ok(());
        }
        let chunk = &mut self.chunks[local / self.width];
        set_in(chunk, alloc, local % self.width, ty)
    }

    /// Assigns a local: it has this current type from now on. Does nothing if there is no local with this number. A
    /// failure changes nothing.
    pub fn assign(&mut self, alloc: Global, local: usize, ty: Ty) -> Result<(), OutOfMemory>
        ensures assigned { OnOk result (self.new ≡ slice_set self.old local (Some ty)) }
        ensures unchanged { OnErr result (self.new ≡ self.old) }
    {
        self.set(alloc, local, Some(ty))
    }
}
