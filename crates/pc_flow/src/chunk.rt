//! Chunks of locals, which environments share.

ghost use Rattle.std.specs.Prelude.{◌≡◌, ◌≤◌, ◌+◌, ◌/◌, Option, None, All, IfOk, OnOk, OnErr, length, replicate};
ghost use Rattle.std.specs.Prelude.{slice_set, slice_index_or};
ghost use Rattle.std.specs.Option.{option_copied, option_map};
ghost use Rattle.std.specs.Rc.{rc_value};

use crate::locals::no_types;
use pc_source::OutOfMemory;
use std::alloc::{AllocError, Global};
use std::marker::Model;
use std::rc::Rc;

/// The current types of some consecutive locals. Chunks share the types. Contracts see a chunk as their list.
#[derive(Drop)]
pub(crate) struct Chunk<Ty: Drop> {
    types: Vec<Option<Rc<Ty>>>,
}

impl<Ty: Drop> Model for Chunk<Ty> {
    ghost use Rattle.std.specs.Prelude.{List, Option};
    ghost use Rattle.std.specs.Rc.{rc_value};
    ghost use Rattle.pc_flow.specs.Chunks.{chunk_types};

    ghost Value = { List (Option Ty) };

    ghost view = { λ c. chunk_types rc_value c.types.items };
}

impl<Ty: Drop> Clone for Chunk<Ty> {
    ghost is_clone = { λ chunk copy. copy ≡ chunk };

    fn clone(&self) -> Result<Chunk<Ty>, AllocError> {
        Ok(Chunk {
            types: self.types.clone()?,
        })
    }
}

impl<Ty: Drop> Chunk<Ty> {
    /// Returns a chunk of this many locals, none of them assigned.
    fn empty(alloc: Global, width: usize) -> Result<Chunk<Ty>, OutOfMemory>
        ensures { IfOk result (λ c. c ≡ replicate width None) }
    {
        Ok(Chunk {
            types: no_types(alloc, width)?,
        })
    }

    /// Returns the current type of a local, or `None` if it is not assigned or there is no local with this number.
    pub(crate) fn get(&self, local: usize) -> Option<&Ty>
        ensures { option_copied result ≡ slice_index_or self.now local None }
    {
        if local < self.types.len() {
            match &self.types[local] {
                None => None,
                Some(ty) => Some(ty.as_ref()),
            }
        } else {
            None
        }
    }

    /// Sets the current type of a local; with `None` the local is not assigned. Does nothing if there is no local with
    /// this number.
    fn set(&mut self, local: usize, ty: Option<Rc<Ty>>)
        ensures { self.new ≡ slice_set self.old local (option_map rc_value ty) }
    {
        if local < self.types.len() {
            self.types[local] = ty;
        }
    }
}

/// Returns the number of locals in a chunk: about as many as there are chunks, so that both a copy of an environment
/// and a change of one local are cheap.
pub(crate) fn chunk_width(locals: usize) -> usize
    ensures { 1 ≤ result }
{
    let mut width = 1;
    while width < locals / width {
        width *= 2;
    }
    width
}

/// Returns enough chunks of this width for these locals. None of the locals is assigned.
pub(crate) fn empty_chunks<Ty: Drop>(
    alloc: Global,
    locals: usize,
    width: usize,
) -> Result<Vec<Rc<Chunk<Ty>>>, OutOfMemory>
    requires { 1 ≤ width }
    ensures empty { IfOk result (λ chunks. All (λ c. rc_value c ≡ replicate width None) chunks.items) }
    ensures enough { IfOk result (λ chunks. length chunks.items ≡ locals / width + 1) }
{
    let empty = Rc::new(alloc, Chunk::empty(alloc, width)?)?;
    let mut chunks = Vec::new(alloc);
    while chunks.len() <= locals / width {
        chunks.push(empty.clone()?)?;
    }
    Ok(chunks)
}

/// Returns a current type in a form that chunks can share, if there is one.
fn shared<Ty: Drop>(alloc: Global, ty: Option<Ty>) -> Result<Option<Rc<Ty>>, OutOfMemory>
    ensures { IfOk result (λ shared. option_map rc_value shared ≡ ty) }
{
    match ty {
        None => Ok(None),
        Some(ty) => Ok(Some(Rc::new(alloc, ty)?)),
    }
}

/// Sets the current type of a local of a chunk; with `None` the local is not assigned. Others that share the chunk keep
/// theirs. A failure changes nothing.
pub(crate) fn set_in<Ty: Drop>(
    chunk: &mut Rc<Chunk<Ty>>,
    alloc: Global,
    local: usize,
    ty: Option<Ty>,
) -> Result<(), OutOfMemory>
    ensures set { OnOk result (rc_value chunk.new ≡ slice_set (rc_value chunk.old) local ty) }
    ensures unchanged { OnErr result (rc_value chunk.new ≡ rc_value chunk.old) }
{
    let ty = shared(alloc, ty)?;
    let own = Rc::make_mut(chunk)?;
    own.set(local, ty);
    Ok(())
}
