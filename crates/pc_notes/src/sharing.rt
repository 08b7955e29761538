//! Noted types; equal types are shared.

ghost use Rattle.std.specs.Prelude.{◌≡◌, IfOk, IsTrue, OnOk};
ghost use Rattle.std.specs.Rc.{rc_str_bytes};
ghost use Rattle.pc_types.specs.Boxed.{IsGiven, tree_of};
ghost use Rattle.pc_annotations.specs.Named.{named_module};
ghost use Rattle.pc_annotations.specs.Text.{type_text};
ghost use Rattle.pc_notes.specs.Notes.{IsGivenType, shared_tree};
ghost use Rattle.pc_notes.specs.Texts.{HaveTexts};

use pc_annotations::{ClassNames, named_text};
use pc_source::OutOfMemory;
use pc_types::{BoxStore, BoxType, TypeStore, is_same};
use std::alloc::Global;
use std::collections::BTreeMap;
use std::rc::{Rc, RcStr};

/// Returns true only if two types are equal, as the proofs about shared types use it.
fn is_equal_type(s: &BoxType, t: &BoxType) -> bool
    ensures { IsTrue result → tree_of s.now ≡ tree_of t.now }
{
    is_same(s, t)
}

/// A noted type, and the mark that its store gave it, by which equal ones are found. Notes share it.
#[derive(Drop)]
pub(crate) struct SharedType {
    pub(crate) mark: usize,
    pub(crate) ty: BoxType,
}

/// Types that may be shared: of each mark the one that was last asked for.
#[derive(Drop)]
pub(crate) struct SharedTypes {
    known: BTreeMap<usize, Rc<SharedType>>,
}

impl SharedTypes {
    /// No types.
    pub(crate) fn new(alloc: Global) -> SharedTypes {
        SharedTypes {
            known: BTreeMap::new(alloc),
        }
    }

    /// A type of a store, shared with the one that was last asked for of its mark, where they are equal.
    pub(crate) fn shared<S: TypeStore>(
        &mut self,
        store: &S,
        alloc: Global,
        ty: &S::Ty,
    ) -> Result<Rc<SharedType>, OutOfMemory>
        requires { S.has store.now ty.now }
        ensures given { IfOk result IsGivenType }
        ensures value { IfOk result (λ t. shared_tree t ≡ S.tree ty.now) }
    {
        let mark = store.mark(ty);
        let tree = store.boxed(ty);
        if let Some(known) = self.known.get(&mark) {
            if is_equal_type(&known.ty, tree) {
                return Ok(known.clone()?);
            }
        }
        let ty = BoxStore::new().copy(alloc, tree)?;
        let shared = Rc::new(alloc, SharedType { mark, ty })?;
        self.known.insert(mark, shared.clone()?)?;
        Ok(shared)
    }
}

/// A type, and its text.
#[derive(Drop)]
pub(crate) struct NamedType {
    shared: Rc<SharedType>,
    text: RcStr,
}

/// The text of a shared type: the known one of its mark, where that is of an equal type.
pub(crate) fn shared_text(
    known: &mut BTreeMap<usize, NamedType>,
    alloc: Global,
    names: &ClassNames<'_>,
    shared: &Rc<SharedType>,
) -> Result<RcStr, OutOfMemory>
    requires given { IsGivenType shared.now }
    requires named { HaveTexts (named_module names.now) known.old }
    ensures text { IfOk result (λ t. rc_str_bytes t ≡ type_text (named_module names.now) (shared_tree shared.now)) }
    ensures named { OnOk result (HaveTexts (named_module names.now) known.new) }
{
    if let Some(named) = known.get(&shared.mark) {
        if is_equal_type(&named.shared.ty, &shared.ty) {
            return Ok(named.text.clone()?);
        }
    }
    let text = RcStr::from_string(named_text(&BoxStore::new(), alloc, names, &shared.ty)?)?;
    let named = NamedType {
        shared: shared.clone()?,
        text: text.clone()?,
    };
    known.insert(shared.mark, named)?;
    Ok(text)
}
