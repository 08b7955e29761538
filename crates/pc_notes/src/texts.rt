//! The texts of noted types.

ghost use Rattle.std.specs.Prelude.{◌≡◌, IfOk, List, OnOk, option_map};
ghost use Rattle.std.specs.Rc.{rc_str_bytes};
ghost use Rattle.pc_tree.specs.declared.code.Code.{Code as RustCode};
ghost use Rattle.pc_annotations.specs.Named.{named_module};
ghost use Rattle.pc_annotations.specs.Text.{type_text};
ghost use Rattle.pc_notes.specs.Notes.{IsGivenBound, Note, shared_tree};
ghost use Rattle.pc_notes.specs.Texts.{AreFlowTexts, HasFirstFlows, HasGivenFlows, HaveTexts};

use crate::notes::{BoundTypes, NotedFlow};
use crate::sharing::{NamedType, shared_text};
use pc_annotations::ClassNames;
use pc_source::{OutOfMemory, Place};
use std::alloc::Global;
use std::collections::BTreeMap;
use std::rc::RcStr;

/// Returns the texts of the declared type of a bound name, and of its current one, if it has a value.
pub(crate) fn texts_of_bound(
    known: &mut BTreeMap<usize, NamedType>,
    alloc: Global,
    names: &ClassNames<'_>,
    types: &BoundTypes,
) -> Result<(RcStr, Option<RcStr>), OutOfMemory>
    requires given { IsGivenBound types.now }
    requires named { HaveTexts (named_module names.now) known.old }
    ensures declared { IfOk result (λ t. rc_str_bytes t.0
        ≡ type_text (named_module names.now) (shared_tree types.now.declared)) }
    ensures current { IfOk result (λ t. option_map rc_str_bytes t.1
        ≡ option_map (type_text (named_module names.now)) (option_map shared_tree types.now.current)) }
    ensures named { OnOk result (HaveTexts (named_module names.now) known.new) }
{
    let declared = shared_text(known, alloc, names, &types.declared)?;
    let current = match &types.current {
        None => None,
        Some(ty) => Some(shared_text(known, alloc, names, ty)?),
    };
    Ok((declared, current))
}

/// Returns the flows of a map in the order of their places, with the texts of their types.
pub(crate) fn texts_of(
    alloc: Global,
    names: &ClassNames<'_>,
    flows: &BTreeMap<Place, &NotedFlow>,
) -> Result<Vec<(Place, RcStr, RcStr)>, OutOfMemory>
    requires { HasGivenFlows flows.now }
    ensures { IfOk result (λ v. (code : RustCode) (notes : List Note) → HasFirstFlows code notes flows.now
        → AreFlowTexts (named_module names.now) code notes v.items) }
{
    let mut known = BTreeMap::new(alloc);
    let mut texts = Vec::with_capacity(alloc, flows.len())?;
    for entry in flows.iter() {
        let (place, flow) = entry;
        let from = shared_text(&mut known, alloc, names, &flow.from)?;
        let into = shared_text(&mut known, alloc, names, &flow.into)?;
        texts.push((*place, from, into))?;
    }
    Ok(texts)
}
