//! The texts of explained flows.

ghost use Rattle.std.specs.Prelude.{IfOk, option_map, box_value};
ghost use Rattle.pc_report.specs.Flows.{IsExplained, HasFlows};

use pc_source::{OutOfMemory, Place};
use pc_tree::{Code, Finding};
use std::alloc::Global;
use std::collections::BTreeMap;
use std::rc::RcStr;

/// The texts of the two types of a flow: the value's type, and the type it flows into. Flows may share texts.
#[derive(Debug, Drop, PartialEq, Eq)]
pub struct FlowTexts {
    pub from: RcStr,
    pub to: RcStr,
}

/// Returns a map from each place to a flow of the list at that place.
pub(crate) fn by_place<'a>(
    alloc: Global,
    flows: &'a [(Place, RcStr, RcStr)],
) -> Result<BTreeMap<Place, &'a (Place, RcStr, RcStr)>, OutOfMemory>
    ensures { IfOk result (λ m. HasFlows flows.now m) }
{
    let mut map = BTreeMap::new(alloc);
    for flow in flows {
        map.insert(flow.0, flow)?;
    }
    Ok(map)
}

/// Returns the texts of a finding's flow; `None` if the finding is no flow through `Any`, or no flow is given at its
/// place.
pub(crate) fn texts_of(
    alloc: Global,
    finding: Finding,
    flows: &BTreeMap<Place, &(Place, RcStr, RcStr)>,
) -> Result<Option<Box<FlowTexts>>, OutOfMemory>
    ensures { IfOk result (λ t. (listed : _) → HasFlows listed flows.now
        → IsExplained listed finding (option_map box_value t)) }
{
    if finding.code != Code::A1 {
        return Ok(None);
    }
    match flows.get(&finding.place) {
        None => Ok(None),
        Some((_, from, to)) => {
            let texts = FlowTexts {
                from: from.clone()?,
                to: to.clone()?,
            };
            Ok(Some(Box::new(alloc, texts)?))
        }
    }
}
