//! Details that are found by a walk over the names and the statements of a module.

ghost use Rattle.std.specs.Prelude.{◌≡◌, None, OnOk, IfOk, Some, option_map};
ghost use Rattle.std.specs.BTreeMap.{Updates};
ghost use Rattle.std.specs.List.{list_any};
ghost use Rattle.pc_tree.specs.Code.{finding};
ghost use Rattle.pc_tree.specs.declared.code.Finding.{Finding as FindingOf};
ghost use Rattle.pc_detail_texts.specs.Shown.{detail_of_value, rule_fault_of_value};
ghost use Rattle.pc_name_details.specs.Offered.{KeepsDetail, finding_cmp, is_still_open, is_same_finding, is_wanted, kept_of};

use pc_detail_texts::{Detail, RuleFault};
use pc_source::{OutOfMemory, Place};
use pc_tree::{Code, Finding};
use std::alloc::Global;
use std::collections::BTreeMap;

/// The findings that are asked for, and the first detail of each.
#[derive(Drop)]
pub struct Offers {
    wanted: BTreeMap<Finding, ()>,
    kept: BTreeMap<Finding, Detail>,
}

/// Puts a value at a finding, in place of an earlier one.
fn put<V: Drop>(
    values: &mut BTreeMap<Finding, V>,
    finding: Finding,
    value: V,
) -> Result<(), OutOfMemory>
    ensures { OnOk result (Updates finding_cmp values.old values.new finding (Some value)) }
{
    values.insert(finding, value)?;
    Ok(())
}

impl Offers {
    /// Returns no details yet of these findings.
    pub fn of(alloc: Global, findings: &[Finding]) -> Result<Offers, OutOfMemory>
        ensures wanted { IfOk result (λ o. (finding : FindingOf)
            → is_wanted o finding ≡ list_any (is_same_finding finding) findings.now) }
        ensures kept { IfOk result (λ o. (finding : FindingOf) → kept_of o finding ≡ None) }
    {
        let mut wanted = BTreeMap::new(alloc);
        for finding in findings {
            wanted.insert(*finding, ())?;
        }
        let kept = BTreeMap::new(alloc);
        Ok(Offers { wanted, kept })
    }

    /// Returns whether a finding with this code at a place is asked for and has no detail yet.
    pub(crate) fn wants(&self, code: Code, place: Place) -> bool
        ensures { result ≡ is_still_open self.now (finding place code) }
    {
        let finding = Finding { place, code };
        self.wanted.contains_key(&finding) && !self.kept.contains_key(&finding)
    }

    /// Keeps the detail of a finding.
    pub(crate) fn keep(
        &mut self,
        code: Code,
        place: Place,
        fault: RuleFault,
    ) -> Result<(), OutOfMemory>
        ensures { OnOk result (KeepsDetail (finding place code) (rule_fault_of_value fault) self.old self.new) }
    {
        let finding = Finding { place, code };
        put(&mut self.kept, finding, Detail::Rule(fault))?;
        Ok(())
    }

    /// Takes the detail of a finding, if there is one.
    pub fn take(&mut self, finding: Finding) -> Option<Detail>
        ensures taken { option_map detail_of_value result ≡ kept_of self.old finding }
        ensures gone { kept_of self.new finding ≡ None }
        ensures others { (other : FindingOf) → ¬ (other ≡ finding) → kept_of self.new other ≡ kept_of self.old other }
    {
        self.kept.remove(&finding)
    }
}
