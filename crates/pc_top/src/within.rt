//! The check of bytes with the details of its findings, where there are not too many.

ghost use Rattle.std.specs.Prelude.{◌≡◌, length, map, IfOk, IfErr};
ghost use Rattle.std.specs.List.{AllByRecursion};
ghost use Rattle.pc_source.specs.Answers.{OnRefusal};
ghost use Rattle.pc_source.specs.Within.{IsWithin};
ghost use Rattle.pc_tree.specs.Tree.{module_of};
ghost use Rattle.pc_front.specs.Bytes.{IsModuleOf, IsRefusalOf};
ghost use Rattle.pc_report.specs.Report.{IsInOrder, row_findings};
ghost use Rattle.pc_details.specs.Listed.{FindingsDiffer, listed_of};
ghost use Rattle.pc_top.specs.DetailedBytes.{ExplainsFinding, HasOtherPositions, details_in};
ghost use Rattle.pc_top.specs.DetailsWithin.{DetailedWithin, told_rows};

use crate::detailed::{
    DetailedReport, PlacedDetail, findings_of_rows, module_details, module_report, placed,
};
use pc_front::parse_source;
use pc_report::{Report, Row};
use pc_source::{Fault, OutOfMemory, Source, read_source};
use pc_tree::{Finding, Module};
use std::alloc::Global;

/// Returns all rows if there are at most `limit`, else none.
fn told_rows(rows: &[Row], limit: usize) -> &[Row]
    ensures { result.now ≡ told_rows limit rows.now }
{
    if limit < rows.len() { &[] } else { rows }
}

/// Returns the details of findings of a module, which differ, with the lines and columns of the other places that they
/// name. Where there are no findings, nothing is looked up.
fn placed_details(
    alloc: Global,
    source: &Source,
    module: &Module,
    found: &[Finding],
) -> Result<Vec<PlacedDetail>, OutOfMemory>
    ensures right { IfOk result (λ v. AllByRecursion
        (ExplainsFinding (module_of «module».now) found.now) (map (λ p. p.detailed) v.items)) }
    ensures whole { FindingsDiffer found.now → IfOk result (λ v. map listed_of (map (λ p. p.detailed) v.items)
        ≡ details_in (module_of «module».now) found.now) }
    ensures placed { IfOk result (λ v. AllByRecursion (HasOtherPositions source.now) v.items) }
{
    if found.is_empty() {
        return Ok(Vec::new(alloc));
    }
    let details = module_details(alloc, module, found)?;
    placed(alloc, source, details)
}

/// Returns the details of the findings of a report of a module, in the order of its rows; none if it has more than
/// `limit` rows.
fn details_within(
    alloc: Global,
    source: &Source,
    module: &Module,
    report: &Report,
    limit: usize,
) -> Result<Vec<PlacedDetail>, OutOfMemory>
    ensures right { IfOk result (λ v. AllByRecursion (ExplainsFinding (module_of «module».now)
        (row_findings (told_rows limit report.now))) (map (λ p. p.detailed) v.items)) }
    ensures whole { IsInOrder (row_findings report.now) → IfOk result (λ v. map listed_of (map (λ p. p.detailed) v.items)
        ≡ details_in (module_of «module».now) (row_findings (told_rows limit report.now))) }
    ensures placed { IfOk result (λ v. AllByRecursion (HasOtherPositions source.now) v.items) }
{
    let found = findings_of_rows(alloc, told_rows(report.rows(), limit))?;
    placed_details(alloc, source, module, &found)
}

/// Returns the report of the module that a source spells, with the details of its findings; without them if it has more
/// than `limit` rows.
fn report_within(
    alloc: Global,
    source: &Source,
    module: &Module,
    limit: usize,
) -> Result<DetailedReport, OutOfMemory>
    requires { IsModuleOf source.now (module_of «module».now) }
    ensures { IfOk result (DetailedWithin source.now limit) }
{
    let report = module_report(alloc, source, module)?;
    let details = details_within(alloc, source, module, &report, limit)?;
    Ok(DetailedReport { report, details })
}

/// Checks the module that the bytes spell like `check_explained`, and returns its report, with the details of its findings
/// if it has at most `limit` rows, and with none otherwise. A module is walked for details only if some are returned.
///
/// # Errors
///
/// `Refused` exactly if the bytes spell no module, with their refusal; `OutOfMemory` only if an allocation failed.
pub fn check_explained_within(
    alloc: Global,
    bytes: &[u8],
    limit: usize,
) -> Result<DetailedReport, Fault>
    ensures headline { IfOk result (DetailedWithin bytes.now limit) }
    ensures refused { IfErr result (OnRefusal (IsRefusalOf bytes.now)) }
    ensures within { IfErr result (IsWithin (length bytes.now)) }
{
    let source = read_source(alloc, bytes)?;
    let module = parse_source(alloc, &source)?;
    let detailed = report_within(alloc, &source, &module, limit)?;
    Ok(detailed)
}
