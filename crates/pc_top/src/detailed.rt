//! The check of bytes with the details of its findings.

ghost use Rattle.std.specs.Prelude.{◌≡◌, length, map, IfOk, IfErr};
ghost use Rattle.std.specs.List.{AllByRecursion};
ghost use Rattle.pc_source.specs.Answers.{OnRefusal};
ghost use Rattle.pc_source.specs.Within.{IsWithin};
ghost use Rattle.pc_tree.specs.Tree.{module_of};
ghost use Rattle.pc_scope.specs.ModuleScopes.{AreScopes};
ghost use Rattle.pc_notes.specs.Notes.{notes_of};
ghost use Rattle.pc_front.specs.Bytes.{IsModuleOf, IsRefusalOf};
ghost use Rattle.pc_detail_texts.specs.Places.{other_places};
ghost use Rattle.pc_detail_texts.specs.Shown.{detail_of_value};
ghost use Rattle.pc_report.specs.Report.{IsInOrder, row_findings};
ghost use Rattle.pc_details.specs.Listed.{FindingsDiffer, IsMade, details_told, listed_of};
ghost use Rattle.pc_top.specs.DetailedBytes.{DetailedHeadline, ExplainsFinding, HasOtherPositions, details_in, start_position};
ghost use Rattle.pc_top.specs.Headline.{Headline};

use crate::checking::findings;
use crate::types::{classes_alone, notes_with_types};
use pc_detail_texts::{Detail, other_places};
use pc_details::{DetailedFinding, details_of};
use pc_front::parse_source;
use pc_notes::Notes;
use pc_report::{Report, Row, line_and_column};
use pc_scope::{Scopes, scopes};
use pc_source::{Fault, OutOfMemory, Source, read_source};
use pc_tree::{Finding, Module};
use pc_types::BoxStore;
use std::alloc::Global;

/// A detail of a finding, with the lines and columns of the other places that it names.
#[derive(Drop)]
pub struct PlacedDetail {
    pub detailed: DetailedFinding,
    pub others: Vec<(u64, u64)>,
}

/// A report, and the details of its findings, in the order of the rows.
#[derive(Drop)]
pub struct DetailedReport {
    pub(crate) report: Report,
    pub(crate) details: Vec<PlacedDetail>,
}

impl DetailedReport {
    /// Returns the report.
    pub fn report(&self) -> &Report
        ensures { result.now ≡ self.now.report }
    {
        &self.report
    }

    /// Returns the details, in the order of the rows.
    pub fn details(&self) -> &[PlacedDetail]
        ensures { result.now ≡ self.now.details.items }
    {
        &self.details
    }

    /// Returns the report without the details.
    pub(crate) fn into_report(self) -> Report
        ensures { result ≡ self.report }
    {
        let DetailedReport { report, details } = self;
        drop(details);
        report
    }
}

/// Returns the details of findings of a module, which differ, by the notes of a walk that keeps types.
fn noted_details(
    alloc: Global,
    module: &Module,
    scopes: &Scopes,
    notes: &Notes,
    found: &[Finding],
) -> Result<Vec<DetailedFinding>, OutOfMemory>
    requires { AreScopes (module_of «module».now) scopes.now }
    ensures right { IfOk result (λ v. AllByRecursion
        (IsMade (module_of «module».now) (notes_of notes.now) found.now) v.items) }
    ensures whole { FindingsDiffer found.now → IfOk result (λ v. map listed_of v.items
        ≡ details_told (module_of «module».now) (notes_of notes.now) found.now) }
{
    let mut store = BoxStore::new();
    let classes = classes_alone(&mut store, alloc, module, scopes)?;
    let details = details_of(alloc, module, scopes, &classes, notes, found);
    // Proofs take long where a table goes out of scope.
    drop(classes);
    details
}

/// Returns the details of findings of a module, which differ.
pub(crate) fn module_details(
    alloc: Global,
    module: &Module,
    found: &[Finding],
) -> Result<Vec<DetailedFinding>, OutOfMemory>
    ensures right { IfOk result (λ v. AllByRecursion (ExplainsFinding (module_of «module».now) found.now) v.items) }
    ensures whole { FindingsDiffer found.now
        → IfOk result (λ v. map listed_of v.items ≡ details_in (module_of «module».now) found.now) }
{
    let scopes = scopes(alloc, module)?;
    let notes = notes_with_types(alloc, module, &scopes)?;
    noted_details(alloc, module, &scopes, &notes, found)
}

/// Returns the lines and columns of the places that a detail names beside that of its finding.
fn places_beside(
    alloc: Global,
    source: &Source,
    detail: &Detail,
) -> Result<Vec<(u64, u64)>, OutOfMemory>
    ensures { IfOk result (λ v. v.items ≡ map (start_position source.now) (other_places (detail_of_value detail.now))) }
{
    let places = other_places(alloc, detail)?;
    let mut positions = Vec::new(alloc);
    for place in &places {
        positions.push(line_and_column(source, place.start))?;
    }
    Ok(positions)
}

/// Returns a detail with the lines and columns of the other places that it names.
fn with_places(
    alloc: Global,
    source: &Source,
    detailed: DetailedFinding,
) -> Result<PlacedDetail, OutOfMemory>
    ensures detail { IfOk result (λ p. p.detailed ≡ detailed) }
    ensures placed { IfOk result (HasOtherPositions source.now) }
{
    match places_beside(alloc, source, &detailed.detail) {
        Ok(others) => Ok(PlacedDetail { detailed, others }),
        Err(fault) => {
            // Proofs take long where a detail goes out of scope.
            drop(detailed);
            Err(fault)
        }
    }
}

/// Returns details with the lines and columns of the other places that they name.
pub(crate) fn placed(
    alloc: Global,
    source: &Source,
    details: Vec<DetailedFinding>,
) -> Result<Vec<PlacedDetail>, OutOfMemory>
    ensures details { IfOk result (λ v. map (λ p. p.detailed) v.items ≡ details.items) }
    ensures placed { IfOk result (λ v. AllByRecursion (HasOtherPositions source.now) v.items) }
{
    let mut placed = Vec::new(alloc);
    for detailed in details {
        placed.push(with_places(alloc, source, detailed)?)?;
    }
    Ok(placed)
}

/// Returns the findings of rows, in their order.
pub(crate) fn findings_of_rows(alloc: Global, rows: &[Row]) -> Result<Vec<Finding>, OutOfMemory>
    ensures { IfOk result (λ v. v.items ≡ row_findings rows.now) }
{
    let mut found = Vec::new(alloc);
    for row in rows {
        found.push(row.finding)?;
    }
    Ok(found)
}

/// Returns the details of the findings of a report of a module, in the order of the rows.
fn report_details(
    alloc: Global,
    source: &Source,
    module: &Module,
    report: &Report,
) -> Result<Vec<PlacedDetail>, OutOfMemory>
    ensures right { IfOk result (λ v. AllByRecursion
        (ExplainsFinding (module_of «module».now) (row_findings report.now)) (map (λ p. p.detailed) v.items)) }
    ensures whole { IsInOrder (row_findings report.now) → IfOk result (λ v. map listed_of (map (λ p. p.detailed) v.items)
        ≡ details_in (module_of «module».now) (row_findings report.now)) }
    ensures placed { IfOk result (λ v. AllByRecursion (HasOtherPositions source.now) v.items) }
{
    let found = findings_of_rows(alloc, report.rows())?;
    let details = module_details(alloc, module, &found)?;
    placed(alloc, source, details)
}

/// Returns the report of the module that a source spells.
pub(crate) fn module_report(
    alloc: Global,
    source: &Source,
    module: &Module,
) -> Result<Report, OutOfMemory>
    requires { IsModuleOf source.now (module_of «module».now) }
    ensures { IfOk result (Headline source.now) }
{
    let checked = findings(alloc, module)?;
    let found = checked.found(alloc, module)?;
    // The report is made in the memory that the notes occupied.
    drop(checked);
    let report = Report::of(alloc, source, &found.findings, &found.flows)?;
    Ok(report)
}

/// Returns the report of the module that a source spells, with details of its findings.
fn detailed_report(
    alloc: Global,
    source: &Source,
    module: &Module,
) -> Result<DetailedReport, OutOfMemory>
    requires { IsModuleOf source.now (module_of «module».now) }
    ensures { IfOk result (DetailedHeadline source.now) }
{
    let report = module_report(alloc, source, module)?;
    let details = report_details(alloc, source, module, &report)?;
    Ok(DetailedReport { report, details })
}

/// Checks the module that the bytes spell like `check`, and returns its report with details of its findings.
///
/// Each detail is that of the module's one lawful labelling, of its scopes or of its tree, by the definition of the
/// finding's code; each finding that has a detail is given it.
///
/// # Errors
///
/// `Refused` exactly if the bytes spell no module, with their refusal; `OutOfMemory` only if an allocation failed.
pub fn check_explained(alloc: Global, bytes: &[u8]) -> Result<DetailedReport, Fault>
    ensures headline { IfOk result (DetailedHeadline bytes.now) }
    ensures refused { IfErr result (OnRefusal (IsRefusalOf bytes.now)) }
    ensures within { IfErr result (IsWithin (length bytes.now)) }
{
    let source = read_source(alloc, bytes)?;
    let module = parse_source(alloc, &source)?;
    let detailed = detailed_report(alloc, &source, &module)?;
    Ok(detailed)
}
