//! The proved check as the checker of a session, and the answering of messages over it.

ghost use Rattle.std.specs.Prelude.{◌≡◌, List, ℕ, Option, IfOk, map, option_map, string_bytes};
ghost use Rattle.pc_tree.specs.declared.code.Finding.{Finding};
ghost use Rattle.pc_detail_texts.specs.Details.{Detail};
ghost use Rattle.pc_detail_texts.specs.Sentences.{Words};
ghost use Rattle.pc_report.specs.Report.{row_findings};
ghost use Rattle.pc_documents.specs.Said.{told_by};
ghost use Rattle.pc_top.specs.DetailsWithin.{DetailedWithin};
ghost use Rattle.pc_top.specs.PrintedDetails.{AreLeft};
ghost use Rattle.pc_message_loop.specs.Runs.{OnEnd};
ghost use Rattle.pc_checked_session.specs.Found.{flow_type_texts, shown, held_said, said_with, said_by_item, said_by_row};
ghost use Rattle.pc_checked_session.specs.Found.{told_limit, types_of_row, IsOutcomeOf, IsFoundIn};

use pc_detail_texts::{other_places, push_sentence};
use pc_documents::{CheckOutcome, Checker, FlowTypes, ReportedFinding, ToldDetail};
use pc_message_loop::{ServingEnd, serve};
use pc_source::{Counted, OutOfMemory};
use pc_top::{
    DetailedReport, PlacedDetail, Row, TypeRow, check_explained_within, next_detail, type_at,
};
use pc_tree::Code;
use std::alloc::{AllocError, Global};
use std::io::{Read, Write};

/// The proved check, as the checker of a session.
struct Proved;

/// The greatest length in bytes of a type's text that is shown. A report can have as many flows as its text has places,
/// and a type can be as long as the text, so that all of them together may exceed any memory.
const SHOWN_LIMIT: usize = 200;

/// Returns the texts of two types as a flow, or `None` if one is too long to be shown.
fn shown(alloc: Global, from: &str, to: &str) -> Result<Option<FlowTypes>, AllocError>
    ensures { IfOk result (λ flow. option_map flow_type_texts flow ≡ shown from.now to.now) }
{
    if from.len() > SHOWN_LIMIT || to.len() > SHOWN_LIMIT {
        return Ok(None);
    }
    Ok(Some(FlowTypes {
        from: String::from_str(alloc, from)?,
        to: String::from_str(alloc, to)?,
    }))
}

/// Returns the sentence of a detail of a finding with this code, and the other places that the detail names.
fn detail_of(
    alloc: Global,
    code: Code,
    held: Option<&PlacedDetail>,
) -> Result<Option<ToldDetail>, OutOfMemory>
    ensures { IfOk result (λ detail. option_map told_by detail
        ≡ option_map (held_said code) (option_map (λ p. p.now) held.entry)) }
{
    let Some(held) = held else {
        return Ok(None);
    };
    let mut sentence = String::new(alloc);
    push_sentence(&mut sentence, code, &held.detailed.detail)?;
    let others = other_places(alloc, &held.detailed.detail)?;
    Ok(Some(ToldDetail { sentence, others }))
}

/// Returns a row as an item with this detail.
fn item_of(
    alloc: Global,
    row: &Row,
    detail: Option<ToldDetail>,
) -> Result<ReportedFinding, AllocError>
    ensures { IfOk result (λ item. said_by_item item ≡ said_with (option_map told_by detail) row.now) }
{
    let flow = match &row.flow {
        None => None,
        Some(flow) => shown(alloc, flow.from.as_str(), flow.to.as_str())?,
    };
    Ok(ReportedFinding {
        finding: row.finding,
        flow,
        detail,
    })
}

/// Returns rows as items with their details, of which these are left.
fn items_of(
    alloc: Global,
    rows: &[Row],
    details: &[PlacedDetail],
) -> Result<Vec<ReportedFinding>, OutOfMemory>
    ensures { (source : List ℕ) (told : Finding → Option (Detail Words))
        → AreLeft source told (row_findings rows.now) details.now
        → IfOk result (λ v. map said_by_item v.items ≡ map (said_by_row told) rows.now) }
{
    let mut items = Vec::with_capacity(alloc, rows.len())?;
    let mut left = details;
    for row in rows {
        let (held, others) = next_detail(left, &row.finding);
        let detail = detail_of(alloc, row.finding.code, held)?;
        items.push(item_of(alloc, row, detail)?)?;
        left = others;
    }
    Ok(items)
}

/// The length in bytes up to which a text has the details of all its findings.
const WHOLE_LENGTH: usize = 262_144;

/// The greatest number of rows of a longer text whose details are told: as many as there may be diagnostics of a text.
/// Details take as much memory again as a check.
const TOLD_LIMIT: usize = 1000;

/// Returns the greatest number of rows of a text whose details are told.
fn limit_of(text: &str) -> usize
    ensures { result ≡ told_limit text.now }
{
    if text.len() > WHOLE_LENGTH {
        TOLD_LIMIT
    } else {
        usize::MAX
    }
}

/// Returns the rows of the report of a text as an outcome, and frees the report.
fn outcome_of(alloc: Global, found: DetailedReport) -> Result<CheckOutcome, OutOfMemory>
    ensures { (text : List ℕ) → DetailedWithin text (told_limit text) found → IfOk result (IsOutcomeOf text) }
{
    let items = items_of(alloc, found.report().rows(), found.details());
    // Proofs take long where a report goes out of scope.
    drop(found);
    Ok(CheckOutcome::Items(items?))
}

/// Returns the types of a row as a text, as `--types` prints them: the type, and after the declared type of a name its
/// current type, if that is another.
fn types_of_row(alloc: Global, row: &TypeRow) -> Result<String, AllocError>
    ensures { IfOk result (λ s. string_bytes s ≡ types_of_row row.now) }
{
    let ty = row.entry.text.as_str();
    match &row.entry.current {
        None => String::from_str(alloc, ty),
        Some(current) => {
            let current = current.as_str();
            format!(in alloc; "{ty} = {current}")
        }
    }
}

impl Checker for Proved {
    ghost use Rattle.pc_checked_session.specs.Found.{IsFoundIn};

    ghost answers = { λ _ text answer. IsFoundIn text answer };

    fn find(&self, alloc: Global, text: &str) -> Result<CheckOutcome, OutOfMemory> {
        let found = match check_explained_within(alloc, text.as_bytes(), limit_of(text)) {
            Ok(found) => found,
            Err(fault) => return Ok(CheckOutcome::Refused(fault.refusal()?)),
        };
        outcome_of(alloc, found)
    }

    fn type_at(
        &self,
        alloc: Global,
        text: &str,
        byte: usize,
    ) -> Result<Option<String>, OutOfMemory> {
        let found = match type_at(alloc, text.as_bytes(), byte) {
            Ok(found) => found,
            Err(fault) => {
                fault.refusal()?;
                return Ok(None);
            }
        };
        match found {
            None => Ok(None),
            Some(row) => Ok(Some(types_of_row(alloc, &row)?)),
        }
    }
}

/// Answers the messages of a device until `exit` or the end of the input; returns the way it ended. The diagnostics of
/// each text are those of its report, for which the headline of `check` holds, with the details of its findings, or of its
/// refusal.
pub fn answer<R: Read + Drop, W: Write + Drop>(
    alloc: Global,
    input: &mut Counted<R>,
    output: &mut Counted<W>,
) -> ServingEnd
    ensures { OnEnd IsFoundIn R.remaining W.contents input.old input.new output.old output.new result }
{
    serve(alloc, &Proved, input, output)
}
