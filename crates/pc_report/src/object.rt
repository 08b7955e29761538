//! The report as JSON.

ghost use Rattle.std.specs.Prelude.{◌≡◌, ◌++◌, ◌∷◌, [], List, ℕ, None, Some, IfOk, OnOk, string_bytes, option_and_then};
ghost use Rattle.std.specs.List.{AllByRecursion};
ghost use Rattle.serde_json.specs.Data.{object};
ghost use Rattle.serde_json.specs.Read.{read};
ghost use Rattle.serde_json.specs.View.{view};
ghost use Rattle.pc_tree.specs.Code.{text_of};
ghost use Rattle.pc_report.specs.Json.{finding_data, finding_json, finding_members, findings_json, report_json, FitsWords};
ghost use Rattle.pc_report.specs.ReadBack.{findings_in};
ghost use Rattle.pc_report.specs.Report.{row_findings, shown_flow};

use crate::flow::FlowTexts;
use crate::format::Format;
use crate::report::{Report, Row};
use pc_source::OutOfMemory;
use serde_json::{Value, json};
use std::alloc::{AllocError, Global};

/// Returns a finding as a JSON object, without a flow, given the text of its code.
fn value_without_flow(alloc: Global, code: &str, row: &Row) -> Result<Value, AllocError>
    requires { code.now ≡ text_of row.now.finding.code }
    ensures value { IfOk result (λ v. view v ≡ object (finding_members None row.now)) }
    ensures words { IfOk result (λ _. FitsWords row.now) }
{
    let place = row.finding.place;
    json!(in alloc; {
        "code": code,
        "column": row.column,
        "end": place.end,
        "line": row.line,
        "start": place.start
    })
}

/// Returns a finding as a JSON object, with this flow, given the text of its code.
fn value_with_flow(
    alloc: Global,
    code: &str,
    row: &Row,
    flow: &FlowTexts,
) -> Result<Value, AllocError>
    requires { code.now ≡ text_of row.now.finding.code }
    ensures value { IfOk result (λ v. view v ≡ object (finding_members (Some flow.now) row.now)) }
    ensures words { IfOk result (λ _. FitsWords row.now) }
{
    let place = row.finding.place;
    json!(in alloc; {
        "code": code,
        "column": row.column,
        "end": place.end,
        "from": flow.from.as_str(),
        "line": row.line,
        "start": place.start,
        "to": flow.to.as_str()
    })
}

/// Returns a finding as a JSON object.
fn finding_value(alloc: Global, format: Format, row: &Row) -> Result<Value, AllocError>
    ensures value { IfOk result (λ v. view v ≡ finding_data format row.now) }
    ensures words { IfOk result (λ _. FitsWords row.now) }
{
    let code = row.finding.code.text();
    match row.shown_flow(format) {
        None => value_without_flow(alloc, code, row),
        Some(flow) => value_with_flow(alloc, code, row, flow),
    }
}

/// Appends the finding of a row.
fn write_finding(
    text: &mut String,
    alloc: Global,
    format: Format,
    row: &Row,
) -> Result<(), OutOfMemory>
    ensures text { OnOk result
        (string_bytes text.new ≡ string_bytes text.old ++ finding_json (shown_flow format row.now) row.now) }
    ensures words { OnOk result (FitsWords row.now) }
{
    let value = finding_value(alloc, format, row)?;
    text.push_str(value.to_string(alloc)?.as_str())?;
    Ok(())
}

/// Appends the findings of rows, separated by commas.
fn write_findings(
    text: &mut String,
    alloc: Global,
    format: Format,
    rows: &[Row],
) -> Result<(), OutOfMemory>
    ensures text { OnOk result (string_bytes text.new ≡ string_bytes text.old ++ findings_json format rows.now) }
    ensures words { OnOk result (AllByRecursion FitsWords rows.now) }
{
    if let Some((first, others)) = rows.split_first() {
        write_finding(text, alloc, format, first)?;
        for row in others {
            text.push(',')?;
            write_finding(text, alloc, format, row)?;
        }
    }
    Ok(())
}

impl Report {
    /// Returns the report as JSON, compact and with its keys in order, and a line feed. Each finding is built as a
    /// value and printed before the next one.
    /// Own rule of the profile; RFC 8259.
    ///
    /// # Errors
    ///
    /// `OutOfMemory` if an allocation failed.
    pub fn to_json(&self, alloc: Global, format: Format) -> Result<String, OutOfMemory>
        ensures text { IfOk result (λ t. string_bytes t ≡ report_json format self.now) }
        ensures read_back { IfOk result (λ t. (line : List ℕ) × (string_bytes t ≡ line ++ 10 ∷ [])
            × (option_and_then findings_in (read line) ≡ Some (row_findings self.now))) }
    {
        let mut text = String::new(alloc);
        let dynamic = self.dynamic();
        let errors = self.errors();
        write!(
            text,
            "{{\"dynamic\":{dynamic},\"errors\":{errors},\"findings\":["
        )?;
        write_findings(&mut text, alloc, format, self.rows())?;
        let number = format.number();
        writeln!(text, "],\"format\":{number}}}")?;
        Ok(text)
    }
}
