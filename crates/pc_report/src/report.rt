//! The report: findings in order, with lines and columns.

ghost use Rattle.std.specs.Prelude.{◌≡◌, ◌↔◌, ◌≤◌, ◌⊎◌, ◌++◌, ◌∷◌, [], List, ℕ, IfOk, OnOk, Contains, option_map};
ghost use Rattle.std.specs.Prelude.{string_bytes, length, count_by, ◌==◌, ◌<◌};
ghost use Rattle.std.specs.List.{AllByRecursion};
ghost use Rattle.pc_source.specs.Lines.{line_of, column_of};
ghost use Rattle.pc_tree.specs.declared.code.Finding.{Finding};
ghost use Rattle.pc_report.specs.Flows.{HasFlows};
ghost use Rattle.pc_report.specs.Report.{IsPlaced, IsInOrder, row_findings, Lists, ExplainsRows, errors_of};
ghost use Rattle.pc_report.specs.Report.{dynamic_count, shown_flow, row_text, report_text};
ghost use Rattle.pc_report.specs.declared.report.Row.{Row};

use crate::flow::{FlowTexts, by_place, texts_of};
use crate::format::Format;
use pc_source::{OutOfMemory, Place, Source};
use pc_tree::Finding;
use std::alloc::Global;
use std::collections::BTreeMap;
use std::marker::Model;
use std::rc::RcStr;

/// A finding, with the line and the column of its start, both from 1, and the two types of its flow, if they are given.
#[derive(Debug, Drop, PartialEq, Eq)]
pub struct Row {
    pub finding: Finding,
    pub line: u64,
    pub column: u64,
    pub flow: Option<Box<FlowTexts>>,
}

impl Row {
    /// Returns the flow if the format shows it.
    pub(crate) fn shown_flow(&self, format: Format) -> Option<&FlowTexts>
        ensures { option_map (λ f. f.now) result ≡ shown_flow format self.now }
    {
        match format {
            Format::One => None,
            Format::Two => match &self.flow {
                Some(flow) => Some(flow.as_ref()),
                None => None,
            },
        }
    }
}

/// Findings, sorted by start, end and code, without repeats. Contracts treat it as the list of its rows.
#[derive(Drop)]
pub struct Report {
    rows: Vec<Row>,
}

impl Model for Report {
    ghost Value = { List Row };

    ghost view = { λ r. r.rows.items };
}

/// Returns the findings in order, without repeats.
fn sorted(alloc: Global, findings: &[Finding]) -> Result<Vec<Finding>, OutOfMemory>
    ensures exact { IfOk result (λ v. (f : Finding) → Contains v.items f ↔ Contains findings.now f) }
    ensures in_order { IfOk result (λ v. IsInOrder v.items) }
{
    let mut sorted = findings.to_vec(alloc)?;
    sorted.sort_unstable();
    // Equal findings are adjacent after sorting.
    sorted.dedup();
    Ok(sorted)
}

/// A byte of the source, with its line and its column, both from 1.
#[derive(Clone, Copy)]
pub(crate) struct RowPosition {
    pub(crate) byte: usize,
    pub(crate) line: u64,
    pub(crate) column: u64,
}

/// The position of the first byte.
pub(crate) const START: RowPosition = RowPosition {
    byte: 0,
    line: 1,
    column: 1,
};

/// The number of bytes searched for line feeds at once: below 256, so that the count fits a byte, and a multiple of the
/// 16 that one instruction processes.
const TOGETHER: usize = 240;

/// Returns the number of line feeds among a few bytes. A number is added for each byte without a branch, and the
/// numbers are bytes, so that one instruction processes 16 of them.
fn line_feeds(bytes: &[u8]) -> u8
    requires { length bytes.now < 256 }
    ensures { result ≡ count_by (λ b. b == 10) bytes.now }
{
    let mut count = 0;
    for byte in bytes {
        count += u8::from(*byte == b'\n');
    }
    count
}

/// Returns the line of a byte, given a known position before it.
fn line_at(source: &[u8], known: RowPosition, byte: usize) -> u64
    requires line { known.line ≡ line_of source.now known.byte }
    requires onward { known.byte ≤ byte }
    requires inside { byte ≤ length source.now }
    ensures { result ≡ line_of source.now byte }
{
    let mut line = known.line;
    let mut start = known.byte;
    while start < byte {
        let end = byte.min(start + TOGETHER);
        line += u64::from(line_feeds(&source[start..end]));
        start = end;
    }
    line
}

/// Returns the first byte of the last line that begins after one byte and not after another, or the former byte if none
/// does.
fn last_line_start(source: &[u8], after: usize, byte: usize) -> usize
    requires onward { after ≤ byte }
    requires inside { byte ≤ length source.now }
    ensures not_before { after ≤ result }
    ensures not_after { result ≤ byte }
    ensures column { result ≡ after ⊎ column_of source.now result ≡ 1 }
{
    for at in (after..byte).rev() {
        if source[at] == b'\n' {
            return at + 1;
        }
    }
    after
}

/// Returns the start of the last line that begins after a known position and not after a byte, or the known position if
/// none does.
fn line_before(source: &[u8], known: RowPosition, byte: usize) -> RowPosition
    requires line { known.line ≡ line_of source.now known.byte }
    requires column { known.column ≡ column_of source.now known.byte }
    requires onward { known.byte ≤ byte }
    requires inside { byte ≤ length source.now }
    ensures onward { result.byte ≤ byte }
    ensures line { result.line ≡ line_of source.now result.byte }
    ensures column { result.column ≡ column_of source.now result.byte }
{
    let start = last_line_start(source, known.byte, byte);
    if start == known.byte {
        return known;
    }
    RowPosition {
        byte: start,
        line: line_at(source, known, start),
        column: 1,
    }
}

/// Returns the position of a byte, by a walk over the bytes from a known position.
fn walked(source: &[u8], known: RowPosition, byte: usize) -> RowPosition
    requires line { known.line ≡ line_of source.now known.byte }
    requires column { known.column ≡ column_of source.now known.byte }
    requires onward { known.byte ≤ byte }
    ensures byte { result.byte ≡ byte }
    ensures line { result.line ≡ line_of source.now byte }
    ensures column { result.column ≡ column_of source.now byte }
{
    let mut position = known;
    for at in position.byte..byte.min(source.len()) {
        let b = source[at];
        if b == b'\n' {
            position.line += 1;
            position.column = 1;
        } else if b < 128 || b >= 192 {
            position.column += 1;
        }
    }
    RowPosition { byte, ..position }
}

/// Returns the position of a byte, given a known one: whole lines are counted, and the last one is walked. If the byte
/// is before the known one, the search starts at the first byte.
pub(crate) fn row_position(source: &[u8], known: RowPosition, byte: usize) -> RowPosition
    requires line { known.line ≡ line_of source.now known.byte }
    requires column { known.column ≡ column_of source.now known.byte }
    ensures byte { result.byte ≡ byte }
    ensures line { result.line ≡ line_of source.now byte }
    ensures column { result.column ≡ column_of source.now byte }
{
    let known = if byte < known.byte { START } else { known };
    if byte <= source.len() {
        walked(source, line_before(source, known, byte), byte)
    } else {
        walked(source, known, byte)
    }
}

/// Returns the line and the column of a byte of a source, both from 1.
pub fn line_and_column(source: &Source, byte: usize) -> (u64, u64)
    ensures line { result.0 ≡ line_of source.now byte }
    ensures column { result.1 ≡ column_of source.now byte }
{
    let position = row_position(source.text().as_bytes(), START, byte);
    (position.line, position.column)
}

/// Returns the rows of findings, in one walk over the source if they are in order.
fn rows(
    alloc: Global,
    source: &Source,
    findings: &[Finding],
    flows: &BTreeMap<Place, &(Place, RcStr, RcStr)>,
) -> Result<Vec<Row>, OutOfMemory>
    ensures findings { IfOk result (λ v. row_findings v.items ≡ findings.now) }
    ensures placed { IfOk result (λ v. AllByRecursion (IsPlaced source.now) v.items) }
    ensures explained { IfOk result (λ v. (listed : _) → HasFlows listed flows.now → ExplainsRows listed v.items) }
{
    let text = source.text().as_bytes();
    let mut rows = Vec::with_capacity(alloc, findings.len())?;
    let mut position = START;
    for finding in findings {
        position = row_position(text, position, finding.place.start);
        rows.push(Row {
            finding: *finding,
            line: position.line,
            column: position.column,
            flow: texts_of(alloc, *finding, flows)?,
        })?;
    }
    Ok(rows)
}

impl Report {
    /// Returns the report of findings of a source. `flows` gives, at the place of each finding of a flow through `Any`,
    /// the texts of its two types; without an entry there, the row has none.
    ///
    /// # Errors
    ///
    /// `OutOfMemory` if an allocation failed.
    pub fn of(
        alloc: Global,
        source: &Source,
        findings: &[Finding],
        flows: &[(Place, RcStr, RcStr)],
    ) -> Result<Report, OutOfMemory>
        ensures lists { IfOk result (Lists source.now (Contains findings.now)) }
        ensures explains { IfOk result (ExplainsRows flows.now) }
    {
        let findings = sorted(alloc, findings)?;
        let flows = by_place(alloc, flows)?;
        let rows = rows(alloc, source, &findings, &flows)?;
        Ok(Report { rows })
    }

    /// Returns the rows.
    pub fn rows(&self) -> &[Row]
        ensures { result.now ≡ self.now }
    {
        &self.rows
    }

    /// Returns the number of rows that are errors.
    pub fn errors(&self) -> u64
        ensures { result ≡ errors_of self.now }
    {
        self.rows
            .iter()
            .filter(|row| row.finding.code.is_error())
            .count() as u64
    }

    /// Returns the number of rows that are dynamic places.
    pub fn dynamic(&self) -> u64
        ensures { result ≡ dynamic_count self.now }
    {
        self.rows
            .iter()
            .filter(|row| !row.finding.code.is_error())
            .count() as u64
    }

    /// Returns a line for each row, `LINE:COLUMN CODE LABEL`, and a last line with the numbers of errors and of dynamic
    /// places. In format two a line of a flow ends with the two types, ` FROM -> TO`. Own rule of the profile.
    ///
    /// # Errors
    ///
    /// `OutOfMemory` if an allocation failed.
    pub fn to_text(&self, alloc: Global, format: Format) -> Result<String, OutOfMemory>
        ensures { IfOk result (λ t. string_bytes t ≡ report_text format self.now) }
    {
        let mut text = String::new(alloc);
        for row in &self.rows {
            write_row(&mut text, format, row)?;
        }
        let errors = self.errors();
        let dynamic = self.dynamic();
        writeln!(text, "errors {errors}, dynamic {dynamic}")?;
        Ok(text)
    }
}

/// Appends the line of a row.
fn write_row(text: &mut String, format: Format, row: &Row) -> Result<(), OutOfMemory>
    ensures { OnOk result (string_bytes text.new ≡ string_bytes text.old ++ (row_text format row.now ++ 10 ∷ [])) }
{
    let code = row.finding.code.text();
    let label = row.finding.code.label();
    write!(text, "{}:{} {code} {label}", row.line, row.column)?;
    if let Some(flow) = row.shown_flow(format) {
        write!(text, " {} -> {}", flow.from, flow.to)?;
    }
    text.push('\n')?;
    Ok(())
}
