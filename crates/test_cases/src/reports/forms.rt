//! Modules checked as streams, with their reports as text and as JSON.
use crate::reports::checker::ReportMaker;
use crate::reports::modules::HEADER;
use pc_report::Format;
use pc_source::Counted;
use std::alloc::{AllocError, Global};
use test_rows::{BETWEEN, ROW, TableFault, Tally};

/// The end of the JSON of a report in format two.
const FORMAT_TWO: &str = "\"format\":2}\n";

/// The form in which a report is written: as JSON or as text, with details or without them.
#[derive(Clone, Copy)]
struct Form {
    json: bool,
    detailed: bool,
}

/// A module with its report, as text and as JSON.
#[derive(Drop)]
struct Case {
    module: String,
    text: String,
    json: String,
}

impl Case {
    /// Returns the format of its report, which the JSON names.
    fn format(&self) -> Format {
        if self.json.ends_with(FORMAT_TWO) {
            Format::Two
        } else {
            Format::One
        }
    }
}

/// Appends a line to a text.
fn add_line(text: &mut String, line: &str) -> Result<(), AllocError> {
    text.push_str(line)?;
    text.push_str("\n")
}

/// Returns the module of these lines, with its report in both forms.
fn case_of(alloc: Global, lines: &str) -> Result<Case, TableFault> {
    let mut case = Case {
        module: String::from_str(alloc, HEADER)?,
        text: String::new(alloc),
        json: String::new(alloc),
    };
    for line in lines.lines() {
        if let Some(row) = line.strip_prefix(ROW) {
            add_line(&mut case.text, row)?;
        } else if line.starts_with("{") {
            add_line(&mut case.json, line)?;
        } else {
            add_line(&mut case.module, line)?;
        }
    }
    if case.text.is_empty() || case.json.is_empty() {
        return Err(TableFault::Form);
    }
    Ok(case)
}

/// Returns the report of the module as a stream, if it is written as in the table and its counts are those of the last
/// line of its text; else a message.
fn written<C: ReportMaker>(
    alloc: Global,
    case: &Case,
    form: Form,
    report: &str,
    checker: &C,
) -> Result<String, AllocError> {
    let mut reader = Counted::new(case.module.as_bytes());
    let mut writer = Counted::new(Vec::new(alloc));
    let counts = if form.detailed {
        checker.of_stream_with_details(alloc, &mut reader, &mut writer, form.json)?
    } else {
        checker.of_stream(alloc, &mut reader, &mut writer, form.json, case.format())?
    };
    if case.text.lines().last() == Some(counts.as_str())
        && writer.inner().as_slice() == report.as_bytes()
        && reader.failures() == 0
        && writer.failures() == 0
    {
        return String::from_str(alloc, report);
    }
    format!(in alloc; "another report, or {counts}")
}

/// Counts a module in both forms, with details or without them.
fn count_case<C: ReportMaker>(
    alloc: Global,
    case: &Case,
    detailed: bool,
    checker: &C,
    tally: &mut Tally,
) -> Result<(), AllocError> {
    for (json, report) in [(false, case.text.as_str()), (true, case.json.as_str())] {
        let got = written(alloc, case, Form { json, detailed }, report, checker)?;
        tally.count(case.module.as_str(), report, got.as_str())?;
    }
    Ok(())
}

/// Counts the modules of a table, each in both forms, with details or without them.
pub fn count_forms<C: ReportMaker>(
    alloc: Global,
    table: &str,
    detailed: bool,
    checker: &C,
    tally: &mut Tally,
) -> Result<(), TableFault> {
    for lines in table.split(BETWEEN) {
        let case = case_of(alloc, lines)?;
        count_case(alloc, &case, detailed, checker, tally)?;
    }
    Ok(())
}
