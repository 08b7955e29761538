//! Reports of findings that a row lists, in all forms, by `pc_report`.
use pc_report::{Format, Report};
use pc_source::{Counted, Fault, Place, read_source};
use pc_tree::{Code, Finding};
use serde_json::Value;
use std::alloc::{AllocError, Global};
use std::rc::RcStr;
use test_rows::in_one_line;

/// The codes that rows list.
const CODES: [Code; 7] = [
    Code::A1,
    Code::A2,
    Code::A8,
    Code::E02,
    Code::E12,
    Code::E13,
    Code::E29,
];

/// Returns the code written as this word.
fn code_of(word: &str) -> Option<Code> {
    for code in CODES {
        if code.text() == word {
            return Some(code);
        }
    }
    None
}

/// Returns the finding that a row writes as `58 65 E13`.
fn finding_of(words: &str) -> Option<Finding> {
    let (start, rest) = words.split_once(' ')?;
    let (end, code) = rest.split_once(' ')?;
    let place = Place {
        start: start.parse().ok()?,
        end: end.parse().ok()?,
    };
    let code = code_of(code)?;
    Some(Finding { place, code })
}

/// The findings of a row and its flows, each with the texts of its two types.
#[derive(Drop)]
struct Listed {
    findings: Vec<Finding>,
    flows: Vec<(Place, RcStr, RcStr)>,
}

/// Adds a line of a row: a finding, `187 188 A1`, or with the types of its flow, `187 188 A1: list[int] -> list[Any]`.
fn add_line(alloc: Global, listed: &mut Listed, line: &str) -> Result<(), AllocError> {
    let (words, types) = line.split_once(": ").unwrap_or((line, ""));
    let Some(finding) = finding_of(words) else {
        return Ok(());
    };
    listed.findings.push(finding)?;
    if let Some((from, into)) = types.split_once(" -> ") {
        let from = RcStr::from_str(alloc, from)?;
        let into = RcStr::from_str(alloc, into)?;
        listed.flows.push((finding.place, from, into))?;
    }
    Ok(())
}

/// Returns the report of the findings of these lines in a text.
fn report_of(alloc: Global, lines: &str, text: &str) -> Result<Report, Fault> {
    let mut listed = Listed {
        findings: Vec::new(alloc),
        flows: Vec::new(alloc),
    };
    for line in lines.lines() {
        add_line(alloc, &mut listed, line)?;
    }
    let source = read_source(alloc, text.as_bytes())?;
    Ok(Report::of(alloc, &source, &listed.findings, &listed.flows)?)
}

/// Returns a report as JSON in a format, if it is the same when written to a device and after being parsed.
fn read_again(alloc: Global, report: &Report, format: Format) -> Result<String, Fault> {
    let mut device = Counted::new(Vec::new(alloc));
    let outcome = report.write_json(format, &mut device);
    let json = report.to_json(alloc, format)?;
    let Ok(value) = Value::from_str(alloc, json.as_str()) else {
        return Ok(String::from_str(alloc, "no JSON\n")?);
    };
    let again = format!(in alloc; "{value}\n")?;
    if outcome.is_ok() && device.inner().as_slice() == again.as_bytes() {
        return Ok(json);
    }
    Ok(String::from_str(alloc, "written otherwise\n")?)
}

/// Returns a report as text in a format, if it is the same when written to a device.
fn written(alloc: Global, report: &Report, format: Format) -> Result<String, Fault> {
    let mut device = Counted::new(Vec::new(alloc));
    let outcome = report.write_text(format, &mut device);
    let text = report.to_text(alloc, format)?;
    if outcome.is_ok() && device.inner().as_slice() == text.as_bytes() {
        return Ok(text);
    }
    Ok(String::from_str(alloc, "written otherwise\n")?)
}

/// Returns the rows of a report, each on a line: `12:7 187 188 A1: list[int] -> list[Any]`.
fn rows_text(alloc: Global, report: &Report) -> Result<String, Fault> {
    let mut text = String::new(alloc);
    for row in report.rows() {
        let (line, column, place) = (row.line, row.column, row.finding.place);
        let (start, end, code) = (place.start, place.end, row.finding.code.text());
        write!(text, "\n{line}:{column} {start} {end} {code}")?;
        if let Some(flow) = &row.flow {
            let (from, to) = (flow.from.as_str(), flow.to.as_str());
            write!(text, ": {from} -> {to}")?;
        }
    }
    Ok(text)
}

/// Returns a report as text and as JSON in both formats, then its counts, the numbers of the formats, and its rows.
fn forms(alloc: Global, report: &Report) -> Result<String, Fault> {
    let mut forms = written(alloc, report, Format::One)?;
    forms.push_str(written(alloc, report, Format::Two)?.as_str())?;
    forms.push_str(read_again(alloc, report, Format::One)?.as_str())?;
    forms.push_str(read_again(alloc, report, Format::Two)?.as_str())?;
    let (errors, dynamic) = (report.errors(), report.dynamic());
    let (one, two) = (Format::One.number(), Format::Two.number());
    write!(forms, "{errors} {dynamic} {one} {two}")?;
    forms.push_str(rows_text(alloc, report)?.as_str())?;
    Ok(forms)
}

/// Returns the forms of the report of a row, which is lines of findings, a line of four dashes, and the text.
pub fn forms_text(alloc: Global, row: &str) -> Result<String, Fault> {
    let (lines, text) = row.split_once("----\n").unwrap_or(("", row));
    let report = report_of(alloc, lines, text)?;
    let forms = forms(alloc, &report)?;
    Ok(in_one_line(alloc, forms.as_str())?)
}
