//! The checker whose reports are compared with the tables.
use pc_front::parse_source;
use pc_notes::Notes;
use pc_scope::scopes;
use pc_source::{Counted, Fault, Source, read_source};
use pc_top::{
    CheckFault, FindingCounts, Format, Report, check, check_explained, check_stream,
    explain_stream, findings_by, type_at, types_of, types_stream,
};
use pc_tree::{Code, Module};
use pc_types::BoxStore;
use std::alloc::{AllocError, Global};
use std::io::{Read, Write};
use std::str;
use test_cases::reports::ReportMaker;

/// The checker that the programs call.
pub struct Checking;

/// Returns the report of the notes of a module.
fn report_of_notes(
    alloc: Global,
    source: &Source,
    module: &Module,
    notes: &Notes,
) -> Result<Report, Fault> {
    let flows = notes.texts(alloc, module, Code::A1)?;
    let found = notes.findings(alloc)?;
    Ok(Report::of(alloc, source, &found, &flows)?)
}

/// Returns the report of a module, with types in boxes.
fn report_by_boxes(alloc: Global, source: &Source, module: &Module) -> Result<Report, Fault> {
    let scopes = scopes(alloc, module)?;
    let notes = findings_by(&mut BoxStore::new(), alloc, module, &scopes)?;
    report_of_notes(alloc, source, module, &notes)
}

/// Returns the report of the module that bytes spell, with types in boxes.
fn check_by_boxes(alloc: Global, bytes: &[u8]) -> Result<Report, Fault> {
    let source = read_source(alloc, bytes)?;
    let module = parse_source(alloc, &source)?;
    report_by_boxes(alloc, &source, &module)
}

/// Returns the text of a report in a format, or of the refusal.
fn told(
    alloc: Global,
    answer: Result<Report, Fault>,
    format: Format,
) -> Result<String, AllocError> {
    match answer {
        Ok(report) => report.to_text(alloc, format).map_err(|_| AllocError),
        Err(fault) => format!(in alloc; "{fault}"),
    }
}

/// Returns the counts of a report that was written, as its last line has them, or the text of the fault.
fn counts_told(
    alloc: Global,
    answer: Result<FindingCounts, CheckFault>,
) -> Result<String, AllocError> {
    match answer {
        Ok(FindingCounts { errors, dynamic }) => {
            format!(in alloc; "errors {errors}, dynamic {dynamic}")
        }
        Err(fault) => format!(in alloc; "{fault}"),
    }
}

impl ReportMaker for Checking {
    fn by_numbers(
        &self,
        alloc: Global,
        bytes: &[u8],
        format: Format,
    ) -> Result<String, AllocError> {
        told(alloc, check(alloc, bytes), format)
    }

    fn by_boxes(&self, alloc: Global, bytes: &[u8], format: Format) -> Result<String, AllocError> {
        told(alloc, check_by_boxes(alloc, bytes), format)
    }

    fn explained(&self, alloc: Global, bytes: &[u8]) -> Result<String, AllocError> {
        match check_explained(alloc, bytes) {
            Ok(detailed) => detailed.to_text(alloc).map_err(|_| AllocError),
            Err(fault) => format!(in alloc; "{fault}"),
        }
    }

    fn of_stream<R: Read + Drop, W: Write + Drop>(
        &self,
        alloc: Global,
        reader: &mut Counted<R>,
        writer: &mut Counted<W>,
        json: bool,
        format: Format,
    ) -> Result<String, AllocError> {
        counts_told(alloc, check_stream(alloc, reader, writer, json, format))
    }

    fn of_stream_with_details<R: Read + Drop, W: Write + Drop>(
        &self,
        alloc: Global,
        reader: &mut Counted<R>,
        writer: &mut Counted<W>,
        json: bool,
    ) -> Result<String, AllocError> {
        counts_told(alloc, explain_stream(alloc, reader, writer, json))
    }

    fn listed(&self, alloc: Global, bytes: &[u8]) -> Result<String, AllocError> {
        let mut reader = Counted::new(bytes);
        let mut writer = Counted::new(Vec::new(alloc));
        match types_stream(alloc, &mut reader, &mut writer, false) {
            Ok(FindingCounts { errors, dynamic }) => {
                let listing = str::from_utf8(writer.inner().as_slice()).unwrap_or("no text");
                format!(in alloc; "{listing}errors {errors}, dynamic {dynamic}")
            }
            Err(fault) => format!(in alloc; "{fault}"),
        }
    }

    fn listed_as_json(&self, alloc: Global, bytes: &[u8]) -> Result<String, AllocError> {
        let mut writer = Counted::new(Vec::new(alloc));
        match types_of(alloc, bytes) {
            Ok(listing) => {
                let _ = listing.write_json(&mut writer);
                let text = str::from_utf8(writer.inner().as_slice()).unwrap_or("no text");
                String::from_str(alloc, text)
            }
            Err(fault) => format!(in alloc; "{fault}"),
        }
    }

    fn type_around(&self, alloc: Global, bytes: &[u8], byte: usize) -> Result<String, AllocError> {
        match type_at(alloc, bytes, byte) {
            Ok(Some(row)) => {
                let (place, kind) = (row.entry.place, row.entry.kind.text());
                format!(in alloc; "{} {} {kind} {}", place.start, place.end, row.entry.text)
            }
            Ok(None) => String::from_str(alloc, "none"),
            Err(fault) => format!(in alloc; "{fault}"),
        }
    }

    fn fault(&self, alloc: Global, name: &str) -> Result<Option<String>, AllocError> {
        let fault = match name {
            "OutOfMemory" => CheckFault::OutOfMemory,
            "Read" => CheckFault::Read,
            "Write" => CheckFault::Write,
            _ => return Ok(None),
        };
        Ok(Some(format!(in alloc; "{fault}")?))
    }
}
