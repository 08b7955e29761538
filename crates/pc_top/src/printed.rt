//! The report with details as text and as JSON, and its stream.

ghost use Rattle.std.specs.Prelude.{◌≡◌, ◌∷◌, ◌++◌, List, ℕ, Option, length, option_map, string_bytes, OnOk, IfOk, IfErr};
ghost use Rattle.std.specs.Rc.{rc_str_bytes};
ghost use Rattle.pc_source.specs.Answers.{OnRefusal};
ghost use Rattle.pc_source.specs.Devices.{failures_after};
ghost use Rattle.pc_source.specs.Within.{IsWithin};
ghost use Rattle.pc_tree.specs.declared.code.Finding.{Finding};
ghost use Rattle.pc_detail_texts.specs.Details.{Detail};
ghost use Rattle.pc_detail_texts.specs.Sentences.{Words, sentence_of};
ghost use Rattle.pc_detail_texts.specs.Shown.{detail_of_value};
ghost use Rattle.pc_front.specs.Bytes.{IsRefusalOf};
ghost use Rattle.pc_report.specs.Detailed.{detail_content};
ghost use Rattle.pc_report.specs.Writing.{IsWritten};
ghost use Rattle.pc_top.specs.DetailedBytes.{DetailedHeadline};
ghost use Rattle.pc_top.specs.DetailedTexts.{AreDetailsOfRows, IsPrinted, IsPrintingBegun, IsDetailedReport};
ghost use Rattle.pc_top.specs.DetailedTexts.{PrintsDetails, detail_in, detailed_text, positions_text};
ghost use Rattle.pc_top.specs.PrintedDetails.{AreLeft, IsDetailHeld, form_bytes, held_content, held_line};
ghost use Rattle.pc_top.specs.Streaming.{IsRefusedStream, WhenRefused, WhenWriteFails, UnlessWriteFails};
ghost use Rattle.pc_top.specs.Streaming.{OnceRead, IsReadThrough, IsWithinStream, reader_fails, writer_fails};

use crate::detailed::{DetailedReport, PlacedDetail, check_explained};
use crate::fault::CheckFault;
use crate::stream::{FindingCounts, MOST};
use pc_detail_texts::push_sentence;
use pc_report::{Format, Report, Row, ShownDetail, WriteFault, read_at_most, write_whole};
use pc_source::{Counted, Fault, OutOfMemory};
use pc_tree::{Code, Finding};
use std::alloc::Global;
use std::io::{Read, Write};
use std::rc::RcStr;

/// Appends the positions of the other places that a detail names.
fn push_others(text: &mut String, others: &[(u64, u64)]) -> Result<(), OutOfMemory>
    ensures { OnOk result (string_bytes text.new ≡ string_bytes text.old ++ positions_text others.now) }
{
    let Some((first, further)) = others.split_first() else {
        return Ok(());
    };
    write!(text, ", see {}:{}", first.0, first.1)?;
    for place in further {
        write!(text, ", {}:{}", place.0, place.1)?;
    }
    Ok(())
}

/// Appends the line of a row: its place, code and label, and the sentence of its detail, if it has one, with the other
/// places that it names.
fn push_row(text: &mut String, row: &Row, placed: Option<&PlacedDetail>) -> Result<(), OutOfMemory>
    ensures { OnOk result (string_bytes text.new
        ≡ string_bytes text.old ++ held_line row.now (option_map (λ p. p.now) placed.entry)) }
{
    let code = row.finding.code.text();
    let label = row.finding.code.label();
    write!(text, "{}:{} {code} {label}", row.line, row.column)?;
    if let Some(placed) = placed {
        text.push_str(": ")?;
        push_sentence(text, row.finding.code, &placed.detailed.detail)?;
        push_others(text, &placed.others)?;
    }
    text.push('\n')?;
    Ok(())
}

/// Returns the first of the details, if it is that of a finding, and the details that are left.
pub fn next_detail<'d>(
    details: &'d [PlacedDetail],
    finding: &Finding,
) -> (Option<&'d PlacedDetail>, &'d [PlacedDetail])
    ensures { (source : List ℕ) (told : Finding → Option (Detail Words)) (others : List Finding)
        → AreLeft source told (finding.now ∷ others) details.now
        → IsDetailHeld source (told finding.now) (option_map (λ p. p.now) result.0)
        × AreLeft source told others result.1.now }
{
    let Some((first, others)) = details.split_first() else {
        return (None, details);
    };
    if first.detailed.finding == *finding {
        (Some(first), others)
    } else {
        (None, details)
    }
}

/// Returns the sentence of a detail of a finding with this code, without the places that it names.
fn sentence_of(alloc: Global, code: Code, placed: &PlacedDetail) -> Result<RcStr, OutOfMemory>
    ensures { IfOk result (λ s. rc_str_bytes s ≡ sentence_of code (detail_of_value placed.now.detailed.detail)) }
{
    let mut text = String::new(alloc);
    push_sentence(&mut text, code, &placed.detailed.detail)?;
    Ok(RcStr::from_string(text)?)
}

/// Returns what is shown of a detail of a finding with this code, if there is one.
fn shown_of(
    alloc: Global,
    code: Code,
    placed: Option<&PlacedDetail>,
) -> Result<Option<ShownDetail>, OutOfMemory>
    ensures { IfOk result (λ d. option_map detail_content d
        ≡ option_map (held_content code) (option_map (λ p. p.now) placed.entry)) }
{
    let Some(placed) = placed else {
        return Ok(None);
    };
    let places = Vec::from_slice(alloc, &placed.others)?;
    let sentence = sentence_of(alloc, code, placed)?;
    Ok(Some(ShownDetail { sentence, places }))
}

impl DetailedReport {
    /// Returns what is shown of the detail of each row, in order.
    fn shown(&self, alloc: Global) -> Result<Vec<Option<ShownDetail>>, OutOfMemory>
        ensures { (bytes : List ℕ) → (h : DetailedHeadline bytes self.now)
            → IfOk result (λ v. AreDetailsOfRows bytes (detail_in h.headline.whole) self.now.report v.items) }
    {
        let mut shown = Vec::new(alloc);
        let mut details = self.details.as_slice();
        for row in self.report.rows() {
            let (placed, others) = next_detail(details, &row.finding);
            shown.push(shown_of(alloc, row.finding.code, placed)?)?;
            details = others;
        }
        Ok(shown)
    }

    /// Returns a line for each row, `LINE:COLUMN CODE LABEL: SENTENCE`, without the sentence where a finding has no
    /// detail, and a last line with the numbers of errors and of dynamic places.
    ///
    /// # Errors
    ///
    /// `OutOfMemory` if an allocation failed.
    pub fn to_text(&self, alloc: Global) -> Result<String, OutOfMemory>
        ensures { (bytes : List ℕ) → (h : DetailedHeadline bytes self.now)
            → IfOk result (λ t. string_bytes t ≡ detailed_text bytes (detail_in h.headline.whole) self.now.report) }
    {
        let mut text = String::new(alloc);
        let mut details = self.details.as_slice();
        for row in self.report.rows() {
            let (placed, others) = next_detail(details, &row.finding);
            push_row(&mut text, row, placed)?;
            details = others;
        }
        let errors = self.report.errors();
        let dynamic = self.report.dynamic();
        writeln!(text, "errors {errors}, dynamic {dynamic}")?;
        Ok(text)
    }
}

/// A report with details, ready to be written: its text, or the details that its JSON shows.
#[derive(Drop)]
enum Form {
    Text(String),
    Json(Vec<Option<ShownDetail>>),
}

/// Returns a report with details in the form for JSON or for text.
fn form_of(alloc: Global, detailed: &DetailedReport, json: bool) -> Result<Form, OutOfMemory>
    ensures { (bytes : List ℕ) → (h : DetailedHeadline bytes detailed.now)
        → IfOk result (λ form. IsDetailedReport bytes (detail_in h.headline.whole) json detailed.now.report
        (form_bytes detailed.now.report form)) }
{
    if json {
        Ok(Form::Json(detailed.shown(alloc)?))
    } else {
        Ok(Form::Text(detailed.to_text(alloc)?))
    }
}

/// A report, and what its details add to it in one form.
#[derive(Drop)]
struct Printout {
    report: Report,
    form: Form,
}

/// Returns the report of bytes with its details, for JSON or for text.
fn printout_of(alloc: Global, bytes: &[u8], json: bool) -> Result<Printout, Fault>
    ensures prints { IfOk result (λ p. PrintsDetails json bytes.now p.report (form_bytes p.report p.form)) }
    ensures refused { IfErr result (OnRefusal (IsRefusalOf bytes.now)) }
    ensures within { IfErr result (IsWithin (length bytes.now)) }
{
    let detailed = check_explained(alloc, bytes)?;
    match form_of(alloc, &detailed, json) {
        Ok(form) => Ok(Printout {
            report: detailed.into_report(),
            form,
        }),
        Err(fault) => {
            // Proofs take long where a report goes out of scope.
            drop(detailed);
            Err(fault.into())
        }
    }
}

/// Writes a report in one form.
fn write_form<W: Write + Drop>(
    report: &Report,
    form: &Form,
    writer: &mut Counted<W>,
) -> Result<(), WriteFault>
    ensures { IsWritten W.contents (form_bytes report.now form.now) writer.old writer.new result }
{
    match form {
        Form::Text(text) => write_whole(writer, text.as_bytes()),
        Form::Json(details) => report.write_detailed_json(Format::Two, details, writer),
    }
}

/// Writes a printout, and frees it.
fn write_printout<W: Write + Drop>(
    printout: Printout,
    writer: &mut Counted<W>,
) -> Result<(), WriteFault>
    ensures { IsWritten W.contents (form_bytes printout.report printout.form) writer.old writer.new result }
{
    let written = write_form(&printout.report, &printout.form, writer);
    drop(printout);
    written
}

/// Reads bytes to their end, checks them like `check_explained`, writes the report with its details, as JSON of format
/// two or as text, and returns its numbers of errors and of dynamic places. The writer is not flushed. Own rule of the
/// profile.
///
/// # Errors
///
/// As for `check_stream`.
pub fn explain_stream<R: Read + Drop, W: Write + Drop>(
    alloc: Global,
    reader: &mut Counted<R>,
    writer: &mut Counted<W>,
    json: bool,
) -> Result<FindingCounts, CheckFault>
    ensures printed { IfOk result
        (λ counts. IsPrinted W.contents
        (R.remaining reader.old.device) json writer.old writer.new counts.errors counts.dynamic) }
    ensures refused { IfErr result (WhenRefused (IsRefusedStream (R.remaining reader.old.device))) }
    ensures within { IfErr result
        (WhenRefused (λ refusal. IsWithinStream (R.remaining reader.old.device) refusal.byte)) }
    ensures read_through { OnceRead result (IsReadThrough R.remaining reader.old reader.new) }
    ensures begun { IfErr result
        (WhenWriteFails (IsPrintingBegun W.contents (R.remaining reader.old.device) json writer.old writer.new)) }
    ensures untouched { IfErr result (UnlessWriteFails (writer.new ≡ writer.old)) }
    ensures read_failures { reader.new.failures ≡ failures_after (reader_fails result) reader.old.failures }
    ensures write_failures { writer.new.failures ≡ failures_after (writer_fails result) writer.old.failures }
{
    let given = read_at_most(alloc, reader, MOST)?;
    let printed = printout_of(alloc, given.as_slice(), json)?;
    let counts = FindingCounts {
        errors: printed.report.errors(),
        dynamic: printed.report.dynamic(),
    };
    write_printout(printed, writer)?;
    Ok(counts)
}
