//! The check of a stream.

ghost use Rattle.std.specs.Prelude.{◌≡◌, length, List, IfOk, IfErr};
ghost use Rattle.pc_source.specs.Answers.{OnRefusal};
ghost use Rattle.pc_source.specs.Devices.{failures_after};
ghost use Rattle.pc_source.specs.Within.{IsWithin};
ghost use Rattle.pc_front.specs.Bytes.{IsRefusalOf};
ghost use Rattle.pc_report.specs.declared.report.Row.{Row};
ghost use Rattle.pc_report.specs.Report.{dynamic_count, errors_of};
ghost use Rattle.pc_report.specs.Writing.{IsWritten};
ghost use Rattle.pc_top.specs.Headline.{Headline};
ghost use Rattle.pc_top.specs.Streaming.{IsReported, IsRefusedStream, IsBegun, WhenRefused, WhenWriteFails};
ghost use Rattle.pc_top.specs.Streaming.{UnlessWriteFails, OnceRead, IsReadThrough, IsWithinStream};
ghost use Rattle.pc_top.specs.Streaming.{reader_fails, writer_fails, report_bytes};
ghost use Rattle.pc_top.specs.TypesOfBytes.{IsListed, IsListingBegun, ListsTypesOf, listing_bytes};

use crate::fault::CheckFault;
use crate::teardown::Teardown;
use crate::top::report_of;
use crate::types::types_of;
use pc_report::{Format, Report, TypeListing, WriteFault, read_at_most};
use pc_source::{Counted, Fault};
use std::alloc::Global;
use std::io::{Read, Write};

/// The greatest number of bytes read: one more than a source text may have.
pub(crate) const MOST: usize = 1_048_577;

/// The numbers of findings of a report.
#[derive(Clone, Copy, Debug, PartialEq, Eq)]
pub struct FindingCounts {
    /// The number of errors.
    pub errors: u64,
    /// The number of dynamic places.
    pub dynamic: u64,
}

/// Writes a report in a format, as JSON or as text.
fn write_report<W: Write + Drop>(
    report: &Report,
    writer: &mut Counted<W>,
    json: bool,
    format: Format,
) -> Result<(), WriteFault>
    ensures { IsWritten W.contents (report_bytes json format report.now) writer.old writer.new result }
{
    if json {
        report.write_json(format, writer)
    } else {
        report.write_text(format, writer)
    }
}

/// Reads bytes to their end, checks them like `check`, writes the report in the given format, as JSON or as text, and
/// returns its numbers of errors and of dynamic places. Reading stops after 1,048,577 bytes, one more than a source
/// text may have. The writer is not flushed.
///
/// This is for a program that ends afterwards: with at most 4,096 findings it leaves the memory of the module, its
/// scopes, its notes and its types allocated, since the end of the program frees all memory at once, and freeing it
/// piece by piece is nearly a tenth of a check. A program that continues calls `check`, which frees everything.
///
/// Own rule of the profile.
///
/// # Errors
///
/// `Refused` as for `check`; more than 1,048,576 bytes are refused once one more is read. `Read` and `Write` if a call
/// of that device failed, even by an interruption: no call follows it. `OutOfMemory` only if an allocation failed.
/// Nothing is written after any of these except `Write`, after which a beginning of the report is.
pub fn check_stream<R: Read + Drop, W: Write + Drop>(
    alloc: Global,
    reader: &mut Counted<R>,
    writer: &mut Counted<W>,
    json: bool,
    format: Format,
) -> Result<FindingCounts, CheckFault>
    ensures reported { IfOk result
        (λ counts. IsReported W.contents
        (R.remaining reader.old.device) json format writer.old writer.new counts.errors counts.dynamic) }
    ensures refused { IfErr result (WhenRefused (IsRefusedStream (R.remaining reader.old.device))) }
    ensures within { IfErr result
        (WhenRefused (λ refusal. IsWithinStream (R.remaining reader.old.device) refusal.byte)) }
    ensures read_through { OnceRead result (IsReadThrough R.remaining reader.old reader.new) }
    ensures begun { IfErr result
        (WhenWriteFails (IsBegun W.contents (R.remaining reader.old.device) json format writer.old writer.new)) }
    ensures untouched { IfErr result (UnlessWriteFails (writer.new ≡ writer.old)) }
    ensures read_failures { reader.new.failures ≡ failures_after (reader_fails result) reader.old.failures }
    ensures write_failures { writer.new.failures ≡ failures_after (writer_fails result) writer.old.failures }
{
    let bytes = read_at_most(alloc, reader, MOST)?;
    let report = report_of(alloc, bytes.as_slice(), Teardown::LeaveToExit)?;
    write_report(&report, writer, json, format)?;
    Ok(FindingCounts {
        errors: report.errors(),
        dynamic: report.dynamic(),
    })
}

/// Writes a listing of types, as JSON or as text.
fn write_listing<W: Write + Drop>(
    listing: &TypeListing,
    writer: &mut Counted<W>,
    json: bool,
) -> Result<(), WriteFault>
    ensures { IsWritten W.contents (listing_bytes json listing.now) writer.old writer.new result }
{
    if json {
        listing.write_json(writer)
    } else {
        listing.write_text(writer)
    }
}

/// A listing of the types of bytes, and the numbers of findings of their report.
#[derive(Drop)]
struct CountedListing {
    listing: TypeListing,
    counts: FindingCounts,
}

/// Returns the listing of the types of bytes, and the numbers of findings of their report.
fn counted_listing(alloc: Global, bytes: &[u8]) -> Result<CountedListing, Fault>
    ensures lists { IfOk result (λ v. ListsTypesOf bytes.now v.listing) }
    ensures counted { IfOk result (λ v. (rows : List Row) × Headline bytes.now rows
        × (v.counts.errors ≡ errors_of rows) × (v.counts.dynamic ≡ dynamic_count rows)) }
    ensures refused { IfErr result (OnRefusal (IsRefusalOf bytes.now)) }
    ensures within { IfErr result (IsWithin (length bytes.now)) }
{
    let report = report_of(alloc, bytes, Teardown::Free)?;
    let listing = types_of(alloc, bytes)?;
    let counts = FindingCounts {
        errors: report.errors(),
        dynamic: report.dynamic(),
    };
    Ok(CountedListing { listing, counts })
}

/// Reads bytes to their end like `check_stream`, writes the listing of their types, as JSON or as text, and returns the
/// numbers of errors and of dynamic places that their report has. The writer is not flushed. Own rule of the profile.
///
/// # Errors
///
/// As for `check_stream`.
pub fn types_stream<R: Read + Drop, W: Write + Drop>(
    alloc: Global,
    reader: &mut Counted<R>,
    writer: &mut Counted<W>,
    json: bool,
) -> Result<FindingCounts, CheckFault>
    ensures listed { IfOk result
        (λ counts. IsListed W.contents
        (R.remaining reader.old.device) json writer.old writer.new counts.errors counts.dynamic) }
    ensures refused { IfErr result (WhenRefused (IsRefusedStream (R.remaining reader.old.device))) }
    ensures within { IfErr result
        (WhenRefused (λ refusal. IsWithinStream (R.remaining reader.old.device) refusal.byte)) }
    ensures read_through { OnceRead result (IsReadThrough R.remaining reader.old reader.new) }
    ensures begun { IfErr result
        (WhenWriteFails (IsListingBegun W.contents (R.remaining reader.old.device) json writer.old writer.new)) }
    ensures untouched { IfErr result (UnlessWriteFails (writer.new ≡ writer.old)) }
    ensures read_failures { reader.new.failures ≡ failures_after (reader_fails result) reader.old.failures }
    ensures write_failures { writer.new.failures ≡ failures_after (writer_fails result) writer.old.failures }
{
    let given = read_at_most(alloc, reader, MOST)?;
    let listed = counted_listing(alloc, given.as_slice())?;
    write_listing(&listed.listing, writer, json)?;
    Ok(listed.counts)
}
