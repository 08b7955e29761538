//! Modules checked as streams, with readers and writers that fail.
use crate::reports::checker::ReportMaker;
use pc_report::{Format, read_at_most};
use pc_source::Counted;
use std::alloc::{AllocError, Global};
use std::io;
use std::io::{Read, Write};
use test_rows::{TableFault, Tally, bytes_of};

/// The line before each text of a table.
const TEXT: &str = "====\n";

/// The report of a text that is only read.
const READS: &str = "reads";

/// The word in place of a number of calls, if each number is tried in turn.
const EVERY: &str = "every";

/// The number of calls before which the reader of such a row must have given its text.
const MOST_CALLS: usize = 1000;

/// The separator after a text, and after its report.
const NEXT: &str = "\n----\n";

/// A reader that gives a fixed number of bytes per call, and fails after a number of calls.
#[derive(Drop)]
struct FailingReader {
    bytes: Vec<u8>,
    at: usize,
    each: usize,
    calls: usize,
}

impl Read for FailingReader {
    fn read(&mut self, buf: &mut [u8]) -> io::Result<usize> {
        if self.calls == 0 {
            return Err(io::Error::from(io::ErrorKind::Interrupted));
        }
        self.calls -= 1;
        let left = self.bytes.len().saturating_sub(self.at);
        let count = left.min(self.each).min(buf.len());
        for to in 0..count {
            buf[to] = self.bytes[self.at + to];
        }
        self.at += count;
        Ok(count)
    }
}

/// A writer that takes a fixed number of bytes per call, and a number in all; the next call fails, and so does each
/// flush.
#[derive(Drop)]
struct FailingWriter {
    taken: Vec<u8>,
    each: usize,
    most: usize,
}

impl Write for FailingWriter {
    fn write(&mut self, buf: &[u8]) -> io::Result<usize> {
        let room = self.most.saturating_sub(self.taken.len());
        if room == 0 {
            return Err(io::Error::from(io::ErrorKind::Interrupted));
        }
        let count = buf.len().min(room).min(self.each);
        self.taken.extend_from_slice(&buf[..count])?;
        Ok(count)
    }

    fn flush(&mut self) -> io::Result<()> {
        Err(io::Error::from(io::ErrorKind::Interrupted))
    }
}

/// Returns a number of a table.
fn number(words: &[&str], at: usize) -> Result<usize, TableFault> {
    match words.get(at) {
        Some(word) => word.parse().map_err(|_| TableFault::Form),
        None => Err(TableFault::Form),
    }
}

/// Describes the bytes that a writer took: the number of bytes of the report from its start.
fn taken_text(alloc: Global, taken: &[u8], report: &str) -> Result<String, AllocError> {
    if report.as_bytes().starts_with(taken) {
        let count = taken.len();
        format!(in alloc; "{count} bytes of the report")
    } else {
        String::from_str(alloc, "other bytes than the report's")
    }
}

/// Describes a check of a text with such a reader and writer: its answer; the failed calls of the reader and of the
/// writer, among them a flush after the check; the bytes read and the calls left; the bytes that the writer took.
fn told<C: ReportMaker>(
    alloc: Global,
    reader: &mut Counted<FailingReader>,
    writer: &mut Counted<FailingWriter>,
    json: bool,
    report: &str,
    checker: &C,
) -> Result<String, AllocError> {
    let answer = checker.of_stream(alloc, reader, writer, json, Format::One)?;
    let _ = writer.flush();
    let taken = taken_text(alloc, writer.inner().taken.as_slice(), report)?;
    let (failed_reads, failed_writes) = (reader.failures(), writer.failures());
    let (read, left) = (reader.inner().at, reader.inner().calls);
    format!(in alloc;
        "{answer}; failed {failed_reads} {failed_writes}; read {read}, left {left}; {taken}"
    )
}

/// Returns the answer to the words of a row, for a reader of `bytes` that fails after a number of calls.
fn answer_after<C: ReportMaker>(
    alloc: Global,
    bytes: Vec<u8>,
    calls: usize,
    report: &str,
    words: &[&str],
    checker: &C,
) -> Result<String, TableFault> {
    let (given, each, most) = (number(words, 0)?, number(words, 2)?, number(words, 3)?);
    let mut reader = Counted::new(FailingReader {
        bytes,
        at: 0,
        each: given,
        calls,
    });
    let mut writer = Counted::new(FailingWriter {
        taken: Vec::new(alloc),
        each,
        most,
    });
    let json = words.get(4).copied() == Some("json");
    Ok(told(alloc, &mut reader, &mut writer, json, report, checker)?)
}

/// Returns the answer to the words of a row for the smallest number of calls after which the reader does not fail too
/// early, and that number. With fewer calls each answer must be that the input could not be read, with nothing written.
fn answer_to_every<C: ReportMaker>(
    alloc: Global,
    text: &str,
    report: &str,
    words: &[&str],
    checker: &C,
) -> Result<String, TableFault> {
    let given = number(words, 0)?;
    for calls in 0..MOST_CALLS {
        let bytes = bytes_of(alloc, text)?;
        let read = given.saturating_mul(calls).min(bytes.len());
        let early = format!(in alloc;
            "the input could not be read; failed 1 1; read {read}, left 0; 0 bytes of the report"
        )?;
        let got = answer_after(alloc, bytes, calls, report, words, checker)?;
        if got.as_str() != early.as_str() {
            return Ok(format!(in alloc; "{calls} fail; {got}")?);
        }
    }
    Ok(String::from_str(alloc, "all fail")?)
}

/// Returns the answer to a row: the bytes that the reader gives per call and its calls, the bytes that the writer takes
/// per call and in all, and whether the report is written as JSON.
fn answer<C: ReportMaker>(
    alloc: Global,
    text: &str,
    report: &str,
    row: &str,
    checker: &C,
) -> Result<String, TableFault> {
    let words: Vec<&str> = row.split(' ').collect(alloc)?;
    if words.get(1).copied() == Some(EVERY) {
        return answer_to_every(alloc, text, report, &words, checker);
    }
    let calls = number(&words, 1)?;
    answer_after(
        alloc,
        bytes_of(alloc, text)?,
        calls,
        report,
        &words,
        checker,
    )
}

/// Describes three reads in a row, each of at most `most` bytes: the fault, or the number of bytes read and whether
/// they are the right ones.
fn reads_of(
    alloc: Global,
    reader: &mut Counted<FailingReader>,
    most: usize,
) -> Result<String, AllocError> {
    let mut told = String::new(alloc);
    for _ in 0..3 {
        let before = reader.inner().at;
        match read_at_most(alloc, reader, most) {
            Ok(bytes) => {
                let at = reader.inner().at;
                let is_same = reader.inner().bytes.get(before..at) == Some(bytes.as_slice());
                write!(told, "{} {is_same}; ", bytes.len())?;
            }
            Err(fault) => write!(told, "{fault}; ")?,
        }
    }
    let (failures, left) = (reader.failures(), reader.inner().calls);
    write!(told, "failed {failures}, left {left}")?;
    Ok(told)
}

/// Describes three reads in a row of a text: the row has the bytes that the reader gives per call, its calls, and the
/// greatest number that each read requests.
fn reads_text(alloc: Global, text: &str, row: &str) -> Result<String, TableFault> {
    let words: Vec<&str> = row.split(' ').collect(alloc)?;
    let (each, calls, most) = (number(&words, 0)?, number(&words, 1)?, number(&words, 2)?);
    let mut reader = Counted::new(FailingReader {
        bytes: bytes_of(alloc, text)?,
        at: 0,
        each,
        calls,
    });
    Ok(reads_of(alloc, &mut reader, most)?)
}

/// Counts the rows of a text.
fn count_text<C: ReportMaker>(
    alloc: Global,
    part: &str,
    checker: &C,
    tally: &mut Tally,
) -> Result<(), TableFault> {
    let (text, rest) = part.split_once(NEXT).ok_or(TableFault::Form)?;
    let (report, rows) = rest.split_once(NEXT).ok_or(TableFault::Form)?;
    for row in rows.lines() {
        let (devices, want) = row.split_once("  ⇒ ").ok_or(TableFault::Form)?;
        let got = if report == READS {
            reads_text(alloc, text, devices)?
        } else {
            answer(alloc, text, report, devices, checker)?
        };
        tally.count(devices, want, got.as_str())?;
    }
    Ok(())
}

/// Counts the rows of a table. The text before its first part describes the table.
pub fn count_streams<C: ReportMaker>(
    alloc: Global,
    table: &str,
    checker: &C,
    tally: &mut Tally,
) -> Result<(), TableFault> {
    for part in table.split(TEXT).skip(1) {
        count_text(alloc, part, checker, tally)?;
    }
    Ok(())
}
