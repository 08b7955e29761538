//! The calls that tables of reports make on a checker.
use pc_report::Format;
use pc_source::Counted;
use std::alloc::{AllocError, Global};
use std::io::{Read, Write};

/// A checker of modules.
pub trait ReportMaker {
    /// Returns the text of its report of bytes in a format, or of its refusal, with types as numbers.
    fn by_numbers(&self, alloc: Global, bytes: &[u8], format: Format) -> Result<String, AllocError>;

    /// Returns the text of its report of bytes in a format, or of its refusal, with types in boxes.
    fn by_boxes(&self, alloc: Global, bytes: &[u8], format: Format) -> Result<String, AllocError>;

    /// Returns the text of its report of bytes with details, or of its refusal.
    fn explained(&self, alloc: Global, bytes: &[u8]) -> Result<String, AllocError>;

    /// Checks a stream and writes its report, as JSON or as text. Returns the counts of the report, as its last line
    /// has them, or the text of the fault.
    fn of_stream<R: Read + Drop, W: Write + Drop>(
        &self,
        alloc: Global,
        reader: &mut Counted<R>,
        writer: &mut Counted<W>,
        json: bool,
        format: Format,
    ) -> Result<String, AllocError>;

    /// Checks a stream and writes its report with details, as JSON or as text. Returns what `of_stream` does.
    fn of_stream_with_details<R: Read + Drop, W: Write + Drop>(
        &self,
        alloc: Global,
        reader: &mut Counted<R>,
        writer: &mut Counted<W>,
        json: bool,
    ) -> Result<String, AllocError>;

    /// Returns the listing of the types of bytes, with the counts of their report after it; or the text of the fault.
    fn listed(&self, alloc: Global, bytes: &[u8]) -> Result<String, AllocError>;

    /// Returns the listing of the types of bytes as JSON, or the text of the fault.
    fn listed_as_json(&self, alloc: Global, bytes: &[u8]) -> Result<String, AllocError>;

    /// Returns the place, the kind and the type of the smallest row around a byte, or `none`; or the text of the fault.
    fn type_around(&self, alloc: Global, bytes: &[u8], byte: usize) -> Result<String, AllocError>;

    /// Returns the text of its fault of this name, or `None` if it has none.
    fn fault(&self, alloc: Global, name: &str) -> Result<Option<String>, AllocError>;
}
