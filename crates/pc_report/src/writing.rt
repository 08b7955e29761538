//! The output of a report to a device.

ghost use Rattle.std.specs.Prelude.{◌≡◌};
ghost use Rattle.pc_report.specs.Json.{report_json};
ghost use Rattle.pc_report.specs.Report.{report_text};
ghost use Rattle.pc_report.specs.Writing.{IsWritten};

use crate::format::Format;
use crate::json_pieces::put_findings;
use crate::pieces::Pieces;
use crate::report::Report;
use crate::text_pieces::{put_counts, put_row};
use pc_source::Counted;
use std::io::Write;
use thiserror::Error;

/// The reason that a report was not written whole. Own rule of the profile.
#[derive(Clone, Copy, Debug, PartialEq, Eq, Error)]
pub enum WriteFault {
    /// The device failed, after a beginning of the report was written.
    #[error("the report could not be written")]
    Write,
}

/// Writes bytes, with as many calls as the device needs, and none after one that failed.
pub fn write_whole<W: Write + Drop>(device: &mut Counted<W>, bytes: &[u8]) -> Result<(), WriteFault>
    ensures { IsWritten W.contents bytes.now device.old device.new result }
{
    if device.write_whole(bytes) {
        Ok(())
    } else {
        Err(WriteFault::Write)
    }
}

impl Report {
    /// Writes the text of the report to a device, piece by piece. It allocates no memory.
    ///
    /// # Errors
    ///
    /// `Write` if a call of the device failed; a beginning of the text is written then.
    pub fn write_text<W: Write + Drop>(
        &self,
        format: Format,
        device: &mut Counted<W>,
    ) -> Result<(), WriteFault>
        ensures { IsWritten W.contents (report_text format self.now) device.old device.new result }
    {
        let mut pieces = Pieces::new();
        for row in self.rows() {
            put_row(&mut pieces, device, format, row);
        }
        put_counts(&mut pieces, device, self.errors(), self.dynamic());
        pieces.finish(device)
    }

    /// Writes the JSON of the report to a device, piece by piece. It allocates no memory.
    ///
    /// # Errors
    ///
    /// As for `write_text`.
    pub fn write_json<W: Write + Drop>(
        &self,
        format: Format,
        device: &mut Counted<W>,
    ) -> Result<(), WriteFault>
        ensures { IsWritten W.contents (report_json format self.now) device.old device.new result }
    {
        let mut pieces = Pieces::new();
        pieces.put_str(device, "{\"dynamic\":");
        pieces.put_number(device, self.dynamic());
        pieces.put_str(device, ",\"errors\":");
        pieces.put_number(device, self.errors());
        pieces.put_str(device, ",\"findings\":[");
        put_findings(&mut pieces, device, format, self.rows());
        pieces.put_str(device, "],\"format\":");
        pieces.put_number(device, format.number());
        pieces.put_str(device, "}\n");
        pieces.finish(device)
    }
}
