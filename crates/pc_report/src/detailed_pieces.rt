//! The JSON of a report with details, written piece by piece.

ghost use Rattle.std.specs.Prelude.{◌≡◌, option_map};
ghost use Rattle.pc_report.specs.Detailed.{detail_at, detail_content, detail_json, detailed_findings, detailed_json};
ghost use Rattle.pc_report.specs.Detailed.{finding_with_detail, place_json, places_json};
ghost use Rattle.pc_report.specs.Pieces.{Puts};
ghost use Rattle.pc_report.specs.Report.{shown_flow};
ghost use Rattle.pc_report.specs.Writing.{IsWritten};

use crate::format::Format;
use crate::json_pieces::{put_from, put_to};
use crate::pieces::Pieces;
use crate::report::{Report, Row};
use crate::writing::WriteFault;
use pc_source::Counted;
use std::io::Write;
use std::rc::RcStr;

/// A detail of a finding as a report shows it: its sentence, and the lines and columns of the other places that it
/// names.
#[derive(Debug, Drop, PartialEq, Eq)]
pub struct ShownDetail {
    pub sentence: RcStr,
    pub places: Vec<(u64, u64)>,
}

/// Writes a place, given its line and its column, as an object.
fn put_place<W: Write + Drop>(pieces: &mut Pieces, device: &mut Counted<W>, place: &(u64, u64))
    ensures { Puts W.contents (place_json place.now) device.old device.new pieces.old pieces.new }
{
    let (line, column) = *place;
    pieces.put_str(device, "{\"column\":");
    pieces.put_number(device, column);
    pieces.put_str(device, ",\"line\":");
    pieces.put_number(device, line);
    pieces.put_str(device, "}");
}

/// Writes places as objects, separated by commas.
fn put_places<W: Write + Drop>(pieces: &mut Pieces, device: &mut Counted<W>, places: &[(u64, u64)])
    ensures { Puts W.contents (places_json places.now) device.old device.new pieces.old pieces.new }
{
    let Some((first, others)) = places.split_first() else {
        return;
    };
    put_place(pieces, device, first);
    for place in others {
        pieces.put_str(device, ",");
        put_place(pieces, device, place);
    }
}

/// Writes a detail, if there is one.
fn put_detail<W: Write + Drop>(
    pieces: &mut Pieces,
    device: &mut Counted<W>,
    detail: Option<&ShownDetail>,
)
    ensures { Puts W.contents (detail_json (option_map (λ d. detail_content d.now) detail.entry)) device.old device.new
        pieces.old pieces.new }
{
    if let Some(detail) = detail {
        pieces.put_str(device, ",\"detail\":{\"places\":[");
        put_places(pieces, device, &detail.places);
        pieces.put_str(device, "],\"text\":");
        pieces.put_quoted(device, detail.sentence.as_str());
        pieces.put_str(device, "}");
    }
}

/// Writes the finding of a row, with its detail.
fn put_detailed<W: Write + Drop>(
    pieces: &mut Pieces,
    device: &mut Counted<W>,
    format: Format,
    row: &Row,
    detail: Option<&ShownDetail>,
)
    ensures { Puts W.contents (finding_with_detail (shown_flow format row.now)
        (option_map (λ d. detail_content d.now) detail.entry) row.now) device.old device.new pieces.old pieces.new }
{
    pieces.put_str(device, "{\"code\":\"");
    pieces.put_str(device, row.finding.code.text());
    pieces.put_str(device, "\",\"column\":");
    pieces.put_number(device, row.column);
    put_detail(pieces, device, detail);
    pieces.put_str(device, ",\"end\":");
    pieces.put_number(device, row.finding.place.end as u64);
    put_from(pieces, device, row.shown_flow(format));
    pieces.put_str(device, ",\"line\":");
    pieces.put_number(device, row.line);
    pieces.put_str(device, ",\"start\":");
    pieces.put_number(device, row.finding.place.start as u64);
    put_to(pieces, device, row.shown_flow(format));
    pieces.put_str(device, "}");
}

/// Returns the detail with this number, if there is one.
fn detail_at(details: &[Option<ShownDetail>], number: usize) -> Option<&ShownDetail>
    ensures { option_map (λ d. detail_content d.now) result ≡ detail_at details.now number }
{
    match details.get(number) {
        Some(entry) => entry.as_ref(),
        None => None,
    }
}

/// Writes the findings of rows, separated by commas, each with the detail of its number.
fn put_all_detailed<W: Write + Drop>(
    pieces: &mut Pieces,
    device: &mut Counted<W>,
    format: Format,
    rows: &[Row],
    details: &[Option<ShownDetail>],
)
    ensures { Puts W.contents (detailed_findings format details.now rows.now) device.old device.new pieces.old
        pieces.new }
{
    let Some((first, others)) = rows.split_first() else {
        return;
    };
    put_detailed(pieces, device, format, first, detail_at(details, 0));
    let mut number = 1;
    for row in others {
        pieces.put_str(device, ",");
        let detail = detail_at(details, number);
        put_detailed(pieces, device, format, row, detail);
        number += 1;
    }
}

impl Report {
    /// Writes the JSON of the report like `write_json`, with the detail of each row that has one after its column: an
    /// object with the other places that it names, by column and line, and its sentence.
    ///
    /// # Errors
    ///
    /// As for `write_text`.
    pub fn write_detailed_json<W: Write + Drop>(
        &self,
        format: Format,
        details: &[Option<ShownDetail>],
        device: &mut Counted<W>,
    ) -> Result<(), WriteFault>
        ensures { IsWritten W.contents (detailed_json format details.now self.now) device.old device.new result }
    {
        let mut pieces = Pieces::new();
        pieces.put_str(device, "{\"dynamic\":");
        pieces.put_number(device, self.dynamic());
        pieces.put_str(device, ",\"errors\":");
        pieces.put_number(device, self.errors());
        pieces.put_str(device, ",\"findings\":[");
        put_all_detailed(&mut pieces, device, format, self.rows(), details);
        pieces.put_str(device, "],\"format\":");
        pieces.put_number(device, format.number());
        pieces.put_str(device, "}\n");
        pieces.finish(device)
    }
}
