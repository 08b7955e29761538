//! The JSON of a report, written piece by piece.

ghost use Rattle.std.specs.Prelude.{◌≡◌, option_map};
ghost use Rattle.pc_report.specs.Json.{from_json, to_json, finding_json, findings_json};
ghost use Rattle.pc_report.specs.Pieces.{Puts};
ghost use Rattle.pc_report.specs.Report.{shown_flow};

use crate::flow::FlowTexts;
use crate::format::Format;
use crate::pieces::Pieces;
use crate::report::Row;
use pc_source::Counted;
use std::io::Write;

/// Writes the first type of a flow, if it is shown.
pub(crate) fn put_from<W: Write + Drop>(
    pieces: &mut Pieces,
    device: &mut Counted<W>,
    flow: Option<&FlowTexts>,
)
    ensures { Puts W.contents (from_json (option_map (λ f. f.now) flow.entry)) device.old device.new
        pieces.old pieces.new }
{
    if let Some(flow) = flow {
        pieces.put_str(device, ",\"from\":");
        pieces.put_quoted(device, flow.from.as_str());
    }
}

/// Writes the second type of a flow, if it is shown.
pub(crate) fn put_to<W: Write + Drop>(
    pieces: &mut Pieces,
    device: &mut Counted<W>,
    flow: Option<&FlowTexts>,
)
    ensures { Puts W.contents (to_json (option_map (λ f. f.now) flow.entry)) device.old device.new
        pieces.old pieces.new }
{
    if let Some(flow) = flow {
        pieces.put_str(device, ",\"to\":");
        pieces.put_quoted(device, flow.to.as_str());
    }
}

/// Writes the finding of a row.
fn put_finding<W: Write + Drop>(
    pieces: &mut Pieces,
    device: &mut Counted<W>,
    format: Format,
    row: &Row,
)
    ensures { Puts W.contents (finding_json (shown_flow format row.now) row.now) device.old device.new
        pieces.old pieces.new }
{
    pieces.put_str(device, "{\"code\":\"");
    pieces.put_str(device, row.finding.code.text());
    pieces.put_str(device, "\",\"column\":");
    pieces.put_number(device, row.column);
    pieces.put_str(device, ",\"end\":");
    pieces.put_number(device, row.finding.place.end as u64);
    put_from(pieces, device, row.shown_flow(format));
    pieces.put_str(device, ",\"line\":");
    pieces.put_number(device, row.line);
    pieces.put_str(device, ",\"start\":");
    pieces.put_number(device, row.finding.place.start as u64);
    put_to(pieces, device, row.shown_flow(format));
    pieces.put_str(device, "}");
}

/// Writes the findings of rows, separated by commas.
pub(crate) fn put_findings<W: Write + Drop>(
    pieces: &mut Pieces,
    device: &mut Counted<W>,
    format: Format,
    rows: &[Row],
)
    ensures { Puts W.contents (findings_json format rows.now) device.old device.new pieces.old pieces.new }
{
    let Some((first, others)) = rows.split_first() else {
        return;
    };
    put_finding(pieces, device, format, first);
    for row in others {
        pieces.put_str(device, ",");
        put_finding(pieces, device, format, row);
    }
}
