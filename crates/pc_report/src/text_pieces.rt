//! The text of a report, written piece by piece.

ghost use Rattle.std.specs.Prelude.{◌≡◌, ◌++◌, ◌∷◌, [], codes, decimal, option_map};
ghost use Rattle.pc_report.specs.Pieces.{Puts};
ghost use Rattle.pc_report.specs.Report.{flow_text, row_text};

use crate::flow::FlowTexts;
use crate::format::Format;
use crate::pieces::Pieces;
use crate::report::Row;
use pc_source::Counted;
use std::io::Write;

/// Writes the two types of a flow, if it is shown.
fn put_flow<W: Write + Drop>(pieces: &mut Pieces, device: &mut Counted<W>, flow: Option<&FlowTexts>)
    ensures { Puts W.contents (flow_text (option_map (λ f. f.now) flow.entry)) device.old device.new
        pieces.old pieces.new }
{
    let Some(flow) = flow else {
        return;
    };
    pieces.put_str(device, " ");
    pieces.put_str(device, flow.from.as_str());
    pieces.put_str(device, " -> ");
    pieces.put_str(device, flow.to.as_str());
}

/// Writes the line of a row.
pub(crate) fn put_row<W: Write + Drop>(
    pieces: &mut Pieces,
    device: &mut Counted<W>,
    format: Format,
    row: &Row,
)
    ensures { Puts W.contents (row_text format row.now ++ 10 ∷ []) device.old device.new pieces.old pieces.new }
{
    pieces.put_number(device, row.line);
    pieces.put_str(device, ":");
    pieces.put_number(device, row.column);
    pieces.put_str(device, " ");
    pieces.put_str(device, row.finding.code.text());
    pieces.put_str(device, " ");
    pieces.put_str(device, row.finding.code.label());
    put_flow(pieces, device, row.shown_flow(format));
    pieces.put_str(device, "\n");
}

/// Writes the last line: the numbers of errors and of dynamic places.
pub(crate) fn put_counts<W: Write + Drop>(
    pieces: &mut Pieces,
    device: &mut Counted<W>,
    errors: u64,
    dynamic: u64,
)
    ensures { Puts W.contents (codes "errors " ++ (decimal errors ++ (codes ", dynamic " ++ (decimal dynamic
        ++ 10 ∷ [])))) device.old device.new pieces.old pieces.new }
{
    pieces.put_str(device, "errors ");
    pieces.put_number(device, errors);
    pieces.put_str(device, ", dynamic ");
    pieces.put_number(device, dynamic);
    pieces.put_str(device, "\n");
}
