//! The text and the JSON of a listing of types, written piece by piece.

ghost use Rattle.std.specs.Prelude.{◌≡◌, ◌++◌, ◌∷◌, [], codes};
ghost use Rattle.pc_report.specs.Pieces.{Puts};
ghost use Rattle.pc_report.specs.TypeTexts.{kind_text, current_text, type_row_text, types_text, current_json};
ghost use Rattle.pc_report.specs.TypeTexts.{type_row_json, type_rows_json, types_json};
ghost use Rattle.pc_report.specs.Writing.{IsWritten};

use crate::listing::{TypeKind, TypeListing, TypeRow};
use crate::pieces::Pieces;
use crate::writing::WriteFault;
use pc_source::Counted;
use std::io::Write;
use std::rc::RcStr;

impl TypeKind {
    /// Returns the word for the kind.
    pub fn text(self) -> &'static str
        ensures { result.now ≡ kind_text self }
    {
        match self {
            TypeKind::Expression => "expression",
            TypeKind::Name => "name",
        }
    }
}

/// Returns the sign before the current type of a name.
fn current_sign() -> &'static str
    ensures { result.now ≡ codes " = " }
{
    " = "
}

/// Writes the current type of a name, if it is another.
fn put_current<W: Write + Drop>(
    pieces: &mut Pieces,
    device: &mut Counted<W>,
    current: &Option<RcStr>,
)
    ensures { Puts W.contents (current_text current.now) device.old device.new pieces.old pieces.new }
{
    if let Some(text) = current {
        pieces.put_str(device, current_sign());
        pieces.put_str(device, text.as_str());
    }
}

/// Writes the line of a row.
fn put_line<W: Write + Drop>(pieces: &mut Pieces, device: &mut Counted<W>, row: &TypeRow)
    ensures { Puts W.contents (type_row_text row.now ++ 10 ∷ []) device.old device.new pieces.old pieces.new }
{
    pieces.put_number(device, row.line);
    pieces.put_str(device, ":");
    pieces.put_number(device, row.column);
    pieces.put_str(device, "-");
    pieces.put_number(device, row.end_line);
    pieces.put_str(device, ":");
    pieces.put_number(device, row.end_column);
    pieces.put_str(device, " ");
    pieces.put_str(device, row.entry.text.as_str());
    put_current(pieces, device, &row.entry.current);
    pieces.put_str(device, "\n");
}

/// Writes the current type of a name as a member of an object, if it is another.
fn put_current_member<W: Write + Drop>(
    pieces: &mut Pieces,
    device: &mut Counted<W>,
    current: &Option<RcStr>,
)
    ensures { Puts W.contents (current_json current.now) device.old device.new pieces.old pieces.new }
{
    if let Some(text) = current {
        pieces.put_str(device, ",\"current\":");
        pieces.put_quoted(device, text.as_str());
    }
}

/// Writes a row as an object.
fn put_object<W: Write + Drop>(pieces: &mut Pieces, device: &mut Counted<W>, row: &TypeRow)
    ensures { Puts W.contents (type_row_json row.now) device.old device.new pieces.old pieces.new }
{
    pieces.put_str(device, "{\"column\":");
    pieces.put_number(device, row.column);
    put_current_member(pieces, device, &row.entry.current);
    pieces.put_str(device, ",\"end\":");
    pieces.put_number(device, row.entry.place.end as u64);
    pieces.put_str(device, ",\"end_column\":");
    pieces.put_number(device, row.end_column);
    pieces.put_str(device, ",\"end_line\":");
    pieces.put_number(device, row.end_line);
    pieces.put_str(device, ",\"kind\":\"");
    pieces.put_str(device, row.entry.kind.text());
    pieces.put_str(device, "\",\"line\":");
    pieces.put_number(device, row.line);
    pieces.put_str(device, ",\"start\":");
    pieces.put_number(device, row.entry.place.start as u64);
    pieces.put_str(device, ",\"type\":");
    pieces.put_quoted(device, row.entry.text.as_str());
    pieces.put_str(device, "}");
}

/// Writes rows as objects, separated by commas.
fn put_objects<W: Write + Drop>(pieces: &mut Pieces, device: &mut Counted<W>, rows: &[TypeRow])
    ensures { Puts W.contents (type_rows_json rows.now) device.old device.new pieces.old pieces.new }
{
    let Some((first, others)) = rows.split_first() else {
        return;
    };
    put_object(pieces, device, first);
    for row in others {
        pieces.put_str(device, ",");
        put_object(pieces, device, row);
    }
}

impl TypeListing {
    /// Writes a line for each row to a device, `LINE:COLUMN-LINE:COLUMN TYPE`, piece by piece; the line of a name whose
    /// current type is another ends with ` = TYPE`. It allocates no memory. Own rule of the profile.
    ///
    /// # Errors
    ///
    /// `Write` if a call of the device failed; a beginning of the text is written then.
    pub fn write_text<W: Write + Drop>(&self, device: &mut Counted<W>) -> Result<(), WriteFault>
        ensures { IsWritten W.contents (types_text self.now) device.old device.new result }
    {
        let mut pieces = Pieces::new();
        for row in self.rows() {
            put_line(&mut pieces, device, row);
        }
        pieces.finish(device)
    }

    /// Writes the rows to a device as JSON, compact and with the keys in order, and a line feed, piece by piece. It
    /// allocates no memory. Own rule of the profile; RFC 8259.
    ///
    /// # Errors
    ///
    /// As for `write_text`.
    pub fn write_json<W: Write + Drop>(&self, device: &mut Counted<W>) -> Result<(), WriteFault>
        ensures { IsWritten W.contents (types_json self.now) device.old device.new result }
    {
        let mut pieces = Pieces::new();
        pieces.put_str(device, "{\"types\":[");
        put_objects(&mut pieces, device, self.rows());
        pieces.put_str(device, "]}\n");
        pieces.finish(device)
    }
}
