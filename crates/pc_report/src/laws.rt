//! The law that reports are read back.

ghost use Rattle.pc_report.specs.ReadWhole.{JsonIsReadBack, TextIsReadBack};

/// The law that a report is read back whole, in each format, if its numbers fit 64 bits, as those of the program do.
/// From its JSON: the rows with their findings, lines, columns and types, the numbers of errors and of dynamic places,
/// and the number of the format. From its text: the rows with their lines, columns, codes and types, and both numbers,
/// if the types that are shown hold neither a line feed nor `>`.
pub fn reports_are_read_back()
    ensures json { JsonIsReadBack }
    ensures text { TextIsReadBack }
{}
