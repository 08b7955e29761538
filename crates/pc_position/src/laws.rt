//! Laws that relate positions to lines and columns.

ghost use Rattle.pc_position.specs.Laws.{LinesFromOne, ColumnsAreCharacters, AlikeOnAscii};

/// The line of `line_col` is one more than the line of a position.
pub fn lines_from_one()
    ensures { LinesFromOne }
{}

/// The column of `line_col` is one more than the character of a position in UTF-32.
pub fn columns_are_characters()
    ensures { ColumnsAreCharacters }
{}

/// In a text of ASCII the column is one more than the character of a position in each encoding.
pub fn alike_on_ascii()
    ensures { AlikeOnAscii }
{}
