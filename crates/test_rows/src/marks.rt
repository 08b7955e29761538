//! The separators of a table's cases and answers.

/// The line between two modules of a table.
pub const BETWEEN: &str = "----\n";

/// The start of each line of an answer in a table.
pub const ROW: &str = "> ";
