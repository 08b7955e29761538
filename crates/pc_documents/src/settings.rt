//! The settings of a session, as far as diagnostics depend on them.

use pc_position::Encoding;

/// Settings agreed at `initialize`.
#[derive(Debug, Drop)]
pub struct Settings {
    /// Encoding in which characters are counted.
    pub encoding: Encoding,
    /// Severity of a dynamic place: 2 (warning) or 3 (information).
    pub dynamic_severity: u64,
    /// URL of the page that explains the codes, if the client named one.
    pub codes_page: Option<String>,
    /// Whether the client pulls diagnostics. If so, none are published to it.
    pub pulls: bool,
    /// Whether the client accepts related information. If not, diagnostics have none.
    pub related: bool,
}

/// The severity of a warning. Language Server Protocol 3.17, "DiagnosticSeverity".
pub const WARNING: u64 = 2;
