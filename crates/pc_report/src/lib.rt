//! The report of findings: its rows, its text and its JSON, and its output to a device; also the input of bytes from a
//! device.
#![tactic(auto)]

mod detailed_pieces;
mod fault_lines;
mod flow;
mod format;
mod json_pieces;
mod laws;
mod listing;
mod listing_pieces;
mod object;
mod pieces;
mod reading;
mod report;
mod text_pieces;
mod writing;

pub use detailed_pieces::ShownDetail;
pub use fault_lines::tell_fault;
pub use flow::FlowTexts;
pub use format::Format;
pub use laws::reports_are_read_back;
pub use listing::{TypeEntry, TypeKind, TypeListing, TypeRow};
pub use reading::{ReadFault, read_at_most};
pub use report::{Report, Row, line_and_column};
pub use writing::{WriteFault, write_whole};
