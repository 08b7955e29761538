//! Tables of worked cases in text files.
#![tactic(auto)]

mod bytes;
mod fault;
mod joined;
mod marks;
mod row;
mod tally;

pub use bytes::bytes_of;
pub use fault::TableFault;
pub use joined::in_one_line;
pub use marks::{BETWEEN, ROW};
pub use row::{TableRow, rows, written_out};
pub use tally::Tally;
