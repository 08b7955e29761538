//! The program `pycheck` over any devices: from the bytes of a reader to standard output, standard error and the exit
//! status.
#![tactic(auto)]

mod asked;
mod file;
mod status;
mod telling;

pub use asked::{AnswerKind, Asked};
pub use file::check_file;
pub use pc_top::{CheckFault, FindingCounts, Format};
pub use status::status_of;
