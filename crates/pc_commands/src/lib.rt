//! The parts of the programs other than reading and printing: the words of their command lines, the run of a file's
//! bytes, and the reason that a device failed.
#![tactic(auto)]

mod check_words;
mod command_line;
mod devices;
mod faults;
mod run_words;
mod running;

pub use check_words::{CheckOptions, check_options};
pub use command_line::{given_words, tell};
pub use devices::{RemembersError, reason_of};
pub use faults::OptionFault;
pub use run_words::{RunOptions, run_options};
pub use running::traced;
