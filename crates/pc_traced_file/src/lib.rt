//! The program `pyrun` over any devices: from the bytes of a reader to standard output, standard error and the exit
//! status.
#![tactic(auto)]

mod fault;
mod file;
mod reading;
mod status;
mod telling;

pub use fault::RunFault;
pub use file::run_file;
pub use status::status_of;
