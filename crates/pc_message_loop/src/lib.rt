//! Answers the messages of a device until `exit` or the end of the input.
#![tactic(auto)]

mod laws;
mod serving;

pub use laws::sessions_are_written;
pub use serving::{ServingEnd, serve};
