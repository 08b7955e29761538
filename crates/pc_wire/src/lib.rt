//! Framed messages of the Language Server Protocol: a header that gives a length, and that many bytes.
#![tactic(auto)]

mod fault;
mod fields;
mod laws;
mod receiving;
mod sending;

pub use fault::{FrameFault, HeaderFault, SendFault};
pub use laws::{one_frame, one_list};
pub use receiving::{HEADER_LIMIT, MESSAGE_LIMIT, read_message};
pub use sending::{framed, write_message, write_whole};
