//! The language server over any devices: the proved check as the checker of a session, and laws about its diagnostics.
#![tactic(auto)]

mod laws;
mod proved;
mod status;

pub use laws::{
    changed_texts_are_published, diagnostics_are_rows, long_texts_are_refused,
    opened_texts_are_published, replies_are_determined, sessions_are_written, sessions_go_on,
    sessions_stay_in_step,
};
pub use proved::answer;
pub use status::status_of;
