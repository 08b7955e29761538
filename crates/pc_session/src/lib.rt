//! A session of the Language Server Protocol: the effect of each message and the replies to it. No device is used here.
#![tactic(auto)]

mod laws;
mod messages;
mod notifications;
mod published;
mod replies;
mod requests;
mod session;
mod settings;
mod spoiled;
mod steps;

pub use laws::{replies_are_determined, sessions_go_on, sessions_stay_in_step};
pub use session::{Session, Stage};
pub use steps::{refuse_long, step};
