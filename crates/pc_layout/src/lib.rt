//! The layout: logical lines as a flat list of tokens, with the ends of lines and the bounds of suites.
#![tactic(auto)]

pub mod laws;
mod layout_tokens;
mod levels;
mod line;
mod line_end;
mod listed;
mod pending_line;

pub use layout_tokens::{LayoutTokens, layout_of};
pub use listed::layout;
