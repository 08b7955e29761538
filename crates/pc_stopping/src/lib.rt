//! The findings that stop each run of a module before its first event: E01, E05, E06, E28, E29, E31.
#![tactic(auto)]

mod calls;
mod defaults;
mod defs;
mod entry;
mod holdings;
mod loops;
mod members;
mod names;
mod reserved;
mod stopping;
mod twice;

pub use members::find_in_classes;
pub use stopping::{find_in_scopes, stops};
