//! The check as a static library, for programs in C and for WebAssembly.
#![tactic(auto)]

mod answer;
mod library;
mod room;
mod types;

pub use answer::CheckAnswer;
pub use library::pycheck_check;
pub use types::pycheck_types;
