//! From bytes to the module that they spell, or to their refusal.
#![tactic(auto)]

mod laws;
mod reading;

pub use laws::{
    every_text_is_answered, module_or_refusal, one_module_of_bytes, one_refusal_of_bytes,
    refusals_of_bytes_within,
};
pub use reading::{parse_source, read_module};
