//! Positions in a source text as editors count them.
#![tactic(auto)]

mod laws;
mod positions;

pub use laws::{alike_on_ascii, columns_are_characters, lines_from_one};
pub use positions::{Encoding, Mark, Position, byte_of, mark_after, position_in, position_of};
