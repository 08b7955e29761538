//! The reader: tokens with one token of lookahead, and parsing that needs no other state: fixed tokens, names,
//! literals, expressions.
#![tactic(auto)]

mod brackets;
mod expression;
mod fixed;
mod items;
mod link;
mod literal;
mod name;
mod none_tests;
mod operand;
mod operators;
mod places;
mod reader;

pub use operand::{Operand, deeper, depth_above, plain_name};
pub use reader::Reader;
