//! The parser: reads the module that tokens spell, one token at a time.
#![tactic(auto)]

mod annotation;
mod class;
mod function;
pub mod laws;
mod listed;
mod optional_imports;
mod parameter;
mod parser;
mod piece;
mod statement;
mod stream;
mod suite;

pub use listed::parse;
pub use stream::parse_from;
