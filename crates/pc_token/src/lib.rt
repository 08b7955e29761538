//! Tokens and logical lines.
#![tactic(auto)]

mod bytes;
mod gap;
mod keywords;
pub mod laws;
mod line_lexer;
mod name;
mod number;
mod operators;
mod reader;
mod source_lines;
mod stream;
mod string;
mod token;

pub use source_lines::{lines, tokens};
pub use stream::Lines;
pub use token::{Keyword, Line, Operator, TextToken, Token, TokenKind};
