//! The ends of tests of `None`.
ghost use Rattle.pc_reader.specs.Reading.{IsReady};
ghost use Rattle.pc_reader.specs.Internal.NoneTests.{ReadsNone};

use crate::reader::Reader;
use pc_source::Fault;
use pc_token::{Keyword, Token, TokenKind};
use std::convert::AsStr;

/// The part of a test of `None` after `is`: whether it is `not None`, and the byte where it ends.
#[derive(Drop)]
pub(crate) struct NoneTest {
    pub negated: bool,
    pub end: usize,
}

impl<X: AsStr + Drop, I: Iterator<Item = Result<Token<X>, Fault>> + Drop> Reader<X, I> {
    /// Reads the `None` or `not None` after `is`.
    pub(crate) fn none(&mut self) -> Result<NoneTest, Fault>
        requires { IsReady I.can_next I.remaining self.old }
        ensures { ReadsNone X.AsStr I.Iterator self.old self.new result }
    {
        if self.sees(TokenKind::Keyword(Keyword::Not)) {
            self.skip()?;
            let none = self.expect_place(TokenKind::Keyword(Keyword::None))?;
            return Ok(NoneTest {
                negated: true,
                end: none.end,
            });
        }
        let none = self.expect_place(TokenKind::Keyword(Keyword::None))?;
        Ok(NoneTest {
            negated: false,
            end: none.end,
        })
    }
}
