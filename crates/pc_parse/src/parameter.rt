//! Parameters: names with their annotations and defaults. As in `statement.rt`, tokens and annotations are dropped by name.
ghost use Rattle.std.specs.Prelude.{◌≡◌};
ghost use Rattle.pc_reader.specs.Reading.{IsReady};
ghost use Rattle.pc_parse.specs.Internal.Signatures.{ReadsOpened, ReadsParam, ReadsParams};

use crate::parser::Parser;
use pc_source::Fault;
use pc_token::{Operator, Token, TokenKind};
use pc_tree::{Ann, Param, put_last};
use std::alloc::Global;
use std::convert::AsStr;

impl<X: AsStr + Drop, I: Iterator<Item = Result<Token<X>, Fault>> + Drop> Parser<X, I> {
    /// Reads `opener` and an annotation, if that sign is ahead.
    pub(crate) fn annotation_behind(
        &mut self,
        alloc: Global,
        opener: Operator,
    ) -> Result<Option<Ann>, Fault>
        requires { IsReady I.can_next I.remaining self.old.reader }
        ensures { ReadsOpened X.AsStr I.Iterator opener self.old self.new result }
    {
        if !self.reader.sees(TokenKind::Operator(opener)) {
            return Ok(None);
        }
        drop(self.reader.take()?);
        let annotation = self.annotation(alloc)?;
        Ok(Some(annotation))
    }

    /// Reads a parameter: a name, and its annotation and its default if it has them.
    fn parameter(&mut self, alloc: Global) -> Result<Param, Fault>
        requires { IsReady I.can_next I.remaining self.old.reader }
        ensures { ReadsParam X.AsStr I.Iterator self.old self.new result }
    {
        let name = self.reader.name(alloc)?;
        let annotation = self.annotation_behind(alloc, Operator::Colon)?;
        let default = match self.reader.default(alloc) {
            Ok(default) => default,
            Err(fault) => {
                drop(annotation);
                return Err(fault);
            }
        };
        Ok(Param {
            name,
            annotation,
            default,
        })
    }

    /// Reads parameters and the closing parenthesis.
    pub(crate) fn parameters(&mut self, alloc: Global) -> Result<Vec<Param>, Fault>
        requires { IsReady I.can_next I.remaining self.old.reader }
        ensures { ReadsParams X.AsStr I.Iterator self.old self.new result }
    {
        let mut params = Vec::new(alloc);
        loop {
            if self
                .reader
                .sees(TokenKind::Operator(Operator::RightParenthesis))
            {
                drop(self.reader.take()?);
                return Ok(params);
            }
            let param = self.parameter(alloc)?;
            put_last(&mut params, param)?;
            if !self.reader.sees(TokenKind::Operator(Operator::Comma)) {
                drop(
                    self.reader
                        .expect(TokenKind::Operator(Operator::RightParenthesis))?,
                );
                return Ok(params);
            }
            drop(self.reader.take()?);
        }
    }
}
