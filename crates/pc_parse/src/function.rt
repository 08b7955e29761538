//! Functions and methods. As in `statement.rt`, tokens and annotations are dropped by name.
ghost use Rattle.std.specs.Prelude.{◌≡◌};
ghost use Rattle.pc_reader.specs.Reading.{IsReady};
ghost use Rattle.pc_parse.specs.Internal.Signatures.{ReadsMethodParams, ReadsSignature, ReadsFunction};

use crate::parser::Parser;
use pc_source::Fault;
use pc_token::{Operator, Token, TokenKind};
use pc_tree::{FuncDef, Param};
use std::alloc::Global;
use std::convert::AsStr;

impl<X: AsStr + Drop, I: Iterator<Item = Result<Token<X>, Fault>> + Drop> Parser<X, I> {
    /// Reads `self`, the parameters after it, and the closing parenthesis.
    fn parameters_of_method(&mut self, alloc: Global) -> Result<Vec<Param>, Fault>
        requires { IsReady I.can_next I.remaining self.old.reader }
        ensures { ReadsMethodParams X.AsStr I.Iterator self.old self.new result }
    {
        drop(self.reader.expect_name("self")?);
        if self.reader.sees(TokenKind::Operator(Operator::Comma)) {
            drop(self.reader.take()?);
            return self.parameters(alloc);
        }
        drop(
            self.reader
                .expect(TokenKind::Operator(Operator::RightParenthesis))?,
        );
        Ok(Vec::new(alloc))
    }

    /// Reads the parameters of a function or a method, with the parentheses around them.
    fn signature(&mut self, alloc: Global, method: bool) -> Result<Vec<Param>, Fault>
        requires { IsReady I.can_next I.remaining self.old.reader }
        ensures { ReadsSignature X.AsStr I.Iterator method self.old self.new result }
    {
        drop(
            self.reader
                .expect(TokenKind::Operator(Operator::LeftParenthesis))?,
        );
        if method {
            return self.parameters_of_method(alloc);
        }
        self.parameters(alloc)
    }

    /// Reads a function or a method, from after its `def`.
    pub(crate) fn function(&mut self, alloc: Global, method: bool) -> Result<FuncDef, Fault>
        requires { IsReady I.can_next I.remaining self.old.reader }
        ensures { ReadsFunction X.AsStr I.Iterator method self.old self.new result }
    {
        let name = self.reader.name(alloc)?;
        let params = self.signature(alloc, method)?;
        let returns = self.annotation_behind(alloc, Operator::Arrow)?;
        match self.reader.expect(TokenKind::Operator(Operator::Colon)) {
            Ok(colon) => drop(colon),
            Err(fault) => {
                drop(returns);
                return Err(fault);
            }
        }
        let body = match self.suite(alloc) {
            Ok(body) => body,
            Err(fault) => {
                drop(returns);
                return Err(fault);
            }
        };
        Ok(FuncDef {
            name,
            params,
            returns,
            body,
        })
    }
}
