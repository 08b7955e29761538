//! Tokens that the grammar fixes.
ghost use Rattle.std.specs.Prelude.{◌≡◌};
ghost use Rattle.pc_reader.specs.Reading.{IsReady};
ghost use Rattle.pc_reader.specs.Internal.FixedWords.{kinds_of, ReadsForm, ReadsFixed};

use crate::reader::Reader;
use pc_source::Fault;
use pc_token::{Token, TokenKind};
use std::convert::AsStr;

impl<X: AsStr + Drop, I: Iterator<Item = Result<Token<X>, Fault>> + Drop> Reader<X, I> {
    /// Takes a name of this form. If another token is ahead, fails with the fault that `misfit` returns.
    pub fn expect_name(&mut self, form: &str) -> Result<Token<X>, Fault>
        requires { IsReady I.can_next I.remaining self.old }
        ensures { ReadsForm X.AsStr I.Iterator form.now self.old self.new result }
    {
        if self.sees_name(form) {
            self.take()
        } else {
            Err(self.misfit())
        }
    }

    /// Takes tokens of these kinds, in order. At the first that is not of its kind, fails with the fault that `misfit`
    /// returns.
    pub fn fixed(&mut self, kinds: &[TokenKind]) -> Result<(), Fault>
        requires { IsReady I.can_next I.remaining self.old }
        ensures { ReadsFixed X.AsStr I.Iterator (kinds_of kinds.now) self.old self.new result }
    {
        for kind in kinds {
            self.expect(*kind)?;
        }
        Ok(())
    }
}
