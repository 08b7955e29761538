//! Places of tokens that are taken.
ghost use Rattle.std.specs.Prelude.{◌≡◌, MatchResult, None};
ghost use Rattle.pc_grammar.specs.Machine.{Reading, at, stop, short};
ghost use Rattle.pc_grammar.specs.Machine.States.{State};
ghost use Rattle.pc_reader.specs.Reading.{Blames, Came, IsReady, NeedsKind};
ghost use Rattle.pc_reader.specs.Internal.Expressions.{TakesAt, TakesKindAt};

use crate::reader::Reader;
use pc_source::{Fault, Place};
use pc_token::{Token, TokenKind};
use std::convert::AsStr;

impl<X: AsStr + Drop, I: Iterator<Item = Result<Token<X>, Fault>> + Drop> Reader<X, I> {
    /// Takes the token ahead and returns its place. Fails with `G1` at the end of the text if there is none, or with
    /// the stream's next fault.
    pub(crate) fn take_place(&mut self) -> Result<Place, Fault>
        requires { IsReady I.can_next I.remaining self.old }
        ensures { MatchResult result (λ p. TakesAt X.AsStr I.Iterator self.old self.new p)
            (λ e. Blames e (λ o. (r : Reading) → (self.old.ahead ≡ None → stop r ≡ short)
            → Came X.text I.next_gives self.old r o)) }
    {
        let token = self.take()?;
        Ok(token.place)
    }

    /// Takes the token ahead and returns its place. If it is not of this kind, fails with the fault that `misfit`
    /// returns.
    pub(crate) fn expect_place(&mut self, kind: TokenKind) -> Result<Place, Fault>
        requires { IsReady I.can_next I.remaining self.old }
        ensures { MatchResult result (λ p. TakesKindAt X.AsStr I.Iterator kind self.old self.new p)
            (λ e. Blames e (λ o. (st : State) → NeedsKind X.text kind st self.old
            → Came X.text I.next_gives self.old (at st) o)) }
    {
        let token = self.expect(kind)?;
        Ok(token.place)
    }
}
