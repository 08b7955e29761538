//! Literals, as the defaults of parameters and fields.
ghost use Rattle.std.specs.Prelude.{◌≡◌, MatchResult, true};
ghost use Rattle.pc_source.specs.declared.fault.Fault.TheVariants as fault;
ghost use Rattle.pc_reader.specs.Reading.{IsReady, lexeme};
ghost use Rattle.pc_reader.specs.Internal.Literals.{ReadsLiteral, ReadsNegative, ReadsDefault, is_literal_kind};
ghost use Rattle.pc_reader.specs.Internal.Literals.{literal_ahead, IsLiteral};

use crate::name::{characters, digits};
use crate::reader::Reader;
use pc_source::{Fault, Place};
use pc_token::{Keyword, Operator, Token, TokenKind};
use pc_tree::{Literal, LiteralKind};
use std::alloc::Global;
use std::convert::AsStr;

/// Whether a token of this kind is a literal by itself.
fn is_literal(kind: TokenKind) -> bool
    ensures { result ≡ is_literal_kind kind }
{
    matches!(
        kind,
        TokenKind::Int
            | TokenKind::Str
            | TokenKind::Keyword(Keyword::True | Keyword::False | Keyword::None)
    )
}

/// Returns the literal that a token is.
fn plain<X: AsStr + Drop>(alloc: Global, token: Token<X>) -> Result<Literal, Fault>
    ensures { MatchResult result (λ l. is_literal_kind token.kind ≡ true → IsLiteral (lexeme X.text token) l)
        (λ e. e ≡ fault.OutOfMemory) }
{
    let place = token.place;
    match token.kind {
        TokenKind::Int => {
            let text = digits(alloc, token.text.as_str())?;
            Ok(Literal {
                place,
                kind: LiteralKind::Int(text),
            })
        }
        TokenKind::Str => {
            let text = characters(alloc, token.text.as_str())?;
            Ok(Literal {
                place,
                kind: LiteralKind::Str(text),
            })
        }
        TokenKind::Keyword(Keyword::True) => Ok(Literal {
            place,
            kind: LiteralKind::True,
        }),
        TokenKind::Keyword(Keyword::False) => Ok(Literal {
            place,
            kind: LiteralKind::False,
        }),
        _ => Ok(Literal {
            place,
            kind: LiteralKind::NoneValue,
        }),
    }
}

impl<X: AsStr + Drop, I: Iterator<Item = Result<Token<X>, Fault>> + Drop> Reader<X, I> {
    /// Whether the token ahead is a literal by itself.
    fn sees_literal(&self) -> bool
        ensures { result ≡ literal_ahead self.now.ahead }
    {
        match self.kind() {
            Some(kind) => is_literal(kind),
            None => false,
        }
    }

    /// Reads a literal: `-` and a whole number, or a single token. If no literal is ahead, fails with the fault that
    /// `misfit` returns.
    fn literal(&mut self, alloc: Global) -> Result<Literal, Fault>
        requires { IsReady I.can_next I.remaining self.old }
        ensures { ReadsLiteral X.AsStr I.Iterator self.old self.new result }
    {
        if self.sees(TokenKind::Operator(Operator::Minus)) {
            let minus = self.take()?;
            return self.negative(alloc, minus.place.start);
        }
        if !self.sees_literal() {
            return Err(self.misfit());
        }
        let token = self.take()?;
        plain(alloc, token)
    }

    /// Reads the whole number after a `-` that begins at byte `start`. If no number is ahead, fails with the fault that
    /// `misfit` returns.
    fn negative(&mut self, alloc: Global, start: usize) -> Result<Literal, Fault>
        requires { IsReady I.can_next I.remaining self.old }
        ensures { ReadsNegative X.AsStr I.Iterator self.old self.new start result }
    {
        let number = self.expect(TokenKind::Int)?;
        let place = Place {
            start,
            end: number.place.end,
        };
        let text = digits(alloc, number.text.as_str())?;
        Ok(Literal {
            place,
            kind: LiteralKind::NegativeInt(text),
        })
    }

    /// Reads `=` and a literal, if `=` is ahead. If no literal follows it, fails with the fault that `misfit` returns.
    pub fn default(&mut self, alloc: Global) -> Result<Option<Literal>, Fault>
        requires { IsReady I.can_next I.remaining self.old }
        ensures { ReadsDefault X.AsStr I.Iterator self.old self.new result }
    {
        if !self.sees(TokenKind::Operator(Operator::Equal)) {
            return Ok(None);
        }
        self.take()?;
        let literal = self.literal(alloc)?;
        Ok(Some(literal))
    }
}
