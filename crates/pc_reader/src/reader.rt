//! Tokens with one token of lookahead.
ghost use Rattle.std.specs.Prelude.{◌≡◌, ◌<◌, List, ℕ, MatchResult, IfOk, None};
ghost use Rattle.std.specs.Iterator.{IsFinite};
ghost use Rattle.pc_token.specs.Lexeme.{form_of};
ghost use Rattle.pc_grammar.specs.Machine.Kinds.{same_kind};
ghost use Rattle.pc_grammar.specs.Machine.States.{State};
ghost use Rattle.pc_grammar.specs.Machine.{Reading, at, lost, stop, short};
ghost use Rattle.pc_reader.specs.Internal.FixedWords.{IsFormAhead};
ghost use Rattle.pc_reader.specs.Reading.{Blames, Came, IsAhead, kind_ahead, place_ahead, IsReady, Rejects};
ghost use Rattle.pc_reader.specs.Reading.{ComesToAnswer, Takes, Skips, NeedsKind, misfit_at};

use pc_source::{Fault, Place, Refusal, RefusalCode};
use pc_token::{Token, TokenKind};
use std::convert::AsStr;
use std::mem;

/// Whether two kinds are the same.
pub(crate) fn is_same(kind: TokenKind, other: TokenKind) -> bool
    ensures { result ≡ same_kind kind other }
{
    kind == other
}

/// A stream of tokens, with the next one taken off already, and the byte where the last taken one ends.
#[derive(Drop)]
pub struct Reader<X: Drop, I: Drop> {
    /// The tokens after the one ahead.
    pub tokens: I,
    /// The next token, if one is left.
    pub ahead: Option<Token<X>>,
    /// The byte where the last taken token ends, 0 if none was taken.
    pub end: usize,
}

impl<X: AsStr + Drop, I: Iterator<Item = Result<Token<X>, Fault>> + Drop> Reader<X, I> {
    /// Creates a reader of the whole stream. Fails if the stream begins with a fault.
    pub fn new(tokens: I) -> Result<Self, Fault>
        requires can { I.can_next tokens }
        requires ends { IsFinite (I.remaining tokens) }
        ensures ready { MatchResult result (λ r. IsReady I.can_next I.remaining r) (λ _. Unit {0}) }
        ensures leads { MatchResult result
            (λ r. (st : Reading) (o : _) → Came X.text I.next_gives r st o
            → ComesToAnswer X.text I.next_gives tokens 0 st o)
            (λ e. Blames e (λ o. (st : Reading) → ComesToAnswer X.text I.next_gives tokens 0 st o)) }
    {
        let mut tokens = tokens;
        match tokens.next() {
            Some(Ok(first)) => Ok(Reader {
                tokens,
                ahead: Some(first),
                end: 0,
            }),
            Some(Err(fault)) => Err(fault),
            None => Ok(Reader {
                tokens,
                ahead: None,
                end: 0,
            }),
        }
    }

    /// Returns the kind of the token ahead.
    pub fn kind(&self) -> Option<TokenKind>
        ensures { result ≡ kind_ahead self.now.ahead }
    {
        match &self.ahead {
            Some(first) => Some(first.kind),
            None => None,
        }
    }

    /// Whether the token ahead is of this kind.
    pub fn sees(&self, kind: TokenKind) -> bool
        ensures { result ≡ IsAhead kind self.now.ahead }
    {
        match &self.ahead {
            Some(first) => is_same(first.kind, kind),
            None => false,
        }
    }

    /// Takes the token ahead. Fails with `G1` at the end of the text if there is none, or with the stream's next fault.
    #[inline(always)]
    pub fn take(&mut self) -> Result<Token<X>, Fault>
        requires { IsReady I.can_next I.remaining self.old }
        ensures { MatchResult result (λ t. Takes X.AsStr I.Iterator self.old self.new t)
            (λ e. Blames e (λ o. (r : Reading) → (self.old.ahead ≡ None → stop r ≡ short)
            → Came X.text I.next_gives self.old r o)) }
    {
        let Some(first) = self.ahead.take() else {
            return Err(Fault::Refused(Refusal {
                code: RefusalCode::G1,
                byte: self.end,
            }));
        };
        self.end = first.place.end;
        match self.tokens.next() {
            Some(Ok(next)) => {
                self.ahead = Some(next);
                Ok(first)
            }
            Some(Err(fault)) => Err(fault),
            None => Ok(first),
        }
    }

    /// Skips the token ahead. Fails with `G1` at the end of the text if there is none, or with the stream's next fault.
    #[inline(always)]
    pub(crate) fn skip(&mut self) -> Result<(), Fault>
        requires { IsReady I.can_next I.remaining self.old }
        ensures { MatchResult result (λ _. Skips X.AsStr I.Iterator self.old self.new)
            (λ e. Blames e (λ o. (r : Reading) → (self.old.ahead ≡ None → stop r ≡ short)
            → Came X.text I.next_gives self.old r o)) }
    {
        let Some(passed) = &self.ahead else {
            return Err(Fault::Refused(Refusal {
                code: RefusalCode::G1,
                byte: self.end,
            }));
        };
        self.end = passed.place.end;
        match self.tokens.next() {
            Some(Ok(next)) => {
                self.ahead = Some(next);
                Ok(())
            }
            Some(Err(fault)) => {
                self.ahead = None;
                Err(fault)
            }
            None => {
                self.ahead = None;
                Ok(())
            }
        }
    }

    /// Skips all remaining tokens. Fails with the first fault of the stream among them.
    fn drain(&mut self) -> Result<(), Fault>
        requires { IsReady I.can_next I.remaining self.old }
        ensures { MatchResult result
            (λ _. (byte : ℕ) → Came X.text I.next_gives self.old (lost byte) (misfit_at byte))
            (λ e. Blames e (λ o. (byte : ℕ) → Came X.text I.next_gives self.old (lost byte) o)) }
    {
        while let Some(_next) = &self.ahead {
            self.take()?;
        }
        Ok(())
    }

    /// Returns the fault for a token ahead that does not fit: the first fault in the rest of the stream, otherwise `G1`
    /// at that token, or at the end of the text if there is none. Skips all remaining tokens.
    pub fn misfit(&mut self) -> Fault
        requires { IsReady I.can_next I.remaining self.old }
        ensures { Blames result (λ o. (st : State) → Rejects X.text st self.old
            → Came X.text I.next_gives self.old (at st) o) }
    {
        let byte = match &self.ahead {
            Some(first) => first.place.start,
            None => self.end,
        };
        match self.drain() {
            Ok(()) => Fault::Refused(Refusal {
                code: RefusalCode::G1,
                byte,
            }),
            Err(fault) => fault,
        }
    }

    /// Takes the token ahead. If it is not of this kind, fails with the fault that `misfit` returns.
    #[inline(always)]
    pub fn expect(&mut self, kind: TokenKind) -> Result<Token<X>, Fault>
        requires { IsReady I.can_next I.remaining self.old }
        ensures taken { MatchResult result (λ t. Takes X.AsStr I.Iterator self.old self.new t)
            (λ e. Blames e (λ o. (st : State) → NeedsKind X.text kind st self.old
            → Came X.text I.next_gives self.old (at st) o)) }
        ensures kind { IfOk result (λ t. t.kind ≡ kind) }
    {
        if self.sees(kind) {
            self.take()
        } else {
            Err(self.misfit())
        }
    }
}

/// Returns the word of a token: the normal form of a name, the text of any other token.
pub(crate) fn form<'t, X: AsStr + Drop>(token: &'t Token<X>) -> &'t str
    ensures { result.now ≡ form_of (X.text token.now.text) token.now.form }
{
    match &token.form {
        Some(form) => form.as_str(),
        None => token.text.as_str(),
    }
}

impl<X: AsStr + Drop, I: Iterator<Item = Result<Token<X>, Fault>> + Drop> Reader<X, I> {
    /// Whether the token ahead is a name of this form.
    pub fn sees_name(&self, name: &str) -> bool
        ensures { result ≡ IsFormAhead X.text name.now self.now.ahead }
    {
        match &self.ahead {
            Some(first) => is_same(first.kind, TokenKind::Name) && form(first) == name,
            None => false,
        }
    }
}

impl<X: AsStr + Drop, I: Iterator<Item = Result<Token<X>, Fault>> + Drop> Reader<X, I> {
    /// Returns the place of the token ahead.
    pub fn place(&self) -> Option<Place>
        ensures { result ≡ place_ahead self.now.ahead }
    {
        match &self.ahead {
            Some(first) => Some(first.place),
            None => None,
        }
    }
}
