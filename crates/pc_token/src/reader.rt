//! Reading one logical line.
ghost use Rattle.std.specs.Prelude.{◌≡◌, ◌-◌, List, [], ◌∷◌, ◌++◌, map, Result, OnOk, MatchOption, MatchResult};
ghost use Rattle.pc_source.specs.declared.fault.Refusal.{Refusal};
ghost use Rattle.pc_token.specs.Lexeme.{LogicalLine, logical_line_of, lexeme_of};
ghost use Rattle.pc_token.specs.Splitting.{close_line};
ghost use Rattle.pc_token.specs.Context.{brackets_after};
ghost use Rattle.std.specs.Str.{IsCharBoundary};
ghost use Rattle.pc_source.specs.Answers.{OnRefusal};

use crate::line_lexer::{FoundToken, LineLexer, NextPiece};
use crate::operators::Role;
use crate::token::{Line, Operator, Token, TokenKind};
use pc_source::{Fault, Place, Refusal, RefusalCode};
use std::alloc::{AllocError, Global};

/// The token capacity of a line, allocated at its first token. Few lines have more tokens, and allocators keep blocks
/// of this size, below a kilobyte, at hand.
const FIRST_ROOM: usize = 18;

/// Appends an item. The first one allocates enough for most lines.
fn put<T: Drop>(items: &mut Vec<T>, item: T) -> Result<(), AllocError>
    ensures { OnOk result (items.new.items ≡ items.old.items ++ item ∷ []) }
{
    if items.is_empty() {
        items.reserve(FIRST_ROOM)?;
    }
    items.push(item)?;
    Ok(())
}

/// Updates the open brackets for a token.
fn turn_bracket(brackets: &mut Vec<Operator>, kind: TokenKind) -> Result<(), AllocError>
    ensures { OnOk result (brackets.new.items ≡ brackets_after kind brackets.old.items) }
{
    let TokenKind::Operator(operator) = kind else {
        return Ok(());
    };
    match operator.role() {
        Role::Opens => brackets.push(operator)?,
        Role::Closes(_) => {
            let _ = brackets.pop();
        }
        Role::Plain => {}
    }
    Ok(())
}

impl<'a> LineLexer<'a> {
    ghost use Rattle.pc_token.specs.Context.{line_start};
    ghost use Rattle.pc_token.specs.Internal.LineReading.{context_of, IsNextToken, TakesToken, ReadsLine, IsRefusedLater};

    /// Returns a reading at the start of a logical line, with `brackets` as its storage.
    pub(crate) fn new(
        alloc: Global,
        text: &'a str,
        at: usize,
        brackets: Vec<Operator>,
    ) -> LineLexer<'a>
        requires { brackets.items ≡ [] }
        ensures context { context_of result ≡ line_start at }
        ensures text { result.text.now ≡ text.now }
    {
        LineLexer {
            alloc,
            text,
            at,
            start: at,
            brackets,
            tokens: Vec::new(alloc),
            last: None,
            ended: at,
        }
    }

    /// Adds a token to the line and goes to its end. Fails if an allocation fails.
    fn take(&mut self, found: FoundToken) -> Result<(), AllocError>
        requires boundary { IsCharBoundary self.old.text.now self.old.at }
        requires found { IsNextToken (context_of self.old) self.old.text.now found }
        ensures { OnOk result (TakesToken self.old self.new found) }
    {
        let text = self.text;
        let token = Token {
            kind: found.kind,
            place: Place {
                start: self.at,
                end: found.end,
            },
            text: &text[self.at..found.end],
            form: found.form,
        };
        turn_bracket(&mut self.brackets, found.kind)?;
        put(&mut self.tokens, token)?;
        self.at = found.end;
        self.last = Some(found.kind);
        self.ended = found.end;
        Ok(())
    }

    /// Begins a new logical line at `at`; the current one must have no token.
    fn restart(&mut self, at: usize)
        ensures { self.new ≡ record self.old { at = at; start = at; last = None; ended = at } }
    {
        self.at = at;
        self.start = at;
        self.last = None;
        self.ended = at;
    }

    /// Reads to the end of the next logical line that has a token, or to the end of the text. Returns whether it
    /// stopped at a line end. Fails with the first refusal, or if an allocation fails.
    pub(crate) fn read(&mut self) -> Result<bool, Fault>
        requires { IsCharBoundary self.old.text.now self.old.at }
        ensures { MatchResult result (ReadsLine self.old self.new) (OnRefusal (IsRefusedLater self.old)) }
    {
        while self.at < self.text.len() {
            match self.next_piece()? {
                NextPiece::Gap(end) => self.at = end,
                NextPiece::LineEnd(end) => {
                    if !self.brackets.is_empty() {
                        self.at = end;
                    } else if self.tokens.is_empty() {
                        self.restart(end);
                    } else {
                        self.at = end;
                        return Ok(true);
                    }
                }
                NextPiece::Token(found) => self.take(found)?,
            }
        }
        if !self.brackets.is_empty() {
            let byte = self.at;
            let code = RefusalCode::L5;
            return Err(Fault::Refused(Refusal { code, byte }));
        }
        Ok(false)
    }

    /// Returns the logical line that was read, if it has a token.
    pub(crate) fn into_line(self) -> Option<Line<'a>>
        ensures { MatchOption result (self.entry.tokens.items ≡ [])
            (λ l. (items : List (Result LogicalLine Refusal))
            → close_line self.entry.start (map lexeme_of self.entry.tokens.items) items ≡ Ok (logical_line_of l) ∷ items) }
    {
        let first = self.tokens.first()?;
        let column = first.place.start.saturating_sub(self.start);
        Some(Line {
            column,
            tokens: self.tokens,
        })
    }
}
