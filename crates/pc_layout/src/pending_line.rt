//! The current line of the iterator of tokens.
ghost use Rattle.std.specs.Prelude.{◌≡◌, ℕ, ◌+◌, ◌-◌, ◌^◌, ◌<◌, ◌≤◌, ◌*◌, true, false, List, [], ◌∷◌, length, map, Ok};
ghost use Rattle.std.specs.Prelude.{◌++◌, Err, IsTrue, MatchOption, MatchResult, OnOk};
ghost use Rattle.pc_token.specs.Lexeme.{lexeme_of, logical_line_of};
ghost use Rattle.pc_layout.specs.Stepping.{outrank, start, layout_lexemes};
ghost use Rattle.pc_layout.specs.TokenIterator.Levels.{context_of, line_of_tokens, StepsTo};

use crate::levels::{Levels, SuiteChange};
use crate::line::{begins_with_def, ends_in_colon, first_byte, last_byte, word_fault};
use crate::line_end::{LineEnd, empty_token, line_end};
use pc_source::{Place, Refusal, RefusalCode, Source};
use pc_token::{Line, TextToken, Token, TokenKind};
use std::alloc::Global;

/// The number of tokens of a long line after which their memory is freed.
const ROOM: usize = 65_536;

/// The tokens that the iterator gives next.
#[derive(Clone, Copy, Debug)]
pub enum LineStage {
    /// The tokens of the next line, which is still to be requested.
    Lines,
    /// The rest of the current line: its DEDENTs, its INDENT, its tokens, its NEWLINE.
    Line,
    /// The DEDENTs after the last line, and END.
    End,
    Nothing,
}

/// The current line, and the suites open at it.
#[derive(Drop)]
pub struct PendingLine<'a> {
    text: &'a str,
    levels: Levels,
    /// The byte of the DEDENTs and the INDENT.
    mark: usize,
    dedents: usize,
    indent: bool,
    /// The tokens left of the line, in reverse order.
    tokens: Vec<TextToken<'a>>,
    end: LineEnd<'a>,
    pub due: LineStage,
}

/// Removes the last token. Shrinks the list of a long line from time to time, since what is built from its tokens needs
/// memory too.
fn pop<'a>(tokens: &mut Vec<TextToken<'a>>) -> Option<TextToken<'a>>
    ensures { MatchOption result ((tokens.old.items ≡ []) × (tokens.new.items ≡ []))
        (λ t. tokens.old.items ≡ tokens.new.items ++ t ∷ []) }
{
    if tokens.len() % ROOM == 0 {
        tokens.shrink_to_fit();
    }
    tokens.pop()
}

/// Places a line among the open suites and returns the signs before it. Fails with the refusal of its placement or its
/// words.
fn step(
    levels: &mut Levels,
    len: usize,
    column: usize,
    tokens: &[TextToken<'_>],
) -> Result<SuiteChange, Refusal>
    ensures { StepsTo len (context_of levels.old) (line_of_tokens column (map lexeme_of tokens.now)) result
        (context_of levels.new) }
{
    match levels.place(column) {
        Err(code) => {
            let byte = first_byte(len, tokens);
            Err(Refusal { code, byte })
        }
        Ok(signs) => match word_fault(len, levels.in_def(), column, tokens) {
            Some(refusal) => Err(refusal),
            None => {
                levels.note(ends_in_colon(tokens), begins_with_def(tokens));
                Ok(signs)
            }
        },
    }
}

impl<'a> PendingLine<'a> {
    ghost use Rattle.pc_layout.specs.TokenIterator.PendingTokens.{pending, pending_by, has_token, asks, at_hand};

    /// Returns the state before the first line.
    pub fn new(alloc: Global, source: &'a Source) -> PendingLine<'a>
        ensures pending { (ls : List _) → pending result ls ≡ layout_lexemes source.now start ls }
        ensures due { result.due ≡ LineStage.Lines }
    {
        let text = source.text();
        PendingLine {
            text,
            levels: Levels::new(),
            mark: 0,
            dedents: 0,
            indent: false,
            tokens: Vec::new(alloc),
            end: line_end(text, 0),
            due: LineStage::Lines,
        }
    }

    /// Makes `line` the current line. Fails with its refusal.
    pub fn begin(&mut self, line: Line<'a>) -> Result<(), Refusal>
        requires { self.old.due ≡ LineStage.Lines }
        ensures gives { MatchResult result
            (λ _. (ls : List _) → pending self.old (Ok (logical_line_of line.entry) ∷ ls) ≡ pending self.new ls)
            (λ r. (ls : List _) → pending self.old (Ok (logical_line_of line.entry) ∷ ls) ≡ Err (outrank r ls) ∷ []) }
        ensures due { OnOk result (self.new.due ≡ LineStage.Line) }
        ensures count { OnOk result (at_hand self.new < 2 ^ 65 + 3) }
    {
        let Line { column, mut tokens } = line;
        let len = self.text.len();
        let signs = match step(&mut self.levels, len, column, tokens.as_slice()) {
            Ok(signs) => signs,
            Err(refusal) => return Err(refusal),
        };
        self.mark = first_byte(len, tokens.as_slice());
        self.dedents = signs.dedents;
        self.indent = signs.indent;
        self.end = line_end(self.text, last_byte(len, tokens.as_slice()));
        tokens.reverse();
        self.tokens = tokens;
        self.due = LineStage::Line;
        Ok(())
    }

    /// Ends the lines: the DEDENTs of the open suites and END are next.
    pub fn finish(&mut self)
        requires { self.old.due ≡ LineStage.Lines }
        ensures gives { pending self.old [] ≡ pending self.new [] }
        ensures due { self.new.due ≡ LineStage.End }
        ensures count { at_hand self.new < 2 ^ 65 + 3 }
    {
        self.mark = self.text.len();
        self.dedents = self.levels.len();
        self.due = LineStage::End;
    }

    /// Takes the INDENT, the next token or the NEWLINE of the current line.
    fn take_of_line(&mut self) -> TextToken<'a>
        requires due { self.old.due ≡ LineStage.Line }
        requires dedents { self.old.dedents ≡ 0 }
        ensures gives { (ls : List _) → pending self.old ls ≡ Ok (lexeme_of result) ∷ pending self.new ls }
        ensures fewer { at_hand self.new < at_hand self.old }
        ensures asks { asks self.new.due ≡ true }
    {
        if self.indent {
            self.indent = false;
            return empty_token(TokenKind::Indent, self.mark);
        }
        match pop(&mut self.tokens) {
            Some(token) => token,
            None => {
                self.due = LineStage::Lines;
                Token {
                    kind: TokenKind::Newline,
                    place: self.end.place,
                    text: self.end.text,
                    form: None,
                }
            }
        }
    }

    /// Whether the next token is one of the line, and no memory is to be freed before it.
    fn goes_on(&self) -> bool
        ensures { IsTrue result → (self.now.due ≡ LineStage.Line) × (self.now.dedents ≡ 0) × (self.now.indent ≡ false) }
    {
        let in_line = matches!(self.due, LineStage::Line) && self.dedents == 0 && !self.indent;
        in_line && self.tokens.len() % ROOM != 0
    }

    /// Takes the next token. Fast for a token of the line, as most are.
    pub fn take(&mut self) -> TextToken<'a>
        requires { has_token self.old.due ≡ true }
        ensures gives { (ls : List _) → pending self.old ls ≡ Ok (lexeme_of result) ∷ pending self.new ls }
        ensures fewer { at_hand self.new < at_hand self.old }
        ensures asks { asks self.new.due ≡ asks self.old.due }
    {
        if self.goes_on() {
            if let Some(token) = self.tokens.pop() {
                return token;
            }
        }
        self.take_any()
    }

    /// Takes the next token of any kind. A function of its own, to keep the fast path of `take` small.
    #[inline(never)]
    fn take_any(&mut self) -> TextToken<'a>
        requires { has_token self.old.due ≡ true }
        ensures gives { (ls : List _) → pending self.old ls ≡ Ok (lexeme_of result) ∷ pending self.new ls }
        ensures fewer { at_hand self.new < at_hand self.old }
        ensures asks { asks self.new.due ≡ asks self.old.due }
    {
        if self.dedents > 0 {
            self.dedents -= 1;
            return empty_token(TokenKind::Dedent, self.mark);
        }
        match self.due {
            LineStage::End => {
                self.due = LineStage::Nothing;
                empty_token(TokenKind::End, self.text.len())
            }
            _ => self.take_of_line(),
        }
    }
}
