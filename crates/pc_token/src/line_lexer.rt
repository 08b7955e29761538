//! The piece at a byte of a logical line.
ghost use Rattle.std.specs.Prelude.{◌≡◌, ◌<◌, ◌≤◌, ◌↔◌, ◌++◌, IsTrue, true, false, length, drop, slice_index, IsUtf8};
ghost use Rattle.std.specs.Prelude.{IfOk, IfErr, MatchOption};
ghost use Rattle.std.specs.Char.{is_ascii_digit};
ghost use Rattle.std.specs.Str.{IsCharBoundary};
ghost use Rattle.pc_source.specs.Answers.{OnRefusal};
ghost use Rattle.pc_token.specs.Gaps.{is_blank, ends_line, starts_line_end};
ghost use Rattle.pc_token.specs.Names.{begins_word};
ghost use Rattle.pc_token.specs.Operators.{operator_text, role_of};
ghost use Rattle.pc_token.specs.Spelling.{IsLongest};
ghost use Rattle.pc_token.specs.Strings.{is_quote};
ghost use Rattle.pc_token.specs.Context.{touches_word};

use crate::bytes::byte_at;
use crate::gap::{blank_len, comment_len, ends_line, run_len, space_len, starts_line_end};
use crate::keywords::keyword_of;
use crate::name::{begins_word, form_of, is_bad_name, name_end};
use crate::number::{digit_count, is_bad_number, is_bad_point, number_len};
use crate::operators::{Role, operator_at};
use crate::string::{is_tripled, string_len};
use crate::token::{Operator, TextToken, TokenKind};
use pc_source::{Fault, RefusalCode};
use std::alloc::Global;

/// The greatest number of open brackets.
const BRACKET_LIMIT: usize = 64;

/// The greatest number of digits of a number.
const DIGIT_LIMIT: usize = 1_000;

/// A logical line, as far as it is read.
#[derive(Drop)]
pub(crate) struct LineLexer<'a> {
    pub alloc: Global,
    pub text: &'a str,
    pub at: usize,
    pub start: usize,
    pub brackets: Vec<Operator>,
    pub tokens: Vec<TextToken<'a>>,
    pub last: Option<TokenKind>,
    pub ended: usize,
}

/// A token, with its end and, for a name that is not ASCII, its normal form.
#[derive(Drop)]
pub(crate) struct FoundToken {
    pub kind: TokenKind,
    pub end: usize,
    pub form: Option<Box<String>>,
}

/// The next piece, with its end.
#[derive(Drop)]
pub(crate) enum NextPiece {
    Gap(usize),
    LineEnd(usize),
    Token(FoundToken),
}

/// Whether the leading blanks of a line contain a tab and more than a comment follows them. `spaces` counts the spaces
/// before the first tab, `len` all blanks.
fn is_bad_tab(bytes: &[u8], spaces: usize, len: usize) -> bool
    requires { len ≤ length bytes.now }
    ensures { IsTrue result ↔ ((spaces < len) × (ends_line (drop len bytes.now) ≡ false)) }
{
    spaces < len && !ends_line(&bytes[len..])
}

impl<'a> LineLexer<'a> {
    ghost use Rattle.pc_token.specs.Internal.LineReading.{context_of, GoesTo, IsNextToken, IsNext, IsRefusedHere};
    ghost use Rattle.pc_token.specs.Internal.LineReading.{IsBracketFault};
    ghost use Rattle.pc_token.specs.Splitting.{Blanks, Comment, LineEnd, MayOpenOrClose};

    /// Returns the bytes from here on.
    fn rest(&self) -> &'a [u8]
        requires within { self.now.at < length self.now.text.now }
        ensures rest { result.now ≡ drop self.now.at self.now.text.now }
        ensures utf8 { IsUtf8 self.now.text.now }
        ensures some { 0 < length result.now }
    {
        &self.text.as_bytes()[self.at..]
    }

    /// Returns the next piece. Fails with the refusal here, if there is one.
    pub(crate) fn next_piece(&self) -> Result<NextPiece, Fault>
        requires within { self.now.at < length self.now.text.now }
        requires boundary { IsCharBoundary self.now.text.now self.now.at }
        ensures next { IfOk result (IsNext (context_of self.now) self.now.text.now) }
        ensures refused { IfErr result (OnRefusal (IsRefusedHere (context_of self.now) self.now.text.now)) }
    {
        let bytes = self.rest();
        match byte_at(bytes, 0) {
            b' ' | b'\t' => Ok(NextPiece::Gap(self.blanks()?)),
            b'#' => Ok(NextPiece::Gap(self.comment())),
            b'\n' => Ok(NextPiece::LineEnd(self.at + 1)),
            b'\r' if starts_line_end(bytes) => Ok(NextPiece::LineEnd(self.at + 2)),
            b'"' | b'\'' => Ok(NextPiece::Token(self.string()?)),
            b'0'..=b'9' => Ok(NextPiece::Token(self.number()?)),
            _ => Ok(NextPiece::Token(self.word_or_operator()?)),
        }
    }

    /// Returns the end of the spaces and tabs here. Fails with `L7` at a tab in the indentation of a line that has
    /// tokens.
    fn blanks(&self) -> Result<usize, Fault>
        requires within { self.now.at < length self.now.text.now }
        requires boundary { IsCharBoundary self.now.text.now self.now.at }
        requires here { is_blank (slice_index self.now.text.now self.now.at) ≡ true }
        ensures next { IfOk result (GoesTo (context_of self.now) self.now.text.now Blanks) }
        ensures refused { IfErr result (OnRefusal (IsRefusedHere (context_of self.now) self.now.text.now)) }
    {
        let bytes = self.rest();
        if self.last.is_some() {
            return Ok(self.at + run_len(bytes));
        }
        let spaces = space_len(bytes);
        let len = blank_len(bytes, spaces);
        if is_bad_tab(bytes, spaces, len) {
            return Err(Fault::refused_at(RefusalCode::L7, self.at + spaces));
        }
        Ok(self.at + len)
    }

    /// Returns the end of the comment here.
    fn comment(&self) -> usize
        requires within { self.now.at < length self.now.text.now }
        requires boundary { IsCharBoundary self.now.text.now self.now.at }
        requires here { slice_index self.now.text.now self.now.at ≡ 35 }
        ensures { GoesTo (context_of self.now) self.now.text.now Comment result }
    {
        self.at + comment_len(self.rest())
    }

    /// Returns the string here. Fails with `L2`.
    fn string(&self) -> Result<FoundToken, Fault>
        requires within { self.now.at < length self.now.text.now }
        requires boundary { IsCharBoundary self.now.text.now self.now.at }
        requires here { is_quote (slice_index self.now.text.now self.now.at) ≡ true }
        ensures next { IfOk result (IsNextToken (context_of self.now) self.now.text.now) }
        ensures refused { IfErr result (OnRefusal (IsRefusedHere (context_of self.now) self.now.text.now)) }
    {
        let bytes = self.rest();
        if self.touches_word() || is_tripled(bytes) {
            return Err(Fault::refused_at(RefusalCode::L2, self.at));
        }
        match string_len(bytes) {
            Some(len) => Ok(FoundToken {
                kind: TokenKind::Str,
                end: self.at + len,
                form: None,
            }),
            None => Err(Fault::refused_at(RefusalCode::L2, self.at)),
        }
    }

    /// Whether a name, a keyword or a number ends here.
    fn touches_word(&self) -> bool
        ensures { result ≡ touches_word (context_of self.now) }
    {
        let word = matches!(
            self.last,
            Some(TokenKind::Name | TokenKind::Int | TokenKind::Keyword(_))
        );
        word && self.ended == self.at
    }

    /// Returns the number here. Fails with `L3` or `L8`.
    fn number(&self) -> Result<FoundToken, Fault>
        requires within { self.now.at < length self.now.text.now }
        requires boundary { IsCharBoundary self.now.text.now self.now.at }
        requires here { is_ascii_digit (slice_index self.now.text.now self.now.at) ≡ true }
        ensures next { IfOk result (IsNextToken (context_of self.now) self.now.text.now) }
        ensures refused { IfErr result (OnRefusal (IsRefusedHere (context_of self.now) self.now.text.now)) }
    {
        if is_bad_number(self.text, self.at) {
            return Err(Fault::refused_at(RefusalCode::L3, self.at));
        }
        let bytes = self.rest();
        let len = number_len(bytes);
        if digit_count(&bytes[..len]) > DIGIT_LIMIT {
            return Err(Fault::refused_at(RefusalCode::L8, self.at));
        }
        Ok(FoundToken {
            kind: TokenKind::Int,
            end: self.at + len,
            form: None,
        })
    }

    /// Returns the name, keyword or operator here. Fails if it is refused, or with `L1` if there is none.
    fn word_or_operator(&self) -> Result<FoundToken, Fault>
        requires within { self.now.at < length self.now.text.now }
        requires boundary { IsCharBoundary self.now.text.now self.now.at }
        requires no_blank { is_blank (slice_index self.now.text.now self.now.at) ≡ false }
        requires no_comment { slice_index self.now.text.now self.now.at ≡ 35 → ⊥ }
        requires no_line_end { starts_line_end (drop self.now.at self.now.text.now) ≡ false }
        requires no_quote { is_quote (slice_index self.now.text.now self.now.at) ≡ false }
        requires no_digit { is_ascii_digit (slice_index self.now.text.now self.now.at) ≡ false }
        ensures next { IfOk result (IsNextToken (context_of self.now) self.now.text.now) }
        ensures refused { IfErr result (OnRefusal (IsRefusedHere (context_of self.now) self.now.text.now)) }
    {
        if begins_word(self.text, self.at) {
            return self.word();
        }
        match operator_at(self.rest()) {
            Some(operator) => self.operator(operator),
            None => Err(Fault::refused_at(RefusalCode::L1, self.at)),
        }
    }

    /// Returns the name or keyword here. Fails with `L4` for a name that is refused.
    fn word(&self) -> Result<FoundToken, Fault>
        requires within { self.now.at < length self.now.text.now }
        requires boundary { IsCharBoundary self.now.text.now self.now.at }
        requires here { begins_word (drop self.now.at self.now.text.now) ≡ true }
        ensures next { IfOk result (IsNextToken (context_of self.now) self.now.text.now) }
        ensures refused { IfErr result (OnRefusal (IsRefusedHere (context_of self.now) self.now.text.now)) }
    {
        let (end, known_ascii) = name_end(self.text, self.at);
        let name = &self.text[self.at..end];
        if let Some(keyword) = keyword_of(name) {
            return Ok(FoundToken {
                kind: TokenKind::Keyword(keyword),
                end,
                form: None,
            });
        }
        let form = form_of(self.alloc, name, known_ascii)?;
        if is_bad_name(self.last, name, &form) {
            return Err(Fault::refused_at(RefusalCode::L4, self.at));
        }
        Ok(FoundToken {
            kind: TokenKind::Name,
            end,
            form,
        })
    }

    /// Returns the code with which an operator is refused as a bracket here, if it is.
    fn bracket_fault(&self, operator: Operator) -> Option<RefusalCode>
        ensures { MatchOption result (MayOpenOrClose (role_of operator) self.now.brackets.items)
            (IsBracketFault (role_of operator) self.now.brackets.items) }
    {
        match operator.role() {
            Role::Opens => (self.brackets.len() >= BRACKET_LIMIT).then_some(RefusalCode::L6),
            Role::Closes(opener) => match self.brackets.last() {
                Some(last) if *last == opener => None,
                _ => Some(RefusalCode::L5),
            },
            Role::Plain => None,
        }
    }

    /// Returns the operator here. Fails if it is refused as a bracket, or with `L3` if it is a point followed by a
    /// digit.
    fn operator(&self, operator: Operator) -> Result<FoundToken, Fault>
        requires within { self.now.at < length self.now.text.now }
        requires boundary { IsCharBoundary self.now.text.now self.now.at }
        requires front { drop self.now.at self.now.text.now
            ≡ operator_text operator ++ drop (length (operator_text operator)) (drop self.now.at self.now.text.now) }
        requires here { IsLongest (TokenKind.Operator operator) (operator_text operator)
            (drop (length (operator_text operator)) (drop self.now.at self.now.text.now)) }
        ensures next { IfOk result (IsNextToken (context_of self.now) self.now.text.now) }
        ensures refused { IfErr result (OnRefusal (IsRefusedHere (context_of self.now) self.now.text.now)) }
    {
        if let Some(code) = self.bracket_fault(operator) {
            return Err(Fault::refused_at(code, self.at));
        }
        if is_bad_point(self.rest()) {
            return Err(Fault::refused_at(RefusalCode::L3, self.at));
        }
        Ok(FoundToken {
            kind: TokenKind::Operator(operator),
            end: self.at + operator.text().len(),
            form: None,
        })
    }
}
