//! The first and last token of a logical line, its words, and their faults.
ghost use Rattle.std.specs.Prelude.{◌≡◌, ℕ, ◌+◌, ◌-◌, ◌<◌, ◌≤◌, ◌&&◌, ◌==◌, true, false, List, [], ◌∷◌, length, map};
ghost use Rattle.std.specs.Prelude.{drop, take};
ghost use Rattle.std.specs.Str.{bytes_eq};
ghost use Rattle.std.specs.Cmp.Lexicographic.{pointwise};
ghost use Rattle.pc_token.specs.Lexeme.{lexeme_of, form_of};
ghost use Rattle.pc_layout.specs.Spelling.{first_kind as first_kind_of, last_kind as last_kind_of};
ghost use Rattle.pc_layout.specs.Spelling.{first_byte as first_byte_of, last_byte as last_byte_of, dataclass_decorator};
ghost use Rattle.pc_layout.specs.Spelling.{excludes_keyword as excluded_keywords};
ghost use Rattle.pc_layout.specs.Spelling.{excludes_operator as excluded_operators};
ghost use Rattle.pc_layout.specs.Stepping.{is_colon, is_def};
ghost use Rattle.pc_layout.specs.Placing.{is_spelled as spelled, is_header as header_of};
ghost use Rattle.pc_layout.specs.Placing.{opening_fault as opening_fault_of, exclusion as excluded_of};
ghost use Rattle.pc_layout.specs.Placing.{first_excluded as first_excluded_of, word_fault as word_fault_of};

use pc_source::{Refusal, RefusalCode};
use pc_token::{Keyword, Operator, TextToken, TokenKind};

/// Returns the kind of the first token, if there is one.
pub fn first_kind(tokens: &[TextToken<'_>]) -> Option<TokenKind>
    ensures { result ≡ first_kind_of (map lexeme_of tokens.now) }
{
    match tokens.first() {
        None => None,
        Some(token) => Some(token.kind),
    }
}

/// Returns the kind of the last token, if there is one.
pub fn last_kind(tokens: &[TextToken<'_>]) -> Option<TokenKind>
    ensures { result ≡ last_kind_of (map lexeme_of tokens.now) }
{
    match tokens.last() {
        None => None,
        Some(token) => Some(token.kind),
    }
}

/// Returns the byte at which the first token begins, or the length of the text if there is none.
pub fn first_byte(len: usize, tokens: &[TextToken<'_>]) -> usize
    ensures { result ≡ first_byte_of len (map lexeme_of tokens.now) }
{
    match tokens.first() {
        None => len,
        Some(token) => token.place.start,
    }
}

/// Returns the byte at which the last token ends, or the length of the text if there is none.
pub fn last_byte(len: usize, tokens: &[TextToken<'_>]) -> usize
    ensures { result ≡ last_byte_of len (map lexeme_of tokens.now) }
{
    match tokens.last() {
        None => len,
        Some(token) => token.place.end,
    }
}

/// Returns the word of a token: the normal form of a name, the text of any other token.
fn form<'t>(token: &'t TextToken<'_>) -> &'t str
    ensures { result.now ≡ form_of token.now.text.now token.now.form }
{
    match &token.form {
        None => token.text,
        Some(form) => form.as_str(),
    }
}

/// Whether the tokens are these words.
fn is_spelled(tokens: &[TextToken<'_>], words: &[&str]) -> bool
    ensures { result ≡ spelled (map lexeme_of tokens.now) (map (λ w. w.now) words.now) }
{
    if tokens.len() != words.len() {
        return false;
    }
    for i in 0..words.len() {
        if form(&tokens[i]) != words[i] {
            return false;
        }
    }
    true
}

/// Whether a line at `column` is one of the three import headers.
fn is_header(column: usize, tokens: &[TextToken<'_>]) -> bool
    ensures { result ≡ header_of column (map lexeme_of tokens.now) }
{
    column == 0
        && (is_spelled(tokens, &["from", "__future__", "import", "annotations"])
            || is_spelled(tokens, &["from", "dataclasses", "import", "dataclass"])
            || is_spelled(tokens, &["from", "typing", "import", "Any"]))
}

/// Whether the profile excludes the keyword.
fn excludes_keyword(keyword: Keyword) -> bool
    ensures { result ≡ excluded_keywords keyword }
{
    matches!(
        keyword,
        Keyword::As
            | Keyword::Async
            | Keyword::Await
            | Keyword::Del
            | Keyword::Except
            | Keyword::Finally
            | Keyword::From
            | Keyword::Global
            | Keyword::Import
            | Keyword::Lambda
            | Keyword::Nonlocal
            | Keyword::Raise
            | Keyword::Try
            | Keyword::With
            | Keyword::Yield
    )
}

/// Whether the profile excludes the operator.
fn excludes_operator(operator: Operator) -> bool
    ensures { result ≡ excluded_operators operator }
{
    matches!(
        operator,
        Operator::Slash
            | Operator::DoubleStar
            | Operator::Ampersand
            | Operator::Circumflex
            | Operator::Tilde
            | Operator::LeftShift
            | Operator::RightShift
            | Operator::ColonEqual
            | Operator::PlusEqual
            | Operator::MinusEqual
            | Operator::StarEqual
            | Operator::SlashEqual
            | Operator::DoubleSlashEqual
            | Operator::PercentEqual
            | Operator::DoubleStarEqual
            | Operator::AmpersandEqual
            | Operator::BarEqual
            | Operator::CircumflexEqual
            | Operator::LeftShiftEqual
            | Operator::RightShiftEqual
            | Operator::AtEqual
            | Operator::Semicolon
            | Operator::Ellipsis
    )
}

/// Whether the tokens are the only decorator.
fn is_dataclass(tokens: &[TextToken<'_>]) -> bool
    ensures { result ≡ spelled (map lexeme_of tokens.now) dataclass_decorator }
{
    is_spelled(tokens, &["@", "dataclass"])
}

/// Returns the code of the fault of a line's first token: `N3`, `N4` or `N5`.
fn opening_fault(in_def: bool, column: usize, tokens: &[TextToken<'_>]) -> Option<RefusalCode>
    ensures { let xs = map lexeme_of tokens.now in result ≡ opening_fault_of in_def column xs (first_kind_of xs) }
{
    match first_kind(tokens) {
        Some(TokenKind::Keyword(Keyword::Def)) => {
            if in_def { Some(RefusalCode::N3) } else { None }
        }
        Some(TokenKind::Keyword(Keyword::Class)) => {
            if column > 0 {
                Some(RefusalCode::N4)
            } else {
                None
            }
        }
        Some(TokenKind::Operator(Operator::At)) => {
            if is_dataclass(tokens) {
                None
            } else {
                Some(RefusalCode::N5)
            }
        }
        _ => None,
    }
}

/// Returns the code of a token that the profile excludes: `N1` or `N2`.
fn excluded(header: bool, kind: TokenKind) -> Option<RefusalCode>
    ensures { result ≡ excluded_of header kind }
{
    match kind {
        TokenKind::Keyword(keyword) => {
            if excludes_keyword(keyword) && !header {
                Some(RefusalCode::N1)
            } else {
                None
            }
        }
        TokenKind::Operator(operator) => {
            if excludes_operator(operator) {
                Some(RefusalCode::N2)
            } else {
                None
            }
        }
        _ => None,
    }
}

/// Returns the refusal of the first token that the profile excludes.
fn first_excluded(header: bool, tokens: &[TextToken<'_>]) -> Option<Refusal>
    ensures { result ≡ first_excluded_of header (map lexeme_of tokens.now) }
{
    for token in tokens {
        if let Some(code) = excluded(header, token.kind) {
            return Some(Refusal {
                code,
                byte: token.place.start,
            });
        }
    }
    None
}

/// Returns the refusal of the words of a line at `column`, if any. `len` is the length of the text.
pub fn word_fault(
    len: usize,
    in_def: bool,
    column: usize,
    tokens: &[TextToken<'_>],
) -> Option<Refusal>
    ensures { result ≡ word_fault_of len in_def column (map lexeme_of tokens.now) }
{
    match opening_fault(in_def, column, tokens) {
        Some(code) => Some(Refusal {
            code,
            byte: first_byte(len, tokens),
        }),
        None => first_excluded(is_header(column, tokens), tokens),
    }
}

/// Whether the last token is `:`.
pub fn ends_in_colon(tokens: &[TextToken<'_>]) -> bool
    ensures { result ≡ is_colon (last_kind_of (map lexeme_of tokens.now)) }
{
    matches!(
        last_kind(tokens),
        Some(TokenKind::Operator(Operator::Colon))
    )
}

/// Whether the first token is `def`.
pub fn begins_with_def(tokens: &[TextToken<'_>]) -> bool
    ensures { result ≡ is_def (first_kind_of (map lexeme_of tokens.now)) }
{
    matches!(first_kind(tokens), Some(TokenKind::Keyword(Keyword::Def)))
}
