//! Operators and delimiters.
ghost use Rattle.std.specs.Prelude.{◌≡◌, ◌<◌, ◌==◌, [], ◌∷◌, find, length, nat_eq, slice_index};
ghost use Rattle.std.specs.List.{filter, starts_with};
ghost use Rattle.pc_token.specs.Operators.{operator_text, operators, role_of};
ghost use Rattle.pc_token.specs.Internal.Candidates.{stands_second};

use crate::bytes::byte_at;
use crate::token::Operator;

impl Operator {
    /// Returns the operator as it is spelled.
    pub fn text(self) -> &'static str
        ensures { result.now ≡ operator_text self }
    {
        match self {
            Operator::Plus => "+",
            Operator::Minus => "-",
            Operator::Star => "*",
            Operator::DoubleSlash => "//",
            Operator::Percent => "%",
            Operator::EqualEqual => "==",
            Operator::NotEqual => "!=",
            Operator::Less => "<",
            Operator::LessEqual => "<=",
            Operator::Greater => ">",
            Operator::GreaterEqual => ">=",
            Operator::Equal => "=",
            Operator::LeftParenthesis => "(",
            Operator::RightParenthesis => ")",
            Operator::LeftBracket => "[",
            Operator::RightBracket => "]",
            Operator::LeftBrace => "{",
            Operator::RightBrace => "}",
            Operator::Comma => ",",
            Operator::Colon => ":",
            Operator::Dot => ".",
            Operator::Bar => "|",
            Operator::Arrow => "->",
            Operator::At => "@",
            Operator::Slash => "/",
            Operator::DoubleStar => "**",
            Operator::Ampersand => "&",
            Operator::Circumflex => "^",
            Operator::Tilde => "~",
            Operator::LeftShift => "<<",
            Operator::RightShift => ">>",
            Operator::ColonEqual => ":=",
            Operator::PlusEqual => "+=",
            Operator::MinusEqual => "-=",
            Operator::StarEqual => "*=",
            Operator::SlashEqual => "/=",
            Operator::DoubleSlashEqual => "//=",
            Operator::PercentEqual => "%=",
            Operator::DoubleStarEqual => "**=",
            Operator::AmpersandEqual => "&=",
            Operator::BarEqual => "|=",
            Operator::CircumflexEqual => "^=",
            Operator::LeftShiftEqual => "<<=",
            Operator::RightShiftEqual => ">>=",
            Operator::AtEqual => "@=",
            Operator::Semicolon => ";",
            Operator::Ellipsis => "...",
        }
    }
}

/// The operators that begin with `*`, the longer before the shorter.
const STARS: [Operator; 4] = [
    Operator::DoubleStarEqual,
    Operator::DoubleStar,
    Operator::StarEqual,
    Operator::Star,
];

/// The operators that begin with `/`, the longer before the shorter.
const SLASHES: [Operator; 4] = [
    Operator::DoubleSlashEqual,
    Operator::DoubleSlash,
    Operator::SlashEqual,
    Operator::Slash,
];

/// The operators that begin with `<`, the longer before the shorter.
const LESSES: [Operator; 4] = [
    Operator::LeftShiftEqual,
    Operator::LessEqual,
    Operator::LeftShift,
    Operator::Less,
];

/// The operators that begin with `>`, the longer before the shorter.
const GREATERS: [Operator; 4] = [
    Operator::RightShiftEqual,
    Operator::GreaterEqual,
    Operator::RightShift,
    Operator::Greater,
];

/// Returns the operators that begin with `byte`, the longer before the shorter.
fn beginning_with(byte: u8) -> &'static [Operator]
    ensures { result.now ≡ filter (λ o. slice_index (operator_text o) 0 == byte) operators }
{
    match byte {
        b'!' => &[Operator::NotEqual],
        b'%' => &[Operator::PercentEqual, Operator::Percent],
        b'&' => &[Operator::AmpersandEqual, Operator::Ampersand],
        b'(' => &[Operator::LeftParenthesis],
        b')' => &[Operator::RightParenthesis],
        b'*' => &STARS,
        b'+' => &[Operator::PlusEqual, Operator::Plus],
        b',' => &[Operator::Comma],
        b'-' => &[Operator::Arrow, Operator::MinusEqual, Operator::Minus],
        b'.' => &[Operator::Ellipsis, Operator::Dot],
        b'/' => &SLASHES,
        b':' => &[Operator::ColonEqual, Operator::Colon],
        b';' => &[Operator::Semicolon],
        b'<' => &LESSES,
        b'=' => &[Operator::EqualEqual, Operator::Equal],
        b'>' => &GREATERS,
        b'@' => &[Operator::AtEqual, Operator::At],
        b'[' => &[Operator::LeftBracket],
        b']' => &[Operator::RightBracket],
        b'^' => &[Operator::CircumflexEqual, Operator::Circumflex],
        b'{' => &[Operator::LeftBrace],
        b'|' => &[Operator::BarEqual, Operator::Bar],
        b'}' => &[Operator::RightBrace],
        b'~' => &[Operator::Tilde],
        _ => &[],
    }
}

/// Whether the bytes begin with an operator.
fn stands_at(bytes: &[u8], operator: Operator) -> bool
    ensures { result ≡ starts_with nat_eq bytes.now (operator_text operator) }
{
    bytes.starts_with(operator.text().as_bytes())
}

/// Returns the first candidate with which the bytes begin.
fn first_standing(bytes: &[u8], candidates: &[Operator]) -> Option<Operator>
    ensures { result ≡ find (λ o. starts_with nat_eq bytes.now (operator_text o)) candidates.now }
{
    candidates
        .iter()
        .copied()
        .find(|operator| stands_at(bytes, *operator))
}

/// Whether a byte is second in some operator.
fn stands_second(byte: u8) -> bool
    ensures { result ≡ stands_second byte }
{
    matches!(byte, b'*' | b'.' | b'/' | b'<' | b'=' | b'>')
}

/// Returns the operator that is this one byte, if one is.
fn of_one_byte(byte: u8) -> Option<Operator>
    ensures { result ≡ find (λ o. starts_with nat_eq (byte ∷ []) (operator_text o)) operators }
{
    match byte {
        b'%' => Some(Operator::Percent),
        b'&' => Some(Operator::Ampersand),
        b'(' => Some(Operator::LeftParenthesis),
        b')' => Some(Operator::RightParenthesis),
        b'*' => Some(Operator::Star),
        b'+' => Some(Operator::Plus),
        b',' => Some(Operator::Comma),
        b'-' => Some(Operator::Minus),
        b'.' => Some(Operator::Dot),
        b'/' => Some(Operator::Slash),
        b':' => Some(Operator::Colon),
        b';' => Some(Operator::Semicolon),
        b'<' => Some(Operator::Less),
        b'=' => Some(Operator::Equal),
        b'>' => Some(Operator::Greater),
        b'@' => Some(Operator::At),
        b'[' => Some(Operator::LeftBracket),
        b']' => Some(Operator::RightBracket),
        b'^' => Some(Operator::Circumflex),
        b'{' => Some(Operator::LeftBrace),
        b'|' => Some(Operator::Bar),
        b'}' => Some(Operator::RightBrace),
        b'~' => Some(Operator::Tilde),
        _ => None,
    }
}

/// Returns the longest operator with which the bytes begin. Most operators are followed by a byte that is second in no
/// operator, and are decided by their one byte; the others are compared with those that have the same first byte.
pub(crate) fn operator_at(bytes: &[u8]) -> Option<Operator>
    requires { 0 < length bytes.now }
    ensures { result ≡ find (λ o. starts_with nat_eq bytes.now (operator_text o)) operators }
{
    let first = byte_at(bytes, 0);
    let second = byte_at(bytes, 1);
    if !stands_second(second) {
        return of_one_byte(first);
    }
    first_standing(bytes, beginning_with(first))
}

/// The role of an operator as a bracket. `Closes` names the opener that it matches.
#[derive(Clone, Copy, Debug, PartialEq, Eq)]
pub(crate) enum Role {
    Opens,
    Closes(Operator),
    Plain,
}

impl Operator {
    /// Returns the operator's role as a bracket.
    pub(crate) fn role(self) -> Role
        ensures { result ≡ role_of self }
    {
        match self {
            Operator::LeftParenthesis | Operator::LeftBracket | Operator::LeftBrace => Role::Opens,
            Operator::RightParenthesis => Role::Closes(Operator::LeftParenthesis),
            Operator::RightBracket => Role::Closes(Operator::LeftBracket),
            Operator::RightBrace => Role::Closes(Operator::LeftBrace),
            _ => Role::Plain,
        }
    }
}
