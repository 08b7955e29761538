//! Keywords.
ghost use Rattle.std.specs.Prelude.{◌≡◌, find, bytes_eq};
ghost use Rattle.std.specs.List.{filter};
ghost use Rattle.pc_token.specs.Internal.Candidates.{may_be};
ghost use Rattle.pc_token.specs.Keywords.{keyword_text, keywords, is_keyword};

use crate::bytes::byte_at;
use crate::token::Keyword;

impl Keyword {
    /// Returns the keyword as it is spelled.
    pub fn text(self) -> &'static str
        ensures { result.now ≡ keyword_text self }
    {
        match self {
            Keyword::False => "False",
            Keyword::None => "None",
            Keyword::True => "True",
            Keyword::And => "and",
            Keyword::As => "as",
            Keyword::Assert => "assert",
            Keyword::Async => "async",
            Keyword::Await => "await",
            Keyword::Break => "break",
            Keyword::Class => "class",
            Keyword::Continue => "continue",
            Keyword::Def => "def",
            Keyword::Del => "del",
            Keyword::Elif => "elif",
            Keyword::Else => "else",
            Keyword::Except => "except",
            Keyword::Finally => "finally",
            Keyword::For => "for",
            Keyword::From => "from",
            Keyword::Global => "global",
            Keyword::If => "if",
            Keyword::Import => "import",
            Keyword::In => "in",
            Keyword::Is => "is",
            Keyword::Lambda => "lambda",
            Keyword::Nonlocal => "nonlocal",
            Keyword::Not => "not",
            Keyword::Or => "or",
            Keyword::Pass => "pass",
            Keyword::Raise => "raise",
            Keyword::Return => "return",
            Keyword::Try => "try",
            Keyword::While => "while",
            Keyword::With => "with",
            Keyword::Yield => "yield",
        }
    }
}

/// Returns the keywords of two bytes that begin with `first`.
fn of_two(first: u8) -> &'static [Keyword]
    ensures { result.now ≡ filter (may_be 2 first) keywords }
{
    match first {
        b'a' => &[Keyword::As],
        b'i' => &[Keyword::If, Keyword::In, Keyword::Is],
        b'o' => &[Keyword::Or],
        _ => &[],
    }
}

/// Returns the keywords of three bytes that begin with `first`.
fn of_three(first: u8) -> &'static [Keyword]
    ensures { result.now ≡ filter (may_be 3 first) keywords }
{
    match first {
        b'a' => &[Keyword::And],
        b'd' => &[Keyword::Def, Keyword::Del],
        b'f' => &[Keyword::For],
        b'n' => &[Keyword::Not],
        b't' => &[Keyword::Try],
        _ => &[],
    }
}

/// Returns the keywords of four bytes that begin with `first`.
fn of_four(first: u8) -> &'static [Keyword]
    ensures { result.now ≡ filter (may_be 4 first) keywords }
{
    match first {
        b'N' => &[Keyword::None],
        b'T' => &[Keyword::True],
        b'e' => &[Keyword::Elif, Keyword::Else],
        b'f' => &[Keyword::From],
        b'p' => &[Keyword::Pass],
        b'w' => &[Keyword::With],
        _ => &[],
    }
}

/// Returns the keywords of five bytes that begin with `first`.
fn of_five(first: u8) -> &'static [Keyword]
    ensures { result.now ≡ filter (may_be 5 first) keywords }
{
    match first {
        b'F' => &[Keyword::False],
        b'a' => &[Keyword::Async, Keyword::Await],
        b'b' => &[Keyword::Break],
        b'c' => &[Keyword::Class],
        b'r' => &[Keyword::Raise],
        b'w' => &[Keyword::While],
        b'y' => &[Keyword::Yield],
        _ => &[],
    }
}

/// Returns the keywords of six bytes that begin with `first`.
fn of_six(first: u8) -> &'static [Keyword]
    ensures { result.now ≡ filter (may_be 6 first) keywords }
{
    match first {
        b'a' => &[Keyword::Assert],
        b'e' => &[Keyword::Except],
        b'g' => &[Keyword::Global],
        b'i' => &[Keyword::Import],
        b'l' => &[Keyword::Lambda],
        b'r' => &[Keyword::Return],
        _ => &[],
    }
}

/// Returns the keywords of seven bytes that begin with `first`.
fn of_seven(first: u8) -> &'static [Keyword]
    ensures { result.now ≡ filter (may_be 7 first) keywords }
{
    match first {
        b'f' => &[Keyword::Finally],
        _ => &[],
    }
}

/// Returns the keywords of eight bytes that begin with `first`.
fn of_eight(first: u8) -> &'static [Keyword]
    ensures { result.now ≡ filter (may_be 8 first) keywords }
{
    match first {
        b'c' => &[Keyword::Continue],
        b'n' => &[Keyword::Nonlocal],
        _ => &[],
    }
}

/// Returns the keywords of `len` bytes that begin with `first`, at most three.
fn beginning_with(len: usize, first: u8) -> &'static [Keyword]
    ensures { result.now ≡ filter (may_be len first) keywords }
{
    match len {
        2 => of_two(first),
        3 => of_three(first),
        4 => of_four(first),
        5 => of_five(first),
        6 => of_six(first),
        7 => of_seven(first),
        8 => of_eight(first),
        _ => &[],
    }
}

/// Whether `name` is the spelling of the keyword.
fn is_spelled(keyword: Keyword, name: &str) -> bool
    ensures { result ≡ bytes_eq (keyword_text keyword) name.now }
{
    keyword.text() == name
}

/// Returns the first candidate that is spelled `name`. A function of its own, since most names have no candidates.
#[inline(never)]
fn first_spelled(candidates: &[Keyword], name: &str) -> Option<Keyword>
    ensures { result ≡ find (λ k. bytes_eq (keyword_text k) name.now) candidates.now }
{
    candidates.iter().copied().find(|k| is_spelled(*k, name))
}

/// Returns the keyword that is spelled `name`, if one is. Looks only at those with its length and first byte.
pub(crate) fn keyword_of(name: &str) -> Option<Keyword>
    ensures { result ≡ find (λ k. bytes_eq (keyword_text k) name.now) keywords }
{
    let first = byte_at(name.as_bytes(), 0);
    let candidates = beginning_with(name.len(), first);
    if candidates.is_empty() {
        return None;
    }
    first_spelled(candidates, name)
}

/// Whether a name is a keyword.
pub(crate) fn is_keyword(name: &str) -> bool
    ensures { result ≡ is_keyword name.now }
{
    keyword_of(name).is_some()
}
