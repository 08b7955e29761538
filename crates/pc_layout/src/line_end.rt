//! Ends of lines, and tokens without text.
ghost use Rattle.std.specs.Prelude.{◌≡◌, ℕ, ◌+◌, ◌-◌, ◌<◌, ◌≤◌, length, slice_index, slice_range, position, ◌==◌};
ghost use Rattle.pc_layout.specs.Flat.{line_feed_from, line_end_at, line_end as line_end_from, empty_token as mark_at};
ghost use Rattle.pc_token.specs.Lexeme.{lexeme_of};

use pc_source::Place;
use pc_token::{TextToken, Token, TokenKind};

/// Returns the index of the first line feed.
fn first_line_feed(bytes: &[u8]) -> Option<usize>
    ensures { result ≡ position (λ b. b == 10) bytes.now }
{
    bytes.iter().position(|b| *b == b'\n')
}

/// Returns the index of the first line feed at or after `from`, or the length of the text if there is none.
fn line_feed(bytes: &[u8], from: usize) -> usize
    ensures value { result ≡ line_feed_from bytes.now from }
    ensures within { result ≤ length bytes.now }
    ensures found { result < length bytes.now → slice_index bytes.now result ≡ 10 }
    ensures behind { from < length bytes.now → from ≤ result }
{
    if from >= bytes.len() {
        return bytes.len();
    }
    match first_line_feed(&bytes[from..]) {
        None => bytes.len(),
        Some(n) => from + n,
    }
}

/// The end of a line: its place and its text.
#[derive(Clone, Copy, Debug)]
pub struct LineEnd<'a> {
    pub place: Place,
    pub text: &'a str,
}

/// Returns the first line end at or after byte `from`, or an empty one at the end of the text.
pub fn line_end<'a>(text: &'a str, from: usize) -> LineEnd<'a>
    ensures place { result.place ≡ line_end_from text.now from }
    ensures text { result.text.now ≡ slice_range text.now result.place.start result.place.end }
{
    let bytes = text.as_bytes();
    let feed = line_feed(bytes, from);
    if feed >= bytes.len() {
        let place = Place {
            start: feed,
            end: feed,
        };
        return LineEnd { place, text: "" };
    }
    let start = if feed > from && bytes[feed - 1] == b'\r' {
        feed - 1
    } else {
        feed
    };
    let end = feed + 1;
    LineEnd {
        place: Place { start, end },
        text: &text[start..end],
    }
}

/// Returns a token of the layout without text, at `byte`.
pub fn empty_token<'a>(kind: TokenKind, byte: usize) -> TextToken<'a>
    ensures { lexeme_of result ≡ mark_at kind byte }
{
    Token {
        kind,
        place: Place {
            start: byte,
            end: byte,
        },
        text: "",
        form: None,
    }
}
