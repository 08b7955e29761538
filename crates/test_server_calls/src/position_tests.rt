//! Positions, at characters of each length in UTF-8.
use pc_position::{Encoding, Mark, Position, byte_of, mark_after, position_in, position_of};
use pc_source::read_source;
use std::test::Fail;

/// A character of each length in UTF-8, a letter, a line feed, and a letter.
const TEXT: &str = "a\u{e9}\u{20ac}\u{1f600}b\nc";

/// The byte of the letter `b`, after characters of 1, 2, 3 and 4 bytes.
const LETTER: usize = 10;

fn at(line: u64, character: u64) -> Position {
    Position { line, character }
}

#[test]
fn counts_characters_of_each_length(rt: HostRuntime) {
    let text = TEXT.as_bytes();
    assert_eq!(rt; position_in(text, LETTER, Encoding::Utf8), at(0, 10));
    assert_eq!(rt; position_in(text, LETTER, Encoding::Utf16), at(0, 5));
    assert_eq!(rt; position_in(text, LETTER, Encoding::Utf32), at(0, 4));
}

#[test]
fn counts_from_the_start_of_a_line(rt: HostRuntime) {
    let text = TEXT.as_bytes();
    assert_eq!(rt; position_in(text, 11, Encoding::Utf16), at(0, 6));
    assert_eq!(rt; position_in(text, 12, Encoding::Utf16), at(1, 0));
    assert_eq!(rt; position_in(text, 1000, Encoding::Utf16), at(1, 1));
}

#[test]
fn finds_where_a_character_begins(rt: HostRuntime) {
    let text = TEXT.as_bytes();
    assert_eq!(rt; byte_of(text, Encoding::Utf16, at(0, 2)), Some(3));
    assert_eq!(rt; byte_of(text, Encoding::Utf16, at(0, 5)), Some(LETTER));
    assert_eq!(rt; byte_of(text, Encoding::Utf32, at(0, 4)), Some(LETTER));
    assert_eq!(rt; byte_of(text, Encoding::Utf8, at(0, 7)), Some(7));
    assert_eq!(rt; byte_of(text, Encoding::Utf16, at(1, 1)), Some(13));
}

#[test]
fn finds_no_byte_in_a_pair_or_behind_a_line(rt: HostRuntime) {
    let text = TEXT.as_bytes();
    assert_eq!(rt; byte_of(text, Encoding::Utf16, at(0, 4)), None);
    assert_eq!(rt; byte_of(text, Encoding::Utf16, at(0, 7)), None);
    assert_eq!(rt; byte_of(text, Encoding::Utf32, at(2, 0)), None);
}

#[test]
fn walks_on_from_a_known_mark_and_back(rt: HostRuntime) -> Result<(), Fail> {
    let source = read_source(rt.alloc(), TEXT.as_bytes())?;
    let text = source.text().as_bytes();
    let first = mark_after(text, Encoding::Utf32, Mark::start(), LETTER);
    let onward = mark_after(text, Encoding::Utf32, first, 12);
    assert_eq!(rt; onward.position, position_of(&source, 12, Encoding::Utf32));
    let back = mark_after(text, Encoding::Utf32, onward, 3);
    assert_eq!(rt; back.position, at(0, 2));
    Ok(())
}
