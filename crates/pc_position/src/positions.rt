//! Positions of bytes.

ghost use Rattle.std.specs.Prelude.{◌≡◌, ◌≤◌, length, Some};
ghost use Rattle.pc_position.specs.Positions.{IsByteAt, IsPositionOf, units, line_at, character_at};

use pc_source::Source;

/// A unit in which the characters of a line are counted. Language Server Protocol 3.17, "PositionEncodingKind".
#[derive(Clone, Copy, Debug, PartialEq, Eq)]
pub enum Encoding {
    /// Bytes of UTF-8.
    Utf8,
    /// Units of UTF-16: two for each character from U+10000 on, one for each other.
    Utf16,
    /// Characters.
    Utf32,
}

/// A line and a character in it, both from 0. Language Server Protocol 3.17, "Position".
#[derive(Clone, Copy, Debug, PartialEq, Eq)]
pub struct Position {
    pub line: u64,
    pub character: u64,
}

/// A byte and its position, as far as a scan of a text has come.
#[derive(Clone, Copy, Debug, PartialEq, Eq)]
pub struct Mark {
    pub byte: usize,
    pub position: Position,
}

impl Mark {
    /// Returns the start of a text.
    pub fn start() -> Mark
        ensures byte { result.byte ≡ 0 }
        ensures line { result.position.line ≡ 0 }
        ensures character { result.position.character ≡ 0 }
    {
        Mark {
            byte: 0,
            position: Position {
                line: 0,
                character: 0,
            },
        }
    }
}

/// Returns the number of units that begin at a byte of UTF-8.
fn units_of(encoding: Encoding, byte: u8) -> u64
    ensures units { result ≡ units encoding byte }
    ensures few { result ≤ 2 }
{
    match encoding {
        Encoding::Utf8 => 1,
        Encoding::Utf16 if byte >= 240 => 2,
        Encoding::Utf16 | Encoding::Utf32 => { if byte < 128 || byte >= 192 { 1 } else { 0 } }
    }
}

/// Returns the mark of a byte, given a known mark of the same text. Scans the text between the two, or from the start
/// if the byte is before the known one.
pub fn mark_after(text: &[u8], encoding: Encoding, known: Mark, byte: usize) -> Mark
    requires known { IsPositionOf encoding text.now known.byte known.position }
    ensures byte { result.byte ≡ byte }
    ensures position { IsPositionOf encoding text.now byte result.position }
{
    let from = if byte < known.byte {
        Mark::start()
    } else {
        known
    };
    let mut line = from.position.line;
    let mut character = from.position.character;
    for at in from.byte..byte.min(text.len()) {
        let b = text[at];
        if b == b'\n' {
            line += 1;
            character = 0;
        } else {
            character += units_of(encoding, b);
        }
    }
    Mark {
        byte,
        position: Position { line, character },
    }
}

/// Returns the mark of a byte if it is at a position, otherwise `found`.
fn at_or(known: Mark, position: Position, found: Option<usize>) -> Option<usize>
    ensures here { known.position ≡ position → result ≡ Some known.byte }
    ensures elsewhere { ¬ (known.position ≡ position) → result ≡ found }
{
    if known.position == position {
        Some(known.byte)
    } else {
        found
    }
}

/// Returns the byte of a text at a position, or the length of the text if its end is there: where a character has several
/// bytes, the last byte at the position is the first one of a character. `None` if neither a byte nor the end is there.
/// Language Server Protocol 3.17, "Position".
pub fn byte_of(text: &[u8], encoding: Encoding, position: Position) -> Option<usize>
    ensures { IsByteAt encoding text.now position result }
{
    let mut known = Mark::start();
    let mut found = None;
    for byte in 0..text.len() {
        known = mark_after(text, encoding, known, byte);
        found = at_or(known, position, found);
    }
    let end = mark_after(text, encoding, known, text.len());
    at_or(end, position, found)
}

/// Returns the position of a byte of a text. Beyond the end it is the position of the end. Language Server Protocol
/// 3.17, "Position".
pub fn position_in(text: &[u8], byte: usize, encoding: Encoding) -> Position
    ensures { IsPositionOf encoding text.now byte result }
{
    mark_after(text, encoding, Mark::start(), byte).position
}

/// Returns the position of a byte of a source text. Beyond the end it is the position of the end. Language Server
/// Protocol 3.17, "Position".
pub fn position_of(source: &Source, byte: usize, encoding: Encoding) -> Position
    ensures { IsPositionOf encoding source.now byte result }
{
    position_in(source.text().as_bytes(), byte, encoding)
}
