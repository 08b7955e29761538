//! Strings.
ghost use Rattle.std.specs.Prelude.{◌≡◌, ℕ, ◌+◌, ◌<◌, ◌≤◌, true, false, List, ◌++◌, length, take, slice_index};
ghost use Rattle.std.specs.Prelude.{MatchOption};
ghost use Rattle.pc_token.specs.Strings.{is_quote, is_escape, is_plain, is_tripled, IsString};
ghost use Rattle.pc_token.specs.Faults.{NoString};

use crate::bytes::byte_at;

/// Whether a byte is a quotation mark or an apostrophe.
pub(crate) fn is_quote(byte: u8) -> bool
    ensures { result ≡ is_quote byte }
{
    byte == b'"' || byte == b'\''
}

/// Whether a byte may follow a backslash in a string.
fn is_escape(byte: u8) -> bool
    ensures { result ≡ is_escape byte }
{
    matches!(byte, b'\\' | b'\'' | b'"' | b'n' | b't' | b'r')
}

/// Whether a byte means itself in a string between these quotes.
fn is_plain(quote: u8, byte: u8) -> bool
    ensures { result ≡ is_plain quote byte }
{
    byte != quote && byte != b'\\' && byte != b'\n'
}

/// Returns the length of the string at the front, quotes included, if there is one.
pub(crate) fn string_len(bytes: &[u8]) -> Option<usize>
    requires { is_quote (slice_index bytes.now 0) ≡ true }
    ensures { MatchOption result (NoString bytes.now)
        (λ len. (len ≤ length bytes.now) × IsString (take len bytes.now)) }
{
    let quote = byte_at(bytes, 0);
    let mut at = 1;
    while at < bytes.len() {
        let byte = bytes[at];
        if byte == quote {
            return Some(at + 1);
        } else if is_plain(quote, byte) {
            at += 1;
        } else if byte == b'\\' && is_escape(byte_at(bytes, at + 1)) {
            at += 2;
        } else {
            return None;
        }
    }
    None
}

/// Whether the bytes begin with an empty string followed directly by the same quote.
pub(crate) fn is_tripled(bytes: &[u8]) -> bool
    ensures { result ≡ is_tripled bytes.now }
{
    byte_at(bytes, 1) == byte_at(bytes, 0) && byte_at(bytes, 2) == byte_at(bytes, 0)
}
