//! Whole numbers.
ghost use Rattle.std.specs.Prelude.{◌≡◌, ◌≤◌, ◌<◌, ◌==◌, ◌&&◌, not, length, drop, slice_index, count_by};
ghost use Rattle.std.specs.List.{prefix_len, list_all};
ghost use Rattle.std.specs.Str.{IsCharBoundary};
ghost use Rattle.pc_token.specs.Numbers.{is_number_byte, underscores_fit, is_number, is_bad_number, is_bad_point};
ghost use Rattle.pc_token.specs.Numbers.{digit_count};

use crate::bytes::byte_at;
use crate::name::continues_word;

/// Returns the number of leading digits and underscores.
pub(crate) fn number_len(bytes: &[u8]) -> usize
    ensures len { result ≡ prefix_len is_number_byte bytes.now }
    ensures within { result ≤ length bytes.now }
{
    bytes
        .iter()
        .take_while(|b| b.is_ascii_digit() || **b == b'_')
        .count()
}

/// Whether all bytes are digits or underscores.
fn all_number_bytes(bytes: &[u8]) -> bool
    ensures { result ≡ list_all is_number_byte bytes.now }
{
    bytes.iter().all(|b| b.is_ascii_digit() || *b == b'_')
}

/// Whether each underscore is followed by a digit.
fn underscores_fit(bytes: &[u8]) -> bool
    ensures { result ≡ underscores_fit bytes.now }
{
    'bytes: for at in 0..bytes.len() {
        if bytes[at] == b'_' && !byte_at(bytes, at + 1).is_ascii_digit() {
            return false;
        }
    }
    true
}

/// Whether the bytes are a whole number.
fn is_number(bytes: &[u8]) -> bool
    ensures { result ≡ is_number bytes.now }
{
    if bytes == b"0".as_slice() {
        return true;
    }
    let first = byte_at(bytes, 0);
    first.is_ascii_digit() && first != b'0' && all_number_bytes(bytes) && underscores_fit(bytes)
}

/// Returns the number of digits.
pub(crate) fn digit_count(bytes: &[u8]) -> usize
    ensures { result ≡ digit_count bytes.now }
{
    bytes.iter().filter(|b| b.is_ascii_digit()).count()
}

/// Whether the digits and underscores from byte `at` on are no number, or are followed by a name character or a point.
pub(crate) fn is_bad_number(text: &str, at: usize) -> bool
    requires { IsCharBoundary text.now at }
    ensures { result ≡ is_bad_number (drop at text.now) }
{
    let rest = &text[at..];
    let len = number_len(rest.as_bytes());
    if !is_number(&rest.as_bytes()[..len]) {
        return true;
    }
    continues_word(rest, len) || byte_at(rest.as_bytes(), len) == b'.'
}

/// Whether the bytes begin with a point followed directly by a digit.
pub(crate) fn is_bad_point(bytes: &[u8]) -> bool
    ensures { result ≡ is_bad_point bytes.now }
{
    byte_at(bytes, 0) == b'.' && byte_at(bytes, 1).is_ascii_digit()
}
