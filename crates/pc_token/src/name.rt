//! Names and their normal forms.
ghost use Rattle.std.specs.Prelude.{◌≡◌, ℕ, ◌+◌, ◌-◌, ◌≤◌, ◌<◌, ◌==◌, ◌||◌, not, List, [], ◌++◌, true, false, length};
ghost use Rattle.std.specs.Prelude.{drop, take, slice_get, slice_range, chars, encode_utf8_all, IfOk, MatchOption};
ghost use Rattle.std.specs.Prelude.{IsUtf8};
ghost use Rattle.std.specs.Prelude.{is_some, IsTrue};
ghost use Rattle.std.specs.Char.{is_ascii_alphabetic};
ghost use Rattle.std.specs.List.{list_all, prefix_len};
ghost use Rattle.std.specs.Str.{IsCharBoundary};
ghost use Rattle.unicode_ident.specs.Ident.{is_xid_continue};
ghost use Rattle.pc_token.specs.Lexeme.{form_of};
ghost use Rattle.pc_token.specs.Names.{begins_name, begins_word, continues_word, name_form, is_ascii, is_from};
ghost use Rattle.pc_token.specs.Names.{is_bad_name};
ghost use Rattle.pc_token.specs.Internal.WordBytes.{is_word_byte};

use crate::bytes::{byte_at, bytes_from, char_at};
use crate::keywords::is_keyword;
use crate::token::{Keyword, TokenKind};
use pc_source::is_reserved;
use std::alloc::{AllocError, Global};
use unicode_ident::{is_xid_continue, is_xid_start};
use unicode_normalization::to_nfkc;

/// Whether a byte is an ASCII letter, a digit or an underscore. A table, since each byte of each name is looked up.
static WORD_BYTES: [bool; 256] = [
    false, false, false, false, false, false, false, false, false, false, false, false, false,
    false, false, false, false, false, false, false, false, false, false, false, false, false,
    false, false, false, false, false, false, false, false, false, false, false, false, false,
    false, false, false, false, false, false, false, false, false, true, true, true, true, true,
    true, true, true, true, true, false, false, false, false, false, false, false, true, true,
    true, true, true, true, true, true, true, true, true, true, true, true, true, true, true, true,
    true, true, true, true, true, true, true, true, false, false, false, false, true, false, true,
    true, true, true, true, true, true, true, true, true, true, true, true, true, true, true, true,
    true, true, true, true, true, true, true, true, true, false, false, false, false, false, false,
    false, false, false, false, false, false, false, false, false, false, false, false, false,
    false, false, false, false, false, false, false, false, false, false, false, false, false,
    false, false, false, false, false, false, false, false, false, false, false, false, false,
    false, false, false, false, false, false, false, false, false, false, false, false, false,
    false, false, false, false, false, false, false, false, false, false, false, false, false,
    false, false, false, false, false, false, false, false, false, false, false, false, false,
    false, false, false, false, false, false, false, false, false, false, false, false, false,
    false, false, false, false, false, false, false, false, false, false, false, false, false,
    false, false, false, false, false, false, false, false, false, false, false, false, false,
    false, false, false, false, false, false, false, false, false, false,
];

/// Whether a character may begin a name.
fn begins_name(c: char) -> bool
    ensures { result ≡ begins_name c }
{
    is_xid_start(c) || c == '_'
}

/// Whether an ASCII byte may begin a name.
fn is_word_start(byte: u8) -> bool
    ensures { result ≡ (is_ascii_alphabetic byte || byte == 95) }
{
    byte.is_ascii_alphabetic() || byte == b'_'
}

/// Whether the character at byte `at` may begin a name. Decides an ASCII character by its byte.
pub(crate) fn begins_word(text: &str, at: usize) -> bool
    requires { IsCharBoundary text.now at }
    ensures { result ≡ begins_word (drop at text.now) }
{
    let byte = byte_at(text.as_bytes(), at);
    if byte < 128 {
        return is_word_start(byte);
    }
    match char_at(text, at) {
        Some(c) => begins_name(c),
        None => false,
    }
}

/// Whether the character at byte `at` may continue a name; false at the end of the text.
pub fn continues_word(text: &str, at: usize) -> bool
    requires { IsCharBoundary text.now at }
    ensures { result ≡ continues_word (drop at text.now) }
{
    match char_at(text, at) {
        Some(c) => unicode_ident::is_xid_continue(c),
        None => false,
    }
}

/// Whether a byte is an ASCII letter, a digit or an underscore, according to the table.
fn is_word_byte(byte: u8) -> bool
    ensures { result ≡ is_word_byte byte }
{
    WORD_BYTES[usize::from(byte)]
}

/// Returns the number of leading ASCII letters, digits and underscores.
fn ascii_len(bytes: &[u8]) -> usize
    ensures len { result ≡ prefix_len is_word_byte bytes.now }
    ensures within { result ≤ length bytes.now }
{
    bytes.iter().take_while(|b| is_word_byte(**b)).count()
}

/// Returns where the run of characters that may continue a name, from byte `start` on, ends, and whether it is known to
/// be all ASCII.
pub(crate) fn name_end(text: &str, start: usize) -> (usize, bool)
    requires { IsCharBoundary text.now start }
    ensures utf8 { IsUtf8 text.now }
    ensures boundary { IsCharBoundary text.now result.0 }
    ensures later { start ≤ result.0 }
    ensures run { (cs : List ℕ) × (list_all is_xid_continue cs ≡ true)
        × (slice_range text.now start result.0 ≡ encode_utf8_all cs) }
    ensures all { MatchOption (slice_get (chars (drop result.0 text.now)) 0) (length text.now ≡ result.0)
        (λ c. is_xid_continue c ≡ false) }
    ensures ascii { IsTrue result.1 → is_ascii (slice_range text.now start result.0) ≡ true }
{
    let bytes = text.as_bytes();
    let rest = bytes_from(bytes, start);
    let len = ascii_len(rest);
    let mut end = start + len;
    let next = byte_at(bytes, end);
    if next < 128 {
        return (end, true);
    }
    while let Some(c) = char_at(text, end) {
        if !is_xid_continue(c) {
            return (end, false);
        }
        end += c.len_utf8();
    }
    (end, false)
}

/// Whether all bytes are ASCII.
fn is_ascii(bytes: &[u8]) -> bool
    ensures { result ≡ is_ascii bytes.now }
{
    bytes.iter().all(|b| *b < 128)
}

/// Returns the normal form NFKC of a name that is not ASCII, otherwise `None`. Does not read a name that is known to be
/// ASCII.
pub(crate) fn form_of(
    alloc: Global,
    name: &str,
    known_ascii: bool,
) -> Result<Option<Box<String>>, AllocError>
    requires { IsTrue known_ascii → is_ascii name.now ≡ true }
    ensures form { IfOk result (λ form. form_of name.now form ≡ name_form name.now) }
    ensures ascii { IfOk result (λ form. is_some form ≡ not (is_ascii name.now)) }
{
    if known_ascii || is_ascii(name.as_bytes()) {
        return Ok(None);
    }
    let form = to_nfkc(alloc, name)?;
    Ok(Some(Box::new(alloc, form)?))
}

/// Whether the last token is the keyword `from`.
fn is_from(last: Option<TokenKind>) -> bool
    ensures { result ≡ is_from last }
{
    matches!(last, Some(TokenKind::Keyword(Keyword::From)))
}

/// Whether a name of this form is refused after the last token.
pub(crate) fn is_bad_name(last: Option<TokenKind>, name: &str, form: &Option<Box<String>>) -> bool
    requires form { form_of name.now form.now ≡ name_form name.now }
    requires ascii { is_some form.now ≡ not (is_ascii name.now) }
    ensures { result ≡ is_bad_name last name.now }
{
    let compared = match form {
        Some(form) => form.as_str(),
        None => name,
    };
    if compared.as_bytes().starts_with(b"__") && !(is_from(last) && name == "__future__") {
        return true;
    }
    form.is_some() && (is_keyword(compared) || is_reserved(compared))
}
