//! The length given in the header of a message.

ghost use Rattle.std.specs.Prelude.{◌≡◌, ◌≤◌, ◌==◌, length, Some, None};
ghost use Rattle.std.specs.List.{prefix_len, suffix_len, position_or_len, before_first, after_first, list_any};
ghost use Rattle.pc_wire.specs.Fields.{is_blank, without_front, trimmed, number_in, names_length, first_length};
ghost use Rattle.pc_wire.specs.Fields.{with_digit, after_digit, with_line, after_line, ended, length_in};

use crate::fault::HeaderFault;

/// Whether a byte is a space, a tab or a carriage return.
fn is_blank(byte: u8) -> bool
    ensures { result ≡ is_blank byte }
{
    byte == b' ' || byte == b'\t' || byte == b'\r'
}

/// Returns the number of leading blanks.
fn blanks_at_front(text: &[u8]) -> usize
    ensures count { result ≡ prefix_len is_blank text.now }
    ensures within { result ≤ length text.now }
{
    text.iter().take_while(|b| is_blank(**b)).count()
}

/// Returns the number of trailing blanks.
fn blanks_at_end(text: &[u8]) -> usize
    ensures count { result ≡ suffix_len is_blank text.now }
    ensures within { result ≤ length text.now }
{
    text.iter().rev().take_while(|b| is_blank(**b)).count()
}

/// Returns the text without its leading blanks.
fn without_front(text: &[u8]) -> &[u8]
    ensures { result.now ≡ without_front text.now }
{
    &text[blanks_at_front(text)..]
}

/// Returns the text without its leading and trailing blanks.
fn trimmed(text: &[u8]) -> &[u8]
    ensures { result.now ≡ trimmed text.now }
{
    let text = without_front(text);
    &text[..text.len() - blanks_at_end(text)]
}

/// Appends a decimal digit to a number. `None` if the byte is no digit or the number does not fit 64 bits.
fn with_digit(number: usize, byte: u8) -> Option<usize>
    ensures { result ≡ with_digit number byte }
{
    if !byte.is_ascii_digit() {
        return None;
    }
    number.checked_mul(10)?.checked_add((byte - b'0') as usize)
}

/// Appends a decimal digit to a number, if there is a number.
fn after_digit(number: Option<usize>, byte: u8) -> Option<usize>
    ensures { result ≡ after_digit number byte }
{
    match number {
        None => None,
        Some(number) => with_digit(number, byte),
    }
}

/// Parses a decimal number of digits alone. `None` if there is none or it does not fit 64 bits.
fn number_in(text: &[u8]) -> Option<usize>
    ensures { result ≡ number_in text.now }
{
    if text.is_empty() {
        return None;
    }
    let mut number = Some(0);
    for byte in text {
        number = after_digit(number, *byte);
    }
    number
}

/// Whether the name of a field is `Content-Length`, in any case.
fn names_length(name: &[u8]) -> bool
    ensures { result ≡ names_length name.now }
{
    name.eq_ignore_ascii_case(b"content-length")
}

/// Returns the length of a field `Content-Length`. Fails if it is no number, or if a length was found before.
fn first_length(found: Option<usize>, length: Option<usize>) -> Result<Option<usize>, HeaderFault>
    ensures { result ≡ first_length found length }
{
    match (found, length) {
        (_, None) => Err(HeaderFault::BadLength),
        (None, Some(length)) => Ok(Some(length)),
        (Some(_), Some(_)) => Err(HeaderFault::TwoLengths),
    }
}

/// Returns the index of the first occurrence of `byte`, or the length if there is none.
fn first_place(text: &[u8], byte: u8) -> usize
    ensures place { result ≡ position_or_len (λ b. b == byte) text.now }
    ensures within { result ≤ length text.now }
{
    text.iter().take_while(|b| **b != byte).count()
}

/// Returns the length found so far, after one more line of the header. Fails if the line has no colon, or is a second
/// or malformed `Content-Length`.
fn with_line(found: Option<usize>, line: &[u8]) -> Result<Option<usize>, HeaderFault>
    ensures { result ≡ with_line found line.now }
{
    if blanks_at_front(line) == line.len() {
        return Ok(found);
    }
    let colon = first_place(line, b':');
    if colon == line.len() {
        return Err(HeaderFault::BadField);
    }
    if names_length(&line[..colon]) {
        return first_length(found, number_in(trimmed(&line[colon + 1..])));
    }
    Ok(found)
}

/// Returns the length found so far or the first fault, after one more line of the header.
fn after_line(
    named: Result<Option<usize>, HeaderFault>,
    line: &[u8],
) -> Result<Option<usize>, HeaderFault>
    ensures { result ≡ after_line named line.now }
{
    match named {
        Err(fault) => Err(fault),
        Ok(found) => with_line(found, line),
    }
}

/// Returns the length found in the whole header. Fails if there is none.
fn ended(named: Result<Option<usize>, HeaderFault>) -> Result<usize, HeaderFault>
    ensures { result ≡ ended named }
{
    match named {
        Err(fault) => Err(fault),
        Ok(None) => Err(HeaderFault::NoLength),
        Ok(Some(length)) => Ok(length),
    }
}

/// Returns the length that a header gives, that of its only field `Content-Length`. Fails with the first fault of a
/// line, or if there is no such field.
pub(crate) fn length_in(header: &[u8]) -> Result<usize, HeaderFault>
    ensures { result ≡ length_in header.now }
{
    let mut named = Ok(None);
    let mut start = 0;
    'lines: while start <= header.len() {
        let end = start + first_place(&header[start..], b'\n');
        named = after_line(named, &header[start..end]);
        start = end + 1;
    }
    ended(named)
}
