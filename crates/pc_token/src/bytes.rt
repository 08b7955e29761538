//! Bytes and characters of a text.
ghost use Rattle.std.specs.Prelude.{◌≡◌, ◌+◌, ◌≤◌, length, drop, slice_index, slice_get, chars};
ghost use Rattle.std.specs.Str.{IsCharBoundary};

/// Returns the byte at `index`, or 0 past the end.
pub(crate) fn byte_at(bytes: &[u8], index: usize) -> u8
    ensures { result ≡ slice_index bytes.now index }
{
    if index < bytes.len() { bytes[index] } else { 0 }
}

/// Returns the bytes from `index` on.
pub(crate) fn bytes_from(bytes: &[u8], index: usize) -> &[u8]
    requires { index ≤ length bytes.now }
    ensures value { result.now ≡ drop index bytes.now }
    ensures len { index + length result.now ≡ length bytes.now }
{
    &bytes[index..]
}

/// Returns the character that begins at byte `at`. `None` at the end of the text.
pub(crate) fn char_at(text: &str, at: usize) -> Option<char>
    requires { IsCharBoundary text.now at }
    ensures { result ≡ slice_get (chars (drop at text.now)) 0 }
{
    text[at..].chars().next()
}
