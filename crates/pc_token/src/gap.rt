//! Gaps between tokens.
ghost use Rattle.std.specs.Prelude.{◌≡◌, ◌+◌, ◌≤◌, ◌==◌, not, length, drop};
ghost use Rattle.std.specs.List.{prefix_len};
ghost use Rattle.pc_token.specs.Gaps.{is_blank, is_line_byte, starts_line_end, ends_line};

use crate::bytes::{byte_at, bytes_from};

/// Returns the number of leading spaces and tabs.
pub(crate) fn run_len(bytes: &[u8]) -> usize
    ensures len { result ≡ prefix_len is_blank bytes.now }
    ensures within { result ≤ length bytes.now }
{
    bytes
        .iter()
        .take_while(|b| **b == b' ' || **b == b'\t')
        .count()
}

/// Returns the number of leading spaces and tabs, given the number of leading spaces, which it does not read again.
pub(crate) fn blank_len(bytes: &[u8], spaces: usize) -> usize
    requires { spaces ≡ prefix_len (λ b. b == 32) bytes.now }
    ensures len { result ≡ prefix_len is_blank bytes.now }
    ensures within { result ≤ length bytes.now }
{
    let rest = bytes_from(bytes, spaces);
    let more = run_len(rest);
    spaces + more
}

/// Returns the number of leading spaces.
pub(crate) fn space_len(bytes: &[u8]) -> usize
    ensures len { result ≡ prefix_len (λ b. b == 32) bytes.now }
    ensures within { result ≤ length bytes.now }
{
    bytes.iter().take_while(|b| **b == b' ').count()
}

/// Returns the number of bytes before the first line feed or carriage return.
pub(crate) fn comment_len(bytes: &[u8]) -> usize
    ensures len { result ≡ prefix_len (λ b. not (is_line_byte b)) bytes.now }
    ensures within { result ≤ length bytes.now }
{
    bytes
        .iter()
        .take_while(|b| !(**b == b'\n' || **b == b'\r'))
        .count()
}

/// Whether the bytes begin with a line end.
pub(crate) fn starts_line_end(bytes: &[u8]) -> bool
    ensures { result ≡ starts_line_end bytes.now }
{
    byte_at(bytes, 0) == b'\n' || (byte_at(bytes, 0) == b'\r' && byte_at(bytes, 1) == b'\n')
}

/// Whether the bytes are empty, or begin with a comment or a line end.
pub(crate) fn ends_line(bytes: &[u8]) -> bool
    ensures { result ≡ ends_line bytes.now }
{
    bytes.is_empty() || byte_at(bytes, 0) == b'#' || starts_line_end(bytes)
}
