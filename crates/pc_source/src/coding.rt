//! Coding comments.
ghost use Rattle.std.specs.Prelude.{◌≡◌, ℕ, ◌+◌, ◌<◌, ◌≤◌, ◌==◌, ◌↔◌, length, drop, MatchOption, IfSome, IsTrue};
ghost use Rattle.std.specs.List.{prefix_len, position_or_len};
ghost use Rattle.pc_source.specs.Coding.{IsCoding, IsCodingComment, first_line, later_lines, names_other_coding};
ghost use Rattle.pc_source.specs.Coding.{after_spaces};

/// Returns the number of leading spaces.
fn space_count(bytes: &[u8]) -> usize
    ensures count { result ≡ prefix_len (λ b. b == 32) bytes.now }
    ensures within { result ≤ length bytes.now }
{
    bytes.iter().take_while(|b| **b == b' ').count()
}

/// Returns the index of the first occurrence of `byte`, or the length if there is none.
fn first_place(bytes: &[u8], byte: u8) -> usize
    ensures place { result ≡ position_or_len (λ b. b == byte) bytes.now }
    ensures within { result ≤ length bytes.now }
{
    bytes.iter().take_while(|b| **b != byte).count()
}

/// Returns the bytes without their leading spaces.
fn after_spaces(bytes: &[u8]) -> &[u8]
    ensures { result.now ≡ after_spaces bytes.now }
{
    &bytes[space_count(bytes)..]
}

/// Whether the bytes begin with `coding:` or `coding=`, not followed, after any number of spaces, by `utf-8`.
fn names_other_coding(bytes: &[u8]) -> bool
    ensures { result ≡ names_other_coding bytes.now }
{
    if !bytes.starts_with(b"coding:") && !bytes.starts_with(b"coding=") {
        return false;
    }
    !after_spaces(&bytes[7..]).starts_with(b"utf-8")
}

/// Whether another coding is named anywhere after index `byte` of the line.
fn names_other_after(line: &[u8], byte: usize) -> bool
    ensures { IsTrue result ↔
        ((k : ℕ) × (k < length line.now) × (byte < k) × IsTrue (names_other_coding (drop k line.now))) }
{
    'bytes: for k in 0..line.len() {
        if k > byte && names_other_coding(&line[k..]) {
            return true;
        }
    }
    false
}

/// Returns the bytes up to the first line feed.
fn first_line(bytes: &[u8]) -> &[u8]
    ensures line { result.now ≡ first_line bytes.now }
    ensures within { length result.now ≤ length bytes.now }
{
    &bytes[..first_place(bytes, b'\n')]
}

/// Returns the bytes after the first line feed; none if there is no line feed.
fn later_lines(bytes: &[u8]) -> &[u8]
    ensures lines { result.now ≡ later_lines bytes.now }
    ensures within { 0 < length result.now → length (first_line bytes.now) + 1 + length result.now ≡ length bytes.now }
{
    let len = first_line(bytes).len();
    if len < bytes.len() {
        &bytes[len + 1..]
    } else {
        &bytes[len..]
    }
}

/// Returns the index of the line's first `#` if another coding is named after it.
fn coding_comment(line: &[u8]) -> Option<usize>
    ensures { MatchOption result ((k : ℕ) → ¬ (IsCodingComment line.now k)) (IsCodingComment line.now) }
{
    let hash = first_place(line, b'#');
    if hash < line.len() && names_other_after(line, hash) {
        Some(hash)
    } else {
        None
    }
}

/// Returns the index of the first comment in line 1 or 2 that names another coding.
pub fn first_coding(bytes: &[u8]) -> Option<usize>
    ensures first { MatchOption result
        ((k : ℕ) → ¬ (IsCoding bytes.now k))
        (λ b. IsCoding bytes.now b × ((k : ℕ) → k < b → ¬ (IsCoding bytes.now k))) }
    ensures within { IfSome result (λ b. b < length bytes.now) }
{
    let line = first_line(bytes);
    if let Some(byte) = coding_comment(line) {
        return Some(byte);
    }
    match coding_comment(first_line(later_lines(bytes))) {
        Some(byte) => Some(line.len() + 1 + byte),
        None => None,
    }
}
