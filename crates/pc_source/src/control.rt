//! Control characters that no source text contains.
ghost use Rattle.std.specs.Prelude.{ℕ, ◌+◌, ◌<◌, ◌↔◌, slice_index, IsTrue, MatchOption};
ghost use Rattle.pc_source.specs.Control.{IsControl};

/// Whether there is a NUL, a form feed or a lone carriage return at index `byte`.
fn is_control(bytes: &[u8], byte: usize) -> bool
    ensures { IsTrue result ↔ IsControl bytes.now byte }
{
    if byte >= bytes.len() {
        return false;
    }
    let found = bytes[byte];
    // This one comparison decides most bytes.
    if found > b'\r' {
        return false;
    }
    match found {
        0 | 12 => true,
        b'\r' => bytes.get(byte + 1).copied() != Some(b'\n'),
        _ => false,
    }
}

/// Whether any of the bytes is a NUL, a form feed or a carriage return. The loop has no early exit and a function of
/// its own so that it can be vectorized.
#[inline(never)]
fn has_suspect(bytes: &[u8]) -> bool
    ensures { (k : ℕ) → IsControl bytes.now k → IsTrue result }
{
    let mut found = false;
    'bytes: for byte in 0..bytes.len() {
        let next = bytes[byte];
        found |= (next == 0) | (next == 12) | (next == b'\r');
    }
    found
}

/// Returns the index of the first NUL, form feed or lone carriage return.
pub fn first_control(bytes: &[u8]) -> Option<usize>
    ensures { MatchOption result
        ((k : ℕ) → ¬ (IsControl bytes.now k))
        (λ b. IsControl bytes.now b × ((k : ℕ) → k < b → ¬ (IsControl bytes.now k))) }
{
    // Most texts have none of the three.
    if !has_suspect(bytes) {
        return None;
    }
    'bytes: for byte in 0..bytes.len() {
        if is_control(bytes, byte) {
            return Some(byte);
        }
    }
    None
}
