//! Texts made of random bytes.
use crate::texts::refusals::reading_text;
use pc_source::{Fault, read_source};
use std::alloc::{AllocError, Global};

/// Returns this many bytes of a linear congruential generator.
fn random_bytes(alloc: Global, count: usize) -> Result<Vec<u8>, AllocError> {
    let mut bytes = Vec::with_capacity(alloc, count)?;
    let mut state: u32 = 1;
    for _ in 0..count {
        state = state.wrapping_mul(1_664_525).wrapping_add(1_013_904_223);
        bytes.push((state >> 24) as u8)?;
    }
    Ok(bytes)
}

/// Returns a text that has one of eight characters for each byte.
fn spelled(alloc: Global, bytes: &[u8]) -> Result<String, AllocError> {
    let alphabet = ["a", "b", " ", "+", ",", "\n", "-", "*"];
    let mut text = String::new(alloc);
    for byte in bytes {
        text.push_str(alphabet[usize::from(*byte % 8)])?;
    }
    Ok(text)
}

/// Returns the answer to this many random bytes, or to the text that they spell, by the name of the part.
pub fn random_text(alloc: Global, name: &str, count: &str) -> Result<String, Fault> {
    let count = count.parse().unwrap_or(0);
    let bytes = random_bytes(alloc, count)?;
    if name == "BYTES" {
        let source = read_source(alloc, bytes.as_slice())?;
        return reading_text(alloc, source.text());
    }
    let text = spelled(alloc, bytes.as_slice())?;
    reading_text(alloc, text.as_str())
}
