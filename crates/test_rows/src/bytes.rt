//! Table texts that represent bytes.
use crate::TableFault;
use crate::row::written_out;
use std::alloc::Global;

/// Returns the bytes of a text in which `⟦195⟧` is the byte of that number, and `⟨65×+a⟩` is `+a` 65 times.
///
/// # Errors
///
/// `Form` if no byte has such a number, or a repeated part has no number.
pub fn bytes_of(alloc: Global, text: &str) -> Result<Vec<u8>, TableFault> {
    let text = written_out(alloc, text)?;
    let mut bytes = Vec::new(alloc);
    for piece in text.split('⟦') {
        match piece.split_once('⟧') {
            Some((number, rest)) => {
                bytes.push(number.parse().map_err(|_| TableFault::Form)?)?;
                bytes.extend_from_slice(rest.as_bytes())?;
            }
            None => bytes.extend_from_slice(piece.as_bytes())?,
        }
    }
    Ok(bytes)
}
