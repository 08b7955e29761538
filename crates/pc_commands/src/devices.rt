//! A device that keeps the reason of its last failure, and the text of that reason.

use std::alloc::{AllocError, Global};
use std::io;
use std::io::{Read, Write};

/// A device, and the reason of its last failed call. Own rule of the profile.
#[derive(Drop)]
pub struct RemembersError<D: Drop> {
    device: D,
    error: Option<io::Error>,
}

impl<D: Drop> RemembersError<D> {
    /// Wraps a device; no call has failed yet.
    pub fn new(device: D) -> RemembersError<D> {
        RemembersError {
            device,
            error: None,
        }
    }

    /// Returns the reason of the last failed call; `None` if no call has failed.
    pub fn error(&self) -> Option<io::Error> {
        self.error
    }
}

impl<R: Read + Drop> Read for RemembersError<R> {
    ghost remaining = { λ c. R.remaining c.device };

    fn read(&mut self, buf: &mut [u8]) -> io::Result<usize> {
        let result = self.device.read(buf);
        if let Err(error) = &result {
            self.error = Some(*error);
        }
        result
    }
}

impl<W: Write + Drop> Write for RemembersError<W> {
    ghost contents = { λ c. W.contents c.device };

    fn write(&mut self, buf: &[u8]) -> io::Result<usize> {
        let result = self.device.write(buf);
        if let Err(error) = &result {
            self.error = Some(*error);
        }
        result
    }

    fn flush(&mut self) -> io::Result<()> {
        let result = self.device.flush();
        if let Err(error) = &result {
            self.error = Some(*error);
        }
        result
    }
}

/// Returns the system's text for an error, without its number: `No such file or directory`.
///
/// # Errors
///
/// `AllocError` only if an allocation failed.
pub fn reason_of(alloc: Global, error: &io::Error) -> Result<String, AllocError> {
    let text = format!(in alloc; "{error}")?;
    match text.as_str().split_once(" (os error ") {
        Some((reason, _)) => String::from_str(alloc, reason),
        None => Ok(text),
    }
}
