//! A device that counts its failed calls.

ghost use Rattle.std.specs.Prelude.{◌≡◌, IsTrue, false, length};
ghost use Rattle.std.specs.Result.{is_err};
ghost use Rattle.std.specs.Io.{ReadsAtMost, WritesAtMost};
ghost use Rattle.std.specs.Io.KnownBytes.{Keeps, ReadConsumes, WriteAppends};
ghost use Rattle.pc_source.specs.Devices.{write_fails, failures_after};
ghost use Rattle.pc_source.specs.Taken.{TakesAll, TakesBeginning};

use std::io;
use std::io::{Read, Write};

/// A device and the number of its calls that failed. A write that accepts none of some bytes is a failed call. Own rule
/// of the profile.
#[derive(Drop)]
pub struct Counted<D: Drop> {
    device: D,
    failures: u64,
}

impl<D: Drop> Counted<D> {
    /// Wraps a device, with no failed calls so far.
    pub fn new(device: D) -> Counted<D>
        ensures device { result.device ≡ device }
        ensures failures { result.failures ≡ 0 }
    {
        Counted {
            device,
            failures: 0,
        }
    }

    /// Returns the device.
    pub fn inner(&self) -> &D
        ensures { result.now ≡ self.now.device }
    {
        &self.device
    }

    /// Returns the number of failed calls; it stops at its maximum.
    pub fn failures(&self) -> u64
        ensures { result ≡ self.now.failures }
    {
        self.failures
    }
}

impl<W: Write + Drop> Counted<W> {
    /// Writes all bytes, in as many calls as the device needs, and makes no call after one that failed. Returns whether
    /// the device accepted all of them; if not, it accepted only a proper prefix.
    pub fn write_whole(&mut self, bytes: &[u8]) -> bool
        ensures all { IsTrue result → TakesAll W.contents bytes.now self.old self.new }
        ensures beginning { result ≡ false → TakesBeginning W.contents bytes.now self.old self.new }
    {
        let mut at = 0;
        while at < bytes.len() {
            match self.write(&bytes[at..]) {
                Ok(0) | Err(_) => return false,
                Ok(count) => at += count,
            }
        }
        true
    }
}

impl<R: Read + Drop> Read for Counted<R> {
    ghost remaining = { λ c. R.remaining c.device };

    fn read(&mut self, buf: &mut [u8]) -> io::Result<usize>
        ensures bound { ReadsAtMost result buf.new }
        ensures bytes { ReadConsumes (R.remaining self.old.device) (R.remaining self.new.device) result buf.new }
        ensures failures { self.new.failures ≡ failures_after (is_err result) self.old.failures }
    {
        let result = self.device.read(buf);
        if result.is_err() {
            self.failures = self.failures.saturating_add(1);
        }
        result
    }
}

impl<W: Write + Drop> Write for Counted<W> {
    ghost contents = { λ c. W.contents c.device };

    fn write(&mut self, buf: &[u8]) -> io::Result<usize>
        ensures bound { WritesAtMost result buf.now }
        ensures bytes { WriteAppends (W.contents self.old.device) (W.contents self.new.device) result buf.now }
        ensures failures { self.new.failures ≡ failures_after (write_fails (length buf.now) result) self.old.failures }
    {
        let result = self.device.write(buf);
        let failed = match &result {
            // A caller would retry a device that accepts nothing for ever.
            Ok(count) => *count == 0 && !buf.is_empty(),
            Err(_) => true,
        };
        if failed {
            self.failures = self.failures.saturating_add(1);
        }
        result
    }

    fn flush(&mut self) -> io::Result<()>
        ensures bytes { Keeps (W.contents self.old.device) (W.contents self.new.device) }
        ensures failures { self.new.failures ≡ failures_after (is_err result) self.old.failures }
    {
        let result = self.device.flush();
        if result.is_err() {
            self.failures = self.failures.saturating_add(1);
        }
        result
    }
}
