//! Bytes buffered for a device, which are written piece by piece.

ghost use Rattle.std.specs.Prelude.{◌≡◌, ◌<◌, [], ◌∷◌, List, false, decimal};
ghost use Rattle.std.specs.Bool.{OnTrue, OnFalse};
ghost use Rattle.std.specs.Char.{digit_char};
ghost use Rattle.json.specs.Print.{escape_letter, escape_byte, escape, quoted};
ghost use Rattle.pc_source.specs.declared.counted.Counted.{Counted as CountedOf};
ghost use Rattle.pc_report.specs.Pieces.{IsOnItsWay, Puts};
ghost use Rattle.pc_report.specs.Writing.{IsWritten};

use crate::writing::{WriteFault, write_whole};
use arrayvec::ArrayVec;
use itoa::Buffer;
use pc_source::Counted;
use std::io::Write;

/// The greatest number of bytes held.
const PIECE: usize = 8192;

/// Bytes not yet written to a device. They are in a buffer of fixed size, so that no allocation can fail once the first
/// byte is written. After a failed call the device is not called again.
#[derive(Drop)]
pub(crate) struct Pieces {
    held: ArrayVec<u8, PIECE>,
    failed: bool,
}

impl Pieces {
    /// Returns an empty buffer, for a device that has not failed.
    pub(crate) fn new() -> Pieces
        ensures held { result.held.items ≡ [] }
        ensures failed { result.failed ≡ false }
    {
        Pieces {
            held: ArrayVec::new(),
            failed: false,
        }
    }

    /// Writes the bytes that are held.
    fn let_out<W: Write + Drop>(&mut self, device: &mut Counted<W>)
        ensures puts { Puts W.contents [] device.old device.new self.old self.new }
        ensures emptied { OnFalse self.new.failed (self.new.held.items ≡ []) }
    {
        if self.failed {
            return;
        }
        self.failed = write_whole(device, self.held.as_slice()).is_err();
        self.held.clear();
    }

    /// Writes bytes at once; no bytes may be held.
    fn pass<W: Write + Drop>(&mut self, device: &mut Counted<W>, bytes: &[u8])
        requires { OnFalse self.old.failed (self.old.held.items ≡ []) }
        ensures { Puts W.contents bytes.now device.old device.new self.old self.new }
    {
        if self.failed {
            return;
        }
        self.failed = write_whole(device, bytes).is_err();
    }

    /// Adds bytes. If they do not fit after those held, these are written first; if they do not fit even then, they are
    /// written at once.
    pub(crate) fn put<W: Write + Drop>(&mut self, device: &mut Counted<W>, bytes: &[u8])
        ensures { Puts W.contents bytes.now device.old device.new self.old self.new }
    {
        if self.held.try_extend_from_slice(bytes).is_ok() {
            return;
        }
        self.let_out(device);
        if self.held.try_extend_from_slice(bytes).is_ok() {
            return;
        }
        self.pass(device, bytes);
    }

    /// Adds a text.
    pub(crate) fn put_str<W: Write + Drop>(&mut self, device: &mut Counted<W>, text: &str)
        ensures { Puts W.contents text.now device.old device.new self.old self.new }
    {
        self.put(device, text.as_bytes());
    }

    /// Adds the digits of a number.
    pub(crate) fn put_number<W: Write + Drop>(&mut self, device: &mut Counted<W>, number: u64)
        ensures { Puts W.contents (decimal number) device.old device.new self.old self.new }
    {
        let mut digits = Buffer::new();
        self.put_str(device, digits.format(number));
    }

    /// Adds a text as a JSON string.
    pub(crate) fn put_quoted<W: Write + Drop>(&mut self, device: &mut Counted<W>, text: &str)
        ensures { Puts W.contents (quoted text.now) device.old device.new self.old self.new }
    {
        self.put_str(device, "\"");
        self.put_escaped(device, text.as_bytes());
        self.put_str(device, "\"");
    }

    /// Adds bytes, escaped as in a JSON string.
    fn put_escaped<W: Write + Drop>(&mut self, device: &mut Counted<W>, bytes: &[u8])
        ensures { Puts W.contents (escape bytes.now) device.old device.new self.old self.new }
    {
        if are_plain(bytes) {
            self.put(device, bytes);
            return;
        }
        for byte in bytes {
            self.put_byte(device, *byte);
        }
    }

    /// Adds a byte, escaped as in a JSON string.
    fn put_byte<W: Write + Drop>(&mut self, device: &mut Counted<W>, byte: u8)
        ensures { Puts W.contents (escape_byte byte) device.old device.new self.old self.new }
    {
        let letter = escape_letter(byte);
        if letter > 0 {
            self.put(device, &[b'\\', letter]);
        } else if byte < 32 {
            let digits = [hex_digit(byte / 16), hex_digit(byte % 16)];
            self.put(device, &[b'\\', b'u', b'0', b'0', digits[0], digits[1]]);
        } else {
            self.put(device, &[byte]);
        }
    }

    /// Writes the bytes that are still held.
    ///
    /// # Errors
    ///
    /// `Write` if any call of the device failed.
    pub(crate) fn finish<W: Write + Drop>(
        &mut self,
        device: &mut Counted<W>,
    ) -> Result<(), WriteFault>
        ensures { (bytes : List _) (start : CountedOf _) → IsOnItsWay W.contents bytes start device.old self.old
            → IsWritten W.contents bytes start device.new result }
    {
        self.let_out(device);
        if self.failed {
            return Err(WriteFault::Write);
        }
        Ok(())
    }
}

/// Returns whether no byte needs an escape in a JSON string.
fn are_plain(bytes: &[u8]) -> bool
    ensures { OnTrue result (escape bytes.now ≡ bytes.now) }
{
    for byte in bytes {
        if !is_plain(*byte) {
            return false;
        }
    }
    true
}

/// Returns whether a byte needs no escape in a JSON string.
#[tactic(auto, using(crate::proofs::Underway::escape_plain))]
fn is_plain(byte: u8) -> bool
    ensures { OnTrue result (escape_byte byte ≡ byte ∷ []) }
{
    if byte < 32 {
        return false;
    }
    escape_letter(byte) == 0
}

/// Returns the letter of a byte's short escape in a JSON string, or 0 if it has none.
fn escape_letter(byte: u8) -> u8
    ensures { result ≡ escape_letter byte }
{
    match byte {
        b'"' | b'\\' => byte,
        8 => b'b',
        12 => b'f',
        b'\n' => b'n',
        b'\r' => b'r',
        b'\t' => b't',
        _ => 0,
    }
}

/// Returns a hexadecimal digit.
fn hex_digit(digit: u8) -> u8
    requires { digit < 16 }
    ensures { result ≡ digit_char digit }
{
    if digit < 10 {
        b'0' + digit
    } else {
        b'a' + (digit - 10)
    }
}
