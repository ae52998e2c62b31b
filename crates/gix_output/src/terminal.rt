//! What a terminal is given.
ghost use Rattle.std.specs.Prelude.{◌≡◌, ◌++◌, length, IfOk, OnOk};
ghost use Rattle.std.specs.Io.KnownBytes.{Appends, Keeps};
ghost use Rattle.gix_output.specs.Terminal.{last_or, octal, quoted, shown, steers};

use std::alloc::{AllocError, Global};
use std::io::{self, ErrorKind, Write};

/// Whether a terminal that reads UTF-8 takes a byte as a command, where this byte is before it: all bytes below 32 but a newline, 127, and
/// the second byte of each character from U+0080 to U+009F.
fn steers(before: u8, byte: u8) -> bool
    ensures { result ≡ steers before byte }
{
    byte < 32 && byte != b'\n' || byte == 127 || before == 194 && byte >= 128 && byte < 160
}

/// Adds a backslash and the three octal digits of a byte.
fn add_octal(text: &mut Vec<u8>, byte: u8) -> Result<(), AllocError>
    ensures { OnOk result (text.new.items ≡ text.old.items ++ octal byte) }
{
    text.push(b'\\')?;
    text.push(b'0' + byte / 64)?;
    text.push(b'0' + byte / 8 % 8)?;
    Ok(text.push(b'0' + byte % 8)?)
}

/// Adds a byte, behind the one before it, as it is or quoted.
fn add_shown(text: &mut Vec<u8>, before: u8, byte: u8) -> Result<(), AllocError>
    ensures { OnOk result (text.new.items ≡ text.old.items ++ shown before byte) }
{
    if steers(before, byte) {
        add_octal(text, byte)
    } else {
        Ok(text.push(byte)?)
    }
}

/// Adds bytes, behind the one before them: those that a terminal takes as a command as a backslash and three octal digits, as git writes them,
/// and the others as they are.
///
/// # Errors
///
/// `AllocError` when out of memory. A beginning was added then.
pub fn add_quoted(text: &mut Vec<u8>, before: u8, bytes: &[u8]) -> Result<(), AllocError>
    ensures { OnOk result (text.new.items ≡ text.old.items ++ quoted before bytes.now) }
{
    let mut before = before;
    for byte in bytes {
        add_shown(text, before, *byte)?;
        before = *byte;
    }
    Ok(())
}

/// The last of the bytes, or the one before them if there are none.
fn last_or(before: u8, bytes: &[u8]) -> u8
    ensures { result ≡ last_or before bytes.now }
{
    match bytes {
        [] => before,
        [.., last] => *last,
    }
}

/// A writer to a terminal, for which [`add_quoted`] quotes what is written.
pub struct Quoting<W: Drop> {
    alloc: Global,
    writer: W,
    /// The last byte that was taken.
    last: u8,
}

impl<W: Drop> Drop for Quoting<W> {
    fn drop(self) {
        let Quoting {
            alloc: _,
            writer: _,
            last: _,
        } = self;
    }
}

impl<W: Write + Drop> Quoting<W> {
    /// A writer to this terminal.
    pub fn new(alloc: Global, writer: W) -> Quoting<W>
        ensures { (result.writer ≡ writer) × (result.last ≡ 10) }
    {
        Quoting {
            alloc,
            writer,
            last: b'\n',
        }
    }
}

impl<W: Write + Drop> Write for Quoting<W> {
    /// Takes all bytes. After an error it isn't known which were written.
    fn write(&mut self, bytes: &[u8]) -> io::Result<usize>
        ensures all { IfOk result (λ n. n ≡ length bytes.now) }
        ensures quoted { OnOk result (Appends (W.contents self.old.writer) (W.contents self.new.writer) (quoted self.old.last bytes.now)) }
        ensures last { OnOk result (self.new.last ≡ last_or self.old.last bytes.now) }
    {
        self.write_all(bytes)?;
        Ok(bytes.len())
    }

    fn write_all(&mut self, bytes: &[u8]) -> io::Result<()>
        ensures quoted { OnOk result (Appends (W.contents self.old.writer) (W.contents self.new.writer) (quoted self.old.last bytes.now)) }
        ensures last { OnOk result (self.new.last ≡ last_or self.old.last bytes.now) }
    {
        let mut text = Vec::new(self.alloc);
        if add_quoted(&mut text, self.last, bytes).is_err() {
            return Err(io::Error::from(ErrorKind::OutOfMemory));
        }
        self.writer.write_all(text.as_slice())?;
        self.last = last_or(self.last, bytes);
        Ok(())
    }

    fn flush(&mut self) -> io::Result<()>
        ensures bytes { Keeps (W.contents self.old.writer) (W.contents self.new.writer) }
        ensures last { self.new.last ≡ self.old.last }
    {
        self.writer.flush()
    }
}
