//! Bytes that wait to be written, in memory that is taken beforehand.
ghost use Rattle.std.specs.Prelude.{◌≡◌, ◌++◌, ◌∷◌, ◌+◌, ◌<◌, [], length, take, IfErr, IfOk, OnOk};
ghost use Rattle.std.specs.Io.KnownBytes.{Appends};
ghost use Rattle.gix_lines.specs.Output.{IsCut, Puts};

use crate::Error;
use crate::writing::write_bytes;
use std::alloc::{AllocError, Global};
use std::io::Write;
use std::marker::Model;

/// How many bytes wait at the most.
const MANY: usize = 1 << 16;

/// Bytes that wait to be written. Where the writer fails, some of them may have been written.
#[derive(Drop)]
pub struct Buffer {
    bytes: Vec<u8>,
    filled: usize,
}

impl Model for Buffer {
    ghost use Rattle.std.specs.Prelude.{ℕ, List, ◌<◌, ◌≤◌, length, take};

    ghost Value = { List ℕ };

    ghost view = { λ b. take b.filled b.bytes.items };

    ghost invariant = { λ b. (b.filled ≤ length b.bytes.items) × (0 < length b.bytes.items) };
}

impl Buffer {
    /// A buffer in which nothing waits.
    pub fn new(alloc: Global) -> Result<Buffer, AllocError>
        ensures { IfOk result (λ buffer. buffer ≡ []) }
    {
        let bytes = vec![in alloc; 0; MANY]?;
        Ok(Buffer { bytes, filled: 0 })
    }

    /// Adds a piece and a byte behind it.
    ///
    /// # Errors
    /// `Write` where there was no room, and the writer failed.
    #[inline(always)]
    pub fn put<W: Write>(&mut self, piece: &[u8], behind: u8, writer: &mut W) -> Result<(), Error>
        ensures { Puts (W.contents writer.old) self.old (piece.now ++ behind ∷ []) result (W.contents writer.new) self.new }
    {
        if piece.len() < self.bytes.len() - self.filled {
            self.filled = place(&mut self.bytes, self.filled, piece, behind);
            return Ok(());
        }
        self.put_late(piece, behind, writer)
    }

    /// Adds bytes.
    ///
    /// # Errors
    /// As `put`.
    #[inline(always)]
    pub fn put_all<W: Write>(&mut self, bytes: &[u8], writer: &mut W) -> Result<(), Error>
        ensures { Puts (W.contents writer.old) self.old bytes.now result (W.contents writer.new) self.new }
    {
        match bytes.split_last() {
            None => Ok(()),
            Some((last, front)) => self.put(front, *last, writer),
        }
    }

    /// Writes what waits, and adds a piece and a byte behind it. A piece that is longer than the buffer is written too.
    fn put_late<W: Write>(&mut self, piece: &[u8], behind: u8, writer: &mut W) -> Result<(), Error>
        ensures { Puts (W.contents writer.old) self.old (piece.now ++ behind ∷ []) result (W.contents writer.new) self.new }
    {
        write_bytes(&self.bytes[..self.filled], writer)?;
        if piece.len() < self.bytes.len() {
            self.filled = place(&mut self.bytes, 0, piece, behind);
            return Ok(());
        }
        write_bytes(piece, writer)?;
        self.filled = place(&mut self.bytes, 0, &[], behind);
        Ok(())
    }

    /// Writes what waits, and flushes the writer.
    ///
    /// # Errors
    /// `Write` where the writer failed.
    pub fn finish<W: Write>(self, writer: &mut W) -> Result<(), Error>
        ensures ok { OnOk result (Appends (W.contents writer.old) (W.contents writer.new) self) }
        ensures fault { IfErr result (IsCut (W.contents writer.old) (W.contents writer.new) self) }
    {
        write_bytes(&self.bytes[..self.filled], writer)?;
        match writer.flush() {
            Ok(()) => Ok(()),
            Err(_) => Err(Error::Write),
        }
    }
}

/// Puts a piece and a byte behind it at a place, and returns the place behind that.
#[inline(always)]
pub fn place(bytes: &mut [u8], at: usize, piece: &[u8], behind: u8) -> usize
    requires { at + length piece.now < length bytes.old }
    ensures taken { take result bytes.new ≡ take at bytes.old ++ (piece.now ++ behind ∷ []) }
    ensures end { result ≡ at + length piece.now + 1 }
    ensures len { length bytes.new ≡ length bytes.old }
{
    let end = at + piece.len();
    bytes[at..end].copy_from_slice(piece);
    bytes[end] = behind;
    end + 1
}
