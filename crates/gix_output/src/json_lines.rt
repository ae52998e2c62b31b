//! A writer of JSON.
ghost use Rattle.std.specs.Prelude.{◌≡◌, ◌++◌, List, [], ◌∷◌, length, ℕ, true, false, IfErr, IfOk, OnOk, string_bytes, Ok};
ghost use Rattle.std.specs.Io.KnownBytes.{Appends, Keeps};
ghost use Rattle.gix_output.specs.Json.{ReadsBack, json_of};
ghost use Rattle.gix_output.specs.Lines.{HasWritten, WritesMore};

use crate::json::{Shape, json_line};
use memchr::memchr;
use std::alloc::{AllocError, Global};
use std::io::{self, ErrorKind, Write};

/// A writer that takes lines of a shape, and writes each as JSON once it has ended.
pub struct JsonLines<W: Drop> {
    alloc: Global,
    writer: W,
    shape: Shape,
    /// The byte that ends a line.
    end: u8,
    /// What was taken of a line that hasn't ended.
    line: Vec<u8>,
    /// Whether memory ran out for a line.
    pub ran_out: bool,
}

impl<W: Drop> Drop for JsonLines<W> {
    fn drop(self) {
        let JsonLines {
            alloc: _,
            writer: _,
            shape: _,
            end: _,
            line: _,
            ran_out: _,
        } = self;
    }
}

impl<W: Write + Drop> JsonLines<W> {
    /// A writer of such lines, each of which ends in the byte.
    pub fn new(alloc: Global, writer: W, shape: Shape, end: u8) -> JsonLines<W>
        ensures writer { result.writer ≡ writer }
        ensures of { (result.shape ≡ shape) × (result.end ≡ end) }
        ensures nothing { (result.ran_out ≡ false) × HasWritten result [] [] }
    {
        JsonLines {
            alloc,
            writer,
            shape,
            end,
            line: Vec::new(alloc),
            ran_out: false,
        }
    }

    /// Takes some bytes, and writes the lines that end in them.
    fn take(&mut self, bytes: &[u8]) -> io::Result<()>
        ensures { OnOk result ((more : List ℕ) × Appends (W.contents self.old.writer) (W.contents self.new.writer) more
            × WritesMore self.old self.new bytes.now more) }
    {
        let mut left = bytes;
        while let Some(len) = memchr(self.end, left) {
            self.end_line(&left[..len])?;
            left = &left[len + 1..];
        }
        self.keep(left)
    }

    /// Keeps these bytes of a line that hasn't ended.
    fn keep(&mut self, bytes: &[u8]) -> io::Result<()>
        ensures line { OnOk result (self.new.line.items ≡ self.old.line.items ++ bytes.now) }
        ensures of { (self.new.shape ≡ self.old.shape) × (self.new.end ≡ self.old.end) }
        ensures writer { self.new.writer ≡ self.old.writer }
    {
        let added = self.line.extend_from_slice(bytes);
        self.kept(added)
    }

    /// Writes the line that ends with these bytes.
    fn end_line(&mut self, bytes: &[u8]) -> io::Result<()>
        ensures written { OnOk result (Appends (W.contents self.old.writer) (W.contents self.new.writer)
            (json_of self.old.shape (self.old.line.items ++ bytes.now) ++ 10 ∷ [])) }
        ensures reads_back { OnOk result (ReadsBack self.old.shape (self.old.line.items ++ bytes.now)) }
        ensures line { OnOk result (self.new.line.items ≡ []) }
        ensures of { (self.new.shape ≡ self.old.shape) × (self.new.end ≡ self.old.end) }
    {
        let line = self.line_with(bytes);
        let line = self.kept(line)?;
        self.writer.write_all(line.as_bytes())
    }

    /// The line that ends with these bytes, as JSON. Behind it what was taken of it is dropped.
    fn line_with(&mut self, bytes: &[u8]) -> Result<String, AllocError>
        ensures json { IfOk result (λ text. string_bytes text ≡ json_of self.old.shape (self.old.line.items ++ bytes.now) ++ 10 ∷ []) }
        ensures reads_back { OnOk result (ReadsBack self.old.shape (self.old.line.items ++ bytes.now)) }
        ensures line { OnOk result (self.new.line.items ≡ []) }
        ensures of { (self.new.shape ≡ self.old.shape) × (self.new.end ≡ self.old.end) }
        ensures writer { self.new.writer ≡ self.old.writer }
    {
        self.line.extend_from_slice(bytes)?;
        let line = json_line(self.alloc, self.shape, self.line.as_slice())?;
        self.line.clear();
        Ok(line)
    }

    /// What is there unless memory ran out, which is noted.
    fn kept<T: Drop>(&mut self, given: Result<T, AllocError>) -> io::Result<T>
        ensures given { IfOk result (λ value. given ≡ Ok value) }
        ensures line { self.new.line ≡ self.old.line }
        ensures of { (self.new.shape ≡ self.old.shape) × (self.new.end ≡ self.old.end) }
        ensures writer { self.new.writer ≡ self.old.writer }
        ensures ok { OnOk result (self.new.ran_out ≡ self.old.ran_out) }
        ensures err { IfErr result (λ e. self.new.ran_out ≡ true) }
    {
        match given {
            Ok(value) => Ok(value),
            Err(_) => {
                self.ran_out = true;
                Err(io::Error::from(ErrorKind::OutOfMemory))
            }
        }
    }
}

impl<W: Write + Drop> Write for JsonLines<W> {
    /// Takes all bytes. After an error it isn't known which of their lines were written.
    fn write(&mut self, bytes: &[u8]) -> io::Result<usize>
        ensures all { IfOk result (λ n. n ≡ length bytes.now) }
        ensures lines { OnOk result ((more : List ℕ) × Appends (W.contents self.old.writer) (W.contents self.new.writer) more
            × WritesMore self.old self.new bytes.now more) }
    {
        self.take(bytes)?;
        Ok(bytes.len())
    }

    fn write_all(&mut self, bytes: &[u8]) -> io::Result<()>
        ensures lines { OnOk result ((more : List ℕ) × Appends (W.contents self.old.writer) (W.contents self.new.writer) more
            × WritesMore self.old self.new bytes.now more) }
    {
        self.take(bytes)
    }

    fn flush(&mut self) -> io::Result<()>
        ensures bytes { Keeps (W.contents self.old.writer) (W.contents self.new.writer) }
        ensures lines { WritesMore self.old self.new [] [] }
    {
        self.writer.flush()
    }
}
