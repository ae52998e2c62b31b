//! A writer that hashes what passes through it.
ghost use Rattle.std.specs.Prelude.{◌≡◌, ◌++◌, List, [], length, ℕ};
ghost use Rattle.sha2.specs.Sha256.{sha256};

use crate::digest::Digest;
use crate::record::Lines;
use sha2::{Digest as Hasher, Sha256};
use std::io::{self, ErrorKind, Write};

/// A writer that hands on what is written, and hashes and counts the bytes that the writer behind it has accepted.
#[derive(Drop)]
pub struct Hashing<W: Drop> {
    writer: W,
    hasher: Sha256,
    count: u64,
}

impl<W: Write + Drop> Hashing<W> {
    ghost use Rattle.gix_certificate.specs.Accepted.{HasAccepted};

    /// A writer in front of this one, which has accepted nothing.
    pub fn new(writer: W) -> Hashing<W>
        ensures writer { result.writer ≡ writer }
        ensures nothing { HasAccepted result [] }
    {
        Hashing {
            writer,
            hasher: Sha256::new(),
            count: 0,
        }
    }

    /// What was accepted: its digest, and its number of bytes.
    pub fn finish(self) -> Lines
        ensures { (accepted : List ℕ) → HasAccepted self accepted
            → (result.sha256.bytes ≡ sha256 accepted) × (result.bytes ≡ length accepted) }
    {
        Lines {
            sha256: Digest {
                bytes: self.hasher.finalize(),
            },
            bytes: self.count,
        }
    }
}

impl<W: Write + Drop> Write for Hashing<W> {
    ghost use Rattle.std.specs.Io.{WritesAtMost};
    ghost use Rattle.std.specs.Io.KnownBytes.{WriteAppends, Keeps};
    ghost use Rattle.gix_certificate.specs.Accepted.{HasAccepted, taken};

    ghost contents = { λ h. W.contents h.writer };

    /// Writes some of the bytes, as many as the writer behind it takes. After an error none was accepted.
    fn write(&mut self, bytes: &[u8]) -> io::Result<usize>
        ensures bound { WritesAtMost result bytes.now }
        ensures bytes { WriteAppends (W.contents self.old.writer) (W.contents self.new.writer) result bytes.now }
        ensures hashed { (accepted : List ℕ) → HasAccepted self.old accepted
            → HasAccepted self.new (accepted ++ taken result bytes.now) }
    {
        if self.count > u64::MAX - bytes.len() as u64 {
            return Err(io::Error::from(ErrorKind::FileTooLarge));
        }
        let count = self.writer.write(bytes)?;
        self.hasher.update(&bytes[..count]);
        self.count += count as u64;
        Ok(count)
    }

    fn flush(&mut self) -> io::Result<()>
        ensures bytes { Keeps (W.contents self.old.writer) (W.contents self.new.writer) }
        ensures hashed { (accepted : List ℕ) → HasAccepted self.old accepted → HasAccepted self.new accepted }
    {
        self.writer.flush()
    }
}
