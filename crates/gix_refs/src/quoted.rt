//! Paths and names in messages.
use std::alloc::{AllocError, Global};
use std::fmt::{self, Debug, Formatter, Write};
use std::str;

/// A path or a name, which may hold any bytes. It is written in quotes: as a text where it is UTF-8, and else as git writes it, with a
/// backslash and three octal digits for each byte that isn't a letter, a digit or a mark of ASCII.
pub struct Quoted {
    bytes: Vec<u8>,
}

impl Drop for Quoted {
    fn drop(self) {
        let Quoted { bytes: _ } = self;
    }
}

impl Quoted {
    /// A copy of these bytes.
    ///
    /// # Errors
    ///
    /// `AllocError` when out of memory.
    pub fn new(alloc: Global, bytes: &[u8]) -> Result<Quoted, AllocError> {
        Ok(Quoted {
            bytes: Vec::from_slice(alloc, bytes)?,
        })
    }

    /// These bytes.
    pub fn of(bytes: Vec<u8>) -> Quoted {
        Quoted { bytes }
    }

    /// Its bytes.
    pub fn as_bytes(&self) -> &[u8] {
        self.bytes.as_slice()
    }
}

impl From<String> for Quoted {
    fn from(text: String) -> Quoted {
        Quoted {
            bytes: text.into_bytes(),
        }
    }
}

impl Debug for Quoted {
    fn fmt<W: Write>(&self, f: &mut Formatter<W>) -> fmt::Result {
        match str::from_utf8(self.bytes.as_slice()) {
            Ok(text) => Debug::fmt(text, f),
            Err(_) => write_octal(self.bytes.as_slice(), f),
        }
    }
}

/// Writes bytes as git writes those of a path.
fn write_octal<W: Write>(bytes: &[u8], f: &mut Formatter<W>) -> fmt::Result {
    f.write_str("\"")?;
    for byte in bytes {
        let byte = *byte;
        match byte {
            b'"' | b'\\' => write!(f, "\\{}", char::from(byte))?,
            b' '..=b'~' => write!(f, "{}", char::from(byte))?,
            _ => write!(f, "\\{}{}{}", byte / 64, byte / 8 % 8, byte % 8)?,
        }
    }
    f.write_str("\"")
}
