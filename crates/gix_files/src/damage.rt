//! What is wrong with a file or a folder.
use std::alloc::{AllocError, AllocFailed};
use std::io::ErrorKind;
use thiserror::Error;

/// Why a file or a folder isn't read.
#[derive(Clone, Copy, PartialEq, Eq, Debug, Error)]
pub enum Damage {
    /// The system didn't open or read it.
    #[error("it can't be read")]
    Unreadable,
    /// It is a folder or a device, and a file is wanted.
    #[error("it is no file")]
    NotAFile,
    /// It has so many bytes, more than are read of such a file.
    #[error("it is too large: {0} bytes")]
    FileTooLarge(u64),
    /// Its path, or the name of an entry of it, isn't UTF-8.
    #[error("its path or a name in it isn't UTF-8")]
    NotText,
    /// It has more entries than are read of a folder.
    #[error("it has too many entries")]
    TooManyEntries,
    /// Memory ran out.
    #[error("out of memory")]
    Memory,
}

impl From<AllocError> for Damage {
    fn from(_error: AllocError) -> Damage {
        Damage::Memory
    }
}

impl<T: Drop> From<AllocFailed<T>> for Damage {
    fn from(_error: AllocFailed<T>) -> Damage {
        Damage::Memory
    }
}

/// None where an error says that there is nothing of this name: also where a file is on the way to it, or no file can have the name.
pub(crate) fn absent<T>(kind: ErrorKind) -> Result<Option<T>, Damage> {
    match kind {
        ErrorKind::NotFound | ErrorKind::NotADirectory | ErrorKind::InvalidFilename => Ok(None),
        ErrorKind::OutOfMemory => Err(Damage::Memory),
        _ => Err(Damage::Unreadable),
    }
}
