//! Why there is no certificate.
use std::alloc::{AllocError, AllocFailed};
use thiserror::Error;

/// Why a certificate isn't written, or isn't read. Each text is one line.
#[derive(Drop, Debug, Error)]
pub enum Fault {
    /// There is something of this name already.
    #[error("{0:?} exists, and a certificate replaces nothing")]
    Exists(String),
    /// The file of this name can't be written, and there is none.
    #[error("the certificate {0:?} can't be written, and nothing of it is left")]
    Unwritten(String),
    /// The file of this name can't be written, nor removed.
    #[error("the certificate {0:?} can't be written, and a beginning of it is left")]
    Cut(String),
    /// There is no file of this name.
    #[error("there is no certificate {0:?}")]
    Absent(String),
    /// The file of this name isn't read.
    #[error("the certificate {0:?} isn't read: {1}")]
    Unread(String, gix_files::Damage),
    /// The file of the program isn't read.
    #[error("the file of the program isn't read: {0}")]
    Program(gix_files::Damage),
    /// It isn't UTF-8.
    #[error("the certificate isn't UTF-8")]
    NotText,
    /// It is no JSON.
    #[error("the certificate isn't JSON")]
    NotJson,
    /// Its form has another version.
    #[error("the certificate is of another version of the form than {0}")]
    Version(u64),
    /// This member is missing, or is of another kind.
    #[error("the certificate is wrong or incomplete at {0:?}")]
    Member(&'static str),
    /// It has what no run writes: another member, or another layout.
    #[error("the certificate isn't as a run has written it")]
    Changed,
    /// Memory ran out.
    #[error("out of memory")]
    Memory,
}

impl From<AllocError> for Fault {
    fn from(_error: AllocError) -> Fault {
        Fault::Memory
    }
}

impl<T: Drop> From<AllocFailed<T>> for Fault {
    fn from(_error: AllocFailed<T>) -> Fault {
        Fault::Memory
    }
}
