//! Why a text isn't what it is to be.
use std::alloc::{AllocError, AllocFailed};
use thiserror::Error;

/// Why a text says no ref, no path, or no ids. Lines are counted from 1.
#[derive(Clone, Copy, PartialEq, Eq, Debug, Error)]
pub enum RefFault {
    /// It begins neither with an id nor with `ref:`.
    #[error("it is no ref")]
    NoRef,
    /// It names a ref by what is no name of one.
    #[error("it names what is no name of a ref")]
    Name,
    /// The path in it isn't UTF-8.
    #[error("the path in it isn't UTF-8")]
    NotText,
    /// This line of packed refs isn't an id, a space and a name, or the last line isn't ended.
    #[error("line {0} is no ref")]
    Line(u64),
    /// It doesn't begin with `gitdir: ` and a path.
    #[error("it names no repository")]
    NoRepository,
    /// It has no path.
    #[error("it names no folder")]
    NoFolder,
    /// This line of the border of a shallow clone doesn't begin with an id.
    #[error("line {0} is no id")]
    Border(u64),
    /// Memory ran out.
    #[error("out of memory")]
    Memory,
}

impl From<AllocError> for RefFault {
    fn from(_error: AllocError) -> RefFault {
        RefFault::Memory
    }
}

impl<T: Drop> From<AllocFailed<T>> for RefFault {
    fn from(_error: AllocFailed<T>) -> RefFault {
        RefFault::Memory
    }
}

/// Why a repository of this `config` isn't read. What is in quotes is written so that the text is one line.
#[derive(Debug, Error)]
pub enum ConfigFault {
    /// This line is no line of a config, counted from 1.
    #[error("bad config line {0}")]
    Line(u64),
    /// The version of the repository's format is neither 0 nor 1.
    #[error("the repository's format has version {0:?}")]
    FormatVersion(String),
    /// The format has version 1 and an extension of this name, which isn't known.
    #[error("unknown extension {0:?}")]
    Extension(String),
    /// The format has version 0, and an extension of this name, which only version 1 can have.
    #[error("extension {0:?} needs version 1 of the format")]
    OnlyVersionOne(String),
    /// The ids are of this kind, which isn't known.
    #[error("unknown object format {0:?}")]
    ObjectFormat(String),
    /// The refs are in a reftable.
    #[error("refs in a reftable aren't read")]
    Reftable,
    /// The refs are stored in this way, which isn't known.
    #[error("unknown storage of refs {0:?}")]
    RefStorage(String),
    /// Memory ran out.
    #[error("out of memory")]
    Memory,
}

/// A call drops a fault. Else each function that may drop one would go through all of them itself, and so would its proof.
impl Drop for ConfigFault {
    fn drop(self) {
        match self {
            ConfigFault::Line(_) | ConfigFault::Reftable | ConfigFault::Memory => {}
            ConfigFault::FormatVersion(_) | ConfigFault::ObjectFormat(_) => {}
            ConfigFault::Extension(_) | ConfigFault::OnlyVersionOne(_) => {}
            ConfigFault::RefStorage(_) => {}
        }
    }
}

impl From<AllocError> for ConfigFault {
    fn from(_error: AllocError) -> ConfigFault {
        ConfigFault::Memory
    }
}

impl<T: Drop> From<AllocFailed<T>> for ConfigFault {
    fn from(_error: AllocFailed<T>) -> ConfigFault {
        ConfigFault::Memory
    }
}
