//! Why a question has no command that answers it.
use gix_options::Misuse;
use std::alloc::{AllocError, AllocFailed};
use thiserror::Error;

/// Why it isn't known which ids a question's revisions stand for.
#[derive(Drop, Debug, Error)]
pub enum Fault {
    /// The revisions stand for too many ids, or too few.
    #[error("{0}")]
    Misuse(Misuse),
    /// What both of two commits reach can't be read.
    #[error("{0}")]
    Command(gix_words::Fault),
    /// An object can't be read.
    #[error("{0}")]
    Object(gix_gather::Fault),
    /// The refs can't be read.
    #[error("{0}")]
    Repository(gix_repository::Fault),
    /// The revision of this number, from 1 on, stands for nothing.
    #[error("{1}")]
    Revision(usize, gix_revision::Fault),
    /// The repository has no commit.
    #[error("no commit yet")]
    NoCommit,
    /// Memory ran out.
    #[error("out of memory")]
    Memory,
}

impl From<Misuse> for Fault {
    fn from(misuse: Misuse) -> Fault {
        match misuse {
            Misuse::Memory => Fault::Memory,
            misuse => Fault::Misuse(misuse),
        }
    }
}

impl From<gix_gather::Fault> for Fault {
    fn from(fault: gix_gather::Fault) -> Fault {
        match fault {
            gix_gather::Fault::Memory => Fault::Memory,
            fault => Fault::Object(fault),
        }
    }
}

impl From<gix_repository::Fault> for Fault {
    fn from(fault: gix_repository::Fault) -> Fault {
        match &fault {
            gix_repository::Fault::Memory => Fault::Memory,
            _ => Fault::Repository(fault),
        }
    }
}

impl From<AllocError> for Fault {
    fn from(_error: AllocError) -> Fault {
        Fault::Memory
    }
}

impl<T: Drop> From<AllocFailed<T>> for Fault {
    fn from(_error: AllocFailed<T>) -> Fault {
        Fault::Memory
    }
}
