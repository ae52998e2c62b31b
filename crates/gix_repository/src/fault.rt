//! Why a repository gives no answer.
use gix_refs::{ConfigFault, Quoted, RefFault};
use std::alloc::{AllocError, AllocFailed};
use thiserror::Error;

/// What is wrong with a file or a folder of a repository.
#[derive(Drop, Debug, Error)]
pub enum Damage {
    /// It can't be read.
    #[error(transparent)]
    File(gix_files::Damage),
    /// It says no ref, no path, or no ids.
    #[error(transparent)]
    Ref(RefFault),
    /// The config can't be read, or says a format that isn't known.
    #[error(transparent)]
    Config(ConfigFault),
    /// It leads to this path, where no repository is.
    #[error("no repository is at {0:?}")]
    LeadsNowhere(String),
    /// A file of a ref has a name that isn't UTF-8, which the system's files don't take.
    #[error("a name in it isn't UTF-8: git pack-refs --all puts such refs where they can be read")]
    Unpacked,
    /// Folders of refs are within one another, more than 64 of them.
    #[error("folders of refs are too deep")]
    Deep,
    /// There are more folders of refs, or more refs, than are read.
    #[error("too many refs")]
    TooMany,
}

impl From<gix_files::Damage> for Damage {
    fn from(damage: gix_files::Damage) -> Damage {
        Damage::File(damage)
    }
}

impl From<AllocError> for Damage {
    fn from(_error: AllocError) -> Damage {
        Damage::File(gix_files::Damage::Memory)
    }
}

impl<T: Drop> From<AllocFailed<T>> for Damage {
    fn from(_error: AllocFailed<T>) -> Damage {
        Damage::File(gix_files::Damage::Memory)
    }
}

/// Why a repository can't be opened, or doesn't say a ref. Paths and names are written in quotes, so that each text is one line.
#[derive(Debug, Error)]
pub enum Fault {
    /// No repository is at this path, or at a folder above it.
    #[error("no repository is at {0:?}")]
    NoRepository(String),
    /// This file or folder is damaged.
    #[error("{file:?}: {damage}")]
    Damaged {
        /// The path.
        file: Quoted,
        /// What is wrong with it.
        damage: Damage,
    },
    /// This file of a ref is damaged.
    #[error("broken ref: {file:?}: {damage}")]
    BrokenRef {
        /// The path.
        file: Quoted,
        /// What is wrong with it.
        damage: Damage,
    },
    /// The symbolic ref of this name is the sixth on its way, and git goes through five at the most.
    #[error("broken ref: too many symbolic refs lead to {0:?}")]
    RefLoop(Quoted),
    /// The objects can't be read.
    #[error(transparent)]
    Odb(gix_odb::Fault),
    /// Memory ran out.
    #[error("out of memory")]
    Memory,
}

/// A call drops a fault. Else each function that may drop one would go through all of them itself, and so would its proof.
impl Drop for Fault {
    fn drop(self) {
        match self {
            Fault::NoRepository(_) | Fault::RefLoop(_) | Fault::Odb(_) | Fault::Memory => {}
            Fault::Damaged { file: _, damage: _ } | Fault::BrokenRef { file: _, damage: _ } => {}
        }
    }
}

impl Fault {
    /// Whether one ref alone is damaged, and others can be read.
    pub fn is_broken_ref(&self) -> bool {
        match self {
            Fault::BrokenRef { .. } | Fault::RefLoop(_) => true,
            _ => false,
        }
    }
}

impl From<gix_odb::Fault> for Fault {
    fn from(fault: gix_odb::Fault) -> Fault {
        match fault {
            gix_odb::Fault::Memory => Fault::Memory,
            fault => Fault::Odb(fault),
        }
    }
}

impl From<AllocError> for Fault {
    fn from(_error: AllocError) -> Fault {
        Fault::Memory
    }
}

impl<T: Drop> From<AllocFailed<T>> for Fault {
    fn from(_error: AllocFailed<T>) -> Fault {
        Fault::Memory
    }
}

/// Whether memory ran out.
fn is_memory(damage: &Damage) -> bool {
    match damage {
        Damage::File(gix_files::Damage::Memory)
        | Damage::Ref(RefFault::Memory)
        | Damage::Config(ConfigFault::Memory) => true,
        _ => false,
    }
}

/// The fault of a file.
pub(crate) fn fault_of(file: String, damage: Damage) -> Fault {
    fault_at(Quoted::from(file), damage)
}

/// The fault of a file whose path may hold any bytes.
pub(crate) fn fault_at(file: Quoted, damage: Damage) -> Fault {
    if is_memory(&damage) {
        return Fault::Memory;
    }
    Fault::Damaged { file, damage }
}

/// The fault of the file of a ref.
pub(crate) fn broken_ref(file: Quoted, damage: Damage) -> Fault {
    if is_memory(&damage) {
        return Fault::Memory;
    }
    Fault::BrokenRef { file, damage }
}
