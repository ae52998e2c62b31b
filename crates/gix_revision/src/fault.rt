//! Why a word means nothing.
use crate::parse::ParseFault;
use crate::steps::StepFault;
use gix_hash::ObjectId;
use gix_repository::{Quoted, name_of_text};
use std::alloc::{AllocError, AllocFailed, Global};
use thiserror::Error;

/// How many ids are named at the most.
const MOST_NAMED: usize = 20;

/// Why a word means nothing. Words are written in quotes, so that each text is one line.
#[derive(Drop, Debug, Error)]
pub enum Fault {
    /// The word is no revision, or of a form that isn't taken.
    #[error("{word:?}: {fault}")]
    Word {
        /// The word, or the side of a range.
        word: Quoted,
        /// Why it isn't taken.
        fault: ParseFault,
    },
    /// No ref has this name, and no object an id that begins so.
    #[error("{0:?}: no ref and no object is called so")]
    Unknown(Quoted),
    /// The config names no upstream of this branch, or no ref is where its remote's are kept. `HEAD` is the branch that is checked out.
    #[error("{0:?}: no upstream of this branch is known")]
    NoUpstream(Quoted),
    /// All refs are asked for, and this one is damaged.
    #[error("broken ref: {0:?}")]
    BrokenRef(Quoted),
    /// The ids of several objects begin so.
    #[error("{word:?}: the ids of several objects begin so: {ids}")]
    Ambiguous {
        /// The digits.
        word: Quoted,
        /// The first 20 ids, parted by spaces, and how many others there are.
        ids: String,
    },
    /// The steps of the revision lead to no object.
    #[error("{word:?}: {fault}")]
    Steps {
        /// The revision.
        word: Quoted,
        /// Why they lead to none.
        fault: StepFault,
    },
    /// The refs can't be read.
    #[error("{0}")]
    Repository(gix_repository::Fault),
    /// The ids of objects can't be read.
    #[error("{0}")]
    Odb(gix_odb::Fault),
    /// Memory ran out.
    #[error("out of memory")]
    Memory,
}

impl From<AllocError> for Fault {
    fn from(_error: AllocError) -> Fault {
        Fault::Memory
    }
}

impl<T: Drop> From<AllocFailed<T>> for Fault {
    fn from(_error: AllocFailed<T>) -> Fault {
        Fault::Memory
    }
}

impl From<gix_repository::Fault> for Fault {
    fn from(fault: gix_repository::Fault) -> Fault {
        match &fault {
            gix_repository::Fault::Memory => Fault::Memory,
            _ => Fault::Repository(fault),
        }
    }
}

impl From<gix_odb::Fault> for Fault {
    fn from(fault: gix_odb::Fault) -> Fault {
        match fault {
            gix_odb::Fault::Memory => Fault::Memory,
            fault => Fault::Odb(fault),
        }
    }
}

/// A word for a message, in which the text of a name is the name.
///
/// # Errors
///
/// `AllocError` when out of memory.
pub fn quoted(alloc: Global, word: &str) -> Result<Quoted, AllocError> {
    Ok(Quoted::of(name_of_text(alloc, word)?))
}

/// The fault of a word that isn't taken.
pub(crate) fn fault_of_word(alloc: Global, word: &str, fault: ParseFault) -> Fault {
    if fault == ParseFault::Memory {
        return Fault::Memory;
    }
    match quoted(alloc, word) {
        Ok(word) => Fault::Word { word, fault },
        Err(_) => Fault::Memory,
    }
}

/// The fault of a revision whose steps lead to no object.
pub(crate) fn fault_of_steps(alloc: Global, word: &str, fault: StepFault) -> Fault {
    if let StepFault::Memory = fault {
        return Fault::Memory;
    }
    match quoted(alloc, word) {
        Ok(word) => Fault::Steps { word, fault },
        Err(_) => Fault::Memory,
    }
}

/// The fault of a ref whose object leads to no commit, or can't be read.
pub(crate) fn fault_of_ref(alloc: Global, name: &[u8], fault: StepFault) -> Fault {
    if let StepFault::Memory = fault {
        return Fault::Memory;
    }
    match Quoted::new(alloc, name) {
        Ok(word) => Fault::Steps { word, fault },
        Err(_) => Fault::Memory,
    }
}

/// The fault of a name that nothing has.
pub(crate) fn unknown(alloc: Global, name: &str) -> Fault {
    match quoted(alloc, name) {
        Ok(name) => Fault::Unknown(name),
        Err(_) => Fault::Memory,
    }
}

/// The fault of digits that several ids begin with.
pub(crate) fn ambiguous(alloc: Global, word: &str, ids: &[ObjectId]) -> Fault {
    let word = match quoted(alloc, word) {
        Ok(word) => word,
        Err(_) => return Fault::Memory,
    };
    match named(alloc, ids) {
        Ok(ids) => Fault::Ambiguous { word, ids },
        Err(_) => Fault::Memory,
    }
}

/// The first 20 ids, parted by spaces, and how many others there are.
fn named(alloc: Global, ids: &[ObjectId]) -> Result<String, AllocError> {
    let mut text = String::new(alloc);
    for (number, id) in ids.iter().enumerate() {
        if number >= MOST_NAMED {
            let others = ids.len().saturating_sub(MOST_NAMED);
            text.push_str(format!(in alloc; " and {others} more")?.as_str())?;
            break;
        }
        if number > 0 {
            text.push_str(" ")?;
        }
        text.push_str(format!(in alloc; "{id}")?.as_str())?;
    }
    Ok(text)
}
