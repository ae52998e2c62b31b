//! Why an objects folder gives no answer.
use gix_delta::Fault as DeltaFault;
use gix_hash::ObjectId;
use gix_inflate::Fault as StreamFault;
use gix_pack::{EntryFault, HeadFault, IndexFault};
use std::alloc::{AllocError, AllocFailed};
use thiserror::Error;

/// What is wrong with a file. Places are numbers of bytes from the front of a pack, where an entry begins.
#[derive(Clone, Copy, PartialEq, Eq, Debug, Error)]
pub enum Damage {
    /// The system didn't open or read it.
    #[error("it can't be read")]
    Unreadable,
    /// It is a folder or a device, and a file is wanted.
    #[error("it is no file")]
    NotAFile,
    /// It is no folder, and a folder is wanted.
    #[error("it is no folder")]
    NotAFolder,
    /// It has so many bytes, more than are read of such a file.
    #[error("it is too large: {0} bytes")]
    FileTooLarge(u64),
    /// A path in it isn't UTF-8.
    #[error("a path in it is no text")]
    NotText,
    /// It and those before it name more than 1,024 folders.
    #[error("more than 1024 alternates")]
    ManyAlternates,
    /// It is no index of a pack.
    #[error("{0}")]
    Index(IndexFault),
    /// It is no pack.
    #[error("{0}")]
    Head(HeadFault),
    /// A pack has another number of entries, or another hash at its end, than its index says.
    #[error("the pack isn't the one of its index")]
    OtherPack,
    /// An index says no place for this id that a pack may have.
    #[error("no place in the pack for {0}")]
    NoPlace(ObjectId),
    /// The head of the entry at this place.
    #[error("entry {0}: {1}")]
    Entry(u64, EntryFault),
    /// The stream of the entry at this place.
    #[error("entry {0}: {1}")]
    Stream(u64, StreamFault),
    /// The delta of the entry at this place.
    #[error("entry {0}: {1}")]
    Delta(u64, DeltaFault),
    /// The entry at this place says that it has so many bytes, more than are read of an object, or than its pack can hold.
    #[error("entry {0} is too large: {1} bytes")]
    EntryTooLarge(u64, u64),
    /// The entry at this place is a delta of this object, which isn't there or can't be read.
    #[error("entry {0}: no base {1}")]
    NoBase(u64, ObjectId),
    /// The entry at this place is a delta of a delta, and so on, more than 4,095 deep.
    #[error("entry {0}: too many deltas")]
    Deep(u64),
    /// The head of a loose object.
    #[error("no head of an object")]
    LooseHead,
    /// The stream of a loose object.
    #[error("{0}")]
    LooseStream(StreamFault),
    /// Bytes are behind the stream of a loose object.
    #[error("bytes behind the object")]
    LooseBehind,
    /// A loose object says that it has so many bytes, more than are read of an object, or than its file can hold.
    #[error("the object is too large: {0} bytes")]
    LooseTooLarge(u64),
    /// All objects that were read took more than 2^40 bytes of work.
    #[error("too much to inflate")]
    TooMuch,
    /// Memory ran out.
    #[error("out of memory")]
    Memory,
}

impl From<gix_files::Damage> for Damage {
    fn from(damage: gix_files::Damage) -> Damage {
        match damage {
            gix_files::Damage::NotAFile => Damage::NotAFile,
            gix_files::Damage::FileTooLarge(len) => Damage::FileTooLarge(len),
            gix_files::Damage::Memory => Damage::Memory,
            _ => Damage::Unreadable,
        }
    }
}

impl From<AllocError> for Damage {
    fn from(_error: AllocError) -> Damage {
        Damage::Memory
    }
}

impl<T: Drop> From<AllocFailed<T>> for Damage {
    fn from(_error: AllocFailed<T>) -> Damage {
        Damage::Memory
    }
}

/// Why a folder of objects can't be opened, or an object not be read.
#[derive(Drop, Debug, Error)]
pub enum Fault {
    /// This file or folder is damaged. Its name is written in quotes, so that the text is one line.
    #[error("{file:?}: {damage}")]
    Damaged {
        /// The path.
        file: String,
        /// What is wrong with it.
        damage: Damage,
    },
    /// Memory ran out.
    #[error("out of memory")]
    Memory,
}

impl From<AllocError> for Fault {
    fn from(_error: AllocError) -> Fault {
        Fault::Memory
    }
}

impl<T: Drop> From<AllocFailed<T>> for Fault {
    fn from(_error: AllocFailed<T>) -> Fault {
        Fault::Memory
    }
}

/// The fault of a file.
pub(crate) fn fault_of(file: String, damage: Damage) -> Fault {
    match damage {
        Damage::Memory => Fault::Memory,
        damage => Fault::Damaged { file, damage },
    }
}
