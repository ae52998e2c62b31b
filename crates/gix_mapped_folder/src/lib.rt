//! A folder in memory that is read as files are: its files are slices that a caller has mapped or read.
//!
//! [`Mapped`] is std's `Files` over such slices, so whatever reads files through that trait reads them too. Nothing is written, opened or
//! kept. A file is found by its path in time that grows with the logarithm of how many files there are.
#![tactic(auto)]

mod files;
mod names;
mod opened;
mod paths;

pub use files::Mapped;
pub use names::Names;
pub use opened::Opened;
use std::alloc::{AllocError, Global};

/// A file of a folder, by its path below the folder, as `objects/pack/pack-1.idx`. A path that ends in `/` says that there is a folder.
#[repr(C)]
#[derive(Clone, Copy)]
pub struct NamedFile<'a> {
    /// Its path.
    pub name: &'a [u8],
    /// What it holds.
    pub bytes: &'a [u8],
}

/// The files in the order of their paths, in which [`Mapped`] takes them. Those of one path keep their order.
///
/// # Errors
///
/// `AllocError` when out of memory.
pub fn by_path<'a>(
    alloc: Global,
    files: &[NamedFile<'a>],
) -> Result<Vec<NamedFile<'a>>, AllocError> {
    let mut sorted = Vec::from_slice(alloc, files)?;
    sorted
        .as_mut_slice()
        .sort_by(alloc, |one, other| one.name.cmp(other.name))?;
    Ok(sorted)
}
