//! Packs of git and their indexes: where an object is, and how it is stored there.
#![tactic(auto)]

mod entry;
mod front;
mod index;
mod number;

pub use entry::{Base, Entry, EntryFault, entry_at};
pub use front::Front;
pub use index::{INDEX_HEAD, Index, IndexFault, Source};
use thiserror::Error;

/// How many bytes the head of a pack has, which are before its first entry.
pub const HEAD: usize = 12;

/// Why the head of a pack isn't one.
#[derive(Clone, Copy, PartialEq, Eq, Debug, Error)]
pub enum HeadFault {
    /// There are fewer than 12 bytes.
    #[error("a pack that is cut")]
    Truncated,
    /// The first four bytes aren't `PACK`.
    #[error("no pack")]
    Signature,
    /// The version is neither 2 nor 3, whose packs are alike.
    #[error("a pack of version {0}")]
    Version(u32),
}

/// How many entries a pack says that it has, whose first bytes these are.
///
/// # Errors
///
/// The first fault of [`HeadFault`] in their order.
pub fn count_of(head: &[u8]) -> Result<u32, HeadFault> {
    let [p, a, c, k, d, e, f, g, h, i, j, l, ..] = head else {
        return Err(HeadFault::Truncated);
    };
    if [*p, *a, *c, *k] != *b"PACK" {
        return Err(HeadFault::Signature);
    }
    let version = u32::from_be_bytes([*d, *e, *f, *g]);
    if version != 2 && version != 3 {
        return Err(HeadFault::Version(version));
    }
    Ok(u32::from_be_bytes([*h, *i, *j, *l]))
}
