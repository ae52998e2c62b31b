//! Whether the rows of a commit-graph can be used without trust.
#![tactic(auto)]

mod agreeing;
pub mod laws;
mod named;
mod sound;
mod stored;

pub use agreeing::{check, row_agrees};
use gix_hash::ObjectId;
pub use named::heads;
pub use sound::{first_unsound, is_sound};
use std::alloc::AllocError;
pub use stored::{StoredCommit, read_whole};
use thiserror::Error;

/// Why rows aren't known to agree with a store.
#[derive(Clone, Copy, PartialEq, Eq, Debug, Error)]
pub enum Disagreement {
    /// The row of this commit doesn't agree: the store has no commit of this id or can't read it to its committer, or has
    /// another tree, time or list of parents; or a parent has no row of a lesser generation; or the generation is 4294967295.
    #[error("the row of {0} doesn't agree with the store")]
    Row(ObjectId),
    /// The store failed at this id.
    #[error("the store could not be read at {0}")]
    Store(ObjectId),
    /// Memory ran out.
    #[error("out of memory")]
    Memory,
}

impl From<AllocError> for Disagreement {
    ghost use Rattle.std.specs.Prelude.{◌≡◌};
    ghost use Rattle.gix_graph_check.specs.declared.Disagreement.TheVariants.{Memory};

    ghost from_gives = { λ _ error. error ≡ Memory };

    fn from(_error: AllocError) -> Disagreement {
        Disagreement::Memory
    }
}
