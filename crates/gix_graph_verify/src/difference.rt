//! What is wrong with commit-graph files.
ghost use Rattle.std.specs.Prelude.{◌≡◌, ◌++◌, ◌∷◌, [], ◌<◌, ◌≤◌, length, OnOk};
ghost use Rattle.gix_graph_verify.specs.Reporting.{Adds};

use gix_graph_file::ChainError;
use gix_hash::ObjectId;
use std::alloc::AllocError;
use std::fmt::{self, Display, Formatter};
use thiserror::Error;

/// How many differences are named at the most.
pub const MOST_DIFFERENCES: usize = 100;

/// What is wrong with a file, or with the row of a commit.
#[derive(Clone, Copy, PartialEq, Eq, Debug, Error)]
pub enum Difference {
    /// The file of this number, the lowest being 0, doesn't end with the hash of its other bytes.
    #[error("layer {0}: the file doesn't end with the hash of its bytes")]
    Hash(usize),
    /// The row of this commit isn't sound: a place of a parent is corrupt, or the generation isn't above that of each parent.
    #[error("{0}: the row isn't sound")]
    Unsound(ObjectId),
    /// The repository doesn't have this commit.
    #[error("{0}: the commit is missing")]
    Missing(ObjectId),
    /// What the repository has at this id is another object: its hash isn't the id.
    #[error("{0}: another object is stored for the commit")]
    Misnamed(ObjectId),
    /// The object of this id is no commit, or can't be read to its committer.
    #[error("{0}: the object is no commit")]
    NotACommit(ObjectId),
    /// The commit has another tree than its row.
    #[error("{0}: the commit has another tree")]
    Tree(ObjectId),
    /// The commit has another time than its row.
    #[error("{0}: the commit has another time")]
    Time(ObjectId),
    /// The commit has other parents than its row.
    #[error("{0}: the commit has other parents")]
    Parents(ObjectId),
}

/// Why files weren't compared with commits.
#[derive(Drop, Debug)]
pub enum Fault<E> {
    /// The files are no chain of a commit-graph.
    Layers(ChainError),
    /// The store couldn't be read.
    Objects(E),
    /// Memory ran out.
    Memory,
}

impl<E: Display> Display for Fault<E> {
    fn fmt<W: fmt::Write>(&self, f: &mut Formatter<W>) -> fmt::Result {
        match self {
            Fault::Layers(error) => error.fmt(f),
            Fault::Objects(fault) => fault.fmt(f),
            Fault::Memory => f.write_str("out of memory"),
        }
    }
}

impl<E> From<AllocError> for Fault<E> {
    fn from(_error: AllocError) -> Fault<E> {
        Fault::Memory
    }
}

impl<E> From<ChainError> for Fault<E> {
    fn from(error: ChainError) -> Fault<E> {
        match error {
            ChainError::Memory => Fault::Memory,
            error => Fault::Layers(error),
        }
    }
}

/// Adds a difference, where fewer than [`MOST_DIFFERENCES`] are named.
pub(crate) fn add(all: &mut Vec<Difference>, difference: Difference) -> Result<(), AllocError>
    ensures { OnOk result (Adds all.old.items difference all.new.items) }
{
    if all.len() < MOST_DIFFERENCES {
        all.push(difference)?;
    }
    Ok(())
}
