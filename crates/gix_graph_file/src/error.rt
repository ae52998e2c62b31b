//! Why a file is no commit-graph.
ghost use Rattle.std.specs.Prelude.{◌≡◌};
ghost use Rattle.gix_graph_file.specs.FileTable.{name_of};

use gix_commitgraph::GraphError;
use std::alloc::{AllocError, AllocFailed};
use std::fmt;
use thiserror::Error;

/// A chunk of a commit-graph file that is read.
#[derive(Clone, Copy, PartialEq, Eq, Debug)]
pub enum Chunk {
    /// `OIDF`: for each first byte, how many ids begin with this byte or a lower one. The last count is the number of rows.
    FanOut,
    /// `OIDL`: the ids in rising order.
    Ids,
    /// `CDAT`: of each commit its tree, its parents, its generation and its committer's seconds.
    Data,
    /// `EDGE`: the second and later parents of commits that have three or more.
    Edges,
    /// `BASE`: the trailing hashes of the layers below, lowest first.
    Base,
}

impl Chunk {
    /// The chunk's name, as a number of four bytes.
    pub(crate) fn name(self) -> u32
        ensures { result ≡ name_of self }
    {
        match self {
            Chunk::FanOut => 0x4F49_4446,
            Chunk::Ids => 0x4F49_444C,
            Chunk::Data => 0x4344_4154,
            Chunk::Edges => 0x4544_4745,
            Chunk::Base => 0x4241_5345,
        }
    }
}

/// The chunk's name: `OIDF`, `OIDL`, `CDAT`, `EDGE` or `BASE`.
impl fmt::Display for Chunk {
    fn fmt<W: fmt::Write>(&self, f: &mut fmt::Formatter<W>) -> fmt::Result {
        f.write_str(match self {
            Chunk::FanOut => "OIDF",
            Chunk::Ids => "OIDL",
            Chunk::Data => "CDAT",
            Chunk::Edges => "EDGE",
            Chunk::Base => "BASE",
        })
    }
}

/// The first thing in a file that is not as it should be. The tests come in this order, and `TooMany` for rows before the
/// sizes of `OIDL`, `CDAT` and `EDGE`; of each row `Order` before `Parents`, and both before those of the next row.
#[derive(Clone, Copy, PartialEq, Eq, Debug, Error)]
pub enum Error {
    /// There are fewer than 8 bytes.
    #[error("fewer than 8 bytes")]
    Header,
    /// The file doesn't begin with `CGPH`.
    #[error("no signature CGPH")]
    Signature,
    /// The version isn't 1.
    #[error("the version isn't 1")]
    Version,
    /// The version of the hash is neither 1 (SHA-1) nor 2 (SHA-256).
    #[error("the hash is neither SHA-1 nor SHA-256")]
    HashVersion,
    /// The file has another number of lower layers than it has here: a file that is read alone has none.
    #[error("the file has another number of lower layers")]
    Layer,
    /// The table of chunks and the trailing hash don't fit into the file.
    #[error("the table of chunks doesn't fit")]
    Truncated,
    /// The table of chunks is not as it should be: a chunk has the name 0, or the last entry another; a chunk begins below the end
    /// of the table or of the chunk before it; or the last chunk doesn't end where the trailing hash begins.
    #[error("the table of chunks is damaged")]
    Table,
    /// There is no such chunk. `OIDF` is looked for first, then `OIDL`, then `CDAT`; `EDGE` may be missing.
    #[error("no chunk {0}")]
    Missing(Chunk),
    /// `OIDF` doesn't have 1024 bytes, `OIDL` an id for each row, or `CDAT` a tree and 16 bytes for each; or the bytes of `EDGE`
    /// are no multiple of 4.
    #[error("the chunk {0} has the wrong size")]
    Size(Chunk),
    /// There are more than 1,879,048,192 rows, or more than 2,147,483,646 words in `EDGE`.
    #[error("too many commits or parents")]
    TooMany,
    /// The ids of a layer are of another kind than those of the layers below. No file that is read alone has this fault.
    #[error("the ids are of another kind than those of the layers below")]
    Kind,
    /// `BASE` isn't the trailing hashes of the layers below, lowest first. No file that is read alone has this fault.
    #[error("the chunk BASE isn't the hashes of the layers below")]
    Base,
    /// The id of this row isn't above the id of the row before it.
    #[error("the id of row {0} isn't above the one before")]
    Order(u32),
    /// The parents of this row are not as they should be: there is a second and no first one; or the second word names words of `EDGE`
    /// that aren't those after the words of the row before, or that have no last one, or only one.
    #[error("the parents of row {0} are damaged")]
    Parents(u32),
    /// There are words in `EDGE` after those of the last row.
    #[error("words are left in EDGE")]
    Edges,
    /// Memory ran out.
    #[error("out of memory")]
    Memory,
}

impl From<AllocError> for Error {
    ghost use Rattle.std.specs.Prelude.{◌≡◌};
    ghost use Rattle.gix_graph_file.specs.declared.error.Error.TheVariants.{Memory};

    ghost from_gives = { λ _ error. error ≡ Memory };

    fn from(_error: AllocError) -> Error {
        Error::Memory
    }
}

// So that `list.push(row)?` is this error. The value is dropped.
impl<T: Drop> From<AllocFailed<T>> for Error {
    ghost use Rattle.std.specs.Prelude.{◌≡◌};
    ghost use Rattle.gix_graph_file.specs.declared.error.Error.TheVariants.{Memory};

    ghost from_gives = { λ _ error. error ≡ Memory };

    fn from(_error: AllocFailed<T>) -> Error {
        Error::Memory
    }
}

/// The first thing in a chain that is not as it should be.
#[derive(Clone, Copy, PartialEq, Eq, Debug, Error)]
pub enum ChainError {
    /// What is wrong with the layer of this number. The lowest layer has the number 0.
    #[error("layer {0}: {1}")]
    Layer(usize, Error),
    /// Each layer is as it should be, and their rows together are no graph: two layers have one id, or there are too many rows.
    #[error("the layers together: {0}")]
    Rows(GraphError),
    /// Memory ran out.
    #[error("out of memory")]
    Memory,
}
