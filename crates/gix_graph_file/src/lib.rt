//! Git's own commit-graph file, read as the rows of a graph.
#![tactic(auto)]

ghost use Rattle.std.specs.Prelude.{◌≡◌, ◌≢◌, Ok, Err, IfOk, IfErr};
ghost use Rattle.gix_commitgraph.specs.Packed.{AreGraphRows};
ghost use Rattle.gix_graph_file.specs.FileRows.{rows_of, read_file};
ghost use Rattle.gix_graph_file.specs.PackedParts.{seen, IsWhole, ReadsAs, fault_of};

mod chain;
mod error;
mod halves;
mod owned;
mod packing;
mod table;
mod trailer;

pub use chain::graph_of_chain;
pub use error::{ChainError, Chunk, Error};
use gix_commitgraph::{Graph, GraphError, Place};
pub use owned::{graph_of_layers, graph_of_owned_layers};
use std::alloc::Global;
use table::Layout;
pub use trailer::has_its_hash;

/// The rows of a commit-graph file as git writes it into `objects/info/commit-graph`, with ids of 20 or 32 bytes.
///
/// A parent that is no position of a row is a fault's place in the graph. The counts of the fan-out except the last, the chunks
/// that have no name in [`Chunk`], and the trailing hash are not looked at. A layer of a chain is no graph alone.
///
/// Time and memory grow with the length of the file, whatever it says.
///
/// # Errors
///
/// The first thing that is not as it should be, in the order of [`Error`]. `Memory` where memory runs out, which may be
/// before a fault of a row is found.
pub fn graph_of(alloc: Global, file: &[u8]) -> Result<Graph, Error>
    ensures rows { IfOk result (λ rows. read_file file.now ≡ Ok rows) }
    ensures fault { IfErr result (λ error. error ≢ Error.Memory → read_file file.now ≡ Err error) }
{
    let layout = table::layout_of(0, file)?;
    graph_of_parts(alloc, layout)
}

/// The rows that the parts of a file say.
fn graph_of_parts(alloc: Global, layout: Layout<'_>) -> Result<Graph, Error>
    requires { IsWhole (seen layout) }
    ensures rows { IfOk result (λ rows. AreGraphRows rows × (rows_of (seen layout.entry) ≡ Ok rows)) }
    ensures fault { IfErr result (λ error. error ≢ Error.Memory → rows_of (seen layout.entry) ≡ Err error) }
{
    let packed = packing::packed_of(alloc, layout)?;
    graph_of_packed(packed)
}

/// The rows that packed bytes say, which are those of the parts that they were packed from.
fn graph_of_packed(packed: Vec<u8>) -> Result<Graph, Error>
    ensures rows { IfOk result (λ rows. AreGraphRows rows × ReadsAs packed.items (Ok rows)) }
    ensures fault { IfErr result (λ error. ReadsAs packed.items (Err error)) }
{
    match Graph::from_packed(packed) {
        Ok(graph) => Ok(graph),
        Err(error) => Err(fault_of(error)),
    }
}

/// The fault of a file whose packed rows are refused. Only the faults of rows come: the head of the packed bytes is written here,
/// and the numbers in it are not too large.
fn fault_of(error: GraphError) -> Error
    ensures { result ≡ fault_of error }
{
    match error {
        GraphError::Packed(Place::Order(row)) => Error::Order(row),
        GraphError::Packed(Place::Parents(row)) => Error::Parents(row),
        GraphError::Packed(Place::Overflow) => Error::Edges,
        _ => Error::TooMany,
    }
}
