//! Git's commit-graph as rows that can be used without a store.
ghost use Rattle.std.specs.Prelude.{IfErr, IfOk};
ghost use Rattle.gix_graph_file.specs.ChainSteps.{layers_seen};
ghost use Rattle.gix_commands.specs.Opening.{FailsToOpen, AreReadFrom, FailsAsRefused, Opens};

use gix_commitgraph::Graph;
use gix_graph_check::first_unsound;
use gix_graph_file::{ChainError, graph_of_layers, graph_of_owned_layers};
use gix_words::Fault;
use std::alloc::Global;

/// Reads the layers of a commit-graph, lowest first, as rows that can be used without a store. No layers are no rows.
///
/// # Errors
/// `Graph` where the layers are no commit-graph, `Row` with the id of the first row, in rising order of ids, that isn't sound, and
/// `Memory`.
pub(crate) fn open(alloc: Global, layers: &[Vec<u8>]) -> Result<Graph, Fault>
    ensures ok { IfOk result (Opens (layers_seen layers.now)) }
    ensures err { IfErr result (FailsToOpen (layers_seen layers.now)) }
{
    let graph = read_lent(alloc, layers)?;
    match first_unsound(&graph) {
        None => Ok(graph),
        Some(id) => Err(Fault::Row(id)),
    }
}

/// The rows of layers that are lent.
fn read_lent(alloc: Global, layers: &[Vec<u8>]) -> Result<Graph, Fault>
    ensures ok { IfOk result (AreReadFrom (layers_seen layers.now)) }
    ensures err { IfErr result (FailsToOpen (layers_seen layers.now)) }
{
    match graph_of_layers(alloc, layers) {
        Ok(graph) => Ok(graph),
        Err(error) => Err(fault_of(error)),
    }
}

/// Reads the layers of a commit-graph, lowest first, as rows, and drops the layers. A run over these rows is one over these layers: see the
/// clause `whole` of [`answer`](crate::answer).
///
/// # Errors
/// `Graph` where the layers are no commit-graph, and `Memory`.
pub fn read_graph(alloc: Global, layers: Vec<Vec<u8>>) -> Result<Graph, Fault>
    ensures ok { IfOk result (AreReadFrom (layers_seen layers.items)) }
    ensures err { IfErr result (FailsToOpen (layers_seen layers.items)) }
{
    match graph_of_owned_layers(alloc, layers) {
        Ok(graph) => Ok(graph),
        Err(error) => Err(fault_of(error)),
    }
}

/// Why layers aren't opened that are no chain.
fn fault_of(error: ChainError) -> Fault
    ensures { FailsAsRefused error result }
{
    match error {
        ChainError::Memory => Fault::Memory,
        error => Fault::Graph(error),
    }
}
