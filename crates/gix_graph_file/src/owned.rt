//! The rows of files that are given up, so that a large file needn't lie beside all of its rows.
ghost use Rattle.std.specs.Prelude.{◌≡◌, ◌≢◌, [], ◌∷◌, All, Ok, Err, IfOk, IfErr};
ghost use Rattle.gix_commitgraph.specs.Packed.{AreBytes, AreGraphRows};
ghost use Rattle.gix_graph_file.specs.Chain.{read_chain, HasChain, RefusesChain};
ghost use Rattle.gix_graph_file.specs.ChainSteps.{files_seen, layers_seen};

use crate::chain::{at_layer, graph_of_chain};
use crate::halves::{hand_back, lower_of, packed_of_halves, upper_of};
use crate::table::{base_of, layout_of};
use crate::{ChainError, Error, graph_of_packed};
use gix_commitgraph::Graph;
use std::alloc::{AllocError, Global};

/// The rows of a chain of one file, which is dropped.
fn graph_of_file(alloc: Global, file: Vec<u8>) -> Result<Graph, Error>
    ensures rows { IfOk result (λ rows. AreGraphRows rows × (read_chain (file.items ∷ []) ≡ Ok rows)) }
    ensures fault { IfErr result (λ error. error ≢ Error.Memory → read_chain (file.items ∷ []) ≡ Err (ChainError.Layer 0 error)) }
    ensures bytes { AreBytes file.items }
{
    let layout = layout_of(0, file.as_slice())?;
    if !base_of(layout.kind, file.as_slice()).is_empty() {
        return Err(Error::Base);
    }
    let lower = lower_of(layout);
    let upper = upper_of(alloc, layout)?;
    let packed = packed_of_halves(alloc, lower, file, upper)?;
    graph_of_packed(packed)
}

/// The rows of a chain of commit-graph files that are given up, lowest first: as those that [`graph_of_chain`] gives of their bytes.
///
/// Of one file the upper half of the rows is packed and then cut off, before the lower half is packed. So the whole file and all packed
/// rows are never in memory at once.
///
/// # Errors
///
/// As [`graph_of_chain`].
pub fn graph_of_owned_layers(alloc: Global, mut layers: Vec<Vec<u8>>) -> Result<Graph, ChainError>
    ensures rows { IfOk result (HasChain (layers_seen layers.items)) }
    ensures fault { IfErr result (RefusesChain (layers_seen layers.items)) }
    ensures bytes { IfOk result (λ _. All AreBytes (layers_seen layers.items)) }
{
    if layers.len() == 1 {
        if let Some(file) = layers.pop() {
            return match graph_of_file(alloc, file) {
                Ok(graph) => Ok(graph),
                Err(error) => Err(at_layer(0, error)),
            };
        }
    }
    let graph = graph_of_layers(alloc, layers.as_slice());
    for file in layers {
        hand_back(file);
    }
    graph
}

/// The rows of a chain of commit-graph files, lowest first: those that [`graph_of_chain`] gives of their bytes.
///
/// # Errors
///
/// As [`graph_of_chain`].
pub fn graph_of_layers(alloc: Global, layers: &[Vec<u8>]) -> Result<Graph, ChainError>
    ensures rows { IfOk result (HasChain (layers_seen layers.now)) }
    ensures fault { IfErr result (RefusesChain (layers_seen layers.now)) }
    ensures bytes { IfOk result (λ _. All AreBytes (layers_seen layers.now)) }
{
    let files = match lend(alloc, layers) {
        Ok(files) => files,
        Err(_) => return Err(ChainError::Memory),
    };
    graph_of_chain(alloc, files.as_slice())
}

/// The bytes of each layer.
fn lend(alloc: Global, layers: &[Vec<u8>]) -> Result<Vec<&[u8]>, AllocError>
    ensures files { IfOk result (λ files. files_seen files.items ≡ layers_seen layers.now) }
    ensures bytes { IfOk result (λ files. All AreBytes (files_seen files.items)) }
{
    let mut files = Vec::new(alloc);
    for layer in layers {
        files.push(bytes_of(layer))?;
    }
    Ok(files)
}

/// The bytes of a layer.
fn bytes_of(layer: &Vec<u8>) -> &[u8]
    ensures value { result.now ≡ layer.now.items }
    ensures bytes { AreBytes result.now }
{
    layer.as_slice()
}
