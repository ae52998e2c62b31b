//! The rows of a chain of files.
ghost use Rattle.std.specs.Prelude.{◌≡◌, ◌≢◌, ◌+◌, ◌*◌, ◌/◌, ◌≤◌, [], ◌∷◌, ◌++◌, length, take, drop, Some, Ok, Err, IfOk, OnOk, IfErr};
ghost use Rattle.std.specs.Option.{option_map};
ghost use Rattle.gix_hash.specs.Id.{id_len, id_of};
ghost use Rattle.gix_commitgraph.specs.Packed.{AreGraphRows};
ghost use Rattle.gix_commitgraph.specs.PackedReading.{words_of, is_above};
ghost use Rattle.gix_commitgraph.specs.Renumbering.{rows_seen};
ghost use Rattle.gix_graph_file.specs.FileRows.{place_named, edge_list, long_edge_list, second_said, parents_said};
ghost use Rattle.gix_graph_file.specs.Chain.{is_kind, layer_rows, with_parts, with_layer, read_chain, HasChain, RefusesChain};
ghost use Rattle.gix_graph_file.specs.ChainSteps.{HasTable, below_seen, joined, prepended, ReadsLayerRow, files_seen, IsAtLayer, IsForRows, IsLayerFault};
ghost use Rattle.gix_graph_file.specs.PackedParts.{seen, IsWhole};
ghost use Rattle.gix_graph_file.specs.FileTable.{most_words};

use crate::table::{Layout, base_of, hash_of, layout_of, long_at, word_at};
use crate::{ChainError, Error, graph_of_parts};
use gix_commitgraph::{Graph, GraphError, ParentPlace, ParentPlaces, Row};
use gix_hash::{Kind, ObjectId};
use std::alloc::{AllocError, Global};

/// The word of a file where there is no parent.
const NONE: u32 = 0x7000_0000;
/// What is added to the last word of a list of parents, and to the number of its first word.
const FLAG: u32 = 0x8000_0000;
/// Where the generation begins in the number that has the seconds in its low 34 bits.
const GENERATION: u64 = 0x4_0000_0000;

/// The layers below a layer.
#[derive(Drop)]
struct Below {
    /// The kind of their ids, if there are layers below.
    kind: Option<Kind>,
    /// Their trailing hashes, lowest first.
    hashes: Vec<u8>,
    /// Their rows, lowest first.
    rows: Vec<Row>,
}

/// A parent, among so many rows.
fn place(limit: usize, word: u32) -> ParentPlace
    ensures { result ≡ place_named limit word }
{
    if (word as usize) < limit {
        ParentPlace::At(word)
    } else {
        ParentPlace::Fault
    }
}

/// Reads parents up to the word that has the flag, and lends what is behind it.
fn edge_list<'a>(
    out: &mut ParentPlaces,
    limit: usize,
    edges: &'a [u8],
) -> Result<Option<&'a [u8]>, AllocError>
    ensures { IfOk result (λ left. joined out.old.items (edge_list limit (words_of edges.now))
        ≡ option_map (λ bytes. (out.new.items, words_of bytes.now)) left) }
{
    let mut left = edges;
    while let [a, b, c, d, rest @ ..] = left {
        let word = u32::from_be_bytes([*a, *b, *c, *d]);
        if word >= FLAG {
            out.push(place(limit, word - FLAG))?;
            return Ok(Some(rest));
        }
        out.push(place(limit, word))?;
        left = rest;
    }
    Ok(None)
}

/// Reads two parents or more.
fn long_edge_list<'a>(
    out: &mut ParentPlaces,
    limit: usize,
    edges: &'a [u8],
) -> Result<Option<&'a [u8]>, AllocError>
    ensures { IfOk result (λ left. joined out.old.items (long_edge_list limit (words_of edges.now))
        ≡ option_map (λ bytes. (out.new.items, words_of bytes.now)) left) }
{
    match edges {
        [a, b, c, d, ..] => {
            let word = u32::from_be_bytes([*a, *b, *c, *d]);
            if word < FLAG {
                edge_list(out, limit, edges)
            } else {
                Ok(None)
            }
        }
        _ => Ok(None),
    }
}

/// Reads the second and later parents, where a list begins at the word `at`.
fn second_parents<'a>(
    out: &mut ParentPlaces,
    limit: usize,
    at: u32,
    second: u32,
    edges: &'a [u8],
) -> Result<Option<&'a [u8]>, AllocError>
    requires { at ≤ most_words }
    ensures { IfOk result (λ left. joined out.old.items (second_said limit at second (words_of edges.now))
        ≡ option_map (λ bytes. (out.new.items, words_of bytes.now)) left) }
{
    if second == NONE {
        return Ok(Some(edges));
    }
    if second < FLAG {
        out.push(place(limit, second))?;
        return Ok(Some(edges));
    }
    if second == FLAG + at {
        long_edge_list(out, limit, edges)
    } else {
        Ok(None)
    }
}

/// Reads the parents that two words say.
fn parents<'a>(
    out: &mut ParentPlaces,
    limit: usize,
    at: u32,
    first: u32,
    second: u32,
    edges: &'a [u8],
) -> Result<Option<&'a [u8]>, AllocError>
    requires { at ≤ most_words }
    ensures { IfOk result (λ left. joined out.old.items (parents_said limit at first second (words_of edges.now))
        ≡ option_map (λ bytes. (out.new.items, words_of bytes.now)) left) }
{
    if first == NONE {
        return if second == NONE {
            Ok(Some(edges))
        } else {
            Ok(None)
        };
    }
    out.push(place(limit, first))?;
    second_parents(out, limit, at, second, edges)
}

/// The id that the bytes are.
fn id_of(kind: Kind, bytes: &[u8]) -> ObjectId
    requires { length bytes.now ≡ id_len kind }
    ensures { result ≡ id_of kind bytes.now }
{
    match kind {
        Kind::Sha1 => {
            let mut id = [0u8; 20];
            id.copy_from_slice(bytes);
            ObjectId::Sha1(id)
        }
        Kind::Sha256 => {
            let mut id = [0u8; 32];
            id.copy_from_slice(bytes);
            ObjectId::Sha256(id)
        }
    }
}

/// Whether an id is above the id before it, if there is one.
fn is_above(before: Option<ObjectId>, id: ObjectId) -> bool
    ensures { result ≡ is_above before id }
{
    match before {
        None => true,
        Some(before) => before.cmp(&id).is_lt(),
    }
}

/// A row as its layer has it.
#[derive(Clone, Copy)]
struct LayerRow<'a> {
    number: u32,
    /// The id of the row before it.
    before: Option<ObjectId>,
    id: &'a [u8],
    tree: &'a [u8],
    /// Its first two parents, its generation and its time.
    numbers: &'a [u8],
    /// The words of lists of parents, from its own on.
    edges: &'a [u8],
}

/// Reads a row whose list of parents begins at the word `at`, and lends the words behind this list.
#[tactic(auto, unfolding(crate::specs::ChainSteps::row_read))]
fn row<'a>(
    alloc: Global,
    kind: Kind,
    limit: usize,
    at: u32,
    given: LayerRow<'a>,
) -> Result<(Row, &'a [u8]), Error>
    requires id { length given.id.now ≡ id_len kind }
    requires tree { length given.tree.now ≡ id_len kind }
    requires numbers { 16 ≤ length given.numbers.now }
    requires few { at ≤ most_words }
    ensures { ReadsLayerRow kind limit at given.entry result }
{
    let LayerRow {
        number,
        before,
        id,
        tree,
        numbers,
        edges,
    } = given;
    let id = id_of(kind, id);
    if !is_above(before, id) {
        return Err(Error::Order(number));
    }
    let mut places = ParentPlaces::new(alloc);
    let found = parents(
        &mut places,
        limit,
        at,
        word_at(numbers, 0),
        word_at(numbers, 4),
        edges,
    )?;
    let Some(left) = found else {
        return Err(Error::Parents(number));
    };
    let long = long_at(numbers, 8);
    let row = Row {
        id,
        tree: id_of(kind, tree),
        parents: places,
        generation: (long / GENERATION) as u32,
        time: (long % GENERATION) as i64,
    };
    Ok((row, left))
}

/// Reads the rows of a layer, whose parents are among so many rows.
fn push_rows(
    alloc: Global,
    out: &mut Vec<Row>,
    layout: Layout<'_>,
    limit: usize,
) -> Result<(), Error>
    requires { IsWhole (seen layout) }
    ensures rows { OnOk result (prepended (rows_seen out.old.items) (layer_rows limit (seen layout.entry)) ≡ Ok (rows_seen out.new.items)) }
    ensures fault { IfErr result (λ error. error ≢ Error.Memory → layer_rows limit (seen layout.entry) ≡ Err error) }
{
    let len = layout.kind.len_in_bytes();
    let words = layout.edges.len() / 4;
    let mut ids = layout.ids;
    let mut commits = layout.commits;
    let mut edges = layout.edges;
    let mut before = None;
    for r in 0..layout.rows {
        let (id, ids_left) = ids.split_at(len);
        let (tree, behind) = commits.split_at(len);
        let (numbers, commits_left) = behind.split_at(16);
        let at = words.saturating_sub(edges.len() / 4) as u32;
        let given = LayerRow {
            number: r,
            before,
            id,
            tree,
            numbers,
            edges,
        };
        let (row, edges_left) = row(alloc, layout.kind, limit, at, given)?;
        out.push(row)?;
        before = Some(id_of(layout.kind, id));
        ids = ids_left;
        commits = commits_left;
        edges = edges_left;
    }
    if edges.len() < 4 {
        Ok(())
    } else {
        Err(Error::Edges)
    }
}

/// Whether the ids of a layer are of the kind of those below.
fn is_kind(below: Option<Kind>, kind: Kind) -> bool
    ensures { result ≡ is_kind below kind }
{
    match (below, kind) {
        (None, _) => true,
        (Some(Kind::Sha1), Kind::Sha1) => true,
        (Some(Kind::Sha256), Kind::Sha256) => true,
        _ => false,
    }
}

/// Reads a layer whose parts are these.
fn add_parts(alloc: Global, below: &mut Below, file: &[u8], layout: Layout<'_>) -> Result<(), Error>
    requires whole { IsWhole (seen layout) }
    requires table { HasTable layout.kind file.now }
    ensures layer { OnOk result (with_parts (below_seen below.old) file.now (seen layout.entry) ≡ Ok (below_seen below.new)) }
    ensures fault { IfErr result (λ error. error ≢ Error.Memory
        → with_parts (below_seen below.old) file.now (seen layout.entry) ≡ Err error) }
{
    if !is_kind(below.kind, layout.kind) {
        return Err(Error::Kind);
    }
    if base_of(layout.kind, file) != below.hashes.as_slice() {
        return Err(Error::Base);
    }
    let limit = below.rows.len() + layout.rows as usize;
    push_rows(alloc, &mut below.rows, layout, limit)?;
    below.hashes.extend_from_slice(hash_of(layout.kind, file))?;
    below.kind = Some(layout.kind);
    Ok(())
}

/// Reads the layer of this number.
#[tactic(auto, unfolding(crate::specs::Chain::with_layer))]
fn add_layer(alloc: Global, below: &mut Below, number: usize, file: &[u8]) -> Result<(), Error>
    ensures layer { OnOk result (with_layer number (below_seen below.old) file.now ≡ Ok (below_seen below.new)) }
    ensures fault { IfErr result (λ error. error ≢ Error.Memory → with_layer number (below_seen below.old) file.now ≡ Err error) }
{
    let layout = layout_of(number, file)?;
    add_parts(alloc, below, file, layout)
}

/// A layer's fault as the chain's.
pub(super) fn at_layer(number: usize, error: Error) -> ChainError
    ensures { IsAtLayer number error result }
{
    match error {
        Error::Memory => ChainError::Memory,
        error => ChainError::Layer(number, error),
    }
}

/// Why no graph has the rows of a chain.
fn of_rows(error: GraphError) -> ChainError
    ensures { IsForRows error result }
{
    match error {
        GraphError::Memory => ChainError::Memory,
        error => ChainError::Rows(error),
    }
}

/// The rows of all layers, lowest first.
fn rows_of(alloc: Global, layers: &[&[u8]]) -> Result<Vec<Row>, ChainError>
    ensures rows { IfOk result (λ rows. read_chain (files_seen layers.now) ≡ Ok (rows_seen rows.items)) }
    ensures fault { IfErr result (IsLayerFault (files_seen layers.now)) }
{
    let mut below = Below {
        kind: None,
        hashes: Vec::new(alloc),
        rows: Vec::new(alloc),
    };
    let mut number = 0usize;
    let mut left = layers;
    while let [file, rest @ ..] = left {
        match add_layer(alloc, &mut below, number, file) {
            Ok(()) => {}
            Err(error) => return Err(at_layer(number, error)),
        }
        number += 1;
        left = rest;
    }
    Ok(below.rows)
}

/// The rows of a chain of one file, which are packed as the file has them.
fn graph_of_layer(alloc: Global, file: &[u8]) -> Result<Graph, Error>
    ensures rows { IfOk result (λ rows. AreGraphRows rows × (read_chain (file.now ∷ []) ≡ Ok rows)) }
    ensures fault { IfErr result (λ error. error ≢ Error.Memory → read_chain (file.now ∷ []) ≡ Err (ChainError.Layer 0 error)) }
{
    let layout = layout_of(0, file)?;
    if !base_of(layout.kind, file).is_empty() {
        return Err(Error::Base);
    }
    graph_of_parts(alloc, layout)
}

/// The rows of a chain of commit-graph files as git writes it into `objects/info/commit-graphs`: the files, lowest first.
///
/// Each file has rows that the files below it lack, and names parents by their place among the rows of the files below it and then
/// its own. The files are taken whole or not at all; each is read as [`graph_of`](crate::graph_of) reads a file that is alone.
///
/// Time and memory grow with the lengths of the files, whatever they say.
///
/// # Errors
///
/// `Layer` with the first thing that is not as it should be in the lowest layer that has a fault: of each layer the head, where the
/// number of lower layers is the layer's own number, the table and the sizes, then `Kind`, `Base`, and the faults of rows. `Rows` where
/// each layer is as it should be, and no graph has all rows. `Memory` where memory runs out.
pub fn graph_of_chain(alloc: Global, layers: &[&[u8]]) -> Result<Graph, ChainError>
    ensures rows { IfOk result (HasChain (files_seen layers.now)) }
    ensures fault { IfErr result (RefusesChain (files_seen layers.now)) }
{
    if let [file] = layers {
        return match graph_of_layer(alloc, file) {
            Ok(graph) => Ok(graph),
            Err(error) => Err(at_layer(0, error)),
        };
    }
    let rows = rows_of(alloc, layers)?;
    match Graph::new(alloc, rows) {
        Ok(graph) => Ok(graph),
        Err(error) => Err(of_rows(error)),
    }
}
