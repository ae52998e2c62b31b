//! The packed bytes that say the same rows.
ghost use Rattle.std.specs.Prelude.{◌≡◌, ◌+◌, ◌*◌, ◌≤◌, ◌++◌, length, map, IfOk, OnOk};
ghost use Rattle.std.specs.Int.{w32, w64, to_be_bytes};
ghost use Rattle.std.specs.List.{flat_map};
ghost use Rattle.gix_hash.specs.Id.{id_len};
ghost use Rattle.gix_commitgraph.specs.PackedReading.{words_of};
ghost use Rattle.gix_graph_file.specs.PackedParts.{seen, IsWhole, place_packed, first_packed, second_packed, edge_packed, row_packed, rows_packed, head_packed, parts_packed};

use crate::table::{Layout, long_at, word_at};
use gix_hash::Kind;
use std::alloc::{AllocError, Global};

/// The word of the file where there is no parent.
const NONE: u32 = 0x7000_0000;
/// What is added to the last word of a list of parents, and to the number of its first word.
const FLAG: u32 = 0x8000_0000;
/// The packed word of a place that names no row.
const FAULT: u32 = 0x7FFF_FFFE;
/// The packed word where there is no parent.
const NO_PARENT: u32 = 0x7FFF_FFFF;
/// Where the generation begins in the number that has the seconds in its low 34 bits.
const GENERATION: u64 = 0x4_0000_0000;

/// The packed word of a parent, among so many rows.
fn place_word(rows: u32, word: u32) -> u32
    ensures { result ≡ place_packed rows word }
{
    if word < rows { word } else { FAULT }
}

fn first_word(rows: u32, word: u32) -> u32
    ensures { result ≡ first_packed rows word }
{
    if word == NONE {
        NO_PARENT
    } else {
        place_word(rows, word)
    }
}

fn second_word(rows: u32, word: u32) -> u32
    ensures { result ≡ second_packed rows word }
{
    if word < FLAG {
        first_word(rows, word)
    } else {
        word
    }
}

fn edge_word(rows: u32, word: u32) -> u32
    ensures { result ≡ edge_packed rows word }
{
    if word < FLAG {
        place_word(rows, word)
    } else {
        FLAG + place_word(rows, word - FLAG)
    }
}

fn push_word(out: &mut Vec<u8>, word: u32) -> Result<(), AllocError>
    ensures { OnOk result (out.new.items ≡ out.old.items ++ to_be_bytes w32 word) }
{
    out.extend_from_slice(&word.to_be_bytes())
}

/// Writes the row that an id, a tree's id and 16 bytes behind that say.
#[tactic(auto, unfolding(crate::specs::PackedParts::row_packed))]
fn push_row(
    out: &mut Vec<u8>,
    rows: u32,
    id: &[u8],
    tree: &[u8],
    numbers: &[u8],
) -> Result<(), AllocError>
    requires { 16 ≤ length numbers.now }
    ensures { OnOk result (out.new.items ≡ out.old.items ++ row_packed rows id.now tree.now numbers.now) }
{
    let first = first_word(rows, word_at(numbers, 0));
    let second = second_word(rows, word_at(numbers, 4));
    let long = long_at(numbers, 8);
    let generation = (long / GENERATION) as u32;
    let seconds = long % GENERATION;
    out.extend_from_slice(id)?;
    out.extend_from_slice(tree)?;
    push_numbers(out, first, second, generation, seconds)
}

/// Writes the numbers of a row at once, since there are many rows.
fn push_numbers(
    out: &mut Vec<u8>,
    first: u32,
    second: u32,
    generation: u32,
    seconds: u64,
) -> Result<(), AllocError>
    ensures { OnOk result (out.new.items ≡ out.old.items
        ++ (to_be_bytes w32 first ++ (to_be_bytes w32 second ++ (to_be_bytes w32 generation ++ to_be_bytes w64 seconds)))) }
{
    let [a, b, c, d] = first.to_be_bytes();
    let [e, f, g, h] = second.to_be_bytes();
    let [i, j, k, l] = generation.to_be_bytes();
    let [m, n, o, p, q, r, s, t] = seconds.to_be_bytes();
    out.extend_from_slice(&[a, b, c, d, e, f, g, h, i, j, k, l, m, n, o, p, q, r, s, t])
}

/// Writes the first `count` of the rows that these bytes begin with, among so many rows.
pub(super) fn push_rows(
    out: &mut Vec<u8>,
    kind: Kind,
    rows: u32,
    count: u32,
    ids: &[u8],
    commits: &[u8],
) -> Result<(), AllocError>
    requires ids { id_len kind * count ≤ length ids.now }
    requires commits { id_len kind * count + 16 * count ≤ length commits.now }
    ensures { OnOk result (out.new.items ≡ out.old.items ++ rows_packed kind rows count ids.now commits.now) }
{
    let len = kind.len_in_bytes();
    let mut ids_left = ids;
    let mut commits_left = commits;
    for _row in 0..count {
        let (id, next_ids) = ids_left.split_at(len);
        let (tree, behind) = commits_left.split_at(len);
        let (numbers, next_commits) = behind.split_at(16);
        push_row(out, rows, id, tree, numbers)?;
        ids_left = next_ids;
        commits_left = next_commits;
    }
    Ok(())
}

/// Writes the words of lists of parents.
pub(super) fn push_edges(out: &mut Vec<u8>, rows: u32, edges: &[u8]) -> Result<(), AllocError>
    ensures { OnOk result (out.new.items ≡ out.old.items ++ flat_map (to_be_bytes w32) (map (edge_packed rows) (words_of edges.now))) }
{
    let mut left = edges;
    while let [a, b, c, d, rest @ ..] = left {
        let word = u32::from_be_bytes([*a, *b, *c, *d]);
        push_word(out, edge_word(rows, word))?;
        left = rest;
    }
    Ok(())
}

/// Writes the head: the layout's name, the number of rows and the number of words.
pub(super) fn push_head(
    out: &mut Vec<u8>,
    kind: Kind,
    rows: u32,
    words: u32,
) -> Result<(), AllocError>
    ensures { OnOk result (out.new.items ≡ out.old.items ++ head_packed kind rows words) }
{
    let name = match kind {
        Kind::Sha256 if rows > 0 => b"GTR2",
        _ => b"GTR1",
    };
    out.extend_from_slice(name)?;
    push_word(out, rows)?;
    push_word(out, words)
}

/// How many bytes so many rows and words are packed into.
pub(super) fn packed_len(kind: Kind, rows: u32, words: u32) -> usize {
    let words_len = 4 * words as usize;
    match kind {
        Kind::Sha1 => 12 + 60 * rows as usize + words_len,
        Kind::Sha256 => 12 + 84 * rows as usize + words_len,
    }
}

/// The packed bytes of the rows that the parts say.
pub(super) fn packed_of(alloc: Global, layout: Layout<'_>) -> Result<Vec<u8>, AllocError>
    requires { IsWhole (seen layout) }
    ensures { IfOk result (λ bytes. bytes.items ≡ parts_packed (seen layout.entry)) }
{
    let words = (layout.edges.len() / 4) as u32;
    let mut out = Vec::with_capacity(alloc, packed_len(layout.kind, layout.rows, words))?;
    push_head(&mut out, layout.kind, layout.rows, words)?;
    push_rows(
        &mut out,
        layout.kind,
        layout.rows,
        layout.rows,
        layout.ids,
        layout.commits,
    )?;
    push_edges(&mut out, layout.rows, layout.edges)?;
    Ok(out)
}
