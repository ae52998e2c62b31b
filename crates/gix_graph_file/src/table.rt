//! Where the chunks of a commit-graph file are, and whether their sizes fit.
ghost use Rattle.std.specs.Prelude.{◌≡◌, ◌+◌, ◌*◌, ◌≤◌, IsTrue, true, [], length, take, drop, unwrap_or, Ok, Err, MatchResult, IfOk, IfSome};
ghost use Rattle.std.specs.Int.{w64, from_be_bytes};
ghost use Rattle.std.specs.Option.{option_map};
ghost use Rattle.gix_hash.specs.Id.{id_len};
ghost use Rattle.gix_commitgraph.specs.Packed.{AreBytes};
ghost use Rattle.gix_commitgraph.specs.PackedReading.{word_at};
ghost use Rattle.gix_graph_file.specs.FileTable.{long_at, name_of, name_at, offset_at, kind_placed, kind_said, is_last, is_table_from, chunk_from, needed, parts_of, sized_parts, read_layer, table_len};
ghost use Rattle.gix_graph_file.specs.PackedParts.{seen, IsWhole};
ghost use Rattle.gix_graph_file.specs.Halves.{LiesIn, HasOffsets};
ghost use Rattle.gix_graph_file.specs.Chain.{base_of, hash_of};
ghost use Rattle.gix_graph_file.specs.ChainSteps.{HasTable};

use crate::{Chunk, Error};
use gix_hash::Kind;

/// The most rows: their numbers are below the word for no parent.
const MOST_ROWS: u32 = 0x7000_0000;
/// The most words in `EDGE`.
const MOST_WORDS: usize = 2_147_483_646;

/// Bytes of a file.
#[derive(Clone, Copy, Debug)]
pub(super) struct Piece<'a> {
    /// Where they begin in the file.
    pub at: usize,
    pub bytes: &'a [u8],
}

/// The parts of a file that say its rows.
#[derive(Clone, Copy, Debug)]
pub(super) struct Layout<'a> {
    /// The kind of all ids.
    pub kind: Kind,
    /// How many rows.
    pub rows: u32,
    /// Where the ids begin in the file.
    pub ids_at: usize,
    /// An id for each row.
    pub ids: &'a [u8],
    /// Where the commits begin in the file.
    pub commits_at: usize,
    /// A tree's id and 16 bytes for each row.
    pub commits: &'a [u8],
    /// Words of parents.
    pub edges: &'a [u8],
}

/// The number in the four bytes from `at` on.
pub(super) fn word_at(bytes: &[u8], at: usize) -> u32
    requires { at + 4 ≤ length bytes.now }
    ensures { result ≡ word_at at bytes.now }
{
    let (_, rest) = bytes.split_at(at);
    u32::from_be_bytes([rest[0], rest[1], rest[2], rest[3]])
}

/// The number in the eight bytes from `at` on.
#[tactic(auto, unfolding(crate::specs::FileTable::long_at))]
pub(super) fn long_at(bytes: &[u8], at: usize) -> u64
    requires { at + 8 ≤ length bytes.now }
    ensures { result ≡ long_at at bytes.now }
{
    let (_, rest) = bytes.split_at(at);
    u64::from_be_bytes([
        rest[0], rest[1], rest[2], rest[3], rest[4], rest[5], rest[6], rest[7],
    ])
}

/// The kind of a file that has this number of lower layers.
fn kind_placed(number: usize, layers: u8, kind: Kind) -> Result<Kind, Error>
    ensures { result ≡ kind_placed number layers kind }
{
    if layers as usize == number {
        Ok(kind)
    } else {
        Err(Error::Layer)
    }
}

/// The kind that the first eight bytes say.
fn kind_of(number: usize, file: &[u8]) -> Result<Kind, Error>
    ensures { result ≡ kind_said number file.now }
{
    if file.len() < 8 {
        return Err(Error::Header);
    }
    if !file.starts_with(b"CGPH") {
        return Err(Error::Signature);
    }
    if file[4] != 1 {
        return Err(Error::Version);
    }
    match file[5] {
        1 => kind_placed(number, file[7], Kind::Sha1),
        2 => kind_placed(number, file[7], Kind::Sha256),
        _ => Err(Error::HashVersion),
    }
}

/// The name in this entry of the table of chunks.
#[tactic(auto, unfolding(crate::specs::FileTable::name_at))]
fn name_at(file: &[u8], entry: usize) -> u32
    requires { table_len entry ≤ length file.now }
    ensures { result ≡ name_at file.now entry }
{
    word_at(file, 8 + 12 * entry)
}

/// Where the chunk of this entry begins.
#[tactic(auto, unfolding(crate::specs::FileTable::offset_at))]
fn offset_at(file: &[u8], entry: usize) -> u64
    requires { table_len entry ≤ length file.now }
    ensures { result ≡ offset_at file.now entry }
{
    long_at(file, 12 + 12 * entry)
}

/// Whether this entry is the last one: it has no name, and says that the last chunk, which begins at `lower`, ends at `end`.
fn is_last(file: &[u8], end: usize, entry: usize, lower: u64) -> bool
    requires { table_len entry ≤ length file.now }
    ensures { result ≡ is_last file.now end entry lower }
{
    let name = name_at(file, entry);
    let offset = offset_at(file, entry);
    name == 0 && offset == end as u64 && lower <= end as u64
}

/// Whether the table of so many chunks is as it should be, and the last chunk ends at `end`.
fn is_table(file: &[u8], count: usize, end: usize) -> bool
    requires { table_len count ≤ length file.now }
    ensures { result ≡ is_table_from file.now end count 0 (table_len count) }
{
    let mut lower = 20 + 12 * count as u64;
    for entry in 0..count {
        let name = name_at(file, entry);
        if name == 0 {
            return false;
        }
        let offset = offset_at(file, entry);
        if offset < lower {
            return false;
        }
        lower = offset;
    }
    is_last(file, end, count, lower)
}

/// A chunk.
fn piece_of(file: &[u8], count: usize, end: usize, chunk: Chunk) -> Option<Piece<'_>>
    requires long { table_len count ≤ length file.now }
    requires ends { end ≤ length file.now }
    requires table { IsTrue (is_table_from file.now end count 0 (table_len count)) }
    ensures bytes { option_map (λ piece. piece.bytes.now) result ≡ chunk_from file.now (name_of chunk) count 0 }
    ensures place { IfSome result (LiesIn file.now) }
{
    for entry in 0..count {
        let name = name_at(file, entry);
        if name == chunk.name() {
            let from = offset_at(file, entry) as usize;
            let to = offset_at(file, entry + 1) as usize;
            let (_, behind) = file.split_at(from);
            let (bytes, _) = behind.split_at(to - from);
            return Some(Piece { at: from, bytes });
        }
    }
    None
}

/// The bytes of a chunk that some files have. None are like no chunk.
fn bytes_of(file: &[u8], count: usize, end: usize, chunk: Chunk) -> &[u8]
    requires long { table_len count ≤ length file.now }
    requires ends { end ≤ length file.now }
    requires table { IsTrue (is_table_from file.now end count 0 (table_len count)) }
    ensures { result.now ≡ unwrap_or (chunk_from file.now (name_of chunk) count 0) [] }
{
    match piece_of(file, count, end, chunk) {
        Some(piece) => piece.bytes,
        None => &[],
    }
}

/// A chunk that each file has.
fn needed_piece(file: &[u8], count: usize, end: usize, chunk: Chunk) -> Result<Piece<'_>, Error>
    requires long { table_len count ≤ length file.now }
    requires ends { end ≤ length file.now }
    requires table { IsTrue (is_table_from file.now end count 0 (table_len count)) }
    ensures bytes { MatchResult result (λ piece. needed file.now count chunk ≡ Ok piece.bytes.now)
        (λ error. needed file.now count chunk ≡ Err error) }
    ensures place { IfOk result (LiesIn file.now) }
{
    match piece_of(file, count, end, chunk) {
        Some(piece) => Ok(piece),
        None => Err(Error::Missing(chunk)),
    }
}

/// How many bytes the ids of so many rows have.
pub(super) fn ids_len(kind: Kind, rows: u32) -> usize
    ensures { result ≡ id_len kind * rows }
{
    match kind {
        Kind::Sha1 => 20 * rows as usize,
        Kind::Sha256 => 32 * rows as usize,
    }
}

/// How many bytes a file has of so many rows, besides their ids.
pub(super) fn commits_len(kind: Kind, rows: u32) -> usize
    ensures { result ≡ id_len kind * rows + 16 * rows }
{
    ids_len(kind, rows) + 16 * rows as usize
}

/// The parts, where the chunks' sizes fit.
#[tactic(auto, unfolding(crate::specs::FileTable::sized_parts))]
fn sized<'a>(
    kind: Kind,
    fan_out: &'a [u8],
    ids: Piece<'a>,
    commits: Piece<'a>,
    edges: &'a [u8],
) -> Result<Layout<'a>, Error>
    requires { AreBytes commits.bytes.now }
    ensures parts { let said = sized_parts kind fan_out.now ids.entry.bytes.now commits.entry.bytes.now edges.now in
        MatchResult result (λ layout. said ≡ Ok (seen layout)) (λ error. said ≡ Err error) }
    ensures whole { IfOk result (λ layout. IsWhole (seen layout)) }
    ensures kind { IfOk result (λ layout. layout.kind ≡ kind) }
    ensures ids { IfOk result (λ layout. (layout.ids_at ≡ ids.entry.at) × (layout.ids.now ≡ ids.entry.bytes.now)) }
    ensures commits { IfOk result (λ layout. (layout.commits_at ≡ commits.entry.at) × (layout.commits.now ≡ commits.entry.bytes.now)) }
{
    if fan_out.len() != 1024 {
        return Err(Error::Size(Chunk::FanOut));
    }
    let rows = word_at(fan_out, 1020);
    if rows > MOST_ROWS {
        return Err(Error::TooMany);
    }
    if ids.bytes.len() != ids_len(kind, rows) {
        return Err(Error::Size(Chunk::Ids));
    }
    if commits.bytes.len() != commits_len(kind, rows) {
        return Err(Error::Size(Chunk::Data));
    }
    if edges.len() % 4 != 0 {
        return Err(Error::Size(Chunk::Edges));
    }
    if edges.len() / 4 > MOST_WORDS {
        return Err(Error::TooMany);
    }
    Ok(Layout {
        kind,
        rows,
        ids_at: ids.at,
        ids: ids.bytes,
        commits_at: commits.at,
        commits: commits.bytes,
        edges,
    })
}

/// The parts that the table of chunks says.
#[tactic(auto, unfolding(crate::specs::FileTable::parts_of))]
fn parts_of(kind: Kind, file: &[u8]) -> Result<Layout<'_>, Error>
    requires { 8 ≤ length file.now }
    ensures parts { MatchResult result (λ layout. parts_of kind file.now ≡ Ok (seen layout)) (λ error. parts_of kind file.now ≡ Err error) }
    ensures whole { IfOk result (λ layout. IsWhole (seen layout)) }
    ensures table { IfOk result (λ layout. HasTable layout.kind file.now) }
    ensures places { IfOk result (HasOffsets file.now) }
{
    let count = file[6] as usize;
    let end = file.len().saturating_sub(kind.len_in_bytes());
    if end < 20 + 12 * count {
        return Err(Error::Truncated);
    }
    if !is_table(file, count, end) {
        return Err(Error::Table);
    }
    let fan_out = needed_piece(file, count, end, Chunk::FanOut)?;
    let ids = needed_piece(file, count, end, Chunk::Ids)?;
    let commits = needed_piece(file, count, end, Chunk::Data)?;
    let edges = bytes_of(file, count, end, Chunk::Edges);
    sized(kind, fan_out.bytes, ids, commits, edges)
}

/// The parts of a file that say its rows, where it has this number of lower layers.
pub(super) fn layout_of(number: usize, file: &[u8]) -> Result<Layout<'_>, Error>
    ensures parts { MatchResult result (λ layout. read_layer number file.now ≡ Ok (seen layout))
        (λ error. read_layer number file.now ≡ Err error) }
    ensures whole { IfOk result (λ layout. IsWhole (seen layout)) }
    ensures table { IfOk result (λ layout. HasTable layout.kind file.now) }
    ensures places { IfOk result (HasOffsets file.now) }
{
    let kind = kind_of(number, file)?;
    parts_of(kind, file)
}

/// The hashes of the layers below a file, as the file says them: none, where it has no such chunk.
pub(super) fn base_of(kind: Kind, file: &[u8]) -> &[u8]
    requires { HasTable kind file.now }
    ensures { result.now ≡ base_of file.now }
{
    let count = file[6] as usize;
    let end = file.len() - kind.len_in_bytes();
    bytes_of(file, count, end, Chunk::Base)
}

/// The hash of a file, which is behind its chunks.
pub(super) fn hash_of(kind: Kind, file: &[u8]) -> &[u8]
    requires { HasTable kind file.now }
    ensures { result.now ≡ hash_of kind file.now }
{
    let end = file.len() - kind.len_in_bytes();
    file.split_at(end).1
}
