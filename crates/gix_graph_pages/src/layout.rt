//! Where the rows of each file are.
ghost use Rattle.std.specs.Prelude.{◌≡◌, ◌+◌, ◌-◌, ◌*◌, ◌<◌, ◌≤◌, ℕ, List, length, Contains, IfOk, IfSome, IsTrue};
ghost use Rattle.gix_hash.specs.Id.{id_len};
ghost use Rattle.gix_statement.specs.CommitGraph.{IsChunk, bytes_at, number_at};
ghost use Rattle.gix_graph_pages.specs.GraphPages.{IsFileOf};
ghost use Rattle.gix_graph_pages.specs.NamedBelow.{AreNamedBelow, end_of_chunks};
ghost use Rattle.gix_graph_pages.specs.PagedRows.{AreLayouts, HasHead, InEachLayer, IsPlaceOfHash, NamesEach, NamesHash, NamesSoMany, SaysLayout};

use crate::pages::Pages;
use gix_files::Damage;
use gix_hash::Kind;
use std::alloc::{AllocError, Global};
use std::os::unix::fs::FileExt;

/// Where the rows of a file are. Rows have numbers from 0 on, through all files, lowest first.
#[derive(Clone, Copy, Debug)]
pub struct Layout {
    /// The number of the file, from 0.
    pub layer: usize,
    /// How many rows the files below have.
    pub start: u32,
    /// The kind of all ids.
    pub kind: Kind,
    /// How many rows the file has.
    pub rows: u32,
    /// Where the ids begin, in bytes from the beginning of the file.
    pub ids: u64,
    /// Where what the rows say begins, likewise.
    pub data: u64,
    /// Where the 256 numbers of 4 bytes begin, likewise: how many rows have ids that begin with each byte, or one below it.
    pub fan_out: u64,
    /// The words that say the further parents of commits with more than two. None if there are none, or if the first page doesn't say it.
    pub edges: Option<Chunk>,
    /// The hashes of the files below. None if it names none.
    pub below: Option<Chunk>,
}

/// A part of a file.
#[derive(Clone, Copy, Debug)]
pub struct Chunk {
    /// Where it begins, in bytes from the beginning of the file.
    pub from: u64,
    /// How many bytes it has.
    pub len: u64,
}

/// The number in the eight bytes from `at` on.
pub(crate) fn long_at(bytes: &[u8], at: usize) -> u64
    requires { at + 8 ≤ length bytes.now }
    ensures { result ≡ number_at at 8 bytes.now }
{
    let (_, rest) = bytes.split_at(at);
    u64::from_be_bytes([
        rest[0], rest[1], rest[2], rest[3], rest[4], rest[5], rest[6], rest[7],
    ])
}

/// The first chunk of these letters, in the table of so many of the file of this number.
fn chunk_of<F: Drop>(pages: &Pages<F>, layer: usize, count: u8, letters: &[u8]) -> Option<Chunk>
    requires { length letters.now ≡ 4 }
    ensures { IfSome result (λ chunk. (file : List ℕ) → IsFileOf pages.now layer file → count ≡ number_at 6 1 file
        → IsChunk file letters.now (bytes_at chunk.from chunk.len file)) }
{
    for number in 0..count {
        // The letters, where the chunk begins, and behind four others where it ends.
        let entry = pages.bytes(layer, 8 + 12 * number as u64, 24)?;
        if entry.starts_with(letters) {
            let from = long_at(entry, 4);
            let len = long_at(entry, 16).checked_sub(from)?;
            return Some(Chunk { from, len });
        }
    }
    None
}

/// The layout that the first page of the file of this number says, if the files below have so many rows. None if it wasn't read, or isn't the
/// beginning of such a file of git's.
fn layout_of<F: Drop>(pages: &Pages<F>, layer: usize, start: u32) -> Option<Layout>
    ensures says { IfSome result (λ layout. (layout.layer ≡ layer) × (layout.start ≡ start) × SaysLayout pages.now layout) }
    // The signature, the version, the kind of its hash and how many files are below, as the file has them, and its chunk BASE.
    ensures head { IfSome result (HasHead pages.now) }
{
    let head = pages.bytes(layer, 0, 8)?;
    // The version, and how many layers are below.
    if !head.starts_with(b"CGPH") || head[4] != 1 || head[7] as usize != layer {
        return None;
    }
    let kind = match head[5] {
        1 => Kind::Sha1,
        2 => Kind::Sha256,
        _ => return None,
    };
    let count = head[6];
    let width = kind.len_in_bytes() as u64;
    let fan_out = chunk_of(pages, layer, count, b"OIDF")?;
    let ids = chunk_of(pages, layer, count, b"OIDL")?;
    let data = chunk_of(pages, layer, count, b"CDAT")?;
    let rows = u32::try_from(ids.len / width).ok()?;
    if ids.len != width * rows as u64 || data.len != (width + 16) * rows as u64 {
        return None;
    }
    Some(Layout {
        layer,
        start,
        kind,
        rows,
        ids: ids.from,
        data: data.from,
        fan_out: fan_out.from,
        edges: chunk_of(pages, layer, count, b"EDGE"),
        below: chunk_of(pages, layer, count, b"BASE"),
    })
}

/// Where the last id is, if there is one.
fn place_of_last(layout: &Layout) -> Option<u64>
    ensures { IfSome result (λ place. (0 < layout.now.rows)
        × (place ≡ layout.now.ids + id_len layout.now.kind * (layout.now.rows - 1))) }
{
    let width = layout.kind.len_in_bytes() as u64;
    let before = layout.rows.checked_sub(1)?;
    layout.ids.checked_add(width * before as u64)
}

/// Whether the file has all ids that its head says, as far as the pages that were read show it.
fn has_all<F: Drop>(pages: &Pages<F>, layout: &Layout) -> bool
    ensures { SaysLayout pages.now layout.now → IsTrue result
        → InEachLayer pages.now layout.now.layer (λ layers layer generation. length layer.rows ≡ layout.now.rows) }
{
    if layout.rows == 0 {
        return true;
    }
    let Some(place) = place_of_last(layout) else {
        return false;
    };
    let width = layout.kind.len_in_bytes();
    pages.bytes(layout.layer, place, width).is_some()
}

/// Where a file names the hash of the file of this number, which is below it. None if it names none.
fn place_of_hash(layout: &Layout, lower: usize) -> Option<u64>
    ensures { IfSome result (IsPlaceOfHash layout.now lower) }
{
    let width = layout.kind.len_in_bytes() as u64;
    let before = width.checked_mul(lower as u64)?;
    layout.below?.from.checked_add(before)
}

/// Where the hash is with which a file ends: where its last chunk ends, as its first page says. None if that page doesn't have it.
fn place_of_own_hash<F: Drop>(pages: &Pages<F>, layout: &Layout) -> Option<u64>
    ensures { IfSome result (λ place. (file : List ℕ) → IsFileOf pages.now layout.now.layer file → place ≡ end_of_chunks file) }
{
    let count = pages.bytes(layout.layer, 6, 1)?[0];
    let entry = pages.bytes(layout.layer, 12 + 12 * count as u64, 8)?;
    Some(long_at(entry, 0))
}

/// Whether a file names as many hashes as there are files below it.
fn names_all(layout: &Layout) -> bool
    ensures { IsTrue result → NamesSoMany layout.now.below (id_len layout.now.kind) layout.now.layer }
{
    let width = layout.kind.len_in_bytes() as u64;
    match layout.below {
        Some(chunk) => match width.checked_mul(layout.layer as u64) {
            Some(len) => len == chunk.len,
            None => false,
        },
        None => layout.layer == 0,
    }
}

/// Whether a file names the hash with which another one ends, whose ids are of its kind.
fn names<F: Drop>(pages: &Pages<F>, layout: &Layout, lower: &Layout) -> bool
    ensures { IsTrue result → NamesHash pages.now layout.now lower.now }
{
    if !is_kind(lower.kind, layout.kind) {
        return false;
    }
    let width = layout.kind.len_in_bytes();
    let Some(place) = place_of_hash(layout, lower.layer) else {
        return false;
    };
    let Some(own_place) = place_of_own_hash(pages, lower) else {
        return false;
    };
    let Some(named) = pages.bytes(layout.layer, place, width) else {
        return false;
    };
    match pages.bytes(lower.layer, own_place, width) {
        Some(own) => own == named,
        None => false,
    }
}

/// Whether a kind of ids is another one.
fn is_kind(one: Kind, other: Kind) -> bool
    ensures { IsTrue result → one ≡ other }
{
    one == other
}

/// Whether a file names the hash of each of these files.
fn names_each<F: Drop>(pages: &Pages<F>, layout: &Layout, below: &[Layout]) -> bool
    ensures { IsTrue result → NamesEach pages.now layout.now below.now }
{
    for lower in below {
        if !names(pages, layout, lower) {
            return false;
        }
    }
    true
}

/// The layouts of all files, lowest first. None if one of the pages that it needs wasn't read, or if a file isn't one of git's that has those
/// before it below it.
///
/// # Errors
///
/// `AllocError` when out of memory.
pub fn layouts_of<F: Drop>(
    alloc: Global,
    pages: &Pages<F>,
) -> Result<Option<Vec<Layout>>, AllocError>
    ensures layouts { IfOk result (λ found. IfSome found (λ layouts. AreLayouts pages.now layouts.items)) }
    // Each file begins as git's do, and names those below it.
    ensures named { IfOk result (λ found. IfSome found (λ layouts. AreNamedBelow pages.now)) }
{
    let mut layouts = Vec::new(alloc);
    let mut start = 0u32;
    for layer in 0..pages.count() {
        let Some(layout) = layout_of(pages, layer, start) else {
            return Ok(None);
        };
        if !names_all(&layout)
            || !names_each(pages, &layout, layouts.as_slice())
            || !has_all(pages, &layout)
        {
            return Ok(None);
        }
        let Some(next) = start.checked_add(layout.rows) else {
            return Ok(None);
        };
        layouts.push(layout)?;
        start = next;
    }
    Ok(Some(layouts))
}

/// Reads the pages that [`layouts_of`] needs, unless they were read.
///
/// # Errors
///
/// Those of [`Pages::load`].
pub fn load_layouts<F: FileExt + Drop>(pages: &mut Pages<F>) -> Result<(), Damage> {
    for layer in 0..pages.count() {
        pages.load(layer, 0)?;
        let Some(layout) = layout_of(pages, layer, 0) else {
            return Ok(());
        };
        if let Some(place) = place_of_last(&layout) {
            pages.load(layer, place)?;
        }
        if layer + 1 < pages.count()
            && let Some(place) = place_of_own_hash(pages, &layout)
        {
            pages.load(layer, place)?;
        }
        for lower in 0..layer {
            if let Some(place) = place_of_hash(&layout, lower) {
                pages.load(layer, place)?;
            }
        }
    }
    Ok(())
}

/// The layout of the file that has the row of this number. None if there is no such row.
pub fn layout_with(layouts: &[Layout], number: u32) -> Option<&Layout>
    ensures { IfSome result (λ layout. Contains layouts.now layout.now) }
{
    layouts.iter().find(|layout| number >= layout.start && number - layout.start < layout.rows)
}
