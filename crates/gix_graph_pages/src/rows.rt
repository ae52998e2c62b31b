//! What files say of their rows.
ghost use Rattle.std.specs.Prelude.{◌≡◌, ◌+◌, ◌<◌, ◌≤◌, length, IfSome};
ghost use Rattle.gix_statement.specs.CommitGraph.{number_at};
ghost use Rattle.gix_graph_pages.specs.GraphPages.{all_rows};
ghost use Rattle.gix_graph_pages.specs.PagedRows.{AreLayouts, HasId, HasIdIn, InEachLayer, SaysLayout, IsLayoutOf, SaysRow};

use crate::layout::{Layout, layout_with, long_at};
use crate::pages::Pages;
use gix_hash::ObjectId;

/// Where the generation begins in the number that has the seconds in its low 34 bits.
const GENERATION: u64 = 0x4_0000_0000;

/// The word of a file that names no parent.
pub(crate) const NO_PARENT: u32 = 0x7000_0000;
/// What a second word has besides a number if there are more than two parents, and the word of the last one too.
pub(crate) const FLAG: u32 = 0x8000_0000;

/// A row, as its file has it.
#[derive(Clone, Copy, Debug)]
pub struct FileRow {
    /// The commit's id.
    pub id: ObjectId,
    /// The id of the commit's tree.
    pub tree: ObjectId,
    /// The number of the first parent's row, or 0x70000000 if there is none.
    pub first: u32,
    /// The number of the second parent's row, or 0x70000000 if there is none. From 0x80000000 on there are more than two parents: the number
    /// above that is the one of the word that names the second.
    pub second: u32,
    /// The generation.
    pub generation: u32,
    /// The committer's seconds since 1970-01-01 00:00 UTC.
    pub time: i64,
}

/// The number in the four bytes from `at` on.
pub(crate) fn word_at(bytes: &[u8], at: usize) -> u32
    requires { at + 4 ≤ length bytes.now }
    ensures { result ≡ number_at at 4 bytes.now }
{
    let (_, rest) = bytes.split_at(at);
    u32::from_be_bytes([rest[0], rest[1], rest[2], rest[3]])
}

/// The place of this row among those of its file. None if it isn't one of them.
pub(crate) fn own_number(layout: &Layout, number: u32) -> Option<u32>
    ensures { IfSome result (λ own. (layout.now.start + own ≡ number) × (own < layout.now.rows)) }
{
    let own = number.checked_sub(layout.start)?;
    if own < layout.rows { Some(own) } else { None }
}

/// The id of the row of this number, from 0, in the file of a layout. None if there is no such row, or if the page wasn't read.
pub fn id_in<F: Drop>(pages: &Pages<F>, layout: &Layout, number: u32) -> Option<ObjectId>
    ensures { SaysLayout pages.now layout.now → IfSome result (HasIdIn pages.now layout.now number) }
{
    let own = own_number(layout, number)?;
    let width = layout.kind.len_in_bytes();
    let place = layout.ids.checked_add(width as u64 * own as u64)?;
    ObjectId::from_bytes(pages.bytes(layout.layer, place, width)?)
}

/// The id of the row of this number, from 0. None if there is no such row, or if the page wasn't read.
pub fn id_at<F: Drop>(pages: &Pages<F>, layouts: &[Layout], number: u32) -> Option<ObjectId>
    ensures { AreLayouts pages.now layouts.now → IfSome result (HasId pages.now number) }
{
    id_in(pages, layout_with(layouts, number)?, number)
}

/// What the row of this number says, from 0, in the file of a layout. None if there is no such row, or if a page wasn't read.
pub fn row_in<F: Drop>(pages: &Pages<F>, layout: &Layout, number: u32) -> Option<FileRow>
    ensures { IsLayoutOf pages.now layout.now → IfSome result (λ read. InEachLayer pages.now layout.now.layer
        (λ layers layer generation. SaysRow layer.file (all_rows layers) generation number read)) }
{
    let id = id_in(pages, layout, number)?;
    let own = own_number(layout, number)?;
    let width = layout.kind.len_in_bytes();
    let place = layout.data.checked_add((width as u64 + 16) * own as u64)?;
    let (tree, numbers) = pages
        .bytes(layout.layer, place, width + 16)?
        .split_at(width);
    let long = long_at(numbers, 8);
    Some(FileRow {
        id,
        tree: ObjectId::from_bytes(tree)?,
        first: word_at(numbers, 0),
        second: word_at(numbers, 4),
        generation: (long / GENERATION) as u32,
        time: (long % GENERATION) as i64,
    })
}
