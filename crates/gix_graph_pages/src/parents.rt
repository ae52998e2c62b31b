//! The parents that a row names.
ghost use Rattle.std.specs.Prelude.{IfOk, IfSome};
ghost use Rattle.gix_graph_pages.specs.PagedRows.{InEachLayer, IsEdge, SaysLayout};

use crate::layout::Layout;
use crate::pages::Pages;
use crate::rows::{FLAG, FileRow, NO_PARENT, word_at};
use crate::search::Unread;
use std::alloc::{AllocFailed, Global};

/// Why the parents of a row weren't listed.
#[derive(Clone, Copy, Debug)]
pub enum Unlisted {
    /// A page has to be read first.
    Unread(Unread),
    /// No word says which one is the last.
    Endless,
    /// Out of memory.
    Memory,
}

impl<T: Drop> From<AllocFailed<T>> for Unlisted {
    fn from(_error: AllocFailed<T>) -> Unlisted {
        Unlisted::Memory
    }
}

/// The word of this number of those of a file that say further parents, from 0, or the page that has to be read first. None if there is no
/// such word.
pub(crate) fn edge_at<F: Drop>(
    pages: &Pages<F>,
    layout: &Layout,
    number: u32,
) -> Option<Result<u32, Unread>>
    ensures { SaysLayout pages.now layout.now → IfSome result (λ read. IfOk read (λ word. InEachLayer pages.now layout.now.layer
        (λ layers layer generation. IsEdge layer.file number word))) }
{
    let chunk = layout.edges?;
    let at = 4 * number as u64;
    if at + 4 > chunk.len {
        return None;
    }
    let place = chunk.from.checked_add(at)?;
    match pages.bytes(layout.layer, place, 4) {
        Some(word) => Some(Ok(word_at(word, 0))),
        None => Some(Err(Unread {
            layer: layout.layer,
            place,
        })),
    }
}

/// The numbers of the rows of the parents of a row in the file of a layout, in order.
///
/// # Errors
///
/// `Unread`, `Endless`, `Memory`.
pub fn parents_in<F: Drop>(
    alloc: Global,
    pages: &Pages<F>,
    layout: &Layout,
    row: &FileRow,
) -> Result<Vec<u32>, Unlisted> {
    let mut parents = Vec::new(alloc);
    if row.first != NO_PARENT {
        parents.push(row.first)?;
    }
    if row.second == NO_PARENT {
        return Ok(parents);
    }
    if row.second < FLAG {
        parents.push(row.second)?;
        return Ok(parents);
    }
    for number in row.second - FLAG..u32::MAX {
        match edge_at(pages, layout, number) {
            Some(Ok(word)) if word >= FLAG => {
                parents.push(word - FLAG)?;
                return Ok(parents);
            }
            Some(Ok(word)) => parents.push(word)?,
            Some(Err(unread)) => return Err(Unlisted::Unread(unread)),
            None => break,
        }
    }
    Err(Unlisted::Endless)
}
