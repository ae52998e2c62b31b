//! Where the row of an id is.
use crate::layout::{Layout, layout_with};
use crate::pages::Pages;
use crate::rows::{id_in, own_number, word_at};
use gix_files::Damage;
use gix_hash::ObjectId;
use std::os::unix::fs::FileExt;

/// A page that has to be read first: the one of a place in the file of this number.
#[derive(Clone, Copy, Debug)]
pub struct Unread {
    /// The number of the file, from 0.
    pub layer: usize,
    /// The place in it, in bytes from its beginning.
    pub place: u64,
}

/// The number of the first row of a file whose id isn't below this one: that of the id, if it has a row there. If all ids are below, it is
/// that of the next row behind those of the file. If ids don't rise, it may be any number.
///
/// # Errors
///
/// A page that has to be read first.
pub fn place_in<F: Drop>(pages: &Pages<F>, layout: &Layout, id: &ObjectId) -> Result<u32, Unread> {
    let (mut low, mut high) = between(pages, layout, id)?;
    // Each step halves what is left.
    for _ in 0..=u32::BITS {
        if low >= high {
            break;
        }
        let middle = low + (high - low) / 2;
        let Some(there) = id_in(pages, layout, middle) else {
            return Err(Unread {
                layer: layout.layer,
                place: place_of_id(layout, middle),
            });
        };
        if there < *id {
            low = middle + 1;
        } else {
            high = middle;
        }
    }
    Ok(low)
}

/// Between which numbers the rows of a file are whose ids begin as this one.
fn between<F: Drop>(
    pages: &Pages<F>,
    layout: &Layout,
    id: &ObjectId,
) -> Result<(u32, u32), Unread> {
    let first = id.as_bytes()[0];
    let high = counted(pages, layout, first)?;
    let low = match first.checked_sub(1) {
        Some(before) => counted(pages, layout, before)?,
        None => layout.start,
    };
    Ok((low.min(high), high))
}

/// The number of the first row of a file whose id begins with a byte above this one, or of the next row behind those of the file.
fn counted<F: Drop>(pages: &Pages<F>, layout: &Layout, byte: u8) -> Result<u32, Unread> {
    let place = layout.fan_out.saturating_add(4 * byte as u64);
    match pages.bytes(layout.layer, place, 4) {
        Some(word) => Ok(
            layout
                .start
                .saturating_add(word_at(word, 0).min(layout.rows)),
        ),
        None => Err(Unread {
            layer: layout.layer,
            place,
        }),
    }
}

/// Where the id of the row of this number is, in the file of a layout.
fn place_of_id(layout: &Layout, number: u32) -> u64 {
    let width = layout.kind.len_in_bytes() as u64;
    let own = number.saturating_sub(layout.start) as u64;
    layout.ids.saturating_add(width * own)
}

/// Reads the page of the id of the row of this number in the file of a layout, unless it was read, or if the file has no such row.
///
/// # Errors
///
/// Those of [`Pages::load`].
pub fn load_id<F: FileExt + Drop>(
    pages: &mut Pages<F>,
    layout: &Layout,
    number: u32,
) -> Result<(), Damage> {
    match own_number(layout, number) {
        Some(_) => pages.load(layout.layer, place_of_id(layout, number)),
        None => Ok(()),
    }
}

/// Reads the pages of the row of this number, unless they were read, or if there is no such row.
///
/// # Errors
///
/// Those of [`Pages::load`].
pub fn load_row<F: FileExt + Drop>(
    pages: &mut Pages<F>,
    layouts: &[Layout],
    number: u32,
) -> Result<(), Damage> {
    let Some(layout) = layout_with(layouts, number) else {
        return Ok(());
    };
    let width = layout.kind.len_in_bytes() as u64;
    let own = number.saturating_sub(layout.start) as u64;
    let place = layout.data.saturating_add((width + 16) * own);
    load_id(pages, layout, number)?;
    pages.load(layout.layer, place)
}
