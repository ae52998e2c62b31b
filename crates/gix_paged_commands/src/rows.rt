//! The rows that an answer needs.
use crate::asking::{Asking, Until};
use crate::scout::{Found, Scout, Stop, numbers_of_parents};
use gix_commitgraph::{Graph, GraphError, ParentPlace, ParentPlaces, Row};
use gix_files::Damage;
use gix_graph_pages::{Layout, Pages, layouts_of, load_layouts};
use gix_hash::Keys;
use gix_odb::Odb;
use gix_words::Command;
use std::alloc::{AllocError, Global};
use std::collections::BTreeMap;
use std::fs::Files;
use std::os::unix::fs::FileExt;

/// Some rows of the files of a commit-graph.
pub struct Rows {
    /// The rows. Those of a lesser generation than `least` have no parents.
    pub graph: Graph,
    /// The numbers of these rows in the files.
    pub numbers: Vec<u32>,
    /// The lowest generation of which rows have their parents.
    pub least: u32,
    /// Whether more rows may show what these don't.
    pub may_grow: bool,
}

impl Drop for Rows {
    fn drop(self) {
        let Rows {
            graph: _,
            numbers: _,
            least: _,
            may_grow: _,
        } = self;
    }
}

/// Reads the rows that the answer to a command needs, from the highest generation down. None if it may need more than a small part of them, if
/// the command isn't one that needs few, or if a file or an object isn't as it should be: then all rows may be enough.
///
/// A list of `topo` or `date` with a limit begins with as many rows as it has lines, times a number: if these don't show the list, more may.
///
/// # Errors
///
/// `AllocError` when out of memory.
pub fn choose<R, F>(
    alloc: Global,
    keys: Keys,
    command: &Command,
    pages: &mut Pages<F>,
    odb: &mut Odb<R>,
    times: u64,
) -> Result<Option<Rows>, AllocError>
where
    R: Files + AllocGlobal + Clone + Drop,
    R::File: FileExt,
    F: FileExt + Drop,
{
    let Some(asking) = Asking::of(command) else {
        return Ok(None);
    };
    match load_layouts(pages) {
        Ok(()) => {}
        Err(Damage::Memory) => return Err(AllocError),
        Err(_) => return Ok(None),
    }
    let Some(layouts) = layouts_of(alloc, pages)? else {
        return Ok(None);
    };
    let layouts = layouts.as_slice();
    let count = asking.count.saturating_mul(times);
    let scout = Scout::new(alloc, keys, layouts, asking.until, count);
    let may_grow = asking.until == Until::Count;
    let chosen = match scout.find(pages, odb, asking) {
        Ok(found) => rows_of(alloc, pages, layouts, &found, may_grow),
        Err(stop) => Err(stop),
    };
    match chosen {
        Ok(rows) => Ok(Some(rows)),
        Err(Stop::Unfit) => Ok(None),
        Err(Stop::Memory) => Err(AllocError),
    }
}

/// The rows as a graph.
fn rows_of<F: FileExt + Drop>(
    alloc: Global,
    pages: &mut Pages<F>,
    layouts: &[Layout],
    found: &Found,
    may_grow: bool,
) -> Result<Rows, Stop> {
    let mut rows = Vec::new(alloc);
    let mut numbers = Vec::new(alloc);
    let mut places = BTreeMap::new(alloc);
    for (place, (number, _)) in found.rows.iter().enumerate() {
        let Ok(place) = u32::try_from(place) else {
            return Err(Stop::Unfit);
        };
        places.insert(*number, place)?;
    }
    for (number, row) in found.rows.iter() {
        let mut parents = ParentPlaces::new(alloc);
        if row.generation >= found.least {
            for parent in numbers_of_parents(alloc, pages, layouts, *number, row)?.iter() {
                parents.push(match places.get(parent) {
                    Some(place) => ParentPlace::At(*place),
                    None => ParentPlace::Fault,
                })?;
            }
        }
        let kept = Row {
            id: row.id,
            tree: row.tree,
            parents,
            generation: row.generation,
            time: row.time,
        };
        rows.push(kept)?;
        numbers.push(*number)?;
    }
    match Graph::new(alloc, rows) {
        Ok(graph) => Ok(Rows {
            graph,
            numbers,
            least: found.least,
            may_grow,
        }),
        Err(GraphError::Memory) => Err(Stop::Memory),
        Err(_) => Err(Stop::Unfit),
    }
}
