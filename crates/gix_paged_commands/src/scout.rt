//! Which rows of a commit-graph an answer needs.
use crate::asking::{Asking, ONE, OTHER, STALE, Until};
use gix_files::Damage;
use gix_gather::read_named;
use gix_graph_check::read_whole;
use gix_graph_pages::{
    FileRow, Layout, Pages, Unlisted, Unread, id_in, layout_with, load_id, load_row, parents_in,
    place_in, row_in,
};
use gix_hash::hashtable::IdMap;
use gix_hash::{Keys, ObjectId};
use gix_object::Kind;
use gix_object::commit::CommitRefIter;
use gix_odb::Odb;
use std::alloc::{AllocError, AllocFailed, Global};
use std::collections::{BTreeMap, BinaryHeap};
use std::fs::Files;
use std::os::unix::fs::FileExt;

/// How many commits without a row are read at the most.
const MOST_NEW: usize = 1000;
/// How many rows are read at the most: one of so many of all files. A row that is read by pages costs as much as some thirty of those that
/// are read with all others.
const SHARE: u32 = 64;
/// How many rows may be read in any case.
const FEW: usize = 64;
/// How many parents the rows that are gone through may have, for each row that may be.
const PARENTS: usize = 16;
/// How many pages may be read to find one id, or the parents of one row.
const MOST_PROBES: usize = 64;

/// Why no rows were chosen.
pub(crate) enum Stop {
    /// A file or an object isn't as it should be, or too many rows are needed. All rows may still be enough.
    Unfit,
    Memory,
}

impl From<AllocError> for Stop {
    fn from(_error: AllocError) -> Stop {
        Stop::Memory
    }
}

impl<T: Drop> From<AllocFailed<T>> for Stop {
    fn from(_error: AllocFailed<T>) -> Stop {
        Stop::Memory
    }
}

impl From<Damage> for Stop {
    fn from(damage: Damage) -> Stop {
        match damage {
            Damage::Memory => Stop::Memory,
            _ => Stop::Unfit,
        }
    }
}

/// A row, and which sides reach it.
#[derive(Clone, Copy)]
struct Met {
    row: FileRow,
    sides: u8,
    /// Whether its parents were met.
    is_done: bool,
}

/// Rows that are met by generation, from the highest down.
pub(crate) struct Scout<'a> {
    alloc: Global,
    layouts: &'a [Layout],
    until: Until,
    met: BTreeMap<u32, Met>,
    /// The generations and numbers of rows whose parents weren't met.
    waiting: BinaryHeap<(u32, u32)>,
    /// How many of these are gone through in any case.
    open: usize,
    /// How many rows' parents were met.
    done: usize,
    /// How many parents these rows have.
    named: usize,
    /// How many rows are gone through at the least.
    count: u64,
    /// The lowest generation that is asked about.
    asked: u32,
    /// Which sides reach commits that have no row.
    new: IdMap<u8>,
}

impl<'a> Drop for Scout<'a> {
    fn drop(self) {
        let Scout {
            alloc: _,
            layouts: _,
            until: _,
            met: _,
            waiting: _,
            open: _,
            done: _,
            named: _,
            count: _,
            asked: _,
            new: _,
        } = self;
    }
}

/// Rows of the files: those of a question, and their parents.
pub(crate) struct Found {
    /// Their numbers and what they say, by rising id.
    pub rows: Vec<(u32, FileRow)>,
    /// The generation below which their parents aren't among them.
    pub least: u32,
}

impl Drop for Found {
    fn drop(self) {
        let Found { rows: _, least: _ } = self;
    }
}

impl<'a> Scout<'a> {
    /// No rows of the files that are laid out so.
    pub fn new(
        alloc: Global,
        keys: Keys,
        layouts: &'a [Layout],
        until: Until,
        count: u64,
    ) -> Scout<'a> {
        Scout {
            alloc,
            layouts,
            until,
            met: BTreeMap::new(alloc),
            waiting: BinaryHeap::new(alloc),
            open: 0,
            done: 0,
            named: 0,
            count,
            asked: u32::MAX,
            new: IdMap::new(alloc, keys),
        }
    }

    /// Meets what is asked, and goes down from there.
    pub fn find<R, F>(
        mut self,
        pages: &mut Pages<F>,
        odb: &mut Odb<R>,
        asking: Asking<'_>,
    ) -> Result<Found, Stop>
    where
        R: Files + AllocGlobal + Clone + Drop,
        R::File: FileExt,
        F: FileExt + Drop,
    {
        self.meet_ids(pages, odb, asking.about, 0)?;
        let mut asked = u32::MAX;
        for met in self.met.values() {
            asked = asked.min(met.row.generation);
        }
        self.asked = asked;
        self.meet_ids(pages, odb, asking.one, ONE)?;
        self.meet_ids(pages, odb, asking.other, OTHER)?;
        let least = self.go_down(pages)?;
        let mut rows = Vec::new(self.alloc);
        for (number, met) in self.met.iter() {
            rows.push((*number, met.row))?;
        }
        rows.as_mut_slice()
            .sort_by(self.alloc, |(_, one), (_, other)| one.id.cmp(&other.id))?;
        Ok(Found { rows, least })
    }

    /// Goes through rows of falling generation as far as the answer needs it. The lowest generation of these.
    fn go_down<F: FileExt + Drop>(&mut self, pages: &mut Pages<F>) -> Result<u32, Stop> {
        let mut least = u32::MAX;
        for _ in 0..u64::MAX {
            let Some((generation, number)) = self.waiting.peek().copied() else {
                break;
            };
            let is_asked = self.until == Until::Down && generation >= self.asked;
            let are_few = (self.done as u64) < self.count;
            if self.open == 0 && generation < least && !is_asked && !are_few {
                break;
            }
            self.waiting.pop();
            least = generation;
            self.go_through(pages, number)?;
        }
        Ok(least)
    }

    /// Meets the parents of a row.
    fn go_through<F: FileExt + Drop>(
        &mut self,
        pages: &mut Pages<F>,
        number: u32,
    ) -> Result<(), Stop> {
        let most = FEW.max((count_rows(self.layouts) / SHARE) as usize);
        self.done = self.done.saturating_add(1);
        if self.done > most {
            return Err(Stop::Unfit);
        }
        let Some(met) = self.met.get_mut(&number) else {
            return Err(Stop::Unfit);
        };
        met.is_done = true;
        let Met { row, sides, .. } = *met;
        if self.until.goes_through(sides) {
            self.open = self.open.saturating_sub(1);
        }
        let parents = numbers_of_parents(self.alloc, pages, self.layouts, number, &row)?;
        // In a file that isn't right many rows may name one long list.
        self.named = self.named.saturating_add(parents.len());
        if self.named > most.saturating_mul(PARENTS) {
            return Err(Stop::Unfit);
        }
        let given = if sides & (ONE | OTHER) == ONE | OTHER {
            sides | STALE
        } else {
            sides
        };
        for parent in parents.iter() {
            self.meet(pages, *parent, given)?;
        }
        Ok(())
    }

    /// Meets a row from these sides.
    fn meet<F: FileExt + Drop>(
        &mut self,
        pages: &mut Pages<F>,
        number: u32,
        sides: u8,
    ) -> Result<(), Stop> {
        let until = self.until;
        if let Some(met) = self.met.get_mut(&number) {
            let more = met.sides | sides;
            if more != met.sides {
                // What was gone through has a generation above that of each row that is left.
                if met.is_done {
                    return Err(Stop::Unfit);
                }
                if until.goes_through(met.sides) && !until.goes_through(more) {
                    self.open = self.open.saturating_sub(1);
                } else if !until.goes_through(met.sides) && until.goes_through(more) {
                    self.open = self.open.saturating_add(1);
                }
                met.sides = more;
            }
            return Ok(());
        }
        load_row(pages, self.layouts, number)?;
        let Some(row) = row_of(pages, self.layouts, number) else {
            return Err(Stop::Unfit);
        };
        if until.goes_through(sides) {
            self.open = self.open.saturating_add(1);
        }
        self.waiting.push((row.generation, number))?;
        let met = Met {
            row,
            sides,
            is_done: false,
        };
        self.met.insert(number, met)?;
        Ok(())
    }

    /// Meets the rows of ids, and of what commits without a row name.
    fn meet_ids<R, F>(
        &mut self,
        pages: &mut Pages<F>,
        odb: &mut Odb<R>,
        ids: &[ObjectId],
        sides: u8,
    ) -> Result<(), Stop>
    where
        R: Files + AllocGlobal + Clone + Drop,
        R::File: FileExt,
        F: FileExt + Drop,
    {
        let mut text = Vec::new(self.alloc);
        let mut left = Vec::from_slice(self.alloc, ids)?;
        for _ in 0..u64::MAX {
            let Some(id) = left.pop() else {
                break;
            };
            if let Some(number) = number_of(pages, self.layouts, &id)? {
                self.meet(pages, number, sides)?;
                continue;
            }
            let old = self.new.get(&id).copied();
            let all = old.unwrap_or(0) | sides;
            if old == Some(all) {
                continue;
            }
            self.new.insert(id, all)?;
            if self.new.len() > MOST_NEW {
                return Err(Stop::Unfit);
            }
            let Ok(Some(Kind::Commit)) = read_named(odb, &id, &mut text) else {
                return Err(Stop::Unfit);
            };
            let items = CommitRefIter::from_bytes(text.as_slice(), id.kind());
            let Some(commit) = read_whole(self.alloc, items)? else {
                return Err(Stop::Unfit);
            };
            for parent in commit.parent_ids.iter() {
                if left.last() != Some(parent) {
                    left.push(*parent)?;
                }
            }
        }
        Ok(())
    }
}

/// How many rows files have that are laid out so.
fn count_rows(layouts: &[Layout]) -> u32 {
    match layouts.last() {
        Some(last) => last.start.saturating_add(last.rows),
        None => 0,
    }
}

/// What a row says whose pages were read.
fn row_of<F: Drop>(pages: &Pages<F>, layouts: &[Layout], number: u32) -> Option<FileRow> {
    row_in(pages, layout_with(layouts, number)?, number)
}

/// The numbers of the rows of the parents of the row of this number, in order. Reads the pages that list them.
pub(crate) fn numbers_of_parents<F: FileExt + Drop>(
    alloc: Global,
    pages: &mut Pages<F>,
    layouts: &[Layout],
    number: u32,
    row: &FileRow,
) -> Result<Vec<u32>, Stop> {
    let Some(layout) = layout_with(layouts, number) else {
        return Err(Stop::Unfit);
    };
    for _ in 0..MOST_PROBES {
        match parents_in(alloc, pages, layout, row) {
            Ok(numbers) => return Ok(numbers),
            Err(Unlisted::Unread(unread)) => load(pages, unread)?,
            Err(Unlisted::Memory) => return Err(Stop::Memory),
            Err(Unlisted::Endless) => break,
        }
    }
    Err(Stop::Unfit)
}

/// The number of the row of an id, and None if it has none. Reads what the search needs, and the ids next to its place in each file, of which
/// the uppermost have the newest commits.
fn number_of<F: FileExt + Drop>(
    pages: &mut Pages<F>,
    layouts: &[Layout],
    id: &ObjectId,
) -> Result<Option<u32>, Stop> {
    for layout in layouts.iter().rev() {
        let place = place_of(pages, layout, id)?;
        load_id(pages, layout, place)?;
        if id_in(pages, layout, place) == Some(*id) {
            return Ok(Some(place));
        }
        load_id(pages, layout, place.saturating_sub(1))?;
    }
    Ok(None)
}

/// The place of an id in a file. Reads what the search needs.
fn place_of<F: FileExt + Drop>(
    pages: &mut Pages<F>,
    layout: &Layout,
    id: &ObjectId,
) -> Result<u32, Stop> {
    for _ in 0..MOST_PROBES {
        match place_in(pages, layout, id) {
            Ok(place) => return Ok(place),
            Err(unread) => load(pages, unread)?,
        }
    }
    Err(Stop::Unfit)
}

/// Reads a page that has to be read first.
fn load<F: FileExt + Drop>(pages: &mut Pages<F>, unread: Unread) -> Result<(), Stop> {
    Ok(pages.load(unread.layer, unread.place)?)
}
