//! Calls over histories, written as text: a word for each commit that is found, or for the fault.
use gix_containing::{Error, containing};
use gix_merge_base::merge_bases;
use gix_parts::graph::Graph;
use gix_parts::hash::ObjectId;
use gix_parts::object::find::Find;
use std::alloc::{AllocError, Global};
use std::test::Fail;
use test_rows::history::{BY_STORE, By, FULL, Failing, History, PLAIN, ROOM, Rows, id, ids};
use test_rows::words::{Stop, space, write_broken, write_id, write_not_found};

/// What is called.
#[derive(Clone, Copy)]
pub(crate) enum Search {
    /// The best common ancestors of a commit and of others.
    Bases,
    /// Which of the others contain it.
    Containing,
}

/// A commit, others, and what is told.
pub(crate) type Case<'a> = (u8, &'a [u8], &'a str);

/// Calls over one history.
#[derive(Clone, Copy)]
pub(crate) struct Table<'a> {
    pub history: History<'a>,
    /// The store fails at this commit, if at any.
    pub fails: Option<u8>,
    pub rows: Rows<'a>,
    pub by: &'a [By],
    pub cases: &'a [Case<'a>],
}

/// Calls over the sample.
pub(crate) const OF_SAMPLE: Table<'static> = Table {
    history: PLAIN,
    fails: None,
    rows: FULL,
    by: BY_STORE,
    cases: &[],
};

/// Writes a fault as a word. Out of memory stays out of memory.
fn write_fault(told: &mut String, error: &Error) -> Result<(), AllocError> {
    match error {
        Error::Find(error) => write_not_found(told, error),
        Error::ObjectDecode(error) => write_broken(told, error),
        Error::Memory => Err(AllocError),
    }
}

/// Writes ids, a word for each.
fn write_ids(told: &mut String, ids: &[ObjectId]) -> Result<(), AllocError> {
    for id in ids {
        space(told)?;
        write_id(told, id)?;
    }
    Ok(())
}

/// Tells what a search finds.
fn tell_found<F: Find>(
    alloc: Global,
    search: Search,
    objects: &F,
    graph: Option<&Graph>,
    case: &Case<'_>,
    told: &mut String,
) -> Result<(), Stop> {
    let (one, others, _) = *case;
    let others = ids(alloc, others)?;
    let found = match search {
        Search::Bases => merge_bases(alloc, id(one), others.as_slice(), objects, graph),
        Search::Containing => containing(alloc, id(one), others.as_slice(), objects, graph),
    };
    match found {
        Ok(those) => Ok(write_ids(told, those.as_slice())?),
        Err(error) => Ok(write_fault(told, &error)?),
    }
}

/// Tells what a case gives that reads commits in this way.
fn tell(
    alloc: Global,
    search: Search,
    table: &Table<'_>,
    by: By,
    case: &Case<'_>,
    told: &mut String,
) -> Result<(), Stop> {
    told.reserve(ROOM)?;
    let store = table.history.store(alloc)?;
    let failing = Failing(&store, table.fails.map(id));
    let graph = by.graph(alloc, &table.rows)?;
    tell_found(alloc, search, &failing, graph.as_ref(), case, told)
}

/// Compares what the calls of a table tell with what is wanted.
fn check(alloc: Global, search: Search, table: &Table<'_>, place: usize) -> Result<(), Fail> {
    for (row, case) in table.cases.iter().enumerate() {
        for by in table.by {
            let mut told = String::new(alloc);
            tell(alloc, search, table, *by, case, &mut told)?;
            let want = case.2;
            if told.as_str() != want {
                return Err(Fail::new(format_args!(
                    "{place}.{row} by {by:?} tells {told}, not {want}"
                )));
            }
        }
    }
    Ok(())
}

/// The same of each table.
pub(crate) fn check_all(alloc: Global, search: Search, tables: &[Table<'_>]) -> Result<(), Fail> {
    for (place, table) in tables.iter().enumerate() {
        check(alloc, search, table, place)?;
    }
    Ok(())
}
