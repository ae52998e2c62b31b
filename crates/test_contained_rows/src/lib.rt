//! Which commits are contained in others, written as text: a word for each, or for the fault.
#![tactic(auto)]

use gix_parts::graph::Graph;
use gix_parts::hash::ObjectId;
use gix_parts::object::find::Find;
use gix_traverse::commit::contained::{Error, contained};
use std::alloc::{AllocError, Global};
use test_rows::history::{
    BY_ALL, BY_ROWS, BY_STORE, By, EMPTY, FULL, Failing, History, Odd, PLAIN, ROOM, Rows, SKEWED,
    SKEWED_COMMITS, id, ids,
};
use test_rows::table;
use test_rows::words::{Stop, space, write_broken, write_id, write_not_found};

/// Tips, the ids that are asked about, and what is told.
pub type Case<'a> = (&'a [u8], &'a [u8], &'a str);

/// Calls over one history.
#[derive(Clone, Copy)]
pub struct Table<'a> {
    pub history: History<'a>,
    /// The store fails at this commit, if at any.
    pub fails: Option<u8>,
    pub rows: Rows<'a>,
    pub by: &'a [By],
    pub cases: &'a [Case<'a>],
}

/// Calls over the sample, from the store alone.
const OF_SAMPLE: Table<'static> = Table {
    history: PLAIN,
    fails: None,
    rows: FULL,
    by: BY_STORE,
    cases: &[],
};

/// Rows of a line of commits from 5 to 1, with a fault in the row of 2.
const CHAIN: Rows<'static> = Rows {
    commits: &[(5, &[4]), (4, &[3]), (3, &[2]), (2, &[1]), (1, &[])],
    generations: &[5, 4, 3, 2, 1],
    fault: Some((2, 1)),
};

/// The tables. A caller's proof sees nothing of what is in them.
pub fn tables() -> &'static [Table<'static>] {
    &TABLES
}

static TABLES: [Table<'static>; 9] = [
    Table {
        by: BY_ALL,
        cases: &[
            (&[8], &[1, 2, 3, 4, 5, 6, 7, 8], "1 2 3 4 5 6 7 8"),
            (&[7], &[8, 7, 6, 5, 4, 3, 2, 1], "7 4 2 1"),
            (&[6], &[4, 5, 4, 5, 2], "5 5"),
            (&[5, 4], &[8, 7, 6, 5, 4, 3, 2, 1], "5 4 3 2 1"),
            (&[1], &[8, 2], ""),
            (&[1], &[1], "1"),
            (&[10], &[8], "missing-10"),
            (&[8], &[8, 10], "missing-10"),
            // Without tips or ids nothing is read.
            (&[10], &[], ""),
            (&[], &[10], ""),
        ],
        ..OF_SAMPLE
    },
    // Commits that reach younger ones.
    Table {
        history: History {
            commits: &SKEWED_COMMITS,
            ..EMPTY
        },
        rows: SKEWED,
        by: BY_ALL,
        cases: &[
            (&[2], &[9, 8, 7, 6, 2, 1], "8 7 6 2 1"),
            (&[9], &[2, 1, 8, 7, 6], "8 7 6"),
        ],
        ..OF_SAMPLE
    },
    // Each commit is older than its child.
    Table {
        history: History { scale: -1, ..PLAIN },
        cases: &[(&[7], &[8, 7, 6, 5, 4, 3, 2, 1], "7 4 2 1")],
        ..OF_SAMPLE
    },
    // A commit without a committer, which has no row.
    Table {
        history: History {
            odd: Odd::WithoutCommitter,
            ..PLAIN
        },
        by: BY_ALL,
        cases: &[
            (&[9], &[8], "broken-Missing"),
            (&[8], &[9], "broken-Missing"),
        ],
        ..OF_SAMPLE
    },
    Table {
        history: History {
            odd: Odd::Tag(3),
            ..PLAIN
        },
        cases: &[
            (&[8], &[3], "Tag-3-for-Commit"),
            (&[8], &[1], "Tag-3-for-Commit"),
            // What the ids reach isn't read, but for what the tips reach too.
            (&[7], &[4, 6], "4"),
            (&[7], &[4], "4"),
        ],
        ..OF_SAMPLE
    },
    Table {
        fails: Some(2),
        cases: &[
            (&[8], &[1], "store"),
            // The newest are read first, until all is known.
            (&[8], &[7], "7"),
        ],
        ..OF_SAMPLE
    },
    // A commit that has a row isn't looked up.
    Table {
        fails: Some(2),
        by: BY_ROWS,
        cases: &[(&[8], &[7, 1], "7 1")],
        ..OF_SAMPLE
    },
    // Rows alone. Reading stops above a corrupt row, where nothing depends on it.
    Table {
        history: EMPTY,
        rows: CHAIN,
        by: BY_ROWS,
        cases: &[
            (&[5], &[4, 2], "4 2"),
            (&[3], &[4, 2], "2"),
            (&[5], &[1], "missing-2"),
        ],
        ..OF_SAMPLE
    },
    // A corrupt row drops the rows, and the store has the rest.
    Table {
        history: History {
            commits: &[(5, &[4]), (4, &[3]), (3, &[2]), (2, &[1]), (1, &[])],
            ..EMPTY
        },
        rows: CHAIN,
        by: BY_ROWS,
        cases: &[(&[4], &[5, 1, 3], "1 3")],
        ..OF_SAMPLE
    },
];

/// Writes a fault as a word. Out of memory stays out of memory.
fn write_fault(told: &mut String, error: &Error) -> Result<(), AllocError> {
    match error {
        Error::Find(error) => write_not_found(told, error),
        Error::ObjectDecode(error) => write_broken(told, error),
        Error::Memory => Err(AllocError),
    }
}

/// Writes ids, a word for each.
fn write_ids(told: &mut String, ids: &[ObjectId]) -> Result<(), AllocError> {
    for id in ids {
        space(told)?;
        write_id(told, id)?;
    }
    Ok(())
}

/// Tells which of these ids the tips reach.
fn tell_contained<F: Find>(
    alloc: Global,
    objects: &F,
    graph: Option<&Graph>,
    tips: &[u8],
    asked: &[u8],
    told: &mut String,
) -> Result<(), Stop> {
    let tips = ids(alloc, tips)?;
    let asked = ids(alloc, asked)?;
    match contained(alloc, tips.as_slice(), asked.as_slice(), objects, graph) {
        Ok(those) => Ok(write_ids(told, those.as_slice())?),
        Err(error) => Ok(write_fault(told, &error)?),
    }
}

impl<'a> table::Table for Table<'a> {
    type Case = Case<'a>;

    fn rows(&self) -> (&[Case<'a>], &[By]) {
        (self.cases, self.by)
    }

    fn want<'c>(case: &'c Case<'a>) -> &'c str {
        case.2
    }

    fn tell(&self, alloc: Global, by: By, case: &Case<'a>, told: &mut String) -> Result<(), Stop> {
        told.reserve(ROOM)?;
        let (tips, asked, _) = *case;
        let store = self.history.store(alloc)?;
        let failing = Failing(&store, self.fails.map(id));
        let graph = by.graph(alloc, &self.rows)?;
        tell_contained(alloc, &failing, graph.as_ref(), tips, asked, told)
    }
}
