//! The best common ancestors of commits.
use crate::calls::{OF_SAMPLE, Search, Table, check_all};
use std::test::Fail;
use test_rows::history::{BY_ALL, EMPTY, History, Odd, PLAIN, Rows};

/// Two merges of the same two commits, one after the other and the other way round.
const CROSSED: History<'static> = History {
    commits: &[(5, &[3, 2]), (4, &[2, 3]), (3, &[1]), (2, &[1]), (1, &[])],
    ..EMPTY
};

const CROSSED_ROWS: Rows<'static> = Rows {
    commits: &[(5, &[3, 2]), (4, &[2, 3]), (3, &[1]), (2, &[1]), (1, &[])],
    generations: &[3, 3, 2, 2, 1],
    fault: None,
};

/// Merges of commits one of which reaches the other.
const NESTED: History<'static> = History {
    commits: &[(5, &[3, 2]), (4, &[3, 1]), (3, &[2]), (2, &[1]), (1, &[])],
    ..EMPTY
};

/// The same, with a fault in the row of 3.
const NESTED_ROWS: Rows<'static> = Rows {
    commits: &[(5, &[3, 2]), (4, &[3, 1]), (3, &[2]), (2, &[1]), (1, &[])],
    generations: &[4, 4, 3, 2, 1],
    fault: Some((3, 2)),
};

/// Two histories that have nothing in common.
const APART: History<'static> = History {
    commits: &[(4, &[3]), (3, &[]), (2, &[1]), (1, &[])],
    ..EMPTY
};

/// The tables. A caller's proof sees nothing of what is in them.
fn tables() -> &'static [Table<'static>] {
    &TABLES
}

static TABLES: [Table<'static>; 7] = [
    Table {
        by: BY_ALL,
        cases: &[
            (4, &[5], "1"),
            (7, &[6], "1"),
            // One reaches the other.
            (8, &[7], "7"),
            (7, &[8], "7"),
            (4, &[4], "4"),
            // The others together.
            (6, &[7, 4], "1"),
            (2, &[3, 4], "2"),
            (2, &[2, 2], "2"),
            (2, &[], ""),
            (8, &[10], "missing-10"),
            (10, &[8], "missing-10"),
        ],
        ..OF_SAMPLE
    },
    // Two bases, neither of which reaches the other.
    Table {
        history: CROSSED,
        rows: CROSSED_ROWS,
        by: BY_ALL,
        cases: &[
            (4, &[5], "2 3"),
            (5, &[4], "2 3"),
            (4, &[2, 5], "2 3"),
            (4, &[2, 3], "2 3"),
            (1, &[4, 5], "1"),
        ],
        ..OF_SAMPLE
    },
    // Candidates that another candidate reaches.
    Table {
        history: NESTED,
        rows: NESTED_ROWS,
        by: BY_ALL,
        cases: &[
            (4, &[5], "3"),
            (4, &[2, 5], "3"),
            (5, &[1, 2], "2"),
            (5, &[1], "1"),
        ],
        ..OF_SAMPLE
    },
    Table {
        history: APART,
        cases: &[(2, &[4], ""), (2, &[4, 2], "2"), (4, &[1, 3], "3")],
        ..OF_SAMPLE
    },
    // A store that fails, a text that breaks off, and a tag in place of a commit.
    Table {
        fails: Some(2),
        cases: &[(8, &[7], "store")],
        ..OF_SAMPLE
    },
    Table {
        history: History {
            odd: Odd::WithoutCommitter,
            ..PLAIN
        },
        cases: &[(8, &[9], "broken-Missing"), (9, &[8], "broken-Missing")],
        ..OF_SAMPLE
    },
    Table {
        history: History {
            odd: Odd::Tag(3),
            ..PLAIN
        },
        cases: &[(8, &[4], "Tag-3-for-Commit"), (7, &[4], "4")],
        ..OF_SAMPLE
    },
];

#[test]
fn rows(rt: HostRuntime) -> Result<(), Fail> {
    check_all(rt.alloc(), Search::Bases, tables())
}
