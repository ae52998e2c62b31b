//! Which tips contain a target.
use crate::calls::{OF_SAMPLE, Search, Table, check_all};
use std::test::Fail;
use test_rows::history::{
    BY_ALL, BY_ROWS, EMPTY, History, Odd, PLAIN, Rows, SKEWED, SKEWED_COMMITS,
};

/// Two merges of the same two commits, one after the other and the other way round, and a merge of four.
const MERGES: [(u8, &[u8]); 8] = [
    (9, &[3, 2, 6, 7]),
    (7, &[1]),
    (6, &[1]),
    (5, &[3, 2]),
    (4, &[2, 3]),
    (3, &[1]),
    (2, &[1]),
    (1, &[]),
];

const MERGED_ROWS: Rows<'static> = Rows {
    commits: &MERGES,
    generations: &[3, 2, 2, 3, 3, 2, 2, 1],
    fault: None,
};

/// A line of commits.
const LINE: [(u8, &[u8]); 5] = [(5, &[4]), (4, &[3]), (3, &[2]), (2, &[1]), (1, &[])];

/// The rows of a line, with a fault in the row of 3.
const BROKEN_LINE: Rows<'static> = Rows {
    commits: &LINE,
    generations: &[5, 4, 3, 2, 1],
    fault: Some((3, 2)),
};

/// Commits that reach each other, as no ids do that are hashes: 1, 3 and 2 in a circle, and 7 and 8. And 9, which is its own parent.
const CYCLES: [(u8, &[u8]); 9] = [
    (9, &[9, 6]),
    (8, &[7]),
    (7, &[6, 8]),
    (6, &[]),
    (5, &[4]),
    (4, &[2]),
    (3, &[2]),
    (2, &[1]),
    (1, &[3]),
];

/// The tables. A caller's proof sees nothing of what is in them.
fn tables() -> &'static [Table<'static>] {
    &TABLES
}

static TABLES: [Table<'static>; 11] = [
    Table {
        by: BY_ALL,
        cases: &[
            (1, &[8, 7, 6, 5, 4, 3, 2, 1], "8 7 6 5 4 3 2 1"),
            (4, &[1, 2, 3, 4, 5, 6, 7, 8], "4 7 8"),
            (5, &[8, 7, 6, 5, 4, 3, 2, 1], "8 6 5"),
            // In the tips' order, with repeats.
            (3, &[4, 5, 4, 5, 8], "5 5 8"),
            (8, &[7, 6, 8], "8"),
            (8, &[1], ""),
            (10, &[8], "missing-10"),
            (8, &[10], "missing-10"),
            (8, &[8, 10], "missing-10"),
            // Without tips nothing is read.
            (10, &[], ""),
        ],
        ..OF_SAMPLE
    },
    Table {
        history: History {
            commits: &MERGES,
            ..EMPTY
        },
        rows: MERGED_ROWS,
        by: BY_ALL,
        cases: &[
            (2, &[5, 4, 3, 2, 1, 9], "5 4 2 9"),
            (7, &[5, 4, 9, 7], "9 7"),
            (4, &[5, 9], ""),
            (1, &[9, 5, 6], "9 5 6"),
        ],
        ..OF_SAMPLE
    },
    // Commits that reach younger ones.
    Table {
        history: History {
            commits: &SKEWED_COMMITS,
            ..EMPTY
        },
        rows: SKEWED,
        by: BY_ALL,
        cases: &[
            (6, &[9, 8, 7, 6, 2, 1], "9 8 7 6 2 1"),
            (7, &[2, 9, 1, 8, 6], "2 9 1 8"),
            (1, &[9, 2, 8, 1], "2 1"),
        ],
        ..OF_SAMPLE
    },
    // Each commit is older than its child, or of the same time.
    Table {
        history: History { scale: -1, ..PLAIN },
        cases: &[(4, &[1, 2, 3, 4, 5, 6, 7, 8], "4 7 8")],
        ..OF_SAMPLE
    },
    Table {
        history: History { scale: 0, ..PLAIN },
        cases: &[(4, &[1, 2, 3, 4, 5, 6, 7, 8], "4 7 8")],
        ..OF_SAMPLE
    },
    Table {
        history: History {
            commits: &CYCLES,
            ..EMPTY
        },
        cases: &[
            (1, &[1, 2, 3, 4, 5, 6], "1 2 3 4 5"),
            (3, &[6, 5, 2, 2, 1], "5 2 2 1"),
            (4, &[1, 5, 2, 3, 4], "5 4"),
            (5, &[1, 2, 3, 4], ""),
            (7, &[9, 8, 6], "8"),
            (6, &[9, 8, 7, 5], "9 8 7"),
            (9, &[9, 6], "9"),
        ],
        ..OF_SAMPLE
    },
    // Where a row is corrupt the store has the commits.
    Table {
        history: History {
            commits: &LINE,
            ..EMPTY
        },
        rows: BROKEN_LINE,
        by: BY_ALL,
        cases: &[
            (2, &[5, 4, 3, 2, 1], "5 4 3 2"),
            (1, &[3, 2], "3 2"),
            (4, &[3, 5], "5"),
        ],
        ..OF_SAMPLE
    },
    // Rows alone. Nothing is read below what decides.
    Table {
        history: EMPTY,
        rows: BROKEN_LINE,
        by: BY_ROWS,
        cases: &[(4, &[5, 4], "5 4"), (1, &[2], "2"), (1, &[5], "missing-3")],
        ..OF_SAMPLE
    },
    // A store that fails, a text that breaks off, and a tag in place of a commit.
    Table {
        fails: Some(2),
        cases: &[(8, &[7], "store"), (1, &[2], "store"), (1, &[3], "3")],
        ..OF_SAMPLE
    },
    Table {
        history: History {
            odd: Odd::WithoutCommitter,
            ..PLAIN
        },
        cases: &[(8, &[9], "broken-Missing"), (9, &[8], "broken-Missing")],
        ..OF_SAMPLE
    },
    Table {
        history: History {
            odd: Odd::Tag(3),
            ..PLAIN
        },
        cases: &[(8, &[4], "Tag-3-for-Commit"), (4, &[7], "7")],
        ..OF_SAMPLE
    },
];

#[test]
fn rows(rt: HostRuntime) -> Result<(), Fail> {
    check_all(rt.alloc(), Search::Containing, tables())
}
