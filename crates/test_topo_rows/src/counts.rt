//! Topological walks by the rows of a commit-graph: how far down they count, and what they tell.
use crate::{DATES, FIRST, LINES, OF_SAMPLE, Table, Telling, Way};
use test_rows::history::{BY_ROWS, EMPTY, FULL, History, Rows, SKEWED, SKEWED_COMMITS};

/// Rows of the lower commits of the sample.
const LOW: Rows<'static> = Rows {
    commits: &[(5, &[3]), (4, &[2]), (3, &[1]), (2, &[1]), (1, &[])],
    generations: &[3, 3, 2, 2, 1],
    fault: None,
};

/// Two lines of two commits each.
const OLDER_COMMITS: [(u8, &[u8]); 4] = [(1, &[5]), (5, &[]), (3, &[0]), (0, &[])];

/// A commit, 1, that is older than its parent, 5.
const OLDER: Rows<'static> = Rows {
    commits: &OLDER_COMMITS,
    generations: &[2, 1, 2, 1],
    fault: None,
};

/// Lines of history that tell how much is counted.
pub const COUNTED_LINES: Way = Way {
    telling: Telling::Counts,
    ..LINES
};

/// The same by time.
pub const COUNTED_DATES: Way = Way {
    telling: Telling::Counts,
    ..DATES
};

/// Walks over the sample by all its rows.
const COUNTED: Table<'static> = Table {
    by: BY_ROWS,
    way: COUNTED_LINES,
    ..OF_SAMPLE
};

/// The tables. A caller's proof sees nothing of what is in them.
pub fn tables() -> &'static [Table<'static>] {
    &TABLES
}

static TABLES: [Table<'static>; 15] = [
    Table {
        cases: &[
            (&[8], &[], "1 8:3 7:5 4:7 2:8 6:8 5:8 3:8 1:8"),
            (&[8], &[5], "5 8:5 7:5 4:7 2:8 6:8"),
            (&[8], &[8], "1"),
            (&[7, 6], &[], "2 7:4 4:6 2:7 6:7 5:7 3:7 1:7"),
            (&[], &[], "0"),
        ],
        ..COUNTED
    },
    Table {
        way: COUNTED_DATES,
        cases: &[
            (&[8], &[], "1 8:3 7:5 6:5 5:7 4:7 3:8 2:8 1:8"),
            (&[8], &[5], "5 8:5 7:5 6:5 4:7 2:8"),
        ],
        ..COUNTED
    },
    Table {
        way: Way {
            telling: Telling::Counts,
            ..FIRST
        },
        cases: &[
            (&[8], &[], "1 8:2 6:3 5:4 3:5 1:5"),
            (&[8], &[7], "3 8:3 6:5 5:7 3:8"),
            (&[7], &[8], "3"),
        ],
        ..COUNTED
    },
    Table {
        rows: Rows {
            fault: Some((8, 7)),
            ..FULL
        },
        way: Way {
            telling: Telling::Counts,
            ..FIRST
        },
        cases: &[(&[8], &[], "5 8:5 6:5 5:5 3:5 1:5")],
        ..COUNTED
    },
    // What has no row is counted at once.
    Table {
        rows: LOW,
        cases: &[(&[8], &[], "3 8:3 7:5 4:7 2:8 6:8 5:8 3:8 1:8")],
        ..COUNTED
    },
    Table {
        rows: LOW,
        way: COUNTED_DATES,
        cases: &[(&[8], &[], "3 8:3 7:5 6:5 5:7 4:7 3:8 2:8 1:8")],
        ..COUNTED
    },
    // Without rows all is counted.
    Table {
        way: COUNTED_LINES,
        cases: &[(&[8], &[], "8 8:8 7:8 4:8 2:8 6:8 5:8 3:8 1:8")],
        ..OF_SAMPLE
    },
    // Skewed times don't matter.
    Table {
        history: History {
            commits: &OLDER_COMMITS,
            ..EMPTY
        },
        rows: OLDER,
        cases: &[(&[1, 3], &[], "2 3:4 0:4 1:4 5:4")],
        ..COUNTED
    },
    Table {
        history: History {
            commits: &OLDER_COMMITS,
            ..EMPTY
        },
        rows: OLDER,
        way: COUNTED_DATES,
        cases: &[(&[1, 3], &[], "2 3:4 1:4 5:4 0:4")],
        ..COUNTED
    },
    Table {
        history: History {
            commits: &SKEWED_COMMITS,
            ..EMPTY
        },
        rows: SKEWED,
        cases: &[(&[9], &[2], "3 9:6")],
        ..COUNTED
    },
    // Rows have generations.
    Table {
        by: BY_ROWS,
        cases: &[(&[8], &[], "8:5 7:4 4:3 2:2 6:4 5:3 3:2 1:1")],
        ..OF_SAMPLE
    },
    Table {
        by: BY_ROWS,
        rows: LOW,
        cases: &[(&[8], &[], "8 7 4:3 2:2 6 5:3 3:2 1:1")],
        ..OF_SAMPLE
    },
    // Rows alone.
    Table {
        history: EMPTY,
        by: BY_ROWS,
        cases: &[
            (&[8], &[], "8:5 7:4 4:3 2:2 6:4 5:3 3:2 1:1"),
            (&[8], &[5], "8:5 7:4 4:3 2:2 6:4"),
        ],
        ..OF_SAMPLE
    },
    // A store that fails.
    Table {
        fails: Some(1),
        cases: &[(&[8], &[], "no walk: store")],
        ..OF_SAMPLE
    },
    Table {
        fails: Some(2),
        rows: Rows {
            fault: Some((2, 1)),
            ..FULL
        },
        cases: &[(&[8], &[], "1 8:3 7:5 store")],
        ..COUNTED
    },
];
