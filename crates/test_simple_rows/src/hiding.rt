//! Walks with hidden tips.
use crate::{ALL, AS_MET, Asked, BREADTH, BY_TIME, OF_SAMPLE, SINCE_4, Table, Wish};
use gix_traverse::commit::Parents;
use test_rows::history::{BY_ALL, EMPTY, History, Odd, PLAIN, SKEWED, SKEWED_COMMITS};

/// The tables. A caller's proof sees nothing of what is in them.
pub fn tables() -> &'static [Table<'static>] {
    &TABLES
}

static TABLES: [Table<'static>; 14] = [
    Table {
        by: BY_ALL,
        cases: &[
            (&[8], AS_MET, &[], "8 6 7 5 4 3 2 1"),
            (&[8], AS_MET, &[7], "8 6 5 3"),
            (&[8], AS_MET, &[5], "8 6 7 4 2"),
            (&[8], AS_MET, &[5, 4], "8 6 7"),
            (&[8], AS_MET, &[1], "8 6 7 5 4 3 2"),
            (&[8], AS_MET, &[8], ""),
            (&[8], BY_TIME, &[5], "8 7 6 4 2"),
            (&[8], [BREADTH, SINCE_4], &[5], "8 7 6 4"),
            (&[8], AS_MET, &[10], "hidden-missing-10"),
        ],
        ..OF_SAMPLE
    },
    Table {
        history: History {
            commits: &SKEWED_COMMITS,
            ..EMPTY
        },
        rows: SKEWED,
        by: BY_ALL,
        cases: &[(&[9], AS_MET, &[2], "9")],
        ..OF_SAMPLE
    },
    // The tips that are hidden at last count.
    Table {
        by: BY_ALL,
        wish: Wish {
            hidden: [&[7], &[]],
            ..ALL
        },
        cases: &[
            (&[8], AS_MET, &[5], "8 6 7 4 2"),
            (&[8], AS_MET, &[], "8 6 7 5 4 3 2 1"),
        ],
        ..OF_SAMPLE
    },
    // A hidden commit isn't asked about.
    Table {
        by: BY_ALL,
        wish: Wish {
            asked: Asked::Refusing(0),
            ..ALL
        },
        cases: &[(&[8], AS_MET, &[7], "8 6 5 3, asked 8 6 5 3")],
        ..OF_SAMPLE
    },
    // Without tips nothing is painted.
    Table {
        by: BY_ALL,
        wish: Wish {
            asked: Asked::Refusing(8),
            ..ALL
        },
        cases: &[(&[8], AS_MET, &[10], ", asked 8")],
        ..OF_SAMPLE
    },
    // Hidden by any parent.
    Table {
        by: BY_ALL,
        wish: Wish {
            parents: Parents::First,
            ..ALL
        },
        cases: &[(&[7, 6], AS_MET, &[8], "")],
        ..OF_SAMPLE
    },
    // A commit without a committer, which has no row.
    Table {
        history: History {
            odd: Odd::WithoutCommitter,
            ..PLAIN
        },
        by: BY_ALL,
        cases: &[(&[8], AS_MET, &[9], "hidden-broken-Missing")],
        ..OF_SAMPLE
    },
    Table {
        fails: Some(2),
        cases: &[(&[8], AS_MET, &[7], "hidden-store")],
        ..OF_SAMPLE
    },
    Table {
        history: History { scale: -1, ..PLAIN },
        cases: &[(&[8], AS_MET, &[7], "8 6 5 3")],
        ..OF_SAMPLE
    },
    // What is hidden behind the first step isn't painted: the walk goes on as without it, and what the first step hid stays hidden.
    Table {
        by: BY_ALL,
        wish: Wish {
            late: &[(1, &[6])],
            ..ALL
        },
        cases: &[
            (&[8], AS_MET, &[], "8 6 7 5 4 3 2 1"),
            (&[8], BY_TIME, &[], "8 7 6 5 4 3 2 1"),
            (&[8], [BREADTH, SINCE_4], &[], "8 7 6 5 4"),
            (&[8], AS_MET, &[5], "8 6 7 4 2"),
            (&[8], BY_TIME, &[5], "8 7 6 4 2"),
            (&[8], AS_MET, &[8], ""),
            (&[8], AS_MET, &[10], "hidden-missing-10"),
        ],
        ..OF_SAMPLE
    },
    // A tip that isn't stored is no fault then.
    Table {
        by: BY_ALL,
        wish: Wish {
            late: &[(1, &[10])],
            ..ALL
        },
        cases: &[
            (&[8], AS_MET, &[], "8 6 7 5 4 3 2 1"),
            (&[8], BY_TIME, &[5], "8 7 6 4 2"),
        ],
        ..OF_SAMPLE
    },
    // No tips take the place of those that the first step hid, and more come behind the second step.
    Table {
        by: BY_ALL,
        wish: Wish {
            late: &[(1, &[]), (1, &[4])],
            ..ALL
        },
        cases: &[
            (&[8], AS_MET, &[], "8 6 7 5 4 3 2 1"),
            (&[8], AS_MET, &[5], "8 6 7 4 2"),
        ],
        ..OF_SAMPLE
    },
    // Behind the end nothing comes.
    Table {
        by: BY_ALL,
        wish: Wish {
            late: &[(9, &[4])],
            ..ALL
        },
        cases: &[
            (&[], AS_MET, &[], ""),
            (&[8], AS_MET, &[], "8 6 7 5 4 3 2 1"),
        ],
        ..OF_SAMPLE
    },
    // Before the first step the last tips count.
    Table {
        by: BY_ALL,
        wish: Wish {
            late: &[(0, &[7]), (1, &[1])],
            ..ALL
        },
        cases: &[(&[8], AS_MET, &[8], "8 6 5 3")],
        ..OF_SAMPLE
    },
];
