//! Topological walks without a commit-graph: their orders, and their faults.
use crate::{Asked, DATES, FIRST, LINES, OF_SAMPLE, Table, Telling, Way};
use gix_traverse::commit::Parents;
use gix_traverse::commit::topo::Sorting;
use test_rows::history::{BY_ROWS, EMPTY, History, Odd, PLAIN};

/// Lines of history with all that is written of their commits.
const WHOLE: Way = Way {
    telling: Telling::Whole,
    ..LINES
};

/// First parents by time.
const FIRST_DATES: Way = Way {
    sorting: Sorting::DateOrder,
    ..FIRST
};

/// Two commits, 10 and 12, with parents that are younger and older.
const SKEWED: History<'static> = History {
    more: &[(10, 1, &[11]), (11, 5, &[]), (12, 3, &[13]), (13, 0, &[])],
    ..EMPTY
};

/// The sample, whose 8 has its parents the other way around.
const EXCHANGED: History<'static> = History {
    more: &[(8, 8, &[7, 6])],
    ..PLAIN
};

/// Commits that may reach themselves.
const CYCLE: History<'static> = History {
    commits: &[(12, &[10]), (11, &[10]), (10, &[11])],
    ..EMPTY
};

/// A history without 7, which is a parent of 8.
const WITHOUT_7: History<'static> = History {
    commits: &[(9, &[8]), (8, &[6, 7]), (6, &[]), (5, &[])],
    ..EMPTY
};

/// The tables. A caller's proof sees nothing of what is in them.
pub fn tables() -> &'static [Table<'static>] {
    &TABLES
}

static TABLES: [Table<'static>; 26] = [
    Table {
        cases: &[
            (&[8], &[], "8 7 4 2 6 5 3 1"),
            (&[7, 6], &[], "7 4 2 6 5 3 1"),
            (&[6, 7], &[], "7 4 2 6 5 3 1"),
            (&[4, 3, 8], &[], "8 7 4 2 6 5 3 1"),
            (&[8], &[5], "8 7 4 2 6"),
            (&[8], &[5, 4], "8 7 6"),
            (&[8, 8], &[5, 5], "8 7 4 2 6"),
            (&[8], &[7], "8 6 5 3"),
            (&[8], &[8], ""),
            (&[], &[5], ""),
        ],
        ..OF_SAMPLE
    },
    Table {
        way: DATES,
        cases: &[
            (&[8], &[], "8 7 6 5 4 3 2 1"),
            (&[6, 7], &[], "7 6 5 4 3 2 1"),
            (&[8], &[5], "8 7 6 4 2"),
            (&[8], &[8], ""),
            (&[7], &[8], ""),
        ],
        ..OF_SAMPLE
    },
    Table {
        history: EXCHANGED,
        cases: &[(&[8], &[], "8 6 5 3 7 4 2 1")],
        ..OF_SAMPLE
    },
    Table {
        history: EXCHANGED,
        way: DATES,
        cases: &[(&[8], &[], "8 7 6 5 4 3 2 1")],
        ..OF_SAMPLE
    },
    // Parents may repeat.
    Table {
        history: History {
            more: &[(9, 9, &[6, 7, 6])],
            ..PLAIN
        },
        way: WHOLE,
        cases: &[(
            &[9],
            &[],
            "9<6<7<6@9 6<5@6 5<3@5 3<1@3 7<4@7 4<2@4 2<1@2 1@1",
        )],
        ..OF_SAMPLE
    },
    Table {
        way: FIRST,
        cases: &[
            (&[8], &[], "8 6 5 3 1"),
            (&[8], &[7], "8 6 5 3"),
            (&[7], &[8], ""),
        ],
        ..OF_SAMPLE
    },
    Table {
        way: FIRST_DATES,
        cases: &[(&[8], &[], "8 6 5 3 1"), (&[7], &[8], "")],
        ..OF_SAMPLE
    },
    // All parents are given, also where the first ones alone are walked.
    Table {
        way: Way {
            parents: Parents::First,
            ..WHOLE
        },
        cases: &[(&[8], &[7], "8<6<7@8 6<5@6 5<3@5 3<1@3")],
        ..OF_SAMPLE
    },
    Table {
        history: SKEWED,
        way: DATES,
        cases: &[(&[10, 12], &[], "12 10 11 13")],
        ..OF_SAMPLE
    },
    Table {
        history: SKEWED,
        cases: &[(&[10, 12], &[], "12 13 10 11")],
        ..OF_SAMPLE
    },
    // Times that fall, and times that are all the same: then what became ready first comes first, and in topological order last.
    Table {
        history: History { scale: -1, ..PLAIN },
        way: DATES,
        cases: &[(&[8], &[], "8 6 5 3 7 4 2 1")],
        ..OF_SAMPLE
    },
    Table {
        history: History { scale: -1, ..PLAIN },
        cases: &[(&[8], &[], "8 7 4 2 6 5 3 1")],
        ..OF_SAMPLE
    },
    Table {
        history: History { scale: 0, ..PLAIN },
        cases: &[
            (&[6, 7], &[], "7 4 2 6 5 3 1"),
            (&[7, 6], &[], "6 5 3 7 4 2 1"),
        ],
        ..OF_SAMPLE
    },
    Table {
        history: History { scale: 0, ..PLAIN },
        way: DATES,
        cases: &[
            (&[8], &[], "8 6 7 5 4 3 2 1"),
            (&[6, 7], &[], "6 7 5 4 3 2 1"),
            (&[7, 6], &[], "7 6 4 5 2 3 1"),
        ],
        ..OF_SAMPLE
    },
    // A commit without a committer has time 0.
    Table {
        history: History {
            odd: Odd::WithoutCommitter,
            ..PLAIN
        },
        way: Way {
            telling: Telling::Whole,
            ..DATES
        },
        cases: &[(&[9, 3], &[], "3<1@3 1@1 9@0")],
        ..OF_SAMPLE
    },
    Table {
        history: CYCLE,
        cases: &[(&[10], &[], ""), (&[12], &[], "12"), (&[12], &[11], "12")],
        ..OF_SAMPLE
    },
    Table {
        history: CYCLE,
        way: DATES,
        cases: &[(&[10], &[], ""), (&[12], &[], "12"), (&[12], &[11], "12")],
        ..OF_SAMPLE
    },
    // A refused commit does not bar the way, and an end is not asked about.
    Table {
        by: BY_ROWS,
        way: Way {
            asked: Asked::Refusing(7),
            ..LINES
        },
        cases: &[(&[8], &[5], "8:5 4:3 2:2 6:4, asked 8 7 4 2 6")],
        ..OF_SAMPLE
    },
    Table {
        way: Way {
            asked: Asked::Refusing(7),
            ..LINES
        },
        cases: &[
            (&[8], &[], "8 4 2 6 5 3 1, asked 8 7 4 2 6 5 3 1"),
            (&[8], &[5], "8 4 2 6, asked 8 7 4 2 6"),
        ],
        ..OF_SAMPLE
    },
    Table {
        history: History {
            odd: Odd::BrokenParent,
            ..PLAIN
        },
        cases: &[(&[9], &[], "no walk: broken-Parent")],
        ..OF_SAMPLE
    },
    Table {
        history: History {
            odd: Odd::Tag(9),
            ..PLAIN
        },
        cases: &[(&[8, 9], &[], "no walk: Tag-9-for-Commit")],
        ..OF_SAMPLE
    },
    // Ids that begin with one digit are two.
    Table {
        history: History {
            commits: &[(17, &[1]), (1, &[])],
            ..EMPTY
        },
        cases: &[(&[17], &[], "2121212121212121212121212121212121212121 1")],
        ..OF_SAMPLE
    },
    // What is not stored.
    Table {
        history: WITHOUT_7,
        cases: &[(&[8], &[], "no walk: missing-7")],
        ..OF_SAMPLE
    },
    Table {
        history: WITHOUT_7,
        way: DATES,
        cases: &[
            (&[7], &[], "no walk: missing-7"),
            (&[6], &[7], "no walk: missing-7"),
            (&[9], &[8], "no walk: missing-7"),
        ],
        ..OF_SAMPLE
    },
    Table {
        history: WITHOUT_7,
        way: FIRST,
        cases: &[(&[8], &[], "no walk: missing-7")],
        ..OF_SAMPLE
    },
    // Nothing follows a fault.
    Table {
        history: WITHOUT_7,
        way: FIRST_DATES,
        cases: &[(&[9, 5], &[], "missing-7")],
        ..OF_SAMPLE
    },
];
