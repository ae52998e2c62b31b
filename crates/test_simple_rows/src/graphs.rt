//! Walks by the rows of a commit-graph, made of rows and read from their bytes.
use crate::{ALL, AS_MET, BY_TIME, Detail, OF_SAMPLE, Table, Wish};
use gix_traverse::commit::Parents;
use test_rows::history::{BY_ROWS, EMPTY, FULL, History, PLAIN, Rows};

/// Rows of some commits of the sample.
const ODD: Rows<'static> = Rows {
    commits: &[(5, &[3]), (3, &[1]), (1, &[])],
    generations: &[3, 2, 1],
    fault: None,
};

/// All that 8 reaches with the generations that rows have.
const GENERATIONS: Wish<'static> = Wish {
    detail: Detail::Generation,
    ..ALL
};

/// A line of commits from 5 to 1.
const CHAIN_COMMITS: [(u8, &[u8]); 5] = [(5, &[4]), (4, &[3]), (3, &[2]), (2, &[1]), (1, &[])];

/// Rows of a line of commits from 5 to 1, with a fault in the row of 2.
const CHAIN: Rows<'static> = Rows {
    commits: &CHAIN_COMMITS,
    generations: &[5, 4, 3, 2, 1],
    fault: Some((2, 1)),
};

/// The same without a row of 5.
const CHAIN_BELOW_5: Rows<'static> = Rows {
    commits: &[(4, &[3]), (3, &[2]), (2, &[1]), (1, &[])],
    generations: &[4, 3, 2, 1],
    fault: Some((2, 1)),
};

/// Rows of the sample and of a commit, 9, upon 4, with a fault in the row of 3.
const WITH_9: Rows<'static> = Rows {
    commits: &[
        (9, &[4]),
        (8, &[6, 7]),
        (7, &[4]),
        (6, &[5]),
        (5, &[3]),
        (4, &[2]),
        (3, &[1]),
        (2, &[1]),
        (1, &[]),
    ],
    generations: &[4, 5, 4, 4, 3, 3, 2, 2, 1],
    fault: Some((3, 1)),
};

/// Walks over the sample by rows, which give generations.
const BY_FULL_ROWS: Table<'static> = Table {
    by: BY_ROWS,
    wish: GENERATIONS,
    ..OF_SAMPLE
};

/// The tables. A caller's proof sees nothing of what is in them.
pub fn tables() -> &'static [Table<'static>] {
    &TABLES
}

static TABLES: [Table<'static>; 14] = [
    Table {
        cases: &[
            (&[8], AS_MET, &[], "8:5 6:4 7:4 5:3 4:3 3:2 2:2 1:1"),
            (&[8], AS_MET, &[7], "8:5 6:4 5:3 3:2"),
        ],
        ..BY_FULL_ROWS
    },
    // Rows alone.
    Table {
        history: EMPTY,
        cases: &[(&[8], AS_MET, &[], "8:5 6:4 7:4 5:3 4:3 3:2 2:2 1:1")],
        ..BY_FULL_ROWS
    },
    // Rows of some commits.
    Table {
        rows: ODD,
        cases: &[
            (&[8], AS_MET, &[], "8 6 7 5:3 4 3:2 2 1:1"),
            (&[8], BY_TIME, &[], "8 7 6 5:3 4 3:2 2 1:1"),
        ],
        ..BY_FULL_ROWS
    },
    // A fault in the row of 6, and in a place that isn't walked.
    Table {
        rows: Rows {
            fault: Some((6, 5)),
            ..FULL
        },
        cases: &[(&[8], AS_MET, &[], "8:5 6 7 5 4 3 2 1")],
        ..BY_FULL_ROWS
    },
    Table {
        rows: Rows {
            fault: Some((8, 7)),
            ..FULL
        },
        wish: Wish {
            parents: Parents::First,
            ..GENERATIONS
        },
        cases: &[(&[8], AS_MET, &[], "8 6 5 3 1")],
        ..BY_FULL_ROWS
    },
    // A fault above what is hidden.
    Table {
        rows: Rows {
            fault: Some((8, 7)),
            ..FULL
        },
        cases: &[(&[8], AS_MET, &[7], "8 6 5 3")],
        ..BY_FULL_ROWS
    },
    // Painting stops above a fault.
    Table {
        history: History {
            commits: &CHAIN_COMMITS,
            ..EMPTY
        },
        rows: CHAIN,
        cases: &[(&[5], AS_MET, &[4], "5:5")],
        ..BY_FULL_ROWS
    },
    Table {
        history: History {
            commits: &CHAIN_COMMITS,
            ..EMPTY
        },
        rows: CHAIN_BELOW_5,
        cases: &[(&[5], AS_MET, &[4], "5")],
        ..BY_FULL_ROWS
    },
    // It stops with two queued.
    Table {
        history: History {
            more: &[(9, 9, &[4])],
            ..PLAIN
        },
        rows: WITH_9,
        cases: &[(&[9], AS_MET, &[8], "9:4")],
        ..BY_FULL_ROWS
    },
    // Rows lend no text.
    Table {
        wish: Wish {
            detail: Detail::Texts,
            ..ALL
        },
        cases: &[(
            &[8],
            AS_MET,
            &[],
            "=none 8=none 6=none 7=none 5=none 4=none 3=none 2=none 1=none =none",
        )],
        ..BY_FULL_ROWS
    },
    Table {
        rows: ODD,
        wish: Wish {
            detail: Detail::Texts,
            ..ALL
        },
        cases: &[(
            &[8],
            AS_MET,
            &[],
            "=none 8=8 6=6 7=7 5=none 4=4 3=none 2=2 1=none =none",
        )],
        ..BY_FULL_ROWS
    },
    // A long id has no short row.
    Table {
        history: History {
            long: &[(2, &[])],
            ..EMPTY
        },
        wish: Wish {
            long: &[2],
            ..GENERATIONS
        },
        cases: &[(&[], AS_MET, &[], "2L")],
        ..BY_FULL_ROWS
    },
    // All that rows have.
    Table {
        wish: Wish {
            parents: Parents::First,
            detail: Detail::All,
            ..ALL
        },
        cases: &[(&[8], AS_MET, &[], "8:5(6,) 6:4(5,) 5:3(3,) 3:2(1,) 1:1()")],
        ..BY_FULL_ROWS
    },
    Table {
        wish: Wish {
            detail: Detail::All,
            ..ALL
        },
        cases: &[(&[6], BY_TIME, &[], "6:4@6(5,) 5:3@5(3,) 3:2@3(1,) 1:1@1()")],
        ..BY_FULL_ROWS
    },
];

/// Each place of the sample.
pub const PLACES: [(u8, u8); 8] = [
    (8, 6),
    (8, 7),
    (7, 4),
    (6, 5),
    (5, 3),
    (4, 2),
    (3, 1),
    (2, 1),
];

/// Rows that don't agree with the store.
pub const WRONG: [Rows<'static>; 4] = [
    Rows {
        generations: &[0; 8],
        ..FULL
    },
    Rows {
        generations: &[0xFFFF_FFFF; 8],
        ..FULL
    },
    Rows {
        commits: &[
            (8, &[6, 7]),
            (7, &[4]),
            (6, &[5]),
            (5, &[3]),
            (4, &[2]),
            (3, &[1]),
            (2, &[1]),
            (1, &[8]),
        ],
        ..FULL
    },
    Rows {
        commits: &[
            (8, &[6, 7]),
            (7, &[4]),
            (6, &[]),
            (5, &[3]),
            (4, &[2]),
            (3, &[1]),
            (2, &[1]),
            (1, &[]),
        ],
        ..FULL
    },
];
