//! Breadth-first walks over sound histories.
use crate::{ALL, AS_MET, Asked, Detail, OF_SAMPLE, Table, Wish};
use test_rows::history::{BY_ALL, EMPTY, History, PLAIN};

/// The tables. A caller's proof sees nothing of what is in them.
pub fn tables() -> &'static [Table<'static>] {
    &TABLES
}

static TABLES: [Table<'static>; 7] = [
    Table {
        cases: &[
            (&[], AS_MET, &[], ""),
            (&[4, 6, 4, 5], AS_MET, &[], "4 6 5 2 3 1"),
        ],
        ..OF_SAMPLE
    },
    // Each commit is asked about once.
    Table {
        by: BY_ALL,
        wish: Wish {
            asked: Asked::Refusing(0),
            ..ALL
        },
        cases: &[(
            &[8, 8],
            AS_MET,
            &[],
            "8 6 7 5 4 3 2 1, asked 8 6 7 5 4 3 2 1",
        )],
        ..OF_SAMPLE
    },
    // A refused commit bars the way.
    Table {
        by: BY_ALL,
        wish: Wish {
            asked: Asked::Refusing(7),
            ..ALL
        },
        cases: &[
            (&[8], AS_MET, &[], "8 6 5 3 1, asked 8 6 7 5 3 1"),
            (&[7], AS_MET, &[], ", asked 7"),
        ],
        ..OF_SAMPLE
    },
    // Parents may repeat, and all is as in a clone.
    Table {
        history: History {
            more: &[(9, 9, &[6, 7, 6])],
            ..PLAIN
        },
        wish: Wish {
            detail: Detail::All,
            ..ALL
        },
        cases: &[
            (
                &[9],
                AS_MET,
                &[],
                "9(6,7,6,) 6(5,) 7(4,) 5(3,) 4(2,) 3(1,) 2(1,) 1()",
            ),
            (
                &[8],
                AS_MET,
                &[],
                "8(6,7,) 6(5,) 7(4,) 5(3,) 4(2,) 3(1,) 2(1,) 1()",
            ),
        ],
        ..OF_SAMPLE
    },
    // Commits may reach themselves.
    Table {
        history: History {
            commits: &[(10, &[11]), (11, &[10])],
            ..EMPTY
        },
        cases: &[(&[10], AS_MET, &[], "10 11"), (&[10], AS_MET, &[11], "")],
        ..OF_SAMPLE
    },
    // Ids of both kinds.
    Table {
        history: History {
            long: &[(3, &[2]), (2, &[])],
            ..PLAIN
        },
        wish: Wish { long: &[3], ..ALL },
        cases: &[(&[3], AS_MET, &[], "3 3L 1 2L")],
        ..OF_SAMPLE
    },
    // Tips of both kinds, each above a root of its kind.
    Table {
        history: History {
            commits: &[(2, &[1]), (1, &[])],
            long: &[(2, &[1]), (1, &[])],
            ..EMPTY
        },
        wish: Wish { long: &[2], ..ALL },
        cases: &[(&[2], AS_MET, &[], "2 2L 1 1L")],
        ..OF_SAMPLE
    },
];
