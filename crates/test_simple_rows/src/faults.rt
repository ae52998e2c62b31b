//! Breadth-first walks that meet faults.
use crate::{ALL, AS_MET, OF_SAMPLE, Table, Wish};
use test_rows::history::{EMPTY, History, Odd, PLAIN};

/// The tables. A caller's proof sees nothing of what is in them.
pub fn tables() -> &'static [Table<'static>] {
    &TABLES
}

static TABLES: [Table<'static>; 7] = [
    Table {
        history: EMPTY,
        cases: &[(&[8], AS_MET, &[], "missing-8")],
        ..OF_SAMPLE
    },
    Table {
        history: History {
            odd: Odd::BrokenParent,
            ..PLAIN
        },
        cases: &[(&[9], AS_MET, &[], "broken-Parent 6 5 3 1")],
        ..OF_SAMPLE
    },
    Table {
        history: History {
            commits: &[(8, &[6, 7]), (7, &[4]), (4, &[])],
            ..EMPTY
        },
        cases: &[(&[8], AS_MET, &[], "8 missing-6 7 4")],
        ..OF_SAMPLE
    },
    Table {
        history: History {
            odd: Odd::Tag(6),
            ..PLAIN
        },
        cases: &[(&[8], AS_MET, &[], "8 Tag-6-for-Commit 7 4 2 1")],
        ..OF_SAMPLE
    },
    Table {
        fails: Some(6),
        cases: &[(&[8], AS_MET, &[], "8 store 7 4 2 1")],
        ..OF_SAMPLE
    },
    Table {
        fails: Some(7),
        cases: &[(&[8], AS_MET, &[], "8 6 store 5 3 1")],
        ..OF_SAMPLE
    },
    // A long commit whose parent has a short name.
    Table {
        history: History {
            odd: Odd::ShortParent,
            ..EMPTY
        },
        wish: Wish { long: &[3], ..ALL },
        cases: &[(&[], AS_MET, &[], "broken-Parent")],
        ..OF_SAMPLE
    },
];
