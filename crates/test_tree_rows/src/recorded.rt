//! What a recorder holds behind a walk of trees.
use crate::Order::{Depth, Levels};
use crate::Teller::Paths;
use crate::{D, OF_SAMPLE, PATHS, ROOT, Table};
use gix_parts::object::Kind;
use gix_traverse::tree::recorder::Location;

/// The tables. A caller's proof sees nothing of what is in them.
pub fn tables() -> &'static [Table<'static>] {
    &TABLES
}

static TABLES: [Table<'static>; 7] = [
    Table {
        cases: &[
            (Depth, PATHS, " a d d/x e done"),
            (Levels, PATHS, " a d e d/x done"),
            (Depth, Paths(Some(Location::FileName)), " a d x e done"),
            (Depth, Paths(None), "     done"),
        ],
        ..OF_SAMPLE
    },
    // One tree under two names.
    Table {
        trees: &[(10, &[("40000 d", 13), ("40000 e", 13)]), (13, &D)],
        cases: &[
            (Depth, PATHS, " d d/x e e/x done"),
            (Levels, PATHS, " d e d/x e/x done"),
        ],
        ..OF_SAMPLE
    },
    // A name with a slash: the next path is cut at it.
    Table {
        trees: &[(10, &[("100644 a/b", 1), ("100644 c", 2)])],
        cases: &[(Depth, PATHS, " a/b a/c done")],
        ..OF_SAMPLE
    },
    // Trees in themselves.
    Table {
        trees: &[(10, &[("40000 d", 10)])],
        cases: &[
            (Depth, PATHS, " d cycle-10"),
            (Levels, PATHS, " d d/d cycle-10"),
        ],
        ..OF_SAMPLE
    },
    Table {
        trees: &[(10, &[("40000 d", 11)]), (11, &[("40000 e", 10)])],
        cases: &[
            (Depth, PATHS, " d d/e cycle-10"),
            (Levels, PATHS, " d d/e d/e/d cycle-11"),
        ],
        ..OF_SAMPLE
    },
    // The store fails at the tree `d`.
    Table {
        fails: Some(13),
        cases: &[
            (Depth, PATHS, " a d store"),
            (Levels, PATHS, " a d e store"),
        ],
        ..OF_SAMPLE
    },
    // The root is cut inside the id of its last entry.
    Table {
        trees: &[(10, &ROOT), (13, &D)],
        root: (Kind::Tree, Some(85)),
        cases: &[
            (Depth, PATHS, " a d d/x broken-EntryId"),
            (Levels, PATHS, " a d broken-EntryId"),
        ],
        ..OF_SAMPLE
    },
];
