//! The calls of the walks of trees on a delegate.
use crate::Order::{Depth, Levels};
use crate::Teller::Calls;
use crate::{OF_SAMPLE, ROOT, Table};
use gix_parts::object::Kind;
use gix_traverse::tree::visit::Action;
use std::ops::ControlFlow;

/// What the delegate answers at one entry.
const INTO: Action = ControlFlow::Continue(true);

const PAST: Action = ControlFlow::Continue(false);

const BREAK: Action = ControlFlow::Break(());

const LEVELS: &str = "
push_path(a) nontree(a) pop_path
push_path(d) tree(d) pop_path push_back(d) pop_path
push_path(e) nontree(e) pop_path
pop_front
push_path(x) nontree(x) pop_path
done";

const LEVELS_WITHOUT_D: &str = "
push_path(a) nontree(a) pop_path
push_path(d) tree(d) pop_path
push_path(e) nontree(e) pop_path
done";

const LEVELS_UP_TO_D: &str = "
push_path(a) nontree(a) pop_path
push_path(d) tree(d)
cancelled";

const LEVELS_UP_TO_A: &str = "
push_path(a) nontree(a)
cancelled";

const DEPTH: &str = "
pop_back
push_path(a) nontree(a) pop_path
push_path(d) tree(d) pop_path push_back() push_back(d)
pop_back
push_path(x) nontree(x) pop_path
pop_back
push_path(e) nontree(e) pop_path
done";

const DEPTH_WITHOUT_D: &str = "
pop_back
push_path(a) nontree(a) pop_path
push_path(d) tree(d) pop_path
push_path(e) nontree(e) pop_path
done";

/// A walk in depth that a delegate breaks off has ended well.
const DEPTH_UP_TO_D: &str = "
pop_back
push_path(a) nontree(a) pop_path
push_path(d) tree(d) pop_path
done";

const DEPTH_UP_TO_A: &str = "
pop_back
push_path(a) nontree(a)
done";

const LEVELS_MISSING_D: &str = "
push_path(a) nontree(a) pop_path
push_path(d) tree(d) pop_path push_back(d) pop_path
push_path(e) nontree(e) pop_path
pop_front
missing-13";

const DEPTH_MISSING_D: &str = "
pop_back
push_path(a) nontree(a) pop_path
push_path(d) tree(d) pop_path push_back() push_back(d)
missing-13";

const LEVELS_OF_BLOB: &str = "
push_path(a) nontree(a) pop_path
push_path(d) tree(d) pop_path push_back(d) pop_path
push_path(e) nontree(e) pop_path
pop_front
Blob-13-for-Tree";

const DEPTH_OF_BLOB: &str = "
pop_back
push_path(a) nontree(a) pop_path
push_path(d) tree(d) pop_path push_back() push_back(d)
Blob-13-for-Tree";

const LEVELS_OF_CYCLE: &str = "
push_path(d) tree(d) pop_path push_back(d) pop_path
pop_front
push_path(d) tree(d)
cycle-10";

const DEPTH_OF_CYCLE: &str = "
pop_back
push_path(d) tree(d) pop_path
cycle-10";

const DEPTH_BEFORE_CYCLE: &str = "
pop_back
push_path(d) tree(d) pop_path
done";

/// The tables. A caller's proof sees nothing of what is in them.
pub fn tables() -> &'static [Table<'static>] {
    &TABLES
}

static TABLES: [Table<'static>; 5] = [
    Table {
        cases: &[
            (Levels, Calls("", INTO), LEVELS),
            (Levels, Calls("d", PAST), LEVELS_WITHOUT_D),
            (Levels, Calls("a", PAST), LEVELS),
            (Levels, Calls("d", BREAK), LEVELS_UP_TO_D),
            (Levels, Calls("a", BREAK), LEVELS_UP_TO_A),
            (Depth, Calls("", INTO), DEPTH),
            (Depth, Calls("d", PAST), DEPTH_WITHOUT_D),
            (Depth, Calls("a", PAST), DEPTH),
            (Depth, Calls("d", BREAK), DEPTH_UP_TO_D),
            (Depth, Calls("a", BREAK), DEPTH_UP_TO_A),
        ],
        ..OF_SAMPLE
    },
    // The tree `d` is missing.
    Table {
        trees: &[(10, &ROOT)],
        cases: &[
            (Levels, Calls("", INTO), LEVELS_MISSING_D),
            (Depth, Calls("", INTO), DEPTH_MISSING_D),
        ],
        ..OF_SAMPLE
    },
    // The tree `d` is a blob.
    Table {
        blob: Some(13),
        cases: &[
            (Levels, Calls("", INTO), LEVELS_OF_BLOB),
            (Depth, Calls("", INTO), DEPTH_OF_BLOB),
            (Levels, Calls("d", PAST), LEVELS_WITHOUT_D),
            (Depth, Calls("d", PAST), DEPTH_WITHOUT_D),
        ],
        ..OF_SAMPLE
    },
    // The root is no tree.
    Table {
        root: (Kind::Blob, None),
        cases: &[(Depth, Calls("", INTO), "\nBlob-10-for-Tree")],
        ..OF_SAMPLE
    },
    // The root is a tree in itself. A break goes before the cycle.
    Table {
        trees: &[(10, &[("40000 d", 10)])],
        cases: &[
            (Levels, Calls("", INTO), LEVELS_OF_CYCLE),
            (Depth, Calls("", INTO), DEPTH_OF_CYCLE),
            (Depth, Calls("d", BREAK), DEPTH_BEFORE_CYCLE),
            (Depth, Calls("d", PAST), DEPTH_BEFORE_CYCLE),
        ],
        ..OF_SAMPLE
    },
];
