//! Walks by commit time, cutoffs, first parents, and the text of the commit last given.
use crate::{
    ALL, AS_MET, Asked, BREADTH, BY_TIME, Detail, NEWEST, OF_SAMPLE, OLDEST, SINCE_4, Table, Wish,
};
use gix_traverse::commit::Parents;
use gix_traverse::commit::simple::{CommitTimeOrder, Sorting};
use test_rows::history::{EMPTY, History, Odd, PLAIN};

const OLDEST_SINCE_4: Sorting = Sorting::ByCommitTimeCutoff {
    order: CommitTimeOrder::OldestFirst,
    seconds: 4,
};

/// First parents, chosen between the orders.
const FIRST: Wish<'static> = Wish {
    parents: Parents::First,
    ..ALL
};

/// All that is written of a commit.
const WHOLE: Wish<'static> = Wish {
    detail: Detail::All,
    ..ALL
};

/// The tables. A caller's proof sees nothing of what is in them.
pub fn tables() -> &'static [Table<'static>] {
    &TABLES
}

static TABLES: [Table<'static>; 17] = [
    Table {
        cases: &[
            (&[8], [BREADTH, OLDEST], &[], "8 6 5 3 1 7 4 2"),
            (&[8], [BREADTH, NEWEST], &[], "8 7 6 5 4 3 2 1"),
            (&[8], [OLDEST, NEWEST], &[], "8 7 6 5 4 3 2 1"),
            (&[8], [NEWEST, OLDEST], &[], "8 6 5 3 1 7 4 2"),
            (&[8], [NEWEST, BREADTH], &[], "8 6 7 5 4 3 2 1"),
            (&[8], [BREADTH, SINCE_4], &[], "8 7 6 5 4"),
            (&[8], [SINCE_4, NEWEST], &[], "8 7 6 5 4 3 2 1"),
            (&[8], [BREADTH, OLDEST_SINCE_4], &[], "8 6 5 7 4"),
            (&[3], [BREADTH, SINCE_4], &[], ""),
            (&[3], [SINCE_4, BREADTH], &[], ""),
            (&[3, 4], [BREADTH, SINCE_4], &[], "4"),
        ],
        ..OF_SAMPLE
    },
    Table {
        wish: FIRST,
        cases: &[
            (&[8], [BREADTH, BREADTH], &[], "8 6 5 3 1"),
            (&[8], [BREADTH, NEWEST], &[], "8 6 5 3 1"),
            (&[8], [NEWEST, BREADTH], &[], "8 6 5 3 1"),
            (&[8], [OLDEST, NEWEST], &[], "8 6 5 3 1"),
            (&[8, 3], [BREADTH, SINCE_4], &[], "8 6 5 3 1"),
        ],
        ..OF_SAMPLE
    },
    // First parents are given alone and without their times, whether they are chosen before the order or behind it.
    Table {
        wish: Wish {
            parents: Parents::First,
            ..WHOLE
        },
        cases: &[(&[8], BY_TIME, &[], "8(6,) 6(5,) 5(3,) 3(1,) 1()")],
        ..OF_SAMPLE
    },
    Table {
        wish: Wish {
            last_parents: Some(Parents::First),
            ..WHOLE
        },
        cases: &[(&[8], BY_TIME, &[], "8(6,) 6(5,) 5(3,) 3(1,) 1()")],
        ..OF_SAMPLE
    },
    // The last choice counts.
    Table {
        wish: Wish {
            parents: Parents::First,
            last_parents: Some(Parents::All),
            ..ALL
        },
        cases: &[(&[8], BY_TIME, &[], "8 7 6 5 4 3 2 1")],
        ..OF_SAMPLE
    },
    Table {
        history: History { scale: -1, ..PLAIN },
        wish: WHOLE,
        cases: &[(
            &[8],
            BY_TIME,
            &[],
            "8@-8(6,7,) 6@-6(5,) 5@-5(3,) 3@-3(1,) 1@-1() 7@-7(4,) 4@-4(2,) 2@-2(1,)",
        )],
        ..OF_SAMPLE
    },
    // Of one time what was met first comes first.
    Table {
        history: History { scale: 0, ..PLAIN },
        cases: &[
            (&[8], [BREADTH, NEWEST], &[], "8 6 7 5 4 3 2 1"),
            (&[6, 7], [BREADTH, NEWEST], &[], "6 7 5 4 3 2 1"),
            (&[7, 6], [BREADTH, NEWEST], &[], "7 6 4 5 2 3 1"),
            (&[7, 6], [BREADTH, OLDEST], &[], "7 6 4 5 2 3 1"),
        ],
        ..OF_SAMPLE
    },
    // A tip that a cutoff took out isn't asked about again.
    Table {
        wish: Wish {
            asked: Asked::Refusing(0),
            ..ALL
        },
        cases: &[(
            &[8, 3],
            [SINCE_4, BREADTH],
            &[],
            "8 6 7 5 4 3 2 1, asked 8 3 6 7 5 4 2 1",
        )],
        ..OF_SAMPLE
    },
    // A tip without a time.
    Table {
        history: History {
            odd: Odd::WithoutCommitter,
            ..PLAIN
        },
        fails: Some(6),
        cases: &[
            (&[8, 10], BY_TIME, &[], "unsorted missing-10"),
            (&[8, 9], BY_TIME, &[], "unsorted broken-Missing"),
            (&[8, 6], BY_TIME, &[], "unsorted store"),
            (&[8], BY_TIME, &[], "store"),
        ],
        ..OF_SAMPLE
    },
    Table {
        fails: Some(7),
        cases: &[(&[8], BY_TIME, &[], "store 6 5 3 1")],
        ..OF_SAMPLE
    },
    // A parent that is no commit, or that has no committer, has time 0.
    Table {
        history: History {
            odd: Odd::Tag(6),
            ..PLAIN
        },
        cases: &[
            (&[8], BY_TIME, &[], "8 7 4 2 1 Tag-6-for-Commit"),
            (&[8], [BREADTH, OLDEST], &[], "8 Tag-6-for-Commit 7 4 2 1"),
            (&[8, 6], BY_TIME, &[], "unsorted Tag-6-for-Commit"),
        ],
        ..OF_SAMPLE
    },
    Table {
        history: History {
            more: &[(10, 10, &[9, 4])],
            odd: Odd::WithoutCommitter,
            ..PLAIN
        },
        cases: &[
            (&[10], BY_TIME, &[], "10 4 2 1 9"),
            (&[10], [BREADTH, OLDEST], &[], "10 9 4 2 1"),
        ],
        ..OF_SAMPLE
    },
    // A parent that isn't stored is given where it has its turn, and isn't given where there is a cutoff.
    Table {
        history: History {
            commits: &[(8, &[6])],
            ..EMPTY
        },
        cases: &[
            (&[8], BY_TIME, &[], "8 missing-6"),
            (&[8], [BREADTH, SINCE_4], &[], "8"),
        ],
        ..OF_SAMPLE
    },
    Table {
        history: History {
            odd: Odd::BrokenParent,
            ..PLAIN
        },
        wish: FIRST,
        cases: &[(&[9], AS_MET, &[], "9 6 5 3 1")],
        ..OF_SAMPLE
    },
    // The text last given.
    Table {
        wish: Wish {
            detail: Detail::Texts,
            ..ALL
        },
        cases: &[(
            &[8],
            AS_MET,
            &[],
            "=none 8=8 6=6 7=7 5=5 4=4 3=3 2=2 1=1 =1",
        )],
        ..OF_SAMPLE
    },
    // There is none behind a fault.
    Table {
        history: History {
            commits: &[(8, &[6])],
            ..EMPTY
        },
        wish: Wish {
            detail: Detail::Texts,
            ..ALL
        },
        cases: &[(&[8], AS_MET, &[], "=none 8=8 missing-6=none =none")],
        ..OF_SAMPLE
    },
    // Times don't matter to what is hidden.
    Table {
        history: History { scale: 0, ..PLAIN },
        cases: &[(&[8], AS_MET, &[7], "8 6 5 3")],
        ..OF_SAMPLE
    },
];
