//! How often walks look each id up, as docs/SPEED.md says. Behind what a walk tells there is `;`, and then each id that was looked up,
//! with the number of its look-ups behind `:`.
use crate::tests::check;
use gix_parts::graph::Graph;
use gix_parts::object::find::Find;
use gix_traverse::commit::simple::Sorting;
use gix_traverse::commit::topo::Builder;
use gix_traverse::commit::{Parents, Simple, Unfiltered};
use gix_traverse::tree::visit::Action;
use std::alloc::Global;
use std::ops::ControlFlow;
use std::test::Fail;
use test_rows::counted::Counted;
use test_rows::history::{BY_ROWS, BY_STORE, By, FULL, PLAIN, ROOM, Rows, id, ids};
use test_rows::table;
use test_rows::words::Stop;
use test_simple_rows::{ALL, AS_MET, BREADTH, BY_TIME, NEWEST, OLDEST, SINCE_4, Wish};
use test_topo_rows::{DATES, FIRST};
use test_tree_rows::{D, Order, Scripted, Tree, walk, write_end};

/// Rows of some commits of the sample.
const SOME: Rows<'static> = Rows {
    commits: &[(5, &[3]), (3, &[1]), (1, &[])],
    generations: &[3, 2, 1],
    fault: None,
};

/// The rows of the sample, with a fault in that of 8.
const FAULT_AT_8: Rows<'static> = Rows {
    fault: Some((8, 7)),
    ..FULL
};

// What a delegate answers at one entry.
const INTO: Action = ControlFlow::Continue(true);

const PAST: Action = ControlFlow::Continue(false);

const BREAK: Action = ControlFlow::Break(());

/// Walks by parent links.
struct SimpleLookUps(test_simple_rows::Table<'static>);

impl table::Table for SimpleLookUps {
    type Case = test_simple_rows::Case<'static>;

    fn rows(&self) -> (&[test_simple_rows::Case<'static>], &[By]) {
        (self.0.cases, self.0.by)
    }

    fn want<'c>(case: &'c test_simple_rows::Case<'static>) -> &'c str {
        case.3
    }

    fn tell(
        &self,
        alloc: Global,
        by: By,
        case: &test_simple_rows::Case<'static>,
        told: &mut String,
    ) -> Result<(), Stop> {
        told.reserve(ROOM)?;
        let (tips, sortings, hidden, _) = *case;
        let wish = Wish {
            tips,
            sortings,
            hidden: [&[], hidden],
            ..self.0.wish
        };
        let store = self.0.history.store(alloc)?;
        let counted = Counted::new(&store);
        let graph = by.graph(alloc, &self.0.rows)?;
        wish.tell(alloc, &counted, graph, self.0.history.commits, told)?;
        Ok(counted.write(told)?)
    }
}

/// Topological walks.
struct TopoLookUps(test_topo_rows::Table<'static>);

impl table::Table for TopoLookUps {
    type Case = test_topo_rows::Case<'static>;

    fn rows(&self) -> (&[test_topo_rows::Case<'static>], &[By]) {
        (self.0.cases, self.0.by)
    }

    fn want<'c>(case: &'c test_topo_rows::Case<'static>) -> &'c str {
        case.2
    }

    fn tell(
        &self,
        alloc: Global,
        by: By,
        case: &test_topo_rows::Case<'static>,
        told: &mut String,
    ) -> Result<(), Stop> {
        told.reserve(ROOM)?;
        let (tips, ends, _) = *case;
        let store = self.0.history.store(alloc)?;
        let counted = Counted::new(&store);
        let graph = by.graph(alloc, &self.0.rows)?;
        self.0.way.tell(alloc, &counted, graph, tips, ends, told)?;
        Ok(counted.write(told)?)
    }
}

/// Trees to walk, and the walks: the order, what a delegate answers at the entry of one name, and what is told.
struct TreeLookUps(&'static [Tree<'static>], &'static [TreeCase]);

type TreeCase = (Order, &'static str, Action, &'static str);

impl table::Table for TreeLookUps {
    type Case = TreeCase;

    fn rows(&self) -> (&[TreeCase], &[By]) {
        (self.1, BY_STORE)
    }

    fn want<'c>(case: &'c TreeCase) -> &'c str {
        case.3
    }

    fn tell(&self, alloc: Global, _by: By, case: &TreeCase, told: &mut String) -> Result<(), Stop> {
        let (order, at, answer, _) = *case;
        let store = test_tree_rows::store(alloc, self.0)?;
        let counted = Counted::new(&store);
        let mut delegate = Scripted::new(alloc, at, answer)?;
        let end = walk(alloc, order, &counted, id(10), &mut delegate);
        write_end(told, end)?;
        Ok(counted.write(told)?)
    }
}

/// Walks from 8 by parent links that were only begun: the order, the tips that are hidden, how many answers were drawn, and the
/// look-ups up to there.
struct BegunLookUps(&'static [BegunCase]);

type BegunCase = (Sorting, &'static [u8], usize, &'static str);

/// Draws this many answers.
fn draw<F: Find + Drop>(walk: &mut Simple<F, Unfiltered>, answers: usize) {
    for _ in 0..answers {
        let _ = walk.next();
    }
}

fn begin<F: Find + Drop>(
    alloc: Global,
    find: F,
    sorting: Sorting,
    hidden: &[u8],
    answers: usize,
) -> Result<(), Stop> {
    let hidden = ids(alloc, hidden)?;
    let mut walk = Simple::new(alloc, [id(8)], find)?
        .sorting(sorting)?
        .hide(hidden)?;
    draw(&mut walk, answers);
    Ok(())
}

impl table::Table for BegunLookUps {
    type Case = BegunCase;

    fn rows(&self) -> (&[BegunCase], &[By]) {
        (self.0, BY_STORE)
    }

    fn want<'c>(case: &'c BegunCase) -> &'c str {
        case.3
    }

    fn tell(
        &self,
        alloc: Global,
        _by: By,
        case: &BegunCase,
        told: &mut String,
    ) -> Result<(), Stop> {
        let (sorting, hidden, answers, _) = *case;
        let store = PLAIN.store(alloc)?;
        let counted = Counted::new(&store);
        begin(alloc, &counted, sorting, hidden, answers)?;
        Ok(counted.write(told)?)
    }
}

/// Topological walks from 8 that were only begun: how many answers were drawn, and the look-ups up to there.
struct BegunTopoLookUps(&'static [(usize, &'static str)], &'static [By]);

fn begin_topo<F: Find + Drop>(
    alloc: Global,
    find: F,
    graph: Option<Graph>,
    answers: usize,
) -> Result<(), Stop> {
    let mut walk = Builder::new(alloc, find)
        .with_commit_graph(graph)
        .with_tips([id(8)])?
        .build()?;
    for _ in 0..answers {
        let _ = walk.next();
    }
    Ok(())
}

impl table::Table for BegunTopoLookUps {
    type Case = (usize, &'static str);

    fn rows(&self) -> (&[(usize, &'static str)], &[By]) {
        (self.0, self.1)
    }

    fn want<'c>(case: &'c (usize, &'static str)) -> &'c str {
        case.1
    }

    fn tell(
        &self,
        alloc: Global,
        by: By,
        case: &(usize, &'static str),
        told: &mut String,
    ) -> Result<(), Stop> {
        let store = PLAIN.store(alloc)?;
        let counted = Counted::new(&store);
        begin_topo(alloc, &counted, by.graph(alloc, &FULL)?, case.0)?;
        Ok(counted.write(told)?)
    }
}

#[test]
fn rows(rt: HostRuntime) -> Result<(), Fail> {
    check(rt.alloc(), "look-ups of simple walks", simples())?;
    check(rt.alloc(), "look-ups of simple walks begun", begun())?;
    check(rt.alloc(), "look-ups of topological walks", topos())?;
    check(
        rt.alloc(),
        "look-ups of topological walks begun",
        begun_topos(),
    )?;
    check(rt.alloc(), "look-ups of walks of trees", trees())
}

// A caller's proof sees nothing of what is in the tables.
fn simples() -> &'static [SimpleLookUps] {
    &SIMPLES
}

static SIMPLES: [SimpleLookUps; 5] = [
    SimpleLookUps(test_simple_rows::Table {
        cases: &[
            // One for each commit.
            (
                &[8],
                AS_MET,
                &[],
                "8 6 7 5 4 3 2 1; 8:1 7:1 6:1 5:1 4:1 3:1 2:1 1:1",
            ),
            (&[7, 7], AS_MET, &[], "7 4 2 1; 7:1 4:1 2:1 1:1"),
            // By time one more.
            (
                &[8],
                BY_TIME,
                &[],
                "8 7 6 5 4 3 2 1; 8:2 7:2 6:2 5:2 4:2 3:2 2:2 1:2",
            ),
            (
                &[8],
                [BREADTH, OLDEST],
                &[],
                "8 6 5 3 1 7 4 2; 8:2 7:2 6:2 5:2 4:2 3:2 2:2 1:2",
            ),
            // Each choice of an order by time looks up the tips.
            (
                &[8],
                [NEWEST, BREADTH],
                &[],
                "8 6 7 5 4 3 2 1; 8:2 7:1 6:1 5:1 4:1 3:1 2:1 1:1",
            ),
            (&[7], [NEWEST, OLDEST], &[], "7 4 2 1; 7:3 4:2 2:2 1:2"),
            // What is older than a cutoff is met, and never taken.
            (
                &[8],
                [BREADTH, SINCE_4],
                &[],
                "8 7 6 5 4; 8:2 7:2 6:2 5:2 4:2 3:1 2:1",
            ),
            (&[6, 1], [BREADTH, SINCE_4], &[], "6 5; 6:2 5:2 3:1 1:1"),
            // Such a tip is met again.
            (&[5, 3], [BREADTH, SINCE_4], &[], "5; 5:2 3:2"),
            // Painting looks all up once.
            (
                &[8],
                AS_MET,
                &[5],
                "8 6 7 4 2; 8:2 7:2 6:2 5:1 4:2 3:1 2:2 1:1",
            ),
            (
                &[8],
                AS_MET,
                &[7],
                "8 6 5 3; 8:2 7:1 6:2 5:2 4:1 3:2 2:1 1:1",
            ),
            (
                &[8],
                BY_TIME,
                &[7],
                "8 6 5 3; 8:3 7:1 6:3 5:3 4:1 3:3 2:1 1:1",
            ),
            (&[8], AS_MET, &[8], "; 8:2 7:1 6:1 5:1 4:1 3:1 2:1 1:1"),
            // Without tips nothing is painted.
            (&[], AS_MET, &[8], ";"),
        ],
        ..test_simple_rows::OF_SAMPLE
    }),
    // First parents come breadth first. An order by time still looks up the tips.
    SimpleLookUps(test_simple_rows::Table {
        wish: Wish {
            parents: Parents::First,
            ..ALL
        },
        cases: &[
            (&[8], AS_MET, &[], "8 6 5 3 1; 8:1 6:1 5:1 3:1 1:1"),
            (&[8], BY_TIME, &[], "8 6 5 3 1; 8:2 6:1 5:1 3:1 1:1"),
        ],
        ..test_simple_rows::OF_SAMPLE
    }),
    // By rows nothing is looked up but the tips for their times.
    SimpleLookUps(test_simple_rows::Table {
        by: BY_ROWS,
        cases: &[
            (&[8], AS_MET, &[], "8 6 7 5 4 3 2 1;"),
            (&[8], BY_TIME, &[], "8 7 6 5 4 3 2 1; 8:1"),
            (&[7, 6], [BREADTH, OLDEST], &[], "6 5 3 1 7 4 2; 7:1 6:1"),
            (&[8], [BREADTH, SINCE_4], &[], "8 7 6 5 4; 8:1"),
            (&[8], AS_MET, &[5], "8 6 7 4 2;"),
            (&[8], AS_MET, &[8], ";"),
            (&[8], BY_TIME, &[7], "8 6 5 3; 8:1"),
        ],
        ..test_simple_rows::OF_SAMPLE
    }),
    // By time also 5, a parent of a commit without a row.
    SimpleLookUps(test_simple_rows::Table {
        rows: SOME,
        by: BY_ROWS,
        cases: &[
            (&[8], AS_MET, &[], "8 6 7 5 4 3 2 1; 8:1 7:1 6:1 4:1 2:1"),
            (
                &[8],
                BY_TIME,
                &[],
                "8 7 6 5 4 3 2 1; 8:2 7:2 6:2 5:1 4:2 2:2",
            ),
            (&[8], AS_MET, &[7], "8 6 5 3; 8:2 7:1 6:2 4:1 2:1"),
        ],
        ..test_simple_rows::OF_SAMPLE
    }),
    // The rows are dropped at 8.
    SimpleLookUps(test_simple_rows::Table {
        rows: FAULT_AT_8,
        by: BY_ROWS,
        cases: &[(
            &[8],
            AS_MET,
            &[],
            "8 6 7 5 4 3 2 1; 8:1 7:1 6:1 5:1 4:1 3:1 2:1 1:1",
        )],
        ..test_simple_rows::OF_SAMPLE
    }),
];

fn begun() -> &'static [BegunLookUps] {
    &BEGUN
}

static BEGUN: [BegunLookUps; 1] = [BegunLookUps(&[
    // A commit is looked up when it is taken.
    (BREADTH, &[], 0, ";"),
    (BREADTH, &[], 1, "; 8:1"),
    (BREADTH, &[], 2, "; 8:1 6:1"),
    (BREADTH, &[], 3, "; 8:1 7:1 6:1"),
    // By time also when the order is chosen, or when it is met.
    (NEWEST, &[], 0, "; 8:1"),
    (NEWEST, &[], 1, "; 8:2 7:1 6:1"),
    (NEWEST, &[], 2, "; 8:2 7:2 6:1 4:1"),
    // The first step paints.
    (BREADTH, &[7], 0, ";"),
    (BREADTH, &[7], 1, "; 8:2 7:1 6:1 5:1 4:1 3:1 2:1 1:1"),
    (BREADTH, &[7], 2, "; 8:2 7:1 6:2 5:1 4:1 3:1 2:1 1:1"),
    (NEWEST, &[7], 0, "; 8:1"),
])];

fn topos() -> &'static [TopoLookUps] {
    &TOPOS
}

static TOPOS: [TopoLookUps; 8] = [
    TopoLookUps(test_topo_rows::Table {
        cases: &[
            // One when a commit is counted. Its header is kept until it becomes ready,
            (
                &[8],
                &[],
                "8 7 4 2 6 5 3 1; 8:1 7:1 6:1 5:1 4:1 3:1 2:1 1:1",
            ),
            // or the other side counts it.
            (&[6], &[7], "6 5 3; 7:1 6:1 5:1 4:1 3:1 2:1 1:1"),
            (&[8], &[5], "8 7 4 2 6; 8:1 7:1 6:1 5:1 4:1 3:1 2:1 1:1"),
            (&[7], &[8], "; 8:1 7:1 6:1 5:1 4:1 3:1 2:1 1:1"),
            (&[], &[5], "; 5:1 3:1 1:1"),
        ],
        ..test_topo_rows::OF_SAMPLE
    }),
    TopoLookUps(test_topo_rows::Table {
        way: DATES,
        cases: &[
            (
                &[8],
                &[],
                "8 7 6 5 4 3 2 1; 8:1 7:1 6:1 5:1 4:1 3:1 2:1 1:1",
            ),
            (&[6], &[7], "6 5 3; 7:1 6:1 5:1 4:1 3:1 2:1 1:1"),
        ],
        ..test_topo_rows::OF_SAMPLE
    }),
    // One for 7, which isn't walked, unless a search has read it.
    TopoLookUps(test_topo_rows::Table {
        way: FIRST,
        cases: &[
            (&[8], &[], "8 6 5 3 1; 8:1 7:1 6:1 5:1 3:1 1:1"),
            (&[8], &[7], "8 6 5 3; 8:1 7:1 6:1 5:1 4:1 3:1 2:1 1:1"),
        ],
        ..test_topo_rows::OF_SAMPLE
    }),
    // By rows nothing is looked up.
    TopoLookUps(test_topo_rows::Table {
        by: BY_ROWS,
        cases: &[
            (&[8], &[], "8:5 7:4 4:3 2:2 6:4 5:3 3:2 1:1;"),
            (&[8], &[5], "8:5 7:4 4:3 2:2 6:4;"),
        ],
        ..test_topo_rows::OF_SAMPLE
    }),
    TopoLookUps(test_topo_rows::Table {
        by: BY_ROWS,
        way: FIRST,
        cases: &[
            (&[8], &[], "8:5 6:4 5:3 3:2 1:1;"),
            (&[8], &[7], "8:5 6:4 5:3 3:2;"),
        ],
        ..test_topo_rows::OF_SAMPLE
    }),
    // Commits without a row are looked up.
    TopoLookUps(test_topo_rows::Table {
        rows: SOME,
        by: BY_ROWS,
        cases: &[
            (&[8], &[], "8 7 4 2 6 5:3 3:2 1:1; 8:1 7:1 6:1 4:1 2:1"),
            (&[8], &[5], "8 7 4 2 6; 8:1 7:1 6:1 4:1 2:1"),
        ],
        ..test_topo_rows::OF_SAMPLE
    }),
    TopoLookUps(test_topo_rows::Table {
        rows: SOME,
        by: BY_ROWS,
        way: FIRST,
        cases: &[(&[8], &[], "8 6 5:3 3:2 1:1; 8:1 7:1 6:1")],
        ..test_topo_rows::OF_SAMPLE
    }),
    // The rows are dropped at 8. From then on a kept header is used up when a child becomes ready, whose parents all have to be there.
    TopoLookUps(test_topo_rows::Table {
        rows: FAULT_AT_8,
        by: BY_ROWS,
        cases: &[(
            &[8],
            &[],
            "8 7 4 2 6 5 3 1; 8:1 7:2 6:2 5:2 4:2 3:2 2:2 1:2",
        )],
        ..test_topo_rows::OF_SAMPLE
    }),
];

fn begun_topos() -> &'static [BegunTopoLookUps] {
    &BEGUN_TOPOS
}

static BEGUN_TOPOS: [BegunTopoLookUps; 2] = [
    // All is counted at once.
    BegunTopoLookUps(
        &[
            (0, "; 8:1 7:1 6:1 5:1 4:1 3:1 2:1 1:1"),
            (1, "; 8:1 7:1 6:1 5:1 4:1 3:1 2:1 1:1"),
            (2, "; 8:1 7:1 6:1 5:1 4:1 3:1 2:1 1:1"),
        ],
        BY_STORE,
    ),
    BegunTopoLookUps(&[(0, ";"), (1, ";")], BY_ROWS),
];

fn trees() -> &'static [TreeLookUps] {
    &TREES
}

static TREES: [TreeLookUps; 2] = [
    // One for each tree that the walk goes into. Breadth first the root is looked up before the walk.
    TreeLookUps(
        &test_tree_rows::SAMPLE,
        &[
            (Order::Levels, "", INTO, "done; 13:1 10:1"),
            (Order::Depth, "", INTO, "done; 13:1 10:1"),
            (Order::Levels, "d", PAST, "done; 10:1"),
            (Order::Depth, "d", PAST, "done; 10:1"),
            // Breadth first a tree is looked up when it is next.
            (Order::Levels, "e", BREAK, "cancelled; 10:1"),
            (Order::Depth, "e", BREAK, "done; 13:1 10:1"),
        ],
    ),
    // One for each visit of a tree.
    TreeLookUps(
        &[(10, &[("40000 d", 13), ("40000 e", 13)]), (13, &D)],
        &[
            (Order::Levels, "", INTO, "done; 13:2 10:1"),
            (Order::Depth, "", INTO, "done; 13:2 10:1"),
        ],
    ),
];
