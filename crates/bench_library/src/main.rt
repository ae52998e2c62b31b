//! Walks a generated history by the library, and writes what the walk gave and what it cost. `bench/library` prints a table of such walks.
//!
//! The words are: the number of commits; `store`, or `rows` for a walk with a commit-graph of all commits; the walk, one of `breadth`,
//! `newest`, `oldest`, `topo`, `date`, or `none`; how many commits are drawn at most; and 0, or the number of the commit whose history is
//! hidden.
//!
//! One line is written: how many commits the walk gave, a number made of their ids in this order, the look-ups in the store, and how many
//! commits `Topo` has counted the parents of. Standard error has the nanoseconds of the walk, from its building on, since no two runs take
//! the same time.
#![tactic(auto)]

ghost use Rattle.std.specs.Iterator.{IsFinite};

use anyhow::{Context, Result};
use gix_parts::graph::{Graph, ParentPlace, ParentPlaces, Row};
use gix_parts::hash::{Keys, ObjectId};
use gix_parts::object::Kind;
use gix_parts::object::find::{self, Find};
use gix_parts::object::memory::MemoryStore;
use gix_traverse::commit::simple::{CommitTimeOrder, Sorting};
use gix_traverse::commit::topo::{self, Builder};
use gix_traverse::commit::{Info, Simple};
use std::alloc::{AllocError, Global};
use std::cell::Cell;
use std::env;
use std::time::Instant;

const LANES: u32 = 4;

const TREE: ObjectId = ObjectId::Sha1([0x4b; 20]);

/// A store that counts its look-ups.
#[derive(Clone, Copy)]
struct Counted<'a> {
    store: &'a MemoryStore<'a>,
    look_ups: &'a Cell<u64>,
}

impl Find for Counted<'_> {
    ghost objects = { λ s. s.store.now };

    ghost faulty = { λ _ _. ⊥ };

    fn find_into(&self, id: &ObjectId, buf: &mut Vec<u8>) -> Result<Option<Kind>, find::Error> {
        self.look_ups.set(self.look_ups.get().wrapping_add(1));
        self.store.find_into(id, buf)
    }
}

/// Spreads a number over 64 bits.
fn spread(number: u64) -> u64 {
    let number = (number ^ (number >> 30)).wrapping_mul(0xbf58_476d_1ce4_e5b9);
    let number = (number ^ (number >> 27)).wrapping_mul(0x94d0_49bb_1331_11eb);
    number ^ (number >> 31)
}

/// The id of a commit, whose bytes are spread as those of a hash.
fn id_of(commit: u32) -> ObjectId {
    let mut bytes = [0u8; 20];
    let front = spread(u64::from(commit).wrapping_mul(0x9e37_79b9_7f4a_7c15));
    bytes[..8].copy_from_slice(&front.to_le_bytes());
    bytes[8..16].copy_from_slice(&spread(front).to_le_bytes());
    bytes[16..].copy_from_slice(&commit.to_le_bytes());
    ObjectId::Sha1(bytes)
}

/// The text of a commit. Its time is a second later than that of the commit before.
fn text_of(alloc: Global, commit: u32, parents: &[u32]) -> Result<String, AllocError> {
    let mut text = format!(in alloc; "tree {TREE}\n")?;
    for parent in parents {
        writeln!(text, "parent {}", id_of(*parent))?;
    }
    let time = time_of(commit);
    write!(
        text,
        "author A <a@b> {time} +0000\ncommitter A <a@b> {time} +0000\n\ncommit {commit}\n"
    )?;
    Ok(text)
}

/// The commit's seconds. No two commits have the same.
fn time_of(commit: u32) -> i64 {
    1_600_000_000 + i64::from(commit)
}

/// A history as `bench/history` makes it: four roots, runs of commits with one parent, forks, and merges of two and of three.
/// Commits are numbers from 1 on, and 0 is none.
#[derive(Drop)]
struct History {
    alloc: Global,
    store: MemoryStore<'static>,
    /// The row of each commit, if rows are wanted.
    rows: Option<Vec<Row>>,
    generations: Vec<u32>,
    heads: [u32; 4],
}

impl History {
    fn new(alloc: Global, commits: u32, with_rows: bool) -> Result<History> {
        let mut history = History {
            alloc,
            store: MemoryStore::new(alloc, Keys::KNOWN),
            rows: if with_rows {
                Some(Vec::new(alloc))
            } else {
                None
            },
            generations: Vec::new(alloc),
            heads: [0; 4],
        };
        for number in 0..commits {
            history.add(number.wrapping_add(1))?;
        }
        Ok(history)
    }

    /// The parents of the next commit of a lane.
    fn parents(&self, commit: u32, lane: u32) -> Result<Vec<u32>, AllocError> {
        let steps: &[u32] = if commit <= 2 * LANES {
            &[0]
        } else if commit % 100 == 50 {
            // here the lane ends, and forks from the next one
            &[1]
        } else if commit % 40 == 0 {
            &[0, 1, 2]
        } else if commit % 10 == 0 {
            &[0, 1]
        } else {
            &[0]
        };
        let mut parents = Vec::new(self.alloc);
        for step in steps {
            let head = self.heads[(lane.wrapping_add(*step) % LANES) as usize];
            if head > 0 {
                parents.push(head)?;
            }
        }
        Ok(parents)
    }

    /// Adds a commit to the store, and its row to the rows.
    fn add(&mut self, commit: u32) -> Result<(), AllocError> {
        let lane = if commit > LANES {
            commit / 25 % LANES
        } else {
            commit % LANES
        };
        let parents = self.parents(commit, lane)?;
        let text = text_of(self.alloc, commit, &parents)?;
        self.store
            .insert(id_of(commit), Kind::Commit, text.as_str().as_bytes())?;
        self.heads[lane as usize] = commit;
        self.add_row(commit, &parents)
    }

    fn add_row(&mut self, commit: u32, parents: &[u32]) -> Result<(), AllocError> {
        let Some(rows) = &mut self.rows else {
            return Ok(());
        };
        let mut places = ParentPlaces::new(self.alloc);
        let mut generation = 0u32;
        for parent in parents {
            let place = parent.wrapping_sub(1);
            places.push(ParentPlace::At(place))?;
            let below = self.generations.get(place as usize).copied();
            generation = generation.max(below.unwrap_or(0));
        }
        let generation = generation.wrapping_add(1);
        self.generations.push(generation)?;
        rows.push(Row {
            id: id_of(commit),
            tree: TREE,
            parents: places,
            generation,
            time: time_of(commit),
        })?;
        Ok(())
    }

    /// The youngest commit of each lane.
    fn tips(&self) -> [ObjectId; 4] {
        let [a, b, c, d] = self.heads;
        [id_of(a), id_of(b), id_of(c), id_of(d)]
    }

    fn graph(&mut self) -> Result<Option<Graph>> {
        match self.rows.take() {
            Some(rows) => Ok(Some(Graph::new(self.alloc, rows)?)),
            None => Ok(None),
        }
    }
}

/// How a history is walked.
#[derive(Clone, Copy)]
enum Walk {
    None,
    Simple(Sorting),
    Topo(topo::Sorting),
}

impl Walk {
    fn named(name: &str) -> Option<Walk> {
        Some(match name {
            "none" => Walk::None,
            "breadth" => Walk::Simple(Sorting::BreadthFirst),
            "newest" => Walk::Simple(Sorting::ByCommitTime(CommitTimeOrder::NewestFirst)),
            "oldest" => Walk::Simple(Sorting::ByCommitTime(CommitTimeOrder::OldestFirst)),
            "topo" => Walk::Topo(topo::Sorting::TopoOrder),
            "date" => Walk::Topo(topo::Sorting::DateOrder),
            _ => return None,
        })
    }
}

/// What a walk gave.
#[derive(Clone, Copy, Default)]
struct Drawn {
    commits: u64,
    /// A number made of the ids in their order.
    digest: u64,
    /// How many commits `Topo` has counted the parents of.
    expanded: usize,
}

impl Drawn {
    fn add(&mut self, info: &Info) {
        self.commits = self.commits.wrapping_add(1);
        for byte in info.id.as_bytes() {
            self.digest = (self.digest ^ u64::from(*byte)).wrapping_mul(0x0100_0000_01b3);
        }
    }
}

/// The first commits that a walk gives.
fn draw<I, E>(walk: &mut I, most: u32) -> Result<Drawn, E>
where
    I: Iterator<Item = Result<Info, E>>,
    requires can { I.can_next walk.old }
    requires finite { IsFinite (I.remaining walk.old) }
{
    let mut drawn = Drawn::default();
    for _ in 0..most {
        match walk.next() {
            Some(answer) => drawn.add(&answer?),
            None => break,
        }
    }
    Ok(drawn)
}

/// What is walked, and how far.
#[derive(Drop)]
struct Plan<'a> {
    alloc: Global,
    store: Counted<'a>,
    graph: Option<Graph>,
    tips: [ObjectId; 4],
    hidden: Option<ObjectId>,
    most: u32,
}

impl Plan<'_> {
    fn walk(self, walk: Walk) -> Result<Drawn> {
        match walk {
            Walk::None => Ok(Drawn::default()),
            Walk::Simple(sorting) => self.walk_simple(sorting),
            Walk::Topo(sorting) => self.walk_topo(sorting),
        }
    }

    fn walk_simple(self, sorting: Sorting) -> Result<Drawn> {
        let mut walk = Simple::new(self.alloc, self.tips, self.store)?
            .commit_graph(self.graph)
            .sorting(sorting)?
            .hide(self.hidden)?;
        Ok(draw(&mut walk, self.most)?)
    }

    fn walk_topo(self, sorting: topo::Sorting) -> Result<Drawn> {
        let mut walk = Builder::new(self.alloc, self.store)
            .sorting(sorting)
            .with_tips(self.tips)?
            .with_ends(self.hidden)?
            .with_commit_graph(self.graph)
            .build()?;
        let mut drawn = draw(&mut walk, self.most)?;
        drawn.expanded = walk.expanded();
        Ok(drawn)
    }
}

fn main(rt: HostRuntime) -> Result<()> {
    let mut words = env::args(&rt)?.skip(1);
    let mut word = || words.next().context("five words are wanted");
    let commits: u32 = word()?.as_str().parse()?;
    let with_rows = word()?.as_str() == "rows";
    let walk = Walk::named(word()?.as_str()).context("no such walk")?;
    let most: u32 = word()?.as_str().parse()?;
    let hidden: u32 = word()?.as_str().parse()?;

    let mut history = History::new(rt.alloc(), commits, with_rows)?;
    let look_ups = Cell::new(0u64);
    let graph = history.graph()?;
    let plan = Plan {
        alloc: rt.alloc(),
        store: Counted {
            store: &history.store,
            look_ups: &look_ups,
        },
        graph,
        tips: history.tips(),
        hidden: if hidden > 0 {
            Some(id_of(hidden))
        } else {
            None
        },
        most,
    };
    let start = Instant::now(&rt)?;
    let drawn = plan.walk(walk)?;
    let nanoseconds = start.elapsed(&rt)?.as_nanos();
    let Drawn {
        commits,
        digest,
        expanded,
    } = drawn;
    println!(rt; "{commits} {digest} {} {expanded}", look_ups.get())?;
    eprintln!(rt; "{nanoseconds}")?;
    Ok(())
}
