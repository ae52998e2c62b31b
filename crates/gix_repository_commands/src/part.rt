//! A part of a repository that is read as far as an answer needs it.
ghost use Rattle.std.specs.Prelude.{◌≡◌, IfOk};
ghost use Rattle.std.specs.Bool.{OnFalse};

use gix_commands::listed_ids;
use gix_commitgraph::Graph;
use gix_gather::{Fault, Gathering, Order};
use gix_hash::hashtable::IdSet;
use gix_hash::{Keys, ObjectId};
use gix_odb::Odb;
use gix_revwalk::CommitTimeOrder;
use gix_simple::Sorting;
use gix_words::{self as words, Command, Shown};
use std::alloc::{AllocError, Global};
use std::fs::Files;
use std::os::unix::fs::FileExt;

/// How many commits are read at first where a part of them may be enough, with those that are asked for.
const FIRST_COMMITS: usize = 100;
/// How many objects are read until it is said how many there are.
const STEP: usize = 8192;

/// What wants to know how far a long reading is.
pub trait Watch {
    /// So many objects were read.
    fn show(&mut self, count: usize);

    /// Nothing more is read.
    fn end(&mut self);
}

/// It isn't said how far a reading is.
#[derive(Clone, Copy)]
pub struct Silent;

impl Watch for Silent {
    fn show(&mut self, _count: usize) {}

    fn end(&mut self) {}
}

/// Objects of a repository, some of which were read.
pub struct Part {
    alloc: Global,
    /// Those that were read, and the ids that wait.
    pub gathering: Gathering,
    /// How many are read at first. None if all are needed.
    pub first: Option<usize>,
}

impl Drop for Part {
    fn drop(self) {
        let Part {
            alloc: _,
            gathering: _,
            first: _,
        } = self;
    }
}

impl Part {
    /// What ids lead to. Where there is a number, so many commits may be enough.
    pub fn of(alloc: Global, gathering: Gathering, least: Option<usize>) -> Part {
        Part {
            alloc,
            gathering,
            first: least.map(|least| least.saturating_add(FIRST_COMMITS)),
        }
    }

    /// What a command needs. Of a list that is cut off behind so many commits, or that has a limit, a part may be enough.
    ///
    /// # Errors
    ///
    /// `AllocError` when out of memory.
    pub fn of_command(
        alloc: Global,
        keys: Keys,
        command: &Command,
        most: Option<usize>,
    ) -> Result<Part, AllocError> {
        let mut ids: Vec<ObjectId> = Vec::new(alloc);
        let (order, least) = match command {
            Command::Files { tree, .. } => {
                return Ok(Part::of(alloc, Gathering::trees(alloc, keys, tree)?, None));
            }
            Command::Commits {
                order,
                shown,
                tips,
                hidden,
            } => {
                ids.extend_from_slice(tips.as_slice())?;
                ids.extend_from_slice(hidden.as_slice())?;
                let is_alone = hidden.is_empty();
                (order_of(order), least_of(order, shown, most, is_alone))
            }
            Command::Ahead { one, other } => {
                ids.push(*one)?;
                ids.push(*other)?;
                (Order::Met, None)
            }
            Command::Contained { tip, ids: others } => {
                ids.push(*tip)?;
                ids.extend_from_slice(others.as_slice())?;
                (Order::NewestFirst, Some(ids.len()))
            }
            Command::Containing { target, tips } => {
                ids.push(*target)?;
                ids.extend_from_slice(tips.as_slice())?;
                (Order::Met, None)
            }
            Command::Bases { one, others } => {
                ids.push(*one)?;
                ids.extend_from_slice(others.as_slice())?;
                (Order::Met, None)
            }
        };
        let border = IdSet::new(alloc, keys);
        let gathering = Gathering::commits(alloc, ids.as_slice(), order, border)?;
        Ok(Part::of(alloc, gathering, least))
    }

    /// Where memory for what is read is taken from.
    pub fn alloc(&self) -> Global {
        self.alloc
    }

    /// Reads what is needed at first: so many, or all.
    ///
    /// # Errors
    ///
    /// The first fault of an object.
    pub fn read_first<R, P: Watch>(
        &mut self,
        odb: &mut Odb<R>,
        graph: Option<&Graph>,
        watch: &mut P,
    ) -> Result<(), Fault>
    where
        R: Files + AllocGlobal + Clone + Drop,
        R::File: FileExt,
    {
        match self.first {
            Some(first) => {
                self.gathering.read_more(odb, graph, first)?;
                Ok(())
            }
            None => self.read_all(odb, graph, watch),
        }
    }

    /// Reads all that is left.
    ///
    /// # Errors
    ///
    /// The first fault of an object.
    pub fn read_all<R, P: Watch>(
        &mut self,
        odb: &mut Odb<R>,
        graph: Option<&Graph>,
        watch: &mut P,
    ) -> Result<(), Fault>
    where
        R: Files + AllocGlobal + Clone + Drop,
        R::File: FileExt,
    {
        for _ in 0..u64::MAX {
            if self.gathering.read_more(odb, graph, STEP)? {
                break;
            }
            watch.show(self.gathering.len());
        }
        watch.end();
        Ok(())
    }

    /// Reads the commits that a list goes through, where it lacks one that has a row. Whether one was read that wasn't before.
    ///
    /// # Errors
    ///
    /// The first fault of an object.
    pub fn read_missing<R>(
        &mut self,
        lacks: &ObjectId,
        command: &Command,
        odb: &mut Odb<R>,
        graph: Option<&Graph>,
    ) -> Result<bool, Fault>
    where
        R: Files + AllocGlobal + Clone + Drop,
        R::File: FileExt,
        ensures { IfOk result (λ is_more. OnFalse is_more (self.new.gathering ≡ self.old.gathering)) }
    {
        match graph {
            Some(rows) if rows.commit_by_id(lacks).is_some() => self.read_listed(
                command, odb, graph,
            ),
            _ => Ok(false),
        }
    }

    /// Reads the commits that a list goes through by their rows. Whether one was read that wasn't before. A list that can't begin reads
    /// none, and fails again when it is run.
    ///
    /// # Errors
    ///
    /// The first fault of an object.
    pub fn read_listed<R>(
        &mut self,
        command: &Command,
        odb: &mut Odb<R>,
        graph: Option<&Graph>,
    ) -> Result<bool, Fault>
    where
        R: Files + AllocGlobal + Clone + Drop,
        R::File: FileExt,
        ensures { IfOk result (λ is_more. OnFalse is_more (self.new.gathering ≡ self.old.gathering)) }
    {
        match listed_ids(self.alloc, command, self.gathering.objects(), graph) {
            Ok(ids) => self.gathering.read_these(odb, ids.as_slice()),
            Err(_) => Ok(false),
        }
    }

    /// Reads three times as many as were read, where a command lacks an object that may still be read. Whether it may.
    ///
    /// # Errors
    ///
    /// The first fault of an object.
    pub fn read_for<R, P: Watch>(
        &mut self,
        lacks: &ObjectId,
        odb: &mut Odb<R>,
        graph: Option<&Graph>,
        watch: &mut P,
    ) -> Result<bool, Fault>
    where
        R: Files + AllocGlobal + Clone + Drop,
        R::File: FileExt,
        ensures { IfOk result (λ may. OnFalse may (self.new.gathering ≡ self.old.gathering)) }
    {
        if !self.gathering.waits(lacks) {
            watch.end();
            return Ok(false);
        }
        watch.show(self.gathering.len());
        let count = self.gathering.len().saturating_mul(3);
        self.gathering.read_more(odb, graph, count)?;
        Ok(true)
    }
}

/// In which order the commits of a list are read.
fn order_of(order: &words::Order) -> Order {
    match order {
        words::Order::Simple { sorting, .. } => match sorting {
            Sorting::BreadthFirst => Order::Met,
            Sorting::ByCommitTime(by) | Sorting::ByCommitTimeCutoff { order: by, .. } => match by {
                CommitTimeOrder::NewestFirst => Order::NewestFirst,
                CommitTimeOrder::OldestFirst => Order::OldestFirst,
            },
        },
        words::Order::Topo { .. } => Order::Met,
    }
}

/// How many commits of a list are asked for or skipped, where it needs no others: those of a walk by one step in which nothing is hidden.
fn least_of(
    order: &words::Order,
    shown: &Shown,
    most: Option<usize>,
    is_alone: bool,
) -> Option<usize> {
    match order {
        words::Order::Simple { .. } if is_alone => match (shown.limit, most) {
            (Some(limit), Some(most)) => Some(most.min(limit.saturating_add(shown.skip) as usize)),
            (Some(limit), None) => Some(limit.saturating_add(shown.skip) as usize),
            (None, most) => most,
        },
        _ => None,
    }
}
