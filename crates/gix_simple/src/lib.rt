//! Walks from commits to their parents, breadth first or by commit time.
#![tactic(auto)]

ghost use Rattle.std.specs.Prelude.{◌≡◌, ◌≢◌, Ok, IfOk, IfErr};
ghost use Rattle.std.specs.Iterator.{at_most, IsFiniteIterable};
ghost use Rattle.gix_hash.specs.declared.ObjectId.{ObjectId};
ghost use Rattle.gix_object.specs.CommitItems.{commit_items};
ghost use Rattle.gix_object.specs.CommitRefIter.{commit_items_left};
ghost use Rattle.gix_simple.specs.declared.Sorting.TheVariants as by;
ghost use Rattle.gix_simple.specs.declared.Error.TheVariants as error;
ghost use Rattle.gix_revwalk.specs.Agreeing.{rows_in};
ghost use Rattle.gix_revwalk.specs.Tips.{Draws};
ghost use Rattle.gix_simple.specs.Walk.{kind_at, IsMade, Next};
ghost use Rattle.gix_simple.specs.Building.{IsSortedByTime, FailsAtTip};
ghost use Rattle.gix_simple.specs.Inside.Steps.{rows_of};
ghost use Rattle.gix_simple.specs.Laws.{answers_left};

mod hide;
pub mod laws;
mod pending;
mod step;
mod tips;

use gix_commitgraph::Graph;
use gix_hash::hashtable::IdSet;
use gix_hash::{Kind, ObjectId};
use gix_object::commit::CommitRefIter;
use gix_object::decode;
use gix_object::find::{Find, existing_iter};
use gix_paint::{Hidden, HiddenIds};
use gix_revwalk::row::NOWHERE;
use gix_revwalk::source::Source;
use gix_revwalk::{CommitTimeOrder, Info, Parents, Predicate, Unfiltered};
use pending::PendingQueue;
use std::alloc::{AllocError, AllocFailed, Global};
use std::marker::Model;
use step::{Times, cutoff_of};
use thiserror::Error;

/// The order of a walk.
///
/// A history, with each commit's time as its name, and what a walk from 8 gives:
///
/// ```text
/// 1----2----4----7 <- second parent of 8
///  \              \
///   3----5----6----8
///
/// BreadthFirst                               8 6 7 5 4 3 2 1
/// ByCommitTime(NewestFirst)                  8 7 6 5 4 3 2 1
/// ByCommitTime(OldestFirst)                  8 6 5 3 1 7 4 2
/// ByCommitTimeCutoff of NewestFirst from 4   8 7 6 5 4
/// ```
///
/// A cutoff with first parents alone:
///
/// ```rust
/// /// A walk by first parents alone, from the branches that have a commit since `seconds`. Under `Parents::First` the cutoff takes out
/// /// tips alone: what the other tips reach is given, however old it is.
/// pub fn since<F: Find + Drop>(
///     alloc: Global,
///     store: F,
///     branches: Vec<ObjectId>,
///     seconds: i64,
/// ) -> Result<Simple<F, Unfiltered>, Error> {
///     let cutoff = Sorting::ByCommitTimeCutoff {
///         order: CommitTimeOrder::NewestFirst,
///         seconds,
///     };
///     let walk = Simple::new(alloc, branches, store)?.sorting(cutoff)?;
///     Ok(walk.parents(Parents::First))
/// }
/// ```
#[derive(Clone, Copy, Debug, PartialEq, Eq)]
pub enum Sorting {
    /// Commits come in the order in which they are met.
    BreadthFirst,
    /// Of the commits met, the first of best commit time comes next. A commit without a row is looked up twice: for its time when it
    /// is met, and for its parents when it is given.
    ByCommitTime(CommitTimeOrder),
    /// The same without the commits that are older than `seconds`. The walk doesn't go on to their parents.
    /// Under `Parents::First` tips alone are tested.
    ByCommitTimeCutoff {
        /// Which of two times comes first.
        order: CommitTimeOrder,
        /// The least time that is given, in seconds since 1970-01-01 00:00 UTC.
        seconds: i64,
    },
}

impl Default for Sorting {
    ghost is_default = { λ sorting. sorting ≡ by.BreadthFirst };

    fn default() -> Sorting {
        Sorting::BreadthFirst
    }
}

/// Why a walk gives no commit, or why a call that makes or changes it fails. What is left after each: at [`Simple`] for `next`, else at
/// the call.
#[derive(Clone, Copy, Debug, PartialEq, Eq, Error)]
pub enum Error {
    /// The commit could not be looked up.
    #[error(transparent)]
    Find(existing_iter::Error),
    /// The commit's bytes are broken before its parents end.
    #[error(transparent)]
    ObjectDecode(decode::Error),
    /// A commit that tips or hidden tips reach could not be read, so that what is hidden isn't known.
    #[error(transparent)]
    HiddenGraph(Hidden),
    /// Out of memory.
    #[error("out of memory")]
    Memory,
}

impl From<decode::Error> for Error {
    ghost use Rattle.gix_simple.specs.declared.Error.TheVariants as error;

    ghost from_gives = { λ e r. r ≡ error.ObjectDecode e };

    fn from(e: decode::Error) -> Error {
        Error::ObjectDecode(e)
    }
}

impl From<existing_iter::Error> for Error {
    ghost use Rattle.gix_simple.specs.Errors.{error_of_find};

    ghost from_gives = { λ e r. r ≡ error_of_find e };

    fn from(e: existing_iter::Error) -> Error {
        match e {
            existing_iter::Error::Memory => Error::Memory,
            e => Error::Find(e),
        }
    }
}

impl From<Hidden> for Error {
    ghost use Rattle.gix_simple.specs.Errors.{error_of_hidden};

    ghost from_gives = { λ e r. r ≡ error_of_hidden e };

    fn from(e: Hidden) -> Error {
        match e {
            Hidden::Find(existing_iter::Error::Memory) => Error::Memory,
            e => Error::HiddenGraph(e),
        }
    }
}

impl From<AllocError> for Error {
    ghost use Rattle.gix_simple.specs.declared.Error.TheVariants as error;

    ghost from_gives = { λ _ r. r ≡ error.Memory };

    fn from(_e: AllocError) -> Error {
        Error::Memory
    }
}

// So that `list.push(id)?` is this error. The value is dropped.
impl<T: Drop> From<AllocFailed<T>> for Error {
    ghost use Rattle.gix_simple.specs.declared.Error.TheVariants as error;

    ghost from_gives = { λ _ r. r ≡ error.Memory };

    fn from(_e: AllocFailed<T>) -> Error {
        Error::Memory
    }
}

/// A walk over the commits that some tips reach.
///
/// It is an iterator of commits, each once. The commit that was met first comes first, or, where an order by time is chosen, the first of
/// best time among those met.
///
/// ```text
/// let mut walk = Simple::new(alloc, tips, &store)?.sorting(Sorting::ByCommitTime(CommitTimeOrder::NewestFirst))?;
/// while let Some(commit) = walk.next() {
///     let commit = commit?;
///     // `commit.id` and `commit.parent_ids`, and its text in `walk.commit_data()`
/// }
/// ```
///
/// # Errors
///
/// `next` gives an error in the place of a commit:
/// - `Find` if the store hasn't the commit, or can't read it. In an order by time also `Find(Store)`, if the store fails at a parent that
///   is asked for its time: the parents after it aren't walked from this commit. The walk goes on with the other pending commits.
/// - `ObjectDecode` if the commit's bytes are broken before its parents end. The walk goes on, also with the parents before the fault.
/// - `HiddenGraph`, at the first step of a walk with hidden tips, if a commit can't be read that painting has to read to know what is hidden. Nothing
///   follows.
/// - `Memory` when out of memory. Nothing follows.
///
/// After each error `commit_data` is empty.
#[derive(Drop)]
pub struct Simple<F, P> {
    /// Where commits are read, and parents for their times.
    source: Source<F>,
    predicate: P,
    parents: Parents,
    sorting: Sorting,
    pending: PendingQueue,
    seen: IdSet,
    /// Accepted tips that a cutoff took out and no parent list has named since.
    remembered: IdSet,
    /// Whether `next` was called.
    begun: bool,
    /// To be hidden, with all that they reach, by the first step. No later step looks at them.
    hidden_tips: Vec<ObjectId>,
    hidden: HiddenIds,
    /// The text of the commit last given, if it was read from the store.
    text: Vec<u8>,
    /// The commit last taken.
    current: Option<ObjectId>,
}

impl<F, P> Model for Simple<F, P> {
    ghost use Rattle.std.specs.Coded.{codes};
    ghost use Rattle.std.specs.Prelude.{[], if◌then◌else◌};
    ghost use Rattle.gix_hash.specs.Id.{id_set_code};
    ghost use Rattle.gix_simple.specs.Walk.{SimpleWalk};
    ghost use Rattle.gix_revwalk.specs.Reading.{rows_used};

    ghost Value = { SimpleWalk F P };

    ghost coded = { Prim.hlevel (codes, id_set_code) };

    ghost view = { λ w. record {
      store = w.source.objects;
      predicate = w.predicate;
      rows = rows_used w.source;
      parents = w.parents;
      sorting = w.sorting;
      pending = w.pending.items;
      seen = w.seen;
      remembered = w.remembered;
      begun = w.begun;
      hidden_tips = w.hidden_tips.items;
      hidden = w.hidden;
      text = w.text.items;
      current = w.current;
    } };
}

impl<F: Find + Drop> Simple<F, Unfiltered> {
    /// A walk of all that the tips reach, breadth first. Repeated tips count once, at their first place. Nothing is read yet.
    ///
    /// # Errors
    ///
    /// `AllocError` when out of memory. The tips and the store are dropped.
    pub fn new<T: IntoIterator<Item = ObjectId>>(
        alloc: Global,
        tips: T,
        find: F,
    ) -> Result<Self, AllocError>
    where
        T::IntoIter: Drop,
        requires { IsFiniteIterable T.into_iter_gives T.IntoIter.can_next T.IntoIter.remaining tips }
        ensures { IfOk result (λ walk. Draws T.into_iter_gives T.IntoIter.next_gives tips
            (λ ids. IsMade F.objects F.faulty ⟦<Unfiltered as Predicate>⟧.answers find (record {}) ids walk)) }
    {
        Simple::filtered(alloc, tips, find, Unfiltered)
    }
}

impl<F: Find + Drop, P: Predicate + Drop> Simple<F, P> {
    /// A walk of what the tips reach through commits that the predicate accepts, breadth first. The predicate is asked once
    /// about each tip, in the order given. Nothing is read yet.
    ///
    /// # Errors
    ///
    /// `AllocError` when out of memory. The tips, the store and the predicate are dropped.
    pub fn filtered<T: IntoIterator<Item = ObjectId>>(
        alloc: Global,
        tips: T,
        find: F,
        predicate: P,
    ) -> Result<Self, AllocError>
    where
        T::IntoIter: Drop,
        requires ends { IsFiniteIterable T.into_iter_gives T.IntoIter.can_next T.IntoIter.remaining tips }
        requires asks { P.can_accept predicate }
        ensures made { IfOk result (λ walk. Draws T.into_iter_gives T.IntoIter.next_gives tips
            (λ ids. IsMade F.objects F.faulty P.answers find predicate ids walk)) }
        ensures asks { IfOk result (λ walk. P.can_accept walk.predicate) }
    {
        let keys = find.keys();
        let mut walk = Simple {
            source: Source::new(alloc, find, None),
            predicate,
            parents: Parents::All,
            sorting: Sorting::BreadthFirst,
            pending: PendingQueue::new(alloc),
            seen: IdSet::new(alloc, keys),
            remembered: IdSet::new(alloc, keys),
            begun: false,
            hidden_tips: Vec::new(alloc),
            hidden: HiddenIds::new(alloc, keys),
            text: Vec::new(alloc),
            current: None,
        };
        for tip in tips {
            // Breadth first no time is read, so the only fault is out of memory.
            let Ok(()) = walk.treat(Times::InStore, tip, NOWHERE) else {
                return Err(AllocError);
            };
        }
        Ok(walk)
    }

    /// The order of the walk, in place of an earlier one. By time, each pending tip is read from the store for its time, and a
    /// cutoff takes out those that are older: only if a parent list names such a tip again it may come back. Under `Parents::First`
    /// the walk is breadth first in any case.
    ///
    /// # Errors
    ///
    /// Each error drops the walk. Breadth first there is none. By time:
    /// - `Find` if the store hasn't a pending tip, or can't read it: the first of them, in the order given,
    /// - `ObjectDecode` if that tip's bytes are broken before its committer ends,
    /// - `Memory` when out of memory.
    pub fn sorting(mut self, sorting: Sorting) -> Result<Self, Error>
        ensures breadth_first { sorting ≡ by.BreadthFirst → result ≡ Ok (record self { sorting = sorting }) }
        ensures ok { sorting ≢ by.BreadthFirst → IfOk result (IsSortedByTime F.objects self sorting) }
        ensures err { IfErr result (λ e. e ≢ error.Memory → FailsAtTip (F.objects self.store) (F.faulty self.store) self.pending e) }
    {
        self.sorting = sorting;
        if sorting == Sorting::BreadthFirst {
            return Ok(self);
        }
        let tips = self.pending.take_list()?;
        self.sort_tips(tips, cutoff_of(Parents::All, sorting))?;
        Ok(self)
    }

    /// Hides all that these tips reach, by any parent and whatever the predicate says, in place of tips given earlier. The first
    /// step reads it; where it can't, that step gives `HiddenGraph`, and then nothing. After the first step the call hides nothing
    /// more, and shows nothing again: the walk goes on as without it.
    ///
    /// # Errors
    ///
    /// `Memory` when out of memory. The walk is dropped.
    pub fn hide<T: IntoIterator<Item = ObjectId>>(mut self, tips: T) -> Result<Self, Error>
    where
        T::IntoIter: Drop,
        requires { IsFiniteIterable T.into_iter_gives T.IntoIter.can_next T.IntoIter.remaining tips }
        ensures ok { IfOk result (λ walk. Draws T.into_iter_gives T.IntoIter.next_gives tips
            (λ ids. walk ≡ record self { hidden_tips = ids })) }
        ensures err { IfErr result (λ e. e ≡ error.Memory) }
    {
        let mut hidden_tips = Vec::new(self.source.alloc);
        for tip in tips {
            hidden_tips.push(tip)?;
        }
        self.hidden_tips = hidden_tips;
        Ok(self)
    }

    /// Which parents are walked, in place of an earlier choice. Under `First` the walk is breadth first whatever its sorting: no commit
    /// has a time, and a cutoff tests the tips alone.
    pub fn parents(mut self, parents: Parents) -> Self
        ensures { result ≡ record self { parents = parents } }
    {
        self.parents = parents;
        self
    }

    /// A commit-graph to read commits from, in place of an earlier one. A commit without a row is read from the store. The first
    /// corrupt row that is read drops the graph.
    pub fn commit_graph(mut self, graph: Option<Graph>) -> Self
        ensures { result ≡ record self { rows = rows_of graph } }
    {
        self.source.graph = graph;
        self.source.in_use = true;
        self
    }

    /// The commit that the last answer was about: the one that was given, or the one that could not be read, or a parent of which had no
    /// time to be read. None before the first commit; a step that gives `HiddenGraph`, or that runs out of memory before it takes a commit,
    /// leaves it as it is, and so does the end.
    pub fn current(&self) -> Option<ObjectId>
        ensures { result ≡ self.now.current }
    {
        self.current
    }

    /// The commit-graph, as long as its rows are read: none before [`commit_graph`](Simple::commit_graph) and after a corrupt row. The row of
    /// a commit that was given by its row is `graph.commit_by_id(&commit.id)`; where there is none, its text is in
    /// [`commit_data`](Simple::commit_data).
    pub fn graph(&self) -> Option<&Graph>
        ensures { rows_in result ≡ self.now.rows }
    {
        self.source.graph()
    }

    /// The text of the commit last given. It is empty where a row gave the commit, before the first commit and after a fault, and
    /// stays after the end.
    pub fn commit_data(&self) -> &[u8]
        ensures { result.now ≡ self.now.text }
    {
        &self.text
    }

    /// The items of the text of `commit_data`. An empty text has none, so where a row gave the commit `committer` answers `Missing`.
    pub fn commit_iter(&self) -> CommitRefIter<'_>
        ensures { commit_items_left result ≡ commit_items (kind_at self.now.current) self.now.text }
    {
        let kind = match self.current {
            None => Kind::Sha1,
            Some(id) => id.kind(),
        };
        CommitRefIter::from_bytes(self.commit_data(), kind)
    }
}

impl<F: Find + Drop, P: Predicate + Drop> Iterator for Simple<F, P> {
    type Item = Result<Info, Error>;

    ghost can_next = { λ walk. P.can_accept walk.predicate };

    ghost next_gives = { Next F.objects F.faulty P.answers };

    ghost remaining = { λ walk. at_most (answers_left F.objects walk) };

    fn next(&mut self) -> Option<Result<Info, Error>> {
        if self.begun {
            return self.step();
        }
        self.first_step()
    }
}
