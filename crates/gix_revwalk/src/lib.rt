//! What every walk of commits needs: how a commit is read, which ones are given, and a queue.
#![tactic(auto)]

ghost use Rattle.std.specs.Prelude.{◌≡◌, ◌≤◌, Bool, true, IfOk, IsOk, length};
ghost use Rattle.std.specs.Fn.{CalledAt};
ghost use Rattle.gix_hash.specs.declared.ObjectId.{ObjectId};
ghost use Rattle.gix_revwalk.specs.Either.{FindsEither};
ghost use Rattle.gix_revwalk.specs.Agreeing.{rows_in};

pub mod queue;
pub mod read;
pub mod row;
pub mod source;
pub mod time_queue;

use gix_commitgraph::{Commit, Graph};
use gix_hash::ObjectId;
use gix_object::commit::CommitRefIter;
use gix_object::decode;
use gix_object::find::{Find, existing_iter};
use smallvec::SmallVec;
use std::alloc::AllocError;
use std::marker::Model;

/// Which parents of a commit are walked.
#[derive(Clone, Copy, Debug, PartialEq, Eq)]
pub enum Parents {
    /// All of them, in their order.
    All,
    /// The first alone.
    First,
}

impl Default for Parents {
    ghost use Rattle.gix_revwalk.specs.declared.Parents.TheVariants as mode;

    ghost is_default = { λ parents. parents ≡ mode.All };

    fn default() -> Parents {
        Parents::All
    }
}

/// Which of two times comes first.
#[derive(Clone, Copy, Debug, PartialEq, Eq)]
pub enum CommitTimeOrder {
    /// The greater time comes first.
    NewestFirst,
    /// The lesser time comes first.
    OldestFirst,
}

impl Default for CommitTimeOrder {
    ghost use Rattle.gix_revwalk.specs.declared.CommitTimeOrder.TheVariants.{NewestFirst};

    ghost is_default = { λ order. order ≡ NewestFirst };

    fn default() -> CommitTimeOrder {
        CommitTimeOrder::NewestFirst
    }
}

/// The ids of a commit's parents, in their order. A list of at most one takes no memory.
pub type ParentIds = SmallVec<ObjectId, 1>;

/// A commit, as a walk gives it.
#[derive(Debug, Drop, PartialEq, Eq, PartialOrd, Ord, Hash)]
pub struct Info {
    /// The commit's id.
    pub id: ObjectId,
    /// The parents as the commit names them, repeats kept. Under `Parents::First` a `Simple` gives the first alone, and a `Topo` all.
    pub parent_ids: ParentIds,
    /// The generation in the commit's row of a commit-graph, and None where the commit was read from the store. A `Topo` gives None
    /// also for 4294967295, which says that none is known.
    pub generation: Option<u32>,
    /// The committer's seconds since 1970-01-01 00:00 UTC. A `Simple` gives them only in an order by time, and a `Topo` always.
    pub commit_time: Option<i64>,
}

impl Info {
    /// An equal value.
    ///
    /// # Errors
    ///
    /// `AllocError` when out of memory, which a commit with at most one parent doesn't need. This value is as it was.
    pub fn clone(&self) -> Result<Info, AllocError>
        ensures succeeds { length self.now.parent_ids.items ≤ 1 → IsOk result }
        ensures id { IfOk result (λ info. info.id ≡ self.now.id) }
        ensures parent_ids { IfOk result (λ info. info.parent_ids.items ≡ self.now.parent_ids.items) }
        ensures generation { IfOk result (λ info. info.generation ≡ self.now.generation) }
        ensures commit_time { IfOk result (λ info. info.commit_time ≡ self.now.commit_time) }
    {
        let parent_ids = ParentIds::from_slice(
            *self.parent_ids.allocator(),
            self.parent_ids.as_slice(),
        )?;
        Ok(Info {
            id: self.id,
            parent_ids,
            generation: self.generation,
            commit_time: self.commit_time,
        })
    }
}

/// A pending commit, with the time by which it is taken.
#[derive(Drop)]
pub struct Pending {
    /// The commit's id.
    pub id: ObjectId,
    /// The committer's seconds since 1970-01-01 00:00 UTC, and 0 where none was read.
    pub time: i64,
    /// Where to look first for its row. Contracts don't see it: a wrong place costs time alone.
    pub near: u32,
}

impl Model for Pending {
    ghost use Rattle.gix_revwalk.specs.Pending as model;

    ghost Value = { model.Pending };

    ghost view = { λ p. model.pending_by p.id p.time };
}

/// A commit, as the store or a commit-graph has it.
#[derive(Clone, Copy, Debug)]
pub enum Either<'buf, 'cache> {
    /// The items of its bytes.
    CommitRefIter(CommitRefIter<'buf>),
    /// Its row.
    CachedCommit(Commit<'cache>),
}

impl<'buf, 'cache> Either<'buf, 'cache> {
    ghost use Rattle.gix_revwalk.specs.Either.{either_tree, either_time};

    /// The id of its tree: that of its row, or else of the first item.
    ///
    /// # Errors
    ///
    /// For items whose first isn't a tree: that item's fault, or `Missing`.
    pub fn tree_id(self) -> Result<ObjectId, decode::Error>
        ensures { result ≡ either_tree self.entry }
    {
        match self {
            Either::CommitRefIter(mut items) => items.tree_id(),
            Either::CachedCommit(commit) => Ok(commit.root_tree_id()),
        }
    }

    /// The committer's seconds since 1970-01-01 00:00 UTC: those of its row, or else of the first committer among the items.
    ///
    /// # Errors
    ///
    /// For items without a committer: the fault that ends them, or `Missing`.
    pub fn commit_time(self) -> Result<i64, decode::Error>
        ensures { result ≡ either_time self.entry }
    {
        match self {
            Either::CommitRefIter(items) => match items.committer() {
                Ok(signature) => Ok(signature.seconds()),
                Err(fault) => Err(fault),
            },
            Either::CachedCommit(commit) => Ok(commit.committer_timestamp()),
        }
    }
}

/// Looks a commit up: its row where there is one, which takes no memory, else its items in the store, lent from `buf`.
///
/// # Errors
///
/// Only where the id has no row, and after each of them `buf` may hold anything:
/// - `NotFound` if the store has no object of this id, and `ObjectKind` if the object is no commit,
/// - `Store` if the store can't read the object,
/// - `Memory` when out of memory.
///
/// # Examples
///
/// ```rust
/// /// The tree of a commit, and its committer's seconds since 1970: of its row where it has one, else of its text in the store.
/// pub fn tree_and_time<F: Find + Drop>(
///     alloc: Global,
///     graph: Option<&Graph>,
///     store: F,
///     id: ObjectId,
/// ) -> Result<(ObjectId, i64), Error> {
///     let mut buf = Vec::new(alloc);
///     let commit = commit::find(graph, store, &id, &mut buf)?;
///     Ok((commit.tree_id()?, commit.commit_time()?))
/// }
/// ```
pub fn find<'cache, 'buf, F: Find + Drop>(
    cache: Option<&'cache Graph>,
    objects: F,
    id: &ObjectId,
    buf: &'buf mut Vec<u8>,
) -> Result<Either<'buf, 'cache>, existing_iter::Error>
    ensures { FindsEither (rows_in cache.entry) (F.objects objects) (F.faulty objects) id.now result }
{
    if let Some(graph) = cache {
        if let Some(commit) = graph.commit_by_id(id) {
            return Ok(Either::CachedCommit(commit));
        }
    }
    match objects.find_commit_iter(id, buf) {
        Ok(items) => Ok(Either::CommitRefIter(items)),
        Err(fault) => Err(fault),
    }
}

/// Which commits are given. In a `Simple` a refused commit also bars the way to its parents, which come only if another commit names
/// them; a `Topo` walks on through it.
///
/// # Examples
///
/// A predicate that says what it answers, for `Simple::filtered` or `with_predicate` of `topo::Builder`:
///
/// ```rust
/// /// Accepts the commits that aren't known, and stays as it is.
/// #[derive(Drop)]
/// pub struct Unknown {
///     pub known: IdSet,
/// }
///
/// impl Predicate for Unknown {
///     ghost answers = { λ old id answer new. (answer ≡ not (set.contains old.known id)) × (new ≡ old) };
///
///     fn accepts(&mut self, id: &ObjectId) -> bool {
///         !self.known.contains(id)
///     }
/// }
/// ```
pub trait Predicate {
    /// Holds of a predicate that may be asked.
    ghost can_accept: { Self → Type 0 } = { λ _. Unit {0} };

    /// From the first state, it may give this answer about the id and go on to the second.
    ghost answers: { Self → ObjectId → Bool → Self → Type 0 };

    /// Whether the commit of this id is given. A walk asks about no id twice.
    fn accepts(&mut self, id: &ObjectId) -> bool
        requires { can_accept self.old }
        ensures answer { answers self.old id.now result self.new }
        ensures again { can_accept self.new };
}

/// The predicate that accepts every commit.
#[derive(Clone, Copy, Debug, Default, PartialEq, Eq)]
pub struct Unfiltered;

impl Predicate for Unfiltered {
    ghost answers = { λ old i answer new. (answer ≡ true) × (new ≡ old) };

    fn accepts(&mut self, _id: &ObjectId) -> bool {
        true
    }
}

/// A predicate that asks a closure.
#[derive(Drop)]
pub struct Filter<G> {
    accepts: G,
}

impl<G: FnMut(&ObjectId) -> bool> Filter<G> {
    /// A predicate that answers what the closure answers, which may be called on every id.
    pub fn new(accepts: G) -> Filter<G>
        requires { G.IsAlwaysCallable accepts }
        ensures same { result.accepts ≡ accepts }
        ensures may { G.IsAlwaysCallable result.accepts }
    {
        Filter { accepts }
    }
}

impl<G: FnMut(&ObjectId) -> bool> Predicate for Filter<G> {
    ghost can_accept = { λ f. G.IsAlwaysCallable f.accepts };

    ghost answers = { λ old i answer new. CalledAt G.FnMut old.accepts i answer new.accepts };

    fn accepts(&mut self, id: &ObjectId) -> bool {
        (self.accepts)(id)
    }
}
