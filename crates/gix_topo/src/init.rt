//! What a topological walk is built from.
ghost use Rattle.std.specs.Prelude.{◌≡◌, [], ◌++◌, IfOk, IfSome};
ghost use Rattle.std.specs.Iterator.{IsFiniteIterable};
ghost use Rattle.gix_revwalk.specs.Reading.{rows_of};
ghost use Rattle.gix_revwalk.specs.Tips.{Draws};
ghost use Rattle.gix_topo.specs.Walk.{fresh_builder, IsFromEnds, Built};

use super::reader::Reader;
use super::walk::Walk;
use super::{Error, Sorting, Topo};
use gix_commitgraph::Graph;
use gix_hash::ObjectId;
use gix_object::find::Find;
use gix_revwalk::{Parents, Predicate, Unfiltered};
use std::alloc::{AllocError, Global};
use std::marker::Model;

/// What a topological walk is built from: a store, tips and ends, and how it goes.
///
/// A fresh one has no tips, no ends and no commit-graph, walks all parents in date order, and gives all commits.
///
/// A walk over what `tip` reaches and `merged` does not, one line of history after the other:
///
/// ```rust
/// pub fn lines_of_history<F: Find + Drop>(
///     alloc: Global,
///     store: F,
///     graph: Option<Graph>,
///     tip: ObjectId,
///     merged: ObjectId,
/// ) -> Result<Topo<F, Unfiltered>, Error> {
///     Builder::new(alloc, store)
///         .with_tips([tip])?
///         .with_ends([merged])?
///         .sorting(Sorting::TopoOrder)
///         .with_commit_graph(graph)
///         .build()
/// }
/// ```
#[derive(Drop)]
pub struct Builder<F, P> {
    find: F,
    predicate: P,
    graph: Option<Graph>,
    parents: Parents,
    sorting: Sorting,
    tips: Vec<ObjectId>,
    ends: Vec<ObjectId>,
    alloc: Global,
}

impl<F, P> Model for Builder<F, P> {
    ghost use Rattle.gix_revwalk.specs.Reading.{rows_of};
    ghost use Rattle.gix_topo.specs.Walk.{TopoBuilder};

    ghost Value = { TopoBuilder F P };

    ghost view = { λ b. record {
      plan = record {
        store = b.find;
        rows = rows_of b.graph;
        parents = b.parents;
        sorting = b.sorting;
        tips = b.tips.items;
        ends = b.ends.items;
      };
      predicate = b.predicate;
    } };
}

impl<F: Find + Drop> Builder<F, Unfiltered> {
    /// A fresh builder of walks over the commits of a store.
    pub fn new(alloc: Global, find: F) -> Self
        ensures { result ≡ fresh_builder find (record {}) [] }
    {
        Builder {
            find,
            predicate: Unfiltered,
            graph: None,
            parents: Parents::All,
            sorting: Sorting::DateOrder,
            tips: Vec::new(alloc),
            ends: Vec::new(alloc),
            alloc,
        }
    }

    /// A fresh builder with these tips and ends.
    ///
    /// # Errors
    ///
    /// `AllocError` when out of memory. The store, the tips and the ends are dropped.
    pub fn from_iters<T: IntoIterator<Item = ObjectId>, E: IntoIterator<Item = ObjectId>>(
        alloc: Global,
        find: F,
        tips: T,
        ends: Option<E>,
    ) -> Result<Self, AllocError>
    where
        T::IntoIter: Drop,
        E::IntoIter: Drop,
        E: Drop,
        requires tips { IsFiniteIterable T.into_iter_gives T.IntoIter.can_next T.IntoIter.remaining tips }
        requires ends { IfSome ends (IsFiniteIterable E.into_iter_gives E.IntoIter.can_next E.IntoIter.remaining) }
        ensures { IfOk result (λ builder. Draws T.into_iter_gives T.IntoIter.next_gives tips
            (λ ids. IsFromEnds E.into_iter_gives E.IntoIter.next_gives find (record {}) ids ends builder)) }
    {
        let builder = Builder::new(alloc, find).with_tips(tips)?;
        match ends {
            Some(ends) => builder.with_ends(ends),
            None => Ok(builder),
        }
    }

    /// The same walks, of which only the commits are given that a predicate accepts. Commits that it refuses are walked too.
    pub fn with_predicate<P: Predicate>(self, predicate: P) -> Builder<F, P>
        ensures { result ≡ record { plan = self.plan; predicate = predicate } }
    {
        let Builder {
            find,
            graph,
            parents,
            sorting,
            tips,
            ends,
            alloc,
            ..
        } = self;
        Builder {
            find,
            predicate,
            graph,
            parents,
            sorting,
            tips,
            ends,
            alloc,
        }
    }
}

impl<F: Find + Drop, P: Predicate + Drop> Builder<F, P> {
    /// More tips, after those of earlier calls. Repeated tips count once, at their first place.
    ///
    /// # Errors
    ///
    /// `AllocError` when out of memory. The builder is dropped.
    pub fn with_tips<T: IntoIterator<Item = ObjectId>>(
        mut self,
        tips: T,
    ) -> Result<Self, AllocError>
    where
        T::IntoIter: Drop,
        requires { IsFiniteIterable T.into_iter_gives T.IntoIter.can_next T.IntoIter.remaining tips }
        ensures { IfOk result (λ builder. Draws T.into_iter_gives T.IntoIter.next_gives tips
            (λ ids. builder ≡ record self { plan = record self.plan { tips = self.plan.tips ++ ids } })) }
    {
        for tip in tips {
            self.tips.push(tip)?;
        }
        Ok(self)
    }

    /// More ends, after those of earlier calls. An end and all that it reaches, by any parent, is read and not given.
    ///
    /// # Errors
    ///
    /// `AllocError` when out of memory. The builder is dropped.
    pub fn with_ends<E: IntoIterator<Item = ObjectId>>(
        mut self,
        ends: E,
    ) -> Result<Self, AllocError>
    where
        E::IntoIter: Drop,
        requires { IsFiniteIterable E.into_iter_gives E.IntoIter.can_next E.IntoIter.remaining ends }
        ensures { IfOk result (λ builder. Draws E.into_iter_gives E.IntoIter.next_gives ends
            (λ ids. builder ≡ record self { plan = record self.plan { ends = self.plan.ends ++ ids } })) }
    {
        for end in ends {
            self.ends.push(end)?;
        }
        Ok(self)
    }

    /// The order, in place of an earlier one.
    pub fn sorting(mut self, sorting: Sorting) -> Self
        ensures { result ≡ record self { plan = record self.plan { sorting = sorting } } }
    {
        self.sorting = sorting;
        self
    }

    /// Which parents of the commits that tips reach are walked, in place of an earlier choice.
    pub fn parents(mut self, parents: Parents) -> Self
        ensures { result ≡ record self { plan = record self.plan { parents = parents } } }
    {
        self.parents = parents;
        self
    }

    /// A commit-graph to read commits from, in place of an earlier one. A commit without a row is read from the store. The first
    /// corrupt row that is read drops the graph.
    pub fn with_commit_graph(mut self, graph: Option<Graph>) -> Self
        ensures { result ≡ record self { plan = record self.plan { rows = rows_of graph } } }
    {
        self.graph = graph;
        self
    }

    /// Reads all that tips and ends reach, as far down as the least generation of these, and makes the tips ready that have no child
    /// in the walk. Without a commit-graph it reads the whole history of tips and ends, however few commits are drawn afterwards, and
    /// keeps an entry in memory for each commit.
    ///
    /// # Errors
    ///
    /// The builder is dropped, and:
    /// - `Find` and `ObjectDecode` where an object can't be read: tips or ends reach it, or it is a parent of a tip that becomes ready
    ///   (where rows disagree with the store, it may be another object). It has no row, unless a corrupt row has dropped the graph, or
    ///   its row says generation 4294967295,
    /// - `Memory` when out of memory.
    pub fn build(self) -> Result<Topo<F, P>, Error>
        ensures { Built F.objects F.faulty P.answers self result }
    {
        let Builder {
            find,
            predicate,
            graph,
            parents,
            sorting,
            tips,
            ends,
            alloc,
        } = self;
        let reader = Reader::new(alloc, find, graph);
        match Walk::begin(reader, sorting, parents, tips, ends) {
            Ok(walk) => Ok(Topo { walk, predicate }),
            Err(fault) => Err(fault),
        }
    }
}
