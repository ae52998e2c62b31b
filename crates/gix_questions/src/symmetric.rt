//! What two commits both reach, as commits to be excluded.
ghost use Rattle.std.specs.Prelude.{◌≡◌, ◌++◌, ◌∷◌, [], IfOk, List, OnOk};
ghost use Rattle.gix_graph_store.specs.WithRows.{with_rows};
ghost use Rattle.gix_hash.specs.declared.ObjectId.{ObjectId};
ghost use Rattle.gix_merge_base.specs.Bases.{FindsBases};
ghost use Rattle.gix_questions.specs.Common.{AreCommon};
ghost use Rattle.gix_revwalk.specs.Agreeing.{rows_in};

use crate::chosen::{Chosen, Pair};
use crate::fault::Fault;
use gix_commitgraph::Graph;
use gix_gather::commits;
use gix_graph_store::WithRows;
use gix_hash::{Keys, ObjectId};
use gix_merge_base::merge_bases;
use gix_object::memory::MemoryStore;
use gix_odb::Odb;
use std::alloc::Global;
use std::fs::Files;
use std::os::unix::fs::FileExt;

impl Chosen {
    /// Excludes the best common ancestors of each pair, from which all is reached that both reach. The commits are those of a store and of
    /// rows.
    ///
    /// # Errors
    ///
    /// `Command` with the first commit that isn't there or is broken, and `Memory`. Nothing more is excluded then.
    pub fn exclude_common(
        &mut self,
        alloc: Global,
        store: &MemoryStore<'_>,
        graph: Option<&Graph>,
    ) -> Result<(), Fault>
        ensures hidden { OnOk result ((ids : List ObjectId) × AreCommon store.now (rows_in graph.entry) self.old.pairs.items ids
            × (self.new.hidden.items ≡ self.old.hidden.items ++ ids)) }
        ensures others { self.new ≡ record self.old { hidden = self.new.hidden } }
    {
        let ids = common_of_all(alloc, self.pairs.as_slice(), store, graph)?;
        self.hidden.extend_from_slice(ids.as_slice())?;
        Ok(())
    }

    /// The same over the commits of a repository, of which those are read that the ids reach.
    ///
    /// # Errors
    ///
    /// Those of [`exclude_common`](Chosen::exclude_common), and `Object` where a commit can't be read.
    pub fn exclude_read<R>(
        &mut self,
        alloc: Global,
        keys: Keys,
        odb: &mut Odb<R>,
    ) -> Result<(), Fault>
    where
        R: Files + AllocGlobal + Clone + Drop,
        R::File: FileExt,
    {
        if self.pairs.is_empty() {
            return Ok(());
        }
        let ids = self.all(alloc)?;
        let objects = commits(alloc, keys, odb, ids.as_slice(), None)?;
        self.exclude_common(alloc, objects.store(), None)
    }
}

/// The best common ancestors of each pair, one after the other.
fn common_of_all(
    alloc: Global,
    pairs: &[Pair],
    store: &MemoryStore<'_>,
    graph: Option<&Graph>,
) -> Result<Vec<ObjectId>, Fault>
    ensures { IfOk result (λ ids. AreCommon store.now (rows_in graph.entry) pairs.now ids.items) }
{
    let mut all = Vec::new(alloc);
    for pair in pairs {
        let ids = common(alloc, *pair, store, graph)?;
        all.extend_from_slice(ids.as_slice())?;
    }
    Ok(all)
}

/// The best common ancestors of a pair.
fn common(
    alloc: Global,
    pair: Pair,
    store: &MemoryStore<'_>,
    graph: Option<&Graph>,
) -> Result<Vec<ObjectId>, Fault>
    ensures { IfOk result (λ ids. FindsBases (with_rows (rows_in graph.entry) store.now) (rows_in graph.entry) pair.one (pair.other ∷ []) ids.items) }
{
    let objects = WithRows::new(store, graph);
    match merge_bases(alloc, pair.one, &[pair.other], &objects, graph) {
        Ok(ids) => Ok(ids),
        Err(error) => Err(Fault::Command(gix_words::Fault::from(error))),
    }
}
