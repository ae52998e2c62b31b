//! A topological walk: how it begins, and how it takes a commit.
ghost use Rattle.std.specs.Prelude.{◌≡◌, ◌∷◌, List, true, IfOk, OnOk, IfErr};
ghost use Rattle.gix_hash.specs.declared.ObjectId.{ObjectId};
ghost use Rattle.gix_frontier.specs.Inside.Frontier.{is_due};
ghost use Rattle.gix_topo.specs.Inside.ReadySet.{as_ready};

use super::counting::{Counting, last_places, walked};
use super::reader::Reader;
use super::ready::{ReadyCommit, ReadySet};
use super::{Error, Sorting};
use gix_frontier::{Known, Progress, Side};
use gix_hash::ObjectId;
use gix_object::find::Find;
use gix_revwalk::row::{NOWHERE, Near};
use gix_revwalk::{Info, Parents};

/// What a walk holds, apart from its predicate.
#[derive(Drop)]
pub(super) struct Walk<F: Find> {
    pub(super) counting: Counting<F>,
    pub(super) tips: Vec<ObjectId>,
    pub(super) ends: Vec<ObjectId>,
    pub(super) ready: ReadySet,
}

/// Whether a commit becomes ready: it has no child left, was never ready, and the ends' search hasn't seen it.
pub(super) fn is_due(left: usize, known: &Known) -> bool
    ensures { result ≡ is_due left known.now }
{
    left == 0 && !known.was_ready() && matches!(known.progress(Side::Ends), Progress::Unseen)
}

impl<F: Find + Drop> Walk<F> {
    ghost use Rattle.gix_topo.specs.Inside.Releasing.{plan_of, plan_over, Pushes, IsPushFault, Releases, IsReleaseFault, ReleasesAll, IsFaultAmong, TakesOne, IsTakingFault};
    ghost use Rattle.gix_topo.specs.Inside.Starting.{Starts, StartsAll, IsStartFault, IsBegunWalk};
    ghost use Rattle.gix_topo.specs.Inside.Steady.{IsOpen, TakesNext};
    ghost use Rattle.gix_topo.specs.Walk.{Ready, IsBuildFault};

    /// A commit whose children were all taken is read, and becomes ready. Where it wasn't read by its row, all its parents are looked up,
    /// also those that aren't walked. `near` is where to look first for its row.
    ///
    /// # Errors
    ///
    /// Why it, or a parent of it, can't be read.
    pub(super) fn push(&mut self, id: &ObjectId, near: u32) -> Result<(), Error>
        ensures pushes { OnOk result ((r : Ready) × Pushes F.objects F.faulty self.old id.now r self.new) }
        ensures fault { IfErr result (IsPushFault F.objects F.faulty self.old id.now) }
        ensures same { plan_of self.new ≡ plan_of self.old }
    {
        let info = self.counting.reader.read(id, near)?;
        let near = self.counting.reader.near;
        self.counting.look_up_parents(&info)?;
        let time = info.commit_time.unwrap_or(0);
        let Info {
            id,
            parent_ids,
            generation,
            ..
        } = info;
        let commit = ReadyCommit {
            id,
            parent_ids,
            generation,
            time,
            near,
        };
        self.counting.frontier.mark_ready(id)?;
        self.ready.push(commit)?;
        Ok(())
    }

    /// A tip becomes ready where it has no child and no end reaches it.
    fn start(&mut self, id: &ObjectId) -> Result<(), Error>
        ensures starts { OnOk result ((added : List Ready) × Starts F.objects F.faulty self.old id.now added self.new) }
        ensures fault { (ids : List ObjectId) → IfErr result (IsStartFault F.objects F.faulty self.old (id.now ∷ ids)) }
        ensures same { plan_of self.new ≡ plan_of self.old }
    {
        let known = self.counting.frontier.known(id);
        if !is_due(known.indegree(), &known) {
            return Ok(());
        }
        self.push(id, NOWHERE)
    }

    /// Each tip, in order.
    fn start_all(&mut self) -> Result<(), Error>
        ensures starts { OnOk result ((added : List Ready) × StartsAll F.objects F.faulty self.old self.old.tips.items added self.new) }
        ensures fault { IfErr result (IsStartFault F.objects F.faulty self.old self.old.tips.items) }
        ensures same { plan_of self.new ≡ plan_of self.old }
    {
        for index in 0..self.tips.len() {
            let id = self.tips[index];
            self.start(&id)?;
        }
        Ok(())
    }

    /// Counts as far down as tips and ends lie, and makes the tips ready that have no child and that no end reaches, by rising time.
    pub(super) fn begin(
        reader: Reader<F>,
        sorting: Sorting,
        parents: Parents,
        tips: Vec<ObjectId>,
        ends: Vec<ObjectId>,
    ) -> Result<Walk<F>, Error>
    where
        requires { reader.in_use ≡ true }
        ensures begun { IfOk result (IsBegunWalk F.objects F.faulty (plan_over reader parents sorting tips.items ends.items)) }
        ensures fault { IfErr result (IsBuildFault F.objects F.faulty (plan_over reader parents sorting tips.items ends.items)) }
    {
        let alloc = reader.source.alloc;
        let counting = Counting::begin(reader, parents, tips.as_slice(), ends.as_slice())?;
        let mut walk = Walk {
            counting,
            tips,
            ends,
            ready: ReadySet::new(sorting, alloc),
        };
        walk.start_all()?;
        walk.ready.sort_by_rising_time(alloc)?;
        Ok(walk)
    }

    /// A parent of a taken commit, at its last place: it has a child less, and becomes ready where that was the last one. `near` is where
    /// to look first for its row.
    fn release(&mut self, id: &ObjectId, near: u32) -> Result<(), Error>
        ensures releases { OnOk result ((added : List Ready) × Releases F.objects F.faulty self.old id.now added self.new) }
        ensures fault { IfErr result (IsReleaseFault F.objects F.faulty self.old id.now) }
        ensures same { plan_of self.new ≡ plan_of self.old }
    {
        let Some(left) = self.counting.frontier.uncount(id) else {
            return Err(Error::MissingIndegreeUnexpected);
        };
        if !is_due(left.indegree(), &left) {
            return Ok(());
        }
        self.push(id, near)
    }

    /// The parents of a taken commit, each at its last place.
    fn release_all(&mut self, mut ids: &[ObjectId], mut near: Near) -> Result<(), Error>
        ensures releases { OnOk result ((added : List Ready) × ReleasesAll F.objects F.faulty self.old ids.entry.now added self.new) }
        ensures fault { IfErr result (IsFaultAmong F.objects F.faulty self.old ids.entry.now) }
        ensures same { plan_of self.new ≡ plan_of self.old }
    {
        while let Some((id, rest)) = ids.split_first() {
            self.release(id, near.next())?;
            ids = rest;
        }
        Ok(())
    }

    /// A commit whose turn it is: counting goes on to the depth of its parents, and they have a child less.
    fn take(&mut self, commit: &ReadyCommit) -> Result<(), Error>
        ensures takes { OnOk result ((added : List Ready) × TakesOne F.objects F.faulty self.old (as_ready commit.now) added self.new) }
        ensures fault { IfErr result (IsTakingFault F.objects F.faulty self.old (as_ready commit.now)) }
        ensures same { plan_of self.new ≡ plan_of self.old }
    {
        let named = walked(self.counting.parents, commit.parent_ids.as_slice());
        self.counting.lower(named, commit.near);
        self.counting.explore()?;
        if named.len() <= 1 {
            return self.release_all(named, commit.near);
        }
        let keys = self.counting.reader.source.objects.keys();
        let ids = last_places(self.counting.reader.source.alloc, keys, named)?;
        self.release_all(ids.as_slice(), commit.near)
    }

    /// Takes the ready commit whose turn it is. After a fault none is ready.
    pub(super) fn take_next(&mut self) -> Option<Result<Info, Error>>
        requires { IsOpen F.objects F.faulty self.old }
        ensures takes { TakesNext F.objects F.faulty self.old result self.new }
        ensures open { IsOpen F.objects F.faulty self.new }
    {
        let commit = self.ready.pop()?;
        if let Err(fault) = self.take(&commit) {
            self.ready.clear();
            return Some(Err(fault));
        }
        Some(Ok(commit.into_info()))
    }
}
