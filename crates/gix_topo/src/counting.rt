//! Counts the indegree of each commit that tips reach, as far down as is needed.
ghost use Rattle.std.specs.Prelude.{◌≡◌, IfOk, IfErr, OnOk, false, true, cond, ◌+◌, ◌||◌};
ghost use Rattle.gix_topo.specs.Depth.{least};
ghost use Rattle.gix_revwalk.specs.Commits.{by_mode};
ghost use Rattle.gix_topo.specs.TopoOrder.{last_places};
ghost use Rattle.gix_revwalk.specs.Reading.{rows_of};
ghost use Rattle.gix_topo.specs.Reading.{ReadFails, LookUpFails};
ghost use Rattle.gix_topo.specs.Inside.Exploring.{is_pending, Follows, ReadsParents, Steps, IsStepFault, IsSamePlan, Explores, IsExploringFault, IsRested};

use super::Error;
use super::reader::Reader;
use gix_commitgraph::GENERATION_NUMBER_INFINITY;
use gix_frontier::{Frontier, Side, Waiting};
use gix_hash::hashtable::IdSet;
use gix_hash::{Keys, ObjectId};
use gix_object::find::Find;
use gix_revwalk::row::{NOWHERE, Near};
use gix_revwalk::{Info, ParentIds, Parents};
use std::alloc::{AllocError, Global};
use std::collections::VecDeque;

/// The searches of both sides, and how far down they have come.
#[derive(Drop)]
pub(super) struct Counting<F: Find> {
    pub(super) reader: Reader<F>,
    pub(super) parents: Parents,
    pub(super) frontier: Frontier,
    /// As long as the rows are in use, no id of a lesser generation is read.
    pub(super) depth: u32,
    /// The number of different ids whose parents were read.
    pub(super) expanded: usize,
}

/// Of a commit's parents, those that are walked.
pub(super) fn walked(parents: Parents, ids: &[ObjectId]) -> &[ObjectId]
    ensures { result.now ≡ by_mode parents ids.now }
{
    match (parents, ids) {
        (Parents::First, [_, _, ..]) => &ids[..1],
        _ => ids,
    }
}

/// So many parents are compared with one another. Where there are more, a set has those that were met.
const FEW: usize = 8;

/// Each id of a list at its last place, by comparing each with those after it.
fn last_places_of_few(alloc: Global, mut ids: &[ObjectId]) -> Result<ParentIds, AllocError>
    ensures { IfOk result (λ places. places.items ≡ last_places ids.entry.now) }
{
    let mut places = ParentIds::new(alloc);
    while let Some((id, rest)) = ids.split_first() {
        ids = rest;
        if rest.contains(id) {
            continue;
        }
        places.push(*id)?;
    }
    Ok(places)
}

/// Each id of a list at its last place, from the back.
fn last_places_of_many(
    alloc: Global,
    keys: Keys,
    mut ids: &[ObjectId],
) -> Result<VecDeque<ObjectId>, AllocError>
where
    ensures { IfOk result (λ places. places.items ≡ last_places ids.entry.now) }
{
    let mut places = VecDeque::new(alloc);
    let mut later = IdSet::new(alloc, keys);
    while let Some((id, rest)) = ids.split_last() {
        ids = rest;
        if later.contains(id) {
            continue;
        }
        places.push_front(*id)?;
        if !rest.is_empty() {
            later.insert(*id)?;
        }
    }
    Ok(places)
}

/// Each id of a list at its last place. A list of at most one id takes no memory.
pub(super) fn last_places(
    alloc: Global,
    keys: Keys,
    ids: &[ObjectId],
) -> Result<ParentIds, AllocError>
    ensures { IfOk result (λ places. places.items ≡ last_places ids.now) }
{
    if ids.len() <= FEW {
        return last_places_of_few(alloc, ids);
    }
    let mut places = last_places_of_many(alloc, keys, ids)?;
    Ok(ParentIds::from_slice(alloc, places.make_contiguous())?)
}

impl<F: Find + Drop> Counting<F> {
    ghost use Rattle.std.specs.Prelude.{IfErr};
    ghost use Rattle.gix_topo.specs.declared.Sorting.{Sorting};
    ghost use Rattle.gix_topo.specs.Inside.Releasing.{FailsAmong, HasRowedParents, LooksUpAll, LooksUpParent, plan_over};
    ghost use Rattle.gix_topo.specs.Inside.Starting.{HasBegun, MeetsAll};
    ghost use Rattle.gix_topo.specs.Walk.{IsBuildFault};

    /// A side starts from these.
    fn meet_all(&mut self, mut ids: &[ObjectId], side: Side) -> Result<(), AllocError>
        ensures same { self.new ≡ record self.old { frontier = self.new.frontier } }
        ensures meets { OnOk result (MeetsAll (rows_of self.old.reader.graph) side self.old.frontier ids.entry.now self.new.frontier) }
    {
        while let Some((id, rest)) = ids.split_first() {
            let generation = self.reader.generation(id, NOWHERE);
            self.frontier.meet(generation, *id, side, NOWHERE)?;
            ids = rest;
        }
        Ok(())
    }

    /// The searches from tips and ends, as far down as the least generation of these.
    pub(super) fn begin(
        reader: Reader<F>,
        parents: Parents,
        tips: &[ObjectId],
        ends: &[ObjectId],
    ) -> Result<Counting<F>, Error>
    where
        requires { reader.in_use ≡ true }
        ensures begun { (sorting : Sorting)
            → IfOk result (HasBegun F.objects F.faulty (plan_over reader parents sorting tips.now ends.now)) }
        ensures fault { (sorting : Sorting)
            → IfErr result (IsBuildFault F.objects F.faulty (plan_over reader parents sorting tips.now ends.now)) }
    {
        let mut counting = Counting {
            frontier: Frontier::new(reader.source.alloc, reader.source.objects.keys()),
            reader,
            parents,
            depth: GENERATION_NUMBER_INFINITY,
            expanded: 0,
        };
        counting.meet_all(tips, Side::Tips)?;
        counting.meet_all(ends, Side::Ends)?;
        counting.lower(ends, Near::nowhere());
        counting.lower(tips, Near::nowhere());
        counting.explore()?;
        Ok(counting)
    }

    /// The parents of the commit that was read last, and whose parents a side goes to, are met.
    fn follow(&mut self, mut ids: &[ObjectId], side: Side) -> Result<(), AllocError>
        ensures same { self.new ≡ record self.old { frontier = self.new.frontier } }
        ensures follows { OnOk result (Follows (rows_of self.old.reader.graph) side self.old.frontier ids.entry.now self.new.frontier) }
    {
        let mut near = self.reader.near;
        while let Some((id, rest)) = ids.split_first() {
            let place = near.next();
            let generation = self.reader.generation(id, place);
            self.frontier.meet_parent(generation, *id, side, place)?;
            ids = rest;
        }
        Ok(())
    }

    /// The parents of a commit that a side goes to, each at its last place. `near` is where to look first for its row.
    fn read(&mut self, id: &ObjectId, side: Side, near: u32) -> Result<ParentIds, Error>
        ensures same { self.new ≡ record self.old { reader = record self.old.reader { in_use = self.new.reader.in_use } } }
        ensures reads { IfOk result (λ ids. ReadsParents F.objects F.faulty self.old id.now side ids.items self.new.reader.in_use) }
        ensures fault { IfErr result (ReadFails (F.objects self.old.reader.find) (F.faulty self.old.reader.find)
            (rows_of self.old.reader.graph) self.old.reader.in_use id.now) }
    {
        let info = self.reader.read(id, near)?;
        if info.parent_ids.len() <= 1 {
            return Ok(info.parent_ids);
        }
        let mode = match side {
            Side::Tips => self.parents,
            Side::Ends => Parents::All,
        };
        let keys = self.reader.source.objects.keys();
        let parents = walked(mode, info.parent_ids.as_slice());
        Ok(last_places(self.reader.source.alloc, keys, parents)?)
    }

    /// Looks a parent up, unless the rows are in use and it has a row or a search has read it.
    ///
    /// # Errors
    ///
    /// Why it can't be read.
    pub(super) fn look_up_parent(&mut self, id: &ObjectId) -> Result<(), Error>
        ensures same { self.new ≡ self.old }
        ensures known { OnOk result (LooksUpParent (F.objects self.old.reader.find) (rows_of self.old.reader.graph) self.old.reader.in_use
            self.old.frontier id.now) }
        ensures fault { IfErr result (LookUpFails (F.objects self.old.reader.find) (F.faulty self.old.reader.find)
            (rows_of self.old.reader.graph) self.old.reader.in_use id.now) }
    {
        if self.reader.source.in_use && self.frontier.known(id).is_done() {
            return Ok(());
        }
        self.reader.look_up(id)
    }

    /// Looks the parents of a commit up, unless it was read by its row: then each of them has a row.
    ///
    /// # Errors
    ///
    /// Why the first of them that can't be read can't.
    pub(super) fn look_up_parents(&mut self, info: &Info) -> Result<(), Error>
        requires { HasRowedParents (F.objects self.old.reader.find) (rows_of self.old.reader.graph) self.old.reader.in_use info.now }
        ensures same { self.new ≡ self.old }
        ensures known { OnOk result (LooksUpAll (F.objects self.old.reader.find) (rows_of self.old.reader.graph) self.old.reader.in_use
            self.old.frontier info.now.parent_ids.items) }
        ensures fault { IfErr result (FailsAmong (F.objects self.old.reader.find) (F.faulty self.old.reader.find)
            (rows_of self.old.reader.graph) self.old.reader.in_use info.now.parent_ids.items) }
    {
        if info.generation.is_some() {
            return Ok(());
        }
        for parent in info.parent_ids.as_slice() {
            self.look_up_parent(parent)?;
        }
        Ok(())
    }

    /// One id more whose parents were read, unless a side had read them before.
    ///
    /// # Errors
    ///
    /// A number that no memory could hold is out of memory.
    fn count(&mut self, was_done: bool) -> Result<(), AllocError>
        ensures same { self.new ≡ record self.old { expanded = self.new.expanded } }
        ensures expanded { OnOk result (self.new.expanded ≡ self.old.expanded + cond was_done 0 1) }
    {
        if was_done {
            return Ok(());
        }
        match self.expanded.checked_add(1) {
            Some(expanded) => self.expanded = expanded,
            None => return Err(AllocError),
        }
        Ok(())
    }

    /// Reads the parents of a queued id of greatest generation.
    fn step(&mut self) -> Result<(), Error>
        requires { is_pending self.old.reader.in_use self.old.depth self.old.frontier.queue ≡ true }
        ensures same { IsSamePlan F.objects F.faulty self.old self.new }
        ensures steps { OnOk result (Steps F.objects F.faulty self.old self.new) }
        ensures fault { IfErr result (IsStepFault F.objects F.faulty self.old) }
    {
        let Some((_, waiting)) = self.frontier.queue.pop() else {
            return Ok(());
        };
        let Waiting { id, side, near } = waiting;
        let ids = self.read(&id, side, near)?;
        self.follow(ids.as_slice(), side)?;
        let was_done = self.frontier.finish(id, side)?;
        self.count(was_done)?;
        Ok(())
    }

    /// Whether exploring must go on.
    fn is_pending(&self) -> bool
        ensures pending { result ≡ is_pending self.now.reader.in_use self.now.depth self.now.frontier.queue }
        ensures rested { result ≡ false → IsRested self.now.reader.in_use self.now.depth self.now.frontier.queue }
    {
        match self.frontier.queue.peek() {
            Some((generation, _)) => !self.reader.source.in_use || self.depth <= *generation,
            None => false,
        }
    }

    /// Lowers the depth to the least generation of some ids, where that is lower. `near` is where to look first for their rows.
    pub(super) fn lower(&mut self, mut ids: &[ObjectId], mut near: Near)
        ensures { self.new ≡ record self.old { depth = least (rows_of self.old.reader.graph) self.old.depth ids.entry.now } }
    {
        while let Some((id, rest)) = ids.split_first() {
            self.depth = self.depth.min(self.reader.generation(id, near.next()));
            ids = rest;
        }
    }

    /// Reads parents as long as an id waits that isn't below the depth; once the rows were dropped, as long as any id waits.
    ///
    /// # Errors
    ///
    /// Why one of them can't be read.
    pub(super) fn explore(&mut self) -> Result<(), Error>
        ensures same { IsSamePlan F.objects F.faulty self.old self.new }
        ensures explores { OnOk result (Explores F.objects F.faulty self.old self.new) }
        ensures rested { OnOk result (IsRested self.new.reader.in_use self.new.depth self.new.frontier.queue) }
        ensures fault { IfErr result (IsExploringFault F.objects F.faulty self.old) }
    {
        while self.is_pending() {
            self.step()?;
        }
        Ok(())
    }
}
