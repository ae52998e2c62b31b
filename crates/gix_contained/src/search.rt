//! The search from tips through parents, which ends as soon as it is known which ids they reach.
ghost use Rattle.std.specs.Prelude.{◌≡◌, ◌≤◌, ◌⊎◌, ◌∷◌, [], List, Contains, true, false, IfOk, IfErr, IfSome, IfNone};
ghost use Rattle.std.specs.FinSet as set;
ghost use Rattle.gix_hash.specs.declared.ObjectId.{ObjectId};
ghost use Rattle.gix_revwalk.specs.Agreeing.{rows_in};
ghost use Rattle.gix_contained.specs.Inside.Search.{AskFails, AskedId, AreAsked, AreLookedUp, IsLowest, Decides, SearchFails, Meets, MeetFails, Follows, FollowFails};

use crate::waiting::{Key, Waiting, look_up};
use gix_commitgraph::Graph;
use gix_hash::ObjectId;
use gix_hash::hashtable::IdSet;
use gix_object::find::Find;
use gix_paint::Hidden;
use gix_paint::source::Named;
use gix_revwalk::queue::PriorityQueue;
use gix_revwalk::row::{NOWHERE, Near, copy_of};
use gix_revwalk::source::Source;
use std::alloc::Global;
use std::cmp::Reverse;

/// Ids that are asked about, by their generations. The least comes first.
pub(super) type AskedIds = PriorityQueue<Reverse<u32>, ObjectId>;

/// Looks up each id that is asked about.
pub(super) fn look_up_all<'a, F: Find>(
    alloc: Global,
    objects: &'a F,
    graph: Option<&'a Graph>,
    ids: &[ObjectId],
) -> Result<AskedIds, Hidden>
    ensures ok { IfOk result (AreLookedUp (F.objects objects.now) (rows_in graph.entry) ids.now) }
    ensures fault { IfErr result (AskFails (F.objects objects.now) (F.faulty objects.now) (rows_in graph.entry) ids.now) }
{
    let graph = copy_of(graph)?;
    let mut source = Source::new(alloc, objects, graph);
    let mut asked = AskedIds::new(alloc);
    for id in ids {
        let (key, _) = look_up(&mut source, *id, NOWHERE)?;
        asked.insert(Reverse(key.generation), *id)?;
    }
    Ok(asked)
}

/// The lowest generation of the ids that weren't met, and None where all were. Ids that were met are taken out until such an id is first.
fn lowest_left(asked: &mut AskedIds, met: &IdSet) -> Option<u32>
    ensures left { (q : AskedId) → Contains asked.old q → (set.contains met.now q.1 ≡ true) ⊎ Contains asked.new q }
    ensures within { (q : AskedId) → Contains asked.new q → Contains asked.old q }
    ensures none { IfNone result (asked.new ≡ []) }
    ensures some { IfSome result (IsLowest asked.new met.now) }
{
    while let Some((generation, id)) = asked.peek() {
        if !met.contains(id) {
            return Some(generation.0);
        }
        let _ = asked.pop();
    }
    None
}

/// What was met, and what waits.
#[derive(Drop)]
struct Search<'a, F> {
    source: Source<&'a F>,
    /// Ids that the tips were found to reach.
    met: IdSet,
    queue: PriorityQueue<Key, Waiting>,
}

impl<'a, F: Find> Search<'a, F> {
    /// Meets an id that the tips reach. If it is new it waits.
    fn meet(&mut self, id: ObjectId, near: u32) -> Result<(), Hidden>
        ensures ok { IfOk result (λ _. Meets F.objects (id ∷ []) self.old self.new) }
        ensures fault { IfErr result (MeetFails F.objects F.faulty (id ∷ []) self.old) }
    {
        if !self.met.insert(id)? {
            return Ok(());
        }
        let (key, waiting) = look_up(&mut self.source, id, near)?;
        self.queue.insert(key, waiting)?;
        Ok(())
    }

    /// Meets ids that the tips reach, in order.
    fn meet_all(&mut self, mut ids: &[ObjectId], mut near: Near) -> Result<(), Hidden>
        ensures ok { IfOk result (λ _. Meets F.objects ids.entry.now self.old self.new) }
        ensures fault { IfErr result (MeetFails F.objects F.faulty ids.entry.now self.old) }
    {
        while let Some((id, rest)) = ids.split_first() {
            self.meet(*id, near.next())?;
            ids = rest;
        }
        Ok(())
    }

    /// Meets the parents of a commit that waited.
    fn follow(&mut self, waiting: Waiting) -> Result<(), Hidden>
        ensures ok { IfOk result (λ _. Follows F.objects waiting self.old self.new) }
        ensures fault { IfErr result (FollowFails F.objects F.faulty waiting self.old) }
    {
        let Named { parent_ids, near } = waiting.parents(&mut self.source)?;
        self.meet_all(parent_ids.as_slice(), near)
    }
}

/// Of what the tips reach, enough to tell which of the ids that are asked about is among it. Each tip is looked up. Then parents are met,
/// those of the newest commits first, or of the greatest generations where they have rows, until all ids were met. Below the generation of
/// each id that is left nothing is read.
pub(super) fn reached<'a, F: Find>(
    alloc: Global,
    objects: &'a F,
    graph: Option<&'a Graph>,
    tips: &[ObjectId],
    mut asked: AskedIds,
) -> Result<IdSet, Hidden>
    ensures ok { IfOk result (λ met. (ids : List ObjectId) → AreAsked (rows_in graph.entry) ids asked
        → Decides (F.objects objects.now) (rows_in graph.entry) tips.now ids met) }
    ensures fault { IfErr result (λ why. (ids : List ObjectId) → AreAsked (rows_in graph.entry) ids asked
        → SearchFails (F.objects objects.now) (F.faulty objects.now) (rows_in graph.entry) tips.now ids why) }
{
    let graph = copy_of(graph)?;
    let mut search = Search {
        source: Source::new(alloc, objects, graph),
        met: IdSet::new(alloc, objects.keys()),
        queue: PriorityQueue::new(alloc),
    };
    search.meet_all(tips, Near::nowhere())?;
    while let Some(lowest) = lowest_left(&mut asked, &search.met) {
        let Some((key, waiting)) = search.queue.pop() else {
            break;
        };
        if key.generation >= lowest {
            search.follow(waiting)?;
        }
    }
    let Search { met, .. } = search;
    Ok(met)
}
