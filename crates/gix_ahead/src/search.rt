//! The search from both commits, the newest first, which marks by which of them each commit is reached.
ghost use Rattle.std.specs.Prelude.{◌≡◌, ◌∷◌, [], length, filter, IfOk, IfErr};
ghost use Rattle.gix_ahead.specs.Inside.Search.{One, Other, covers, is_alone, united, IsWaitingFor, MarksReached, MarkFails, Meets, MeetFails, Tallies, reached_at};
ghost use Rattle.gix_paint.specs.Reading.{FailsAt};

use crate::AheadBehind;
use gix_hash::ObjectId;
use gix_hash::hashtable::IdMap;
use gix_object::find::Find;
use gix_paint::Hidden;
use gix_revwalk::ParentIds;
use gix_revwalk::queue::PriorityQueue;
use gix_revwalk::read::Header;
use gix_revwalk::source::Source;
use std::alloc::{AllocError, Global};

/// Which of the two commits were found to reach an id.
#[derive(Clone, Copy)]
pub(super) struct Reached {
    one: bool,
    other: bool,
}

impl Reached {
    /// Whether the other says nothing more.
    fn covers(self, by: Reached) -> bool
        ensures { result ≡ covers self by }
    {
        (self.one || !by.one) && (self.other || !by.other)
    }

    /// What both say.
    fn united(self, by: Reached) -> Reached
        ensures { result ≡ united self by }
    {
        Reached {
            one: self.one || by.one,
            other: self.other || by.other,
        }
    }
}

/// A commit whose parents are to be met.
#[derive(Drop)]
struct Waiting {
    id: ObjectId,
    parent_ids: ParentIds,
}

/// The commit of an id, with its parents and by its time, from the store.
fn look_up<F: Find>(source: &mut Source<&F>, id: ObjectId) -> Result<(i64, Waiting), Hidden>
    ensures objects { source.new.objects ≡ source.old.objects }
    ensures read { IfOk result (IsWaitingFor (F.objects source.old.objects.now) id) }
    ensures fault { IfErr result (FailsAt (F.objects source.old.objects.now) (F.faulty source.old.objects.now) id) }
{
    let Header { parent_ids, time } = source.header(&id)?;
    Ok((time?, Waiting { id, parent_ids }))
}

/// By which of the two commits an id was found to be reached.
fn reached_by(marks: &IdMap<Reached>, id: &ObjectId) -> Reached
    ensures { result ≡ reached_at marks.now id.now }
{
    match marks.get(id) {
        Some(reached) => *reached,
        None => Reached {
            one: false,
            other: false,
        },
    }
}

/// What was met, and what waits.
#[derive(Drop)]
struct Search<'a, F> {
    source: Source<&'a F>,
    /// Each id that was met.
    marks: IdMap<Reached>,
    /// The newest is taken first, so few commits wait twice: once both marks have met they go on together.
    queue: PriorityQueue<i64, Waiting>,
}

impl<'a, F: Find> Search<'a, F> {
    /// Meets an id that is reached so. If that is news its commit is read, and waits.
    fn meet(&mut self, id: ObjectId, by: Reached) -> Result<(), Hidden>
        ensures ok { IfOk result (λ _. Meets F.objects by (id ∷ []) self.old self.new) }
        ensures fault { IfErr result (MeetFails F.objects F.faulty (id ∷ []) self.old) }
    {
        let old = reached_by(&self.marks, &id);
        if old.covers(by) {
            return Ok(());
        }
        self.marks.insert(id, old.united(by))?;
        let (time, waiting) = look_up(&mut self.source, id)?;
        self.queue.insert(time, waiting)?;
        Ok(())
    }

    /// Meets ids that are reached so, in order.
    fn meet_all(&mut self, mut ids: &[ObjectId], by: Reached) -> Result<(), Hidden>
        ensures ok { IfOk result (λ _. Meets F.objects by ids.entry.now self.old self.new) }
        ensures fault { IfErr result (MeetFails F.objects F.faulty ids.entry.now self.old) }
    {
        while let Some((id, rest)) = ids.split_first() {
            self.meet(*id, by)?;
            ids = rest;
        }
        Ok(())
    }

    /// Meets the parents of a commit that waited, by all that was found to reach it meanwhile.
    fn follow(&mut self, waiting: Waiting) -> Result<(), Hidden>
        ensures ok { IfOk result (λ _. Meets F.objects (reached_at self.old.marks waiting.id) waiting.parent_ids.items self.old self.new) }
        ensures fault { IfErr result (MeetFails F.objects F.faulty waiting.parent_ids.items self.old) }
    {
        let by = reached_by(&self.marks, &waiting.id);
        self.meet_all(waiting.parent_ids.as_slice(), by)
    }
}

/// All that the two commits reach, and by which of them.
pub(super) fn marked<F: Find>(
    alloc: Global,
    one: ObjectId,
    other: ObjectId,
    objects: &F,
) -> Result<IdMap<Reached>, Hidden>
    ensures ok { IfOk result (MarksReached (F.objects objects.now) one other) }
    ensures fault { IfErr result (MarkFails (F.objects objects.now) (F.faulty objects.now) one other) }
{
    let mut search = Search {
        source: Source::new(alloc, objects, None),
        marks: IdMap::new(alloc, objects.keys()),
        queue: PriorityQueue::new(alloc),
    };
    let by_one = Reached {
        one: true,
        other: false,
    };
    search.meet(one, by_one)?;
    let by_other = Reached {
        one: false,
        other: true,
    };
    search.meet(other, by_other)?;
    while let Some((_, waiting)) = search.queue.pop() {
        search.follow(waiting)?;
    }
    let Search { marks, .. } = search;
    Ok(marks)
}

/// How many of the ids only the one commit reaches, and how many only the other.
fn alone_among(marks: &IdMap<Reached>, ids: &[ObjectId]) -> AheadBehind
    ensures ahead { result.ahead ≡ length (filter (is_alone marks.now One Other) ids.now) }
    ensures behind { result.behind ≡ length (filter (is_alone marks.now Other One) ids.now) }
{
    let mut ahead: usize = 0;
    let mut behind: usize = 0;
    for id in ids {
        let Reached { one, other } = reached_by(marks, id);
        if one && !other {
            ahead += 1;
        }
        if other && !one {
            behind += 1;
        }
    }
    AheadBehind { ahead, behind }
}

/// How many of all that was met only the one commit reaches, and how many only the other.
pub(super) fn tally(alloc: Global, marks: &IdMap<Reached>) -> Result<AheadBehind, AllocError>
    ensures { IfOk result (λ n. Tallies marks.now n.ahead n.behind) }
{
    let ids = marks.ids(alloc)?;
    Ok(alone_among(marks, ids.as_slice()))
}
