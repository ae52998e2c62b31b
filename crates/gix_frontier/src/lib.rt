//! Two searches over one queue: what tips reach by the parents that are walked, and what ends reach by any.
#![tactic(auto)]

ghost use Rattle.std.specs.Prelude.{◌≡◌, ◌+◌, OnOk, IfOk, IfSome, IfNone, [], List};
ghost use Rattle.std.specs.FinMap as map;
ghost use Rattle.gix_frontier.specs.Inside.Frontier.{known_of, Meets, Uncounts, MarksReady, MeetsParent, Finishes};

use bitflags::{Flag, Flags, bitflag_items};
use gix_hash::hashtable::IdMap;
use gix_hash::{Keys, ObjectId};
use gix_revwalk::queue::PriorityQueue;
use std::alloc::{AllocError, Global};
use std::marker::Model;

/// Which search met an id.
#[derive(Clone, Copy)]
pub enum Side {
    /// The search from the tips, by the parents that are walked.
    Tips,
    /// The search from the ends, by all parents.
    Ends,
}

/// How far a search has come with an id.
#[derive(Clone, Copy)]
pub enum Progress {
    /// It hasn't met it.
    Unseen,
    /// It waits in the queue.
    Queued,
    /// Its parents were read.
    Done,
}

/// What was done with an id. One that a side met waits in the queue until the side has done it.
#[derive(Clone, Copy)]
struct Marks(u8);

bitflag_items! {
    impl Marks: u8 {
        const TIPS_MET = 1;
        const TIPS_DONE = 2;
        const ENDS_MET = 4;
        const ENDS_DONE = 8;
        const WAS_READY = 16;
    }
}

impl Flags for Marks {
    ghost use Rattle.std.specs.Prelude.{⊤, codes, ◌∷◌, []};

    type Bits = u8;

    ghost exact = { ⊤ };

    ghost table = { (codes "TIPS_MET", 1) ∷ (codes "TIPS_DONE", 2) ∷ (codes "ENDS_MET", 4) ∷ (codes "ENDS_DONE", 8)
        ∷ (codes "WAS_READY", 16) ∷ [] };

    ghost set_of = { λ m. m.0 };

    fn flags<'a>() -> &'a [Flag<Marks>] {
        Marks::FLAGS
    }

    fn bits(&self) -> u8 {
        self.0
    }

    fn from_bits_retain(bits: u8) -> Marks {
        Marks(bits)
    }
}

impl Marks {
    ghost use Rattle.gix_frontier.specs.Inside.Known.{met_mark, done_mark};

    fn met(side: Side) -> Marks
        ensures { result.0 ≡ met_mark side }
    {
        match side {
            Side::Tips => Marks::TIPS_MET,
            Side::Ends => Marks::ENDS_MET,
        }
    }

    fn done(side: Side) -> Marks
        ensures { result.0 ≡ done_mark side }
    {
        match side {
            Side::Tips => Marks::TIPS_DONE,
            Side::Ends => Marks::ENDS_DONE,
        }
    }
}

/// An indegree as bytes. The table has one for each id, and a number would lie at a multiple of eight bytes behind the 33 of the id.
#[derive(Drop)]
struct Indegree([u8; 8]);

impl Model for Indegree {
    ghost use Rattle.std.specs.Prelude.{ℕ};
    ghost use Rattle.std.specs.Int.{w64, from_le_bytes};

    ghost Value = { ℕ };

    ghost view = { λ n. from_le_bytes w64 n.0 };
}

impl Indegree {
    fn new(number: usize) -> Indegree
        ensures { result ≡ number }
    {
        Indegree(number.to_le_bytes())
    }

    fn get(&self) -> usize
        ensures { result ≡ self.now }
    {
        usize::from_le_bytes(self.0)
    }
}

/// What is known of an id.
#[derive(Drop)]
pub struct Known {
    marks: Marks,
    indegree: Indegree,
}

impl Model for Known {
    ghost use Rattle.gix_frontier.specs.Inside.Known as known;

    ghost Value = { known.Known };

    ghost view = { λ k. known.known_by k.marks.0 k.indegree };
}

impl Known {
    ghost use Rattle.std.specs.Prelude.{true, false, not, ◌||◌, OnSome};
    ghost use Rattle.gix_frontier.specs.declared.Progress.TheVariants as progress;
    ghost use Rattle.gix_frontier.specs.Inside.Frontier.{is_seen, is_done, met_again, progress_of, unknown, with_progress};

    /// What is known of an id that wasn't met.
    fn new() -> Known
        ensures { result ≡ unknown }
    {
        Known {
            marks: Marks::empty(),
            indegree: Indegree::new(0),
        }
    }

    /// A copy by hand, since `Copy` needs marks that can be told from what contracts see.
    fn copy(&self) -> Known
        ensures { result ≡ self.now }
    {
        Known {
            marks: self.marks,
            indegree: Indegree::new(self.indegree()),
        }
    }

    /// Its indegree: how many commits that the tips' search has done, and that weren't taken, name it as a parent that is walked.
    pub fn indegree(&self) -> usize
        ensures { result ≡ self.now.indegree }
    {
        self.indegree.get()
    }

    /// How far a search has come with it.
    pub fn progress(&self, side: Side) -> Progress
        ensures { result ≡ progress_of side self.now }
    {
        if self.marks.contains(Marks::done(side)) {
            Progress::Done
        } else if self.marks.contains(Marks::met(side)) {
            Progress::Queued
        } else {
            Progress::Unseen
        }
    }

    /// Whether a search has read its parents.
    pub fn is_done(&self) -> bool
        ensures { result ≡ (is_done self.now.tips || is_done self.now.ends) }
    {
        matches!(self.progress(Side::Tips), Progress::Done)
            || matches!(self.progress(Side::Ends), Progress::Done)
    }

    /// Whether it was ready once.
    pub fn was_ready(&self) -> bool
        ensures { result ≡ self.now.was_ready }
    {
        self.marks.contains(Marks::WAS_READY)
    }

    fn with_met(self, side: Side) -> Known
        requires { is_seen (progress_of side self) ≡ false }
        ensures { result ≡ with_progress side progress.Queued self }
    {
        Known {
            marks: self.marks.union(Marks::met(side)),
            indegree: self.indegree,
        }
    }

    fn with_done(self, side: Side) -> Known
        ensures { result ≡ with_progress side progress.Done self }
    {
        Known {
            marks: self.marks.union(Marks::done(side)),
            indegree: self.indegree,
        }
    }

    fn with_was_ready(self) -> Known
        ensures { result ≡ record self { was_ready = true } }
    {
        Known {
            marks: self.marks.union(Marks::WAS_READY),
            indegree: self.indegree,
        }
    }

    /// One child more, which the tips' search meets. Whether it is new to that search. None where no memory could hold its indegree.
    fn count(&mut self) -> Option<bool>
        ensures new { IfSome result (λ is_new. is_new ≡ not (is_seen self.old.tips)) }
        ensures counts { OnSome result (self.new ≡ met_again self.old) }
    {
        self.indegree = Indegree::new(self.indegree().checked_add(1)?);
        if !matches!(self.progress(Side::Tips), Progress::Unseen) {
            return Some(false);
        }
        *self = self.copy().with_met(Side::Tips);
        Some(true)
    }

    /// Notes that a search has met all its parents, and says whether one had done so before.
    fn finish(&mut self, side: Side) -> bool
        ensures before { result ≡ (is_done self.old.tips || is_done self.old.ends) }
        ensures done { self.new ≡ with_progress side progress.Done self.old }
    {
        let was_done = self.is_done();
        *self = self.copy().with_done(side);
        was_done
    }

    /// It becomes ready.
    fn mark_ready(&mut self)
        ensures { self.new ≡ record self.old { was_ready = true } }
    {
        *self = self.copy().with_was_ready();
    }

    /// One child less, if it has one: what is known then.
    fn uncount(&mut self) -> Option<Known>
        ensures less { IfSome result (λ left. self.old.indegree ≡ left.indegree + 1) }
        ensures left { IfSome result (λ left. left ≡ self.new) }
        ensures new { IfSome result (λ left. self.new ≡ record self.old { indegree = left.indegree }) }
        ensures none { IfNone result (self.old.indegree ≡ 0) }
    {
        self.indegree = Indegree::new(self.indegree().checked_sub(1)?);
        Some(self.copy())
    }
}

/// An id whose parents a search has still to read.
#[derive(Drop)]
pub struct Waiting {
    /// The id.
    pub id: ObjectId,
    /// The search.
    pub side: Side,
    /// Where to look first for its row. Contracts don't see it: a wrong place costs time alone.
    pub near: u32,
}

impl Model for Waiting {
    ghost use Rattle.gix_frontier.specs.Inside.Waiting as model;

    ghost Value = { model.Waiting };

    ghost view = { λ w. model.waiting_by w.id w.side };
}

/// What is known of the ids met, and those whose parents are still to be read, by their generations.
#[derive(Drop)]
pub struct Frontier {
    /// Those whose parents are still to be read.
    pub queue: PriorityQueue<u32, Waiting>,
    /// What is known of the ids met.
    pub known: IdMap<Known>,
}

impl Frontier {
    ghost use Rattle.std.specs.Prelude.{false, not, ◌||◌, ◌∷◌, IsPermutation};
    ghost use Rattle.gix_frontier.specs.declared.Side.TheVariants as side;
    ghost use Rattle.gix_frontier.specs.declared.Progress.TheVariants as progress;
    ghost use Rattle.gix_frontier.specs.Inside.Frontier.{is_seen, is_done, met_again, progress_of, with_progress};
    ghost use Rattle.gix_frontier.specs.Inside.Waiting.{waiting_by};

    /// Neither search has met anything. The table of ids has these keys. It takes no memory yet.
    pub fn new(alloc: Global, keys: Keys) -> Frontier
        ensures queue { result.queue ≡ [] }
        ensures known { result.known ≡ map.empty }
    {
        Frontier {
            queue: PriorityQueue::new(alloc),
            known: IdMap::new(alloc, keys),
        }
    }

    /// What is known of an id, also of one that wasn't met.
    pub fn known(&self, id: &ObjectId) -> Known
        ensures { result ≡ known_of self.now.known id.now }
    {
        match self.known.get(id) {
            Some(known) => known.copy(),
            None => Known::new(),
        }
    }

    /// An id of which this is known is new to a search: it waits in the queue.
    fn wait(
        &mut self,
        generation: u32,
        id: ObjectId,
        side: Side,
        known: Known,
        near: u32,
    ) -> Result<(), AllocError>
    where
        requires { is_seen (progress_of side known) ≡ false }
        ensures queue { OnOk result (IsPermutation ((generation, waiting_by id side) ∷ self.old.queue) self.new.queue) }
        ensures known { OnOk result (self.new.known ≡ map.insert self.old.known id (with_progress side progress.Queued known)) }
    {
        self.known.insert(id, known.with_met(side))?;
        self.queue.insert(generation, Waiting { id, side, near })?;
        Ok(())
    }

    /// An id that a search meets: where it is new to that search, it waits in the queue. `near` is where to look first for its row.
    ///
    /// # Errors
    ///
    /// `AllocError` when out of memory. The frontier may hold anything then.
    pub fn meet(
        &mut self,
        generation: u32,
        id: ObjectId,
        side: Side,
        near: u32,
    ) -> Result<(), AllocError>
    where
        ensures { OnOk result (Meets self.old generation id side self.new) }
    {
        let known = self.known(&id);
        if !matches!(known.progress(side), Progress::Unseen) {
            return Ok(());
        }
        self.wait(generation, id, side, known, near)
    }

    /// One more child of an id, which the tips' search meets. Whether it is new to that search.
    ///
    /// # Errors
    ///
    /// An indegree that no memory could hold is out of memory.
    fn count_known(&mut self, id: &ObjectId) -> Result<bool, AllocError>
        ensures new { IfOk result (λ is_new. is_new ≡ not (is_seen (known_of self.old.known id.now).tips)) }
        ensures known { OnOk result (self.new.known ≡ map.insert self.old.known id.now (met_again (known_of self.old.known id.now))) }
        ensures queue { self.new.queue ≡ self.old.queue }
    {
        match self.known.change(id, |known| known.count()) {
            Some(Some(is_new)) => Ok(is_new),
            Some(None) => Err(AllocError),
            None => {
                let known = Known {
                    marks: Marks::empty(),
                    indegree: Indegree::new(1),
                };
                self.known.insert(*id, known.with_met(Side::Tips))?;
                Ok(true)
            }
        }
    }

    /// One more child of an id, which the tips' search meets.
    ///
    /// # Errors
    ///
    /// An indegree that no memory could hold is out of memory.
    fn count(&mut self, generation: u32, id: ObjectId, near: u32) -> Result<(), AllocError>
        ensures { OnOk result (MeetsParent side.Tips self.old generation id self.new) }
    {
        if self.count_known(&id)? {
            let side = Side::Tips;
            self.queue.insert(generation, Waiting { id, side, near })?;
        }
        Ok(())
    }

    /// A parent of a commit whose parents a side reads. `near` is where to look first for its row.
    ///
    /// # Errors
    ///
    /// `AllocError` when out of memory, which an indegree is too that no memory could hold. The frontier may hold anything then.
    pub fn meet_parent(
        &mut self,
        generation: u32,
        id: ObjectId,
        side: Side,
        near: u32,
    ) -> Result<(), AllocError>
    where
        ensures { OnOk result (MeetsParent side self.old generation id self.new) }
    {
        match side {
            Side::Tips => self.count(generation, id, near),
            Side::Ends => self.meet(generation, id, side, near),
        }
    }

    /// One child of an id less: what is known of it then. None where there was none.
    pub fn uncount(&mut self, id: &ObjectId) -> Option<Known>
        ensures less { IfSome result (λ known. (known_of self.old.known id.now).indegree ≡ known.indegree + 1) }
        ensures known { IfSome result (λ known. known ≡ known_of self.new.known id.now) }
        ensures counts { Uncounts self.old id.now self.new }
        ensures none { IfNone result ((known_of self.old.known id.now).indegree ≡ 0) }
    {
        self.known.change(id, |known| known.uncount())?
    }

    /// An id becomes ready.
    ///
    /// # Errors
    ///
    /// `AllocError` when out of memory. The frontier may hold anything then.
    pub fn mark_ready(&mut self, id: ObjectId) -> Result<(), AllocError>
        ensures { OnOk result (MarksReady self.old id self.new) }
    {
        if self.known.change(&id, |known| known.mark_ready()).is_some() {
            return Ok(());
        }
        self.known.insert(id, Known::new().with_was_ready())?;
        Ok(())
    }

    /// Notes that a search has met all parents of an id, and says whether one had done so before.
    ///
    /// # Errors
    ///
    /// `AllocError` when out of memory. The frontier may hold anything then.
    pub fn finish(&mut self, id: ObjectId, side: Side) -> Result<bool, AllocError>
        ensures before { IfOk result (λ was_done. let known = known_of self.old.known id in
            was_done ≡ (is_done known.tips || is_done known.ends)) }
        ensures finishes { OnOk result (Finishes self.old id side self.new) }
    {
        if let Some(was_done) = self.known.change(&id, |known| known.finish(side)) {
            return Ok(was_done);
        }
        self.known.insert(id, Known::new().with_done(side))?;
        Ok(false)
    }
}
