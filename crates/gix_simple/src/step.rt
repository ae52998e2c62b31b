//! How a walk reads a commit and treats its parents.
ghost use Rattle.std.specs.Prelude.{◌≡◌, ◌≤◌, ◌++◌, ◌∷◌, [], List, IfOk, IsOk, IfErr, OnOk, OnErr, None, ◌≢◌, length};
ghost use Rattle.std.specs.FinSet as set;
ghost use Rattle.gix_commitgraph.specs.Rows.{row_of};
ghost use Rattle.gix_object.specs.CommitItems.{commit_items};
ghost use Rattle.gix_object.specs.CommitRefIter.{commit_items_left};
ghost use Rattle.gix_hash.specs.declared.ObjectId.{ObjectId};
ghost use Rattle.gix_revwalk.specs.Commits.{by_mode, time_of};
ghost use Rattle.gix_revwalk.specs.Reading.{RowSays};
ghost use Rattle.gix_simple.specs.declared.step.Stop.TheVariants as stop;
ghost use Rattle.gix_simple.specs.Inside.Steps.{Meets, TimeIs, in_rows};
ghost use Rattle.gix_revwalk.specs.Texts.{scanned};
ghost use Rattle.gix_simple.specs.Walk.{how_ended, failed, time_order, cutoff, is_older, given_time, row_time, Asks, Enqueues, Treats, TreatsAll, Concludes, Takes, Steps};
ghost use Rattle.gix_simple.specs.Inside.PendingQueue.{TakesOut};

use super::{Error, Simple, Sorting};
use gix_hash::ObjectId;
use gix_object as object;
use gix_object::commit::CommitRefIter;
use gix_object::decode;
use gix_object::find::{Find, existing_iter};
use gix_revwalk::read::{Scanned, scan};
use gix_revwalk::row::{Near, RowRead};
use gix_revwalk::{CommitTimeOrder, Info, ParentIds, Parents, Pending, Predicate};
use std::alloc::{AllocError, Global};

/// Where the times of parents are read: in the rows, where their child was read by its row, else in the store.
#[derive(Clone, Copy)]
pub(super) enum Times {
    InRows,
    InStore,
}

/// Why the treatment of a commit's parents stopped.
#[derive(Clone, Copy)]
pub(super) enum Stop {
    /// The store failed at a parent that was asked for its time.
    Store,
    Memory,
}

impl From<AllocError> for Stop {
    ghost from_gives = { λ e r. r ≡ stop.Memory };

    fn from(_e: AllocError) -> Stop {
        Stop::Memory
    }
}

impl From<Stop> for Error {
    ghost use Rattle.gix_simple.specs.Errors.{error_of_stop};

    ghost from_gives = { λ e r. r ≡ error_of_stop e };

    fn from(e: Stop) -> Error {
        match e {
            Stop::Store => Error::Find(existing_iter::Error::Store),
            Stop::Memory => Error::Memory,
        }
    }
}

pub(super) fn time_order_of(parents: Parents, sorting: Sorting) -> Option<CommitTimeOrder>
    ensures { result ≡ time_order parents sorting }
{
    match (parents, sorting) {
        (Parents::First, _) | (_, Sorting::BreadthFirst) => None,
        (_, Sorting::ByCommitTime(order) | Sorting::ByCommitTimeCutoff { order, .. }) => Some(
            order,
        ),
    }
}

pub(super) fn cutoff_of(parents: Parents, sorting: Sorting) -> Option<i64>
    ensures { result ≡ cutoff parents sorting }
{
    match (parents, sorting) {
        (Parents::All, Sorting::ByCommitTimeCutoff { seconds, .. }) => Some(seconds),
        _ => None,
    }
}

pub(super) fn is_older_than(time: i64, limit: Option<i64>) -> bool
    ensures { result ≡ is_older time limit }
{
    match limit {
        Some(seconds) => time < seconds,
        None => false,
    }
}

/// The parents that are walked.
fn walked(parents: Parents, mut parent_ids: ParentIds) -> ParentIds
    ensures { result.items ≡ by_mode parents parent_ids.items }
{
    if parents == Parents::First {
        parent_ids.truncate(1);
    }
    parent_ids
}

impl<F: Find + Drop, P: Predicate + Drop> Simple<F, P> {
    fn time_order(&self) -> Option<CommitTimeOrder>
        ensures { result ≡ time_order self.now.parents self.now.sorting }
    {
        time_order_of(self.parents, self.sorting)
    }

    fn given_time(&self, taken: &Pending) -> Option<i64>
        ensures { result ≡ given_time self.now taken.now }
    {
        match self.time_order() {
            Some(_) => Some(taken.time),
            None => None,
        }
    }

    fn is_older(&self, time: i64) -> bool
        ensures { result ≡ is_older time (cutoff self.now.parents self.now.sorting) }
    {
        is_older_than(time, cutoff_of(self.parents, self.sorting))
    }

    /// Whether an id that a tip or a parent list names is neither hidden nor seen. It is seen from now on.
    fn meet(&mut self, id: &ObjectId) -> Result<bool, AllocError>
        ensures { Meets F.objects F.faulty P.answers self.old id.now result self.new }
    {
        if self.hidden.contains(id) {
            return Ok(false);
        }
        Ok(self.seen.insert(*id)?)
    }

    /// Asks about an id, unless it was asked about and a yes is remembered.
    fn ask(&mut self, id: &ObjectId) -> bool
        requires { P.can_accept self.old.predicate }
        ensures asks { Asks F.objects F.faulty P.answers self.old id.now result self.new.predicate }
        ensures rest { self.new ≡ record self.old { predicate = self.new.predicate; remembered = set.remove self.old.remembered id.now } }
        ensures again { P.can_accept self.new.predicate }
    {
        self.remembered.remove(id) || self.predicate.accepts(id)
    }

    /// The time by which a parent would be taken. It is 0 where no order by time is in force, and where none can be read. `near` is where to
    /// look first for its row.
    fn parent_time(&mut self, times: Times, id: &ObjectId, near: u32) -> Result<i64, Stop>
        ensures time { TimeIs F.objects F.faulty P.answers self.old (in_rows times) id.now result }
        ensures kept { self.new ≡ self.old }
    {
        match self.time_order() {
            None => return Ok(0),
            Some(_) => {}
        }
        match times {
            Times::InRows => Ok(self.row_time(id, near)),
            Times::InStore => self.stored_time(id),
        }
    }

    fn stored_time(&mut self, id: &ObjectId) -> Result<i64, Stop>
        ensures ok { IfOk result (λ time. time ≡ time_of (F.objects self.old.store) id.now) }
        ensures err { IfErr result (λ why. why ≡ stop.Store → F.faulty self.old.store id.now) }
        ensures kept { self.new ≡ self.old }
    {
        let time = match self.source.time(id) {
            Ok(time) => time,
            Err(existing_iter::Error::NotFound { .. }) => return Ok(0),
            Err(existing_iter::Error::ObjectKind { .. }) => return Ok(0),
            Err(existing_iter::Error::Store) => return Err(Stop::Store),
            Err(existing_iter::Error::Memory) => return Err(Stop::Memory),
        };
        Ok(time.unwrap_or(0))
    }

    fn row_time(&self, id: &ObjectId, near: u32) -> i64
        ensures { result ≡ row_time (row_of self.now.rows id.now) }
    {
        match self.source.row(id, near) {
            Some(commit) => commit.committer_timestamp(),
            None => 0,
        }
    }

    /// An accepted parent becomes pending, unless it is older than the cutoff.
    fn enqueue(&mut self, id: ObjectId, time: i64, near: u32) -> Result<(), AllocError>
        ensures ok { OnOk result (Enqueues F.objects F.faulty P.answers (cutoff self.old.parents self.old.sorting)
            self.old.pending id time self.new.pending) }
        ensures err { OnErr result (self.new.pending ≡ []) }
        ensures rest { self.new ≡ record self.old { pending = self.new.pending } }
    {
        if self.is_older(time) {
            return Ok(());
        }
        let order = self.time_order();
        self.pending.push(order, Pending { id, time, near })?;
        Ok(())
    }

    /// An id that a tip or a parent list names: where it is new and accepted, it becomes pending. `near` is where to look first for its row.
    pub(super) fn treat(&mut self, times: Times, id: ObjectId, near: u32) -> Result<(), Stop>
        requires { P.can_accept self.old.predicate }
        ensures treats { Treats F.objects F.faulty P.answers self.old (in_rows times) id (how_ended result) self.new }
        ensures asks { P.can_accept self.new.predicate }
    {
        let is_new = self.meet(&id)?;
        if !is_new {
            return Ok(());
        }
        if !self.ask(&id) {
            return Ok(());
        }
        let time = self.parent_time(times, &id, near)?;
        self.enqueue(id, time, near)?;
        Ok(())
    }

    fn treat_all(&mut self, times: Times, mut ids: &[ObjectId], mut near: Near) -> Result<(), Stop>
        requires { P.can_accept self.old.predicate }
        ensures treats { TreatsAll F.objects F.faulty P.answers (in_rows times) self.old ids.entry.now (how_ended result) self.new }
        ensures asks { P.can_accept self.new.predicate }
    {
        while let Some((id, rest)) = ids.split_first() {
            self.treat(times, *id, near.next())?;
            ids = rest;
        }
        Ok(())
    }

    /// What is left of the walk after a fault in the place of a commit: no text, and where memory ran out no pending commit.
    fn fail(&mut self, id: &ObjectId, error: Error) -> Error
        ensures same { result ≡ error }
        ensures left { self.new ≡ failed id.now error self.old }
    {
        self.text.clear();
        self.current = Some(*id);
        if matches!(error, Error::Memory) {
            self.pending.clear();
        }
        error
    }

    /// The answer after the parents of a commit were treated.
    #[inline(always)]
    fn conclude(
        &mut self,
        taken: Pending,
        scanned: Scanned,
        generation: Option<u32>,
        treated: Result<(), Stop>,
    ) -> Result<Info, Error>
        ensures concludes { Concludes F.objects F.faulty P.answers taken.id scanned.parent_ids.items generation (given_time self.old taken)
            self.old.text scanned.fault self.old (how_ended treated) result self.new }
        ensures same { self.new.predicate ≡ self.old.predicate }
    {
        if let Err(stop) = treated {
            return Err(self.fail(&taken.id, Error::from(stop)));
        }
        if let Some(fault) = scanned.fault {
            return Err(self.fail(&taken.id, Error::ObjectDecode(fault)));
        }
        let commit_time = self.given_time(&taken);
        self.current = Some(taken.id);
        Ok(Info {
            id: taken.id,
            parent_ids: scanned.parent_ids,
            generation,
            commit_time,
        })
    }

    fn take_by_row(&mut self, taken: Pending, row: RowRead) -> Result<Info, Error>
        requires sound { RowSays self.old.rows taken.id row }
        requires asks { P.can_accept self.old.predicate }
        ensures takes { Takes F.objects F.faulty P.answers self.old taken result self.new }
        ensures asks { P.can_accept self.new.predicate }
    {
        let parent_ids = walked(self.parents, row.parent_ids);
        self.text.clear();
        let treated = self.treat_all(Times::InRows, parent_ids.as_slice(), row.near);
        let scanned = Scanned {
            parent_ids,
            fault: None,
        };
        self.conclude(taken, scanned, Some(row.generation), treated)
    }

    fn take_by_store(&mut self, taken: Pending) -> Result<Info, Error>
        requires unrowed { row_of self.old.rows taken.id ≡ None }
        requires asks { P.can_accept self.old.predicate }
        ensures takes { Takes F.objects F.faulty P.answers self.old taken result self.new }
        ensures asks { P.can_accept self.new.predicate }
    {
        let id = taken.id;
        if let Err(fault) = self
            .source
            .objects
            .find_kind_into(&id, object::Kind::Commit, &mut self.text)
        {
            return Err(self.fail(&id, Error::from(fault)));
        }
        let items = CommitRefIter::from_bytes(&self.text, id.kind());
        let Ok(scanned) = scan(self.source.alloc, self.parents, items) else {
            return Err(self.fail(&id, Error::Memory));
        };
        let near = Near::nowhere();
        let treated = self.treat_all(Times::InStore, scanned.parent_ids.as_slice(), near);
        self.conclude(taken, scanned, None, treated)
    }

    /// Reads the commit, and gives it.
    pub(super) fn take(&mut self, taken: Pending) -> Result<Info, Error>
        requires { P.can_accept self.old.predicate }
        ensures takes { Takes F.objects F.faulty P.answers self.old taken result self.new }
        ensures asks { P.can_accept self.new.predicate }
    {
        let row = match self.source.read_row(&taken.id, taken.near) {
            Ok(row) => row,
            Err(_) => return Err(self.fail(&taken.id, Error::Memory)),
        };
        match row {
            Some(row) => self.take_by_row(taken, row),
            None => self.take_by_store(taken),
        }
    }

    /// The commit whose turn it is leaves those that are pending.
    fn choose(&mut self) -> Result<Option<Pending>, AllocError>
        ensures ok { IfOk result (λ taken. TakesOut (time_order self.old.parents self.old.sorting) self.old.pending taken
            self.new.pending) }
        ensures rest { OnOk result (self.new ≡ record self.old { pending = self.new.pending }) }
        ensures some_left { OnErr result (self.old.pending ≢ []) }
        ensures err { OnErr result (self.new ≡ record self.old { text = []; pending = [] }) }
    {
        let order = self.time_order();
        let chosen = self.pending.pop(order);
        if chosen.is_err() {
            self.text.clear();
        }
        chosen
    }

    /// Takes the commit whose turn it is.
    pub(super) fn step(&mut self) -> Option<Result<Info, Error>>
        requires { P.can_accept self.old.predicate }
        ensures steps { Steps F.objects F.faulty P.answers self.old result self.new }
        ensures asks { P.can_accept self.new.predicate }
    {
        let chosen = match self.choose() {
            Ok(chosen) => chosen,
            Err(_) => return Some(Err(Error::Memory)),
        };
        let Some(taken) = chosen else {
            return None;
        };
        Some(self.take(taken))
    }
}
