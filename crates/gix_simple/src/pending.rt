//! The pending commits of a walk, held so that the next one is at hand.
ghost use Rattle.std.specs.Prelude.{◌≡◌, ◌≢◌, ◌++◌, ◌∷◌, [], length, ◌==◌, IfOk, OnOk, OnErr, None, Some};
ghost use Rattle.gix_revwalk.specs.PriorityQueue.{values};
ghost use Rattle.gix_simple.specs.Inside.PendingQueue.{time_key, AreKeyed, TakesOut};

use gix_hash::ObjectId;
use gix_revwalk::time_queue::TimeQueue;
use gix_revwalk::{CommitTimeOrder, Pending};
use std::alloc::{AllocError, Global};
use std::collections::VecDeque;
use std::marker::Model;
use std::mem;

/// A list until one is taken by time.
#[derive(Drop)]
enum Held {
    Listed(VecDeque<Pending>),
    ByTime(CommitTimeOrder, TimeQueue<Pending>),
}

/// The pending commits, and the order by time in which they are held, if there is one.
#[derive(Drop)]
pub(super) struct PendingQueue {
    held: Held,
    alloc: Global,
}

impl Model for PendingQueue {
    ghost use Rattle.gix_simple.specs.Inside.PendingQueue.{Queued, held_order, held_items, IsKeyed};

    ghost Value = { Queued };

    ghost view = { λ q. record { order = held_order q.held; items = held_items q.held } };

    ghost invariant = { λ q. IsKeyed q.held };
}

impl PendingQueue {
    pub(super) fn new(alloc: Global) -> PendingQueue
        ensures { result.items ≡ [] }
    {
        PendingQueue {
            held: Held::Listed(VecDeque::new(alloc)),
            alloc,
        }
    }

    pub(super) fn is_empty(&self) -> bool
        ensures { result ≡ (length self.now.items == 0) }
    {
        match &self.held {
            Held::Listed(list) => list.is_empty(),
            Held::ByTime(_, queue) => queue.is_empty(),
        }
    }

    pub(super) fn clear(&mut self)
        ensures { self.new.items ≡ [] }
    {
        self.held = Held::Listed(VecDeque::new(self.alloc));
    }

    /// Takes all commits out, in the order in which they became pending.
    pub(super) fn take_list(&mut self) -> Result<VecDeque<Pending>, AllocError>
        ensures list { IfOk result (λ list. list.items ≡ self.old.items) }
        ensures left { self.new.items ≡ [] }
    {
        match mem::replace(&mut self.held, Held::Listed(VecDeque::new(self.alloc))) {
            Held::Listed(list) => Ok(list),
            Held::ByTime(_, queue) => Ok(VecDeque::from(queue.into_values(self.alloc)?)),
        }
    }

    /// Puts these in the place of what was there.
    pub(super) fn set_list(&mut self, list: VecDeque<Pending>)
        ensures { self.new ≡ record { order = None; items = list.items } }
    {
        self.held = Held::Listed(list);
    }

    /// One more becomes pending. When out of memory none is left.
    #[inline(always)]
    pub(super) fn push(
        &mut self,
        order: Option<CommitTimeOrder>,
        pending: Pending,
    ) -> Result<(), AllocError>
        ensures ok { OnOk result (self.new.items ≡ self.old.items ++ pending ∷ []) }
        ensures err { OnErr result (self.new.items ≡ []) }
    {
        self.set_order(order)?;
        match self.put(pending) {
            Ok(()) => Ok(()),
            Err(e) => {
                self.clear();
                Err(e)
            }
        }
    }

    /// Takes out the one whose turn it is. When out of memory none is left.
    #[inline(always)]
    pub(super) fn pop(
        &mut self,
        order: Option<CommitTimeOrder>,
    ) -> Result<Option<Pending>, AllocError>
        ensures ok { IfOk result (λ taken. TakesOut order self.old.items taken self.new.items) }
        ensures err { OnErr result ((self.old.items ≢ []) × (self.new.items ≡ [])) }
    {
        if self.is_empty() {
            return Ok(None);
        }
        self.set_order(order)?;
        Ok(self.take())
    }

    /// The commits are held in this order from now on. When out of memory none is left.
    fn set_order(&mut self, order: Option<CommitTimeOrder>) -> Result<(), AllocError>
        ensures ok { OnOk result ((self.new.order ≡ order) × (self.new.items ≡ self.old.items)) }
        ensures err { OnErr result (self.new.items ≡ []) }
    {
        if self.order() == order {
            return Ok(());
        }
        self.rearrange(order)
    }

    /// Moves all commits. It is a call of its own, so that the test of the order is inlined.
    #[cold]
    #[inline(never)]
    fn rearrange(&mut self, order: Option<CommitTimeOrder>) -> Result<(), AllocError>
        ensures ok { OnOk result ((self.new.order ≡ order) × (self.new.items ≡ self.old.items)) }
        ensures err { OnErr result (self.new.items ≡ []) }
    {
        let list = self.take_list()?;
        match order {
            None => self.set_list(list),
            Some(order) => self.held = Held::ByTime(order, queue_of(self.alloc, order, list)?),
        }
        Ok(())
    }

    fn order(&self) -> Option<CommitTimeOrder>
        ensures { result ≡ self.now.order }
    {
        match &self.held {
            Held::Listed(_) => None,
            Held::ByTime(order, _) => Some(*order),
        }
    }

    fn put(&mut self, pending: Pending) -> Result<(), AllocError>
        ensures { OnOk result (self.new.items ≡ self.old.items ++ pending ∷ []) }
    {
        match &mut self.held {
            Held::Listed(list) => list.push_back(pending)?,
            Held::ByTime(order, queue) => put(*order, queue, pending)?,
        }
        Ok(())
    }

    fn take(&mut self) -> Option<Pending>
        ensures { TakesOut self.old.order self.old.items result self.new.items }
    {
        match &mut self.held {
            Held::Listed(list) => list.pop_front(),
            Held::ByTime(order, queue) => take_best(*order, queue),
        }
    }
}

/// A greater key for a better time.
fn key(order: CommitTimeOrder, time: i64) -> i64
    ensures { result ≡ time_key order time }
{
    match order {
        CommitTimeOrder::NewestFirst => time,
        CommitTimeOrder::OldestFirst => -1 - time,
    }
}

fn put(
    order: CommitTimeOrder,
    queue: &mut TimeQueue<Pending>,
    pending: Pending,
) -> Result<(), AllocError>
    requires { AreKeyed order queue.old }
    ensures items { OnOk result (values queue.new ≡ values queue.old ++ pending ∷ []) }
    ensures keyed { AreKeyed order queue.new }
{
    queue.insert(key(order, pending.time), pending)?;
    Ok(())
}

fn take_best(order: CommitTimeOrder, queue: &mut TimeQueue<Pending>) -> Option<Pending>
    requires { AreKeyed order queue.old }
    ensures taken { TakesOut (Some order) (values queue.old) result (values queue.new) }
    ensures keyed { AreKeyed order queue.new }
{
    let (_, pending) = queue.pop()?;
    Some(pending)
}

fn queue_of(
    alloc: Global,
    order: CommitTimeOrder,
    mut list: VecDeque<Pending>,
) -> Result<TimeQueue<Pending>, AllocError>
    ensures items { IfOk result (λ queue. values queue ≡ list.items) }
    ensures keyed { IfOk result (AreKeyed order) }
{
    let mut queue = TimeQueue::new(alloc);
    while let Some(pending) = list.pop_front() {
        put(order, &mut queue, pending)?;
    }
    Ok(queue)
}
