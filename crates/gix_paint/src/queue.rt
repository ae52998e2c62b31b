//! The commits that wait to be read.
ghost use Rattle.std.specs.Prelude.{◌≡◌, [], ◌∷◌, IsTrue, ◌↔◌, IfNone, IfSome, OnOk, IsPermutation};
ghost use Rattle.gix_paint.specs.Inside.Queue.{AreAllTold, IsNoneAbove};

use super::Side;
use gix_hash::ObjectId;
use gix_revwalk::queue::PriorityQueue;
use std::alloc::{AllocError, Global};
use std::marker::Model;

/// The generation in a commit's row. Without a row it counts as greater than that of any row.
#[derive(Clone, Copy)]
pub(super) enum Generation {
    Told(u32),
    Infinite,
}

/// A commit that waits to be read.
#[derive(Clone, Copy, Drop)]
pub(super) struct Entry {
    pub(super) id: ObjectId,
    pub(super) side: Side,
}

/// What waits. The greatest generation is taken first: parents have lesser ones, so what is taken is reached by nothing that still waits.
/// Of those without a row the last is taken first, so what hidden tips reach is marked before what visible tips reach is read.
///
/// A clause reads it as the list of its entries, each with its generation.
#[derive(Drop)]
pub(super) struct Queue {
    unrowed: Vec<Entry>,
    rowed: PriorityQueue<u32, Entry>,
}

impl Model for Queue {
    ghost use Rattle.std.specs.Prelude.{List};
    ghost use Rattle.gix_paint.specs.declared.queue.Generation.{Generation};
    ghost use Rattle.gix_paint.specs.declared.queue.Entry.{Entry};
    ghost use Rattle.gix_paint.specs.Inside.Queue.{queue_entries};

    ghost Value = { List (Generation × Entry) };

    ghost view = { λ q. queue_entries q.unrowed.items q.rowed };
}

impl Queue {
    pub(super) fn new(alloc: Global) -> Queue
        ensures { result ≡ [] }
    {
        Queue {
            unrowed: Vec::new(alloc),
            rowed: PriorityQueue::new(alloc),
        }
    }

    pub(super) fn is_empty(&self) -> bool
        ensures { IsTrue result ↔ (self.now ≡ []) }
    {
        self.unrowed.is_empty() && self.rowed.is_empty()
    }

    /// Whether all that waits has a row.
    pub(super) fn has_rows_alone(&self) -> bool
        ensures { IsTrue result ↔ AreAllTold self.now }
    {
        self.unrowed.is_empty()
    }

    #[inline(always)]
    pub(super) fn insert(&mut self, generation: Generation, entry: Entry) -> Result<(), AllocError>
        ensures { OnOk result (IsPermutation ((generation, entry) ∷ self.old) self.new) }
    {
        match generation {
            Generation::Told(generation) => self.rowed.insert(generation, entry),
            Generation::Infinite => Ok(self.unrowed.push(entry)?),
        }
    }

    /// Takes out an entry of greatest generation. None where nothing waits.
    #[inline(always)]
    pub(super) fn pop(&mut self) -> Option<(Generation, Entry)>
        ensures none { IfNone result (self.old ≡ []) }
        ensures some { IfSome result (λ top. IsPermutation self.old (top ∷ self.new)) }
        ensures greatest { IfSome result (λ top. IsNoneAbove top.0 self.old) }
    {
        if let Some(entry) = self.unrowed.pop() {
            return Some((Generation::Infinite, entry));
        }
        let (generation, entry) = self.rowed.pop()?;
        Some((Generation::Told(generation), entry))
    }
}
