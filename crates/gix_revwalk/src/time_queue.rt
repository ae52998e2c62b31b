//! A queue by time that keeps the order of what has one time.
ghost use Rattle.std.specs.Prelude.{◌≡◌, ◌==◌, [], ◌∷◌, ◌++◌, length, IfOk, OnOk, OnErr};
ghost use Rattle.gix_revwalk.specs.PriorityQueue.{values};
ghost use Rattle.gix_revwalk.specs.Turns.{TakesFirst};

use super::queue::PriorityQueue;
use std::alloc::{AllocError, Global};
use std::marker::Model;

/// When a value comes: the greater comes first. Turns fall, so of one time it is the one that was put in first.
#[derive(Clone, Copy, PartialEq, Eq, PartialOrd, Ord)]
struct Turn {
    time: i64,
    turn: u64,
}

/// Values, each with its time. One of greatest time comes first, and of these the one that was put in first.
///
/// A clause reads a queue as the list of its times and values, in the order in which they were put in.
#[derive(Drop)]
pub struct TimeQueue<T> {
    queue: PriorityQueue<Turn, T>,
    /// The next turn, which is below those that were given.
    turn: u64,
}

impl<T> Model for TimeQueue<T> {
    ghost use Rattle.std.specs.Prelude.{List, ℤ};
    ghost use Rattle.gix_revwalk.specs.Turns.{times_and_values, AreInTurn};

    ghost Value = { List (ℤ × T) };

    ghost view = { λ q. times_and_values q.queue };

    ghost invariant = { λ q. AreInTurn q.turn q.queue };
}

impl<T> TimeQueue<T> {
    /// An empty queue, which takes memory from `alloc` as it grows.
    pub fn new(alloc: Global) -> TimeQueue<T>
        ensures { result ≡ [] }
    {
        TimeQueue {
            queue: PriorityQueue::new(alloc),
            turn: u64::MAX,
        }
    }

    /// Whether the queue holds no value.
    pub fn is_empty(&self) -> bool
        ensures { result ≡ (length self.now == 0) }
    {
        self.queue.is_empty()
    }

    /// Takes out the first value of greatest time, with its time. None where the queue is empty.
    pub fn pop(&mut self) -> Option<(i64, T)>
        ensures { TakesFirst self.old result self.new }
    {
        let (turn, value) = self.queue.pop()?;
        Some((turn.time, value))
    }
}

impl<T: Drop> TimeQueue<T> {
    /// Puts in a value with its time, behind all others.
    ///
    /// # Errors
    ///
    /// `AllocError` when out of memory, or when 2^64 - 1 values were put in. The queue is as it was, and the value is dropped.
    pub fn insert(&mut self, time: i64, value: T) -> Result<(), AllocError>
        ensures ok { OnOk result (self.new ≡ self.old ++ (time, value) ∷ []) }
        ensures err { OnErr result (self.new ≡ self.old) }
    {
        let turn = self.turn;
        let Some(next) = turn.checked_sub(1) else {
            return Err(AllocError);
        };
        self.queue.insert(Turn { time, turn }, value)?;
        self.turn = next;
        Ok(())
    }

    /// Takes out and drops all values.
    pub fn clear(&mut self)
        ensures { self.new ≡ [] }
    {
        self.queue.clear();
    }

    /// All values, in the order in which they were put in.
    ///
    /// # Errors
    ///
    /// `AllocError` when out of memory. The values are dropped.
    pub fn into_values(self, alloc: Global) -> Result<Vec<T>, AllocError>
        ensures { IfOk result (λ all. all.items ≡ values self) }
    {
        let TimeQueue { mut queue, .. } = self;
        let mut by_turn = PriorityQueue::new(alloc);
        while let Some((turn, value)) = queue.pop() {
            by_turn.insert(turn.turn, value)?;
        }
        let mut all = Vec::new(alloc);
        while let Some((_, value)) = by_turn.pop() {
            all.push(value)?;
        }
        Ok(all)
    }
}
