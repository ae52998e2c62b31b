//! A queue that gives a value of greatest key first.
ghost use Rattle.std.specs.Prelude.{◌≡◌, ◌==◌, [], ◌∷◌, length, slice_get, IfSome, IfNone, OnOk, OnErr};
ghost use Rattle.std.specs.List.Sorted.{IsPermutation};
ghost use Rattle.std.specs.Option.{option_map};
ghost use Rattle.std.specs.BinaryHeap.{IsUpperBound};
ghost use Rattle.std.specs.Iterator.{YieldsFirstRef, item_count};
ghost use Rattle.gix_revwalk.specs.PriorityQueue.{keys, values};

use std::alloc::{AllocError, Global};
use std::collections::BinaryHeap;
use std::marker::Model;
use std::slice;

/// A value, compared by its key alone.
#[derive(Drop)]
#[derive_where(PartialEq, Eq, PartialOrd, Ord; K)]
struct Item<K, T> {
    key: K,
    #[derive_where(skip(EqHashOrd))]
    value: T,
}

/// Values, each with the key that it was put in under. Several values may have equal keys.
///
/// A clause reads a queue as the list of its pairs of key and value. The first pair is the one that comes next, and
/// the order of the others is open.
#[derive(Drop)]
pub struct PriorityQueue<K: Ord, T> {
    heap: BinaryHeap<Item<K, T>>,
}

impl<K: Ord, T> Model for PriorityQueue<K, T> {
    ghost use Rattle.std.specs.Prelude.{List, map};
    ghost use Rattle.std.specs.Ordering.{on};
    ghost use Rattle.std.specs.BinaryHeap.{heap_items, IsHeap};

    ghost Value = { List (K × T) };

    ghost view = { λ q. map (λ item. (item.key, item.value)) (heap_items q.heap) };

    ghost invariant = { λ q. IsHeap (λ x y. K.cmp x.key y.key) (heap_items q.heap) };
}

impl<K: Ord, T> PriorityQueue<K, T> {
    /// An empty queue, which takes memory from `alloc` as it grows.
    pub fn new(alloc: Global) -> PriorityQueue<K, T>
        ensures { result ≡ [] }
    {
        PriorityQueue {
            heap: BinaryHeap::new(alloc),
        }
    }

    /// How many values the queue holds.
    pub fn len(&self) -> usize
        ensures { result ≡ length self.now }
    {
        self.heap.len()
    }

    /// Whether the queue holds no value.
    pub fn is_empty(&self) -> bool
        ensures { result ≡ (length self.now == 0) }
    {
        self.heap.is_empty()
    }

    /// A value of greatest key with its key, the one that `pop` takes next. None where the queue is empty.
    pub fn peek(&self) -> Option<(&K, &T)>
        ensures first { option_map (λ p. (p.0.now, p.1.now)) result ≡ slice_get self.now 0 }
        ensures greatest { IfSome result (λ p. IsUpperBound K.cmp p.0.now (keys self.now)) }
        ensures empty { IfNone result (self.now ≡ []) }
    {
        let item = self.heap.peek()?;
        Some((&item.key, &item.value))
    }

    /// Takes out a value of greatest key with its key. None where the queue is empty.
    pub fn pop(&mut self) -> Option<(K, T)>
        ensures first { result ≡ slice_get self.old 0 }
        ensures greatest { IfSome result (λ p. IsUpperBound K.cmp p.0 (keys self.old)) }
        ensures rest { IfSome result (λ p. IsPermutation self.old (p ∷ self.new)) }
        ensures empty { IfNone result ((self.old ≡ []) × (self.new ≡ [])) }
    {
        let Item { key, value } = self.heap.pop()?;
        Some((key, value))
    }

    /// The values, each once, in no particular order.
    pub fn iter_unordered(&self) -> IterUnordered<'_, K, T>
        ensures { result ≡ values self.now }
    {
        IterUnordered {
            items: self.heap.iter(),
        }
    }
}

impl<K: Ord + Drop, T: Drop> PriorityQueue<K, T> {
    /// Puts in a value under a key. Values of equal keys stay.
    ///
    /// # Errors
    ///
    /// `AllocError` when out of memory. The queue is as it was, and the key and the value are dropped.
    pub fn insert(&mut self, key: K, value: T) -> Result<(), AllocError>
        ensures ok { OnOk result (IsPermutation ((key, value) ∷ self.old) self.new) }
        ensures err { OnErr result (self.new ≡ self.old) }
    {
        self.heap.push(Item { key, value })?;
        Ok(())
    }

    /// Takes out and drops all values.
    pub fn clear(&mut self)
        ensures { self.new ≡ [] }
    {
        self.heap.clear();
    }
}

/// The values of a queue, in no particular order, from [`PriorityQueue::iter_unordered`].
#[derive(Drop)]
pub struct IterUnordered<'a, K, T> {
    items: slice::Iter<'a, Item<K, T>>,
}

impl<'a, K, T> Model for IterUnordered<'a, K, T> {
    ghost use Rattle.std.specs.Prelude.{List, map};
    ghost use Rattle.std.specs.Slice.Iter.{iter_rest};

    ghost Value = { List T };

    ghost view = { λ it. map (λ item. item.value) (iter_rest it.items) };
}

impl<'a, K, T> Iterator for IterUnordered<'a, K, T> {
    type Item = &'a T;

    ghost next_gives = { YieldsFirstRef (λ it. it) };

    ghost remaining = { item_count (λ it. it) };

    fn next(&mut self) -> Option<&'a T> {
        let item = self.items.next()?;
        Some(&item.value)
    }
}
