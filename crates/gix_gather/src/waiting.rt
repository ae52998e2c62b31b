//! Ids of objects that wait to be read.
use gix_hash::ObjectId;
use std::alloc::{AllocError, AllocFailed, Global};
use std::collections::{BinaryHeap, VecDeque};

/// In which order commits are read.
#[derive(Clone, Copy, PartialEq, Eq, Debug)]
pub enum Order {
    /// In the order in which they are met, as `breadth` lists them.
    Met,
    /// The parents of the newest commit that was read come first, as `newest` asks for them.
    NewestFirst,
    /// The parents of the oldest commit that was read come first, as `oldest` asks for them.
    OldestFirst,
}

/// Ids that wait. An id may be there several times.
pub(crate) struct Waiting {
    order: Order,
    /// The ids that come first, in this order.
    first: VecDeque<ObjectId>,
    /// The others, which are named by commits: what the commit's time counts, its number, counted down, and the id.
    by_time: BinaryHeap<(i64, u64, ObjectId)>,
    /// The number of the last commit.
    number: u64,
}

impl Drop for Waiting {
    fn drop(self) {
        let Waiting {
            order: _,
            first: _,
            by_time: _,
            number: _,
        } = self;
    }
}

impl Waiting {
    /// No ids.
    pub fn new(alloc: Global, order: Order) -> Waiting {
        Waiting {
            order,
            first: VecDeque::new(alloc),
            by_time: BinaryHeap::new(alloc),
            number: u64::MAX,
        }
    }

    /// Whether ids come by the times of the commits that name them.
    pub fn is_by_time(&self) -> bool {
        self.order != Order::Met
    }

    /// Adds an id that comes behind those that come first.
    pub fn push_first(&mut self, id: ObjectId) -> Result<(), AllocError> {
        self.first.push_back(id)?;
        Ok(())
    }

    /// Begins with the ids that another commit names.
    pub fn begin(&mut self) {
        self.number = self.number.saturating_sub(1);
    }

    /// Adds an id that the commit names. The commit has these seconds.
    pub fn push(&mut self, seconds: i64, id: ObjectId) -> Result<(), AllocError> {
        let counts = match self.order {
            Order::Met => return self.push_first(id),
            Order::NewestFirst => seconds,
            Order::OldestFirst => (-1i64).wrapping_sub(seconds),
        };
        self.by_time.push((counts, self.number, id))?;
        Ok(())
    }

    /// Takes the id that comes first. Where memory runs out, none is lost.
    pub fn pop(&mut self) -> Result<Option<ObjectId>, AllocError> {
        if self.first.is_empty() {
            self.begin_next()?;
        }
        Ok(self.first.pop_front())
    }

    /// Lets the ids come first that the commit names whose ids come next.
    fn begin_next(&mut self) -> Result<(), AllocError> {
        let Some((counts, number, _)) = self.by_time.peek().copied() else {
            return Ok(());
        };
        for _ in 0..u64::MAX {
            let Some((its_counts, its_number, id)) = self.by_time.peek().copied() else {
                break;
            };
            if its_counts != counts || its_number != number {
                break;
            }
            self.push_first(id)?;
            self.by_time.pop();
        }
        Ok(())
    }

    /// Whether no id waits.
    pub fn is_empty(&self) -> bool {
        self.first.is_empty() && self.by_time.is_empty()
    }
}
