//! A store that counts its look-ups.
use crate::history::digit;
use gix_parts::hash::ObjectId;
use gix_parts::object::Kind;
use gix_parts::object::find::{self, Find};
use gix_parts::object::memory::MemoryStore;
use std::alloc::AllocError;
use std::cell::Cell;

/// A store that counts its look-ups, also those of what it hasn't: one count for each digit that ids are made of. It never fails.
#[derive(Drop)]
pub struct Counted<'a> {
    store: &'a MemoryStore<'a>,
    counts: Cell<[u8; 16]>,
}

impl<'a> Counted<'a> {
    /// What this store has. Nothing was looked up yet.
    pub fn new(store: &'a MemoryStore<'a>) -> Counted<'a> {
        Counted {
            store,
            counts: Cell::new([0; 16]),
        }
    }

    fn count(&self, id: &ObjectId) {
        let mut counts = self.counts.get();
        if let Some(count) = counts.get_mut(usize::from(digit(id))) {
            *count = count.saturating_add(1);
        }
        self.counts.set(counts);
    }

    /// Writes `;`, and behind it the digits that were looked up, the greatest first, each as a word with its count behind `:`.
    pub fn write(&self, told: &mut String) -> Result<(), AllocError> {
        told.push(';')?;
        for (digit, count) in self.counts.get().iter().enumerate().rev() {
            if *count > 0 {
                write!(told, " {digit}:{count}")?;
            }
        }
        Ok(())
    }
}

impl Find for Counted<'_> {
    ghost objects = { λ s. s.store.now };

    ghost faulty = { λ _ _. ⊥ };

    fn find_into(&self, id: &ObjectId, buf: &mut Vec<u8>) -> Result<Option<Kind>, find::Error> {
        self.count(id);
        self.store.find_into(id, buf)
    }
}
