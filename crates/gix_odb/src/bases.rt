//! Objects that were read, since others are deltas of them.
ghost use Rattle.std.specs.Prelude.{◌≡◌, ◌+◌, ◌≤◌, ◌<◌, length};

use gix_object::Kind;
use std::alloc::{AllocError, Global};

/// How many objects are kept at the most.
const SLOTS: usize = 8192;
/// How many bytes are kept at the most, as by git.
const MOST_KEPT: usize = 96 << 20;
/// The most bytes of an object that is kept.
const MOST_OBJECT: usize = 16 << 20;
/// The most room that is used again for another object.
const MOST_ROOM: usize = 1 << 16;

/// Where an entry begins.
#[derive(Clone, Copy, PartialEq, Eq)]
pub(crate) struct Place {
    /// The number of the pack.
    pub pack: usize,
    /// The number of bytes from the front of the pack.
    pub at: u64,
}

/// An object that is kept, if there is a place.
struct Slot {
    place: Option<Place>,
    kind: Kind,
    bytes: Vec<u8>,
}

impl Drop for Slot {
    fn drop(self) {
        let Slot {
            place: _,
            kind: _,
            bytes: _,
        } = self;
    }
}

/// Objects that are kept. Each place has one slot, which it shares with others.
pub(crate) struct Bases {
    alloc: Global,
    slots: Vec<Slot>,
    kept: usize,
}

impl Drop for Bases {
    fn drop(self) {
        let Bases {
            alloc: _,
            slots: _,
            kept: _,
        } = self;
    }
}

impl Bases {
    /// No objects, and the slots for them.
    pub fn new(alloc: Global) -> Result<Bases, AllocError> {
        let mut slots = Vec::with_capacity(alloc, SLOTS)?;
        for _ in 0..SLOTS {
            slots.push(Slot {
                place: None,
                kind: Kind::Blob,
                bytes: Vec::new(alloc),
            })?;
        }
        Ok(Bases {
            alloc,
            slots,
            kept: 0,
        })
    }

    /// Puts the object of a place into `out` in place of what was there, and returns its kind. None where it isn't kept.
    pub fn get(&self, place: Place, out: &mut Vec<u8>) -> Result<Option<Kind>, AllocError> {
        let Some(slot) = self.slots.as_slice().get(slot_of(place)) else {
            return Ok(None);
        };
        if slot.place != Some(place) {
            return Ok(None);
        }
        out.clear();
        out.extend_from_slice(slot.bytes.as_slice())?;
        Ok(Some(slot.kind))
    }

    /// Keeps the object of a place, in place of another. One above 16 MiB isn't kept. Where more than 96 MiB are kept, all are dropped.
    pub fn put(&mut self, place: Place, kind: Kind, bytes: &[u8]) -> Result<(), AllocError> {
        if bytes.len() > MOST_OBJECT {
            return Ok(());
        }
        if self.kept.saturating_add(bytes.len()) > MOST_KEPT {
            self.drop_all();
        }
        let Some(slot) = self.slots.as_mut_slice().get_mut(slot_of(place)) else {
            return Ok(());
        };
        slot.place = None;
        self.kept = self.kept.saturating_sub(slot.bytes.len());
        if slot.bytes.capacity() > MOST_ROOM {
            slot.bytes = Vec::new(self.alloc);
        }
        slot.bytes.clear();
        slot.bytes.extend_from_slice(bytes)?;
        slot.kind = kind;
        slot.place = Some(place);
        self.kept = self.kept.saturating_add(bytes.len());
        Ok(())
    }

    /// Drops all objects.
    fn drop_all(&mut self) {
        let alloc = self.alloc;
        for slot in self.slots.iter_mut() {
            slot.place = None;
            slot.bytes = Vec::new(alloc);
        }
        self.kept = 0;
    }
}

/// The number of the slot of a place.
fn slot_of(place: Place) -> usize {
    let key = place
        .at
        .wrapping_add((place.pack as u64).wrapping_mul(0x1_0000_0001_003F));
    (key.wrapping_mul(0x9E37_79B9_7F4A_7C15) >> 51) as usize % SLOTS
}
