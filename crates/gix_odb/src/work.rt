//! What the reading of an object needs besides the files.
ghost use Rattle.std.specs.Prelude.{◌≡◌, ◌+◌, ◌≤◌, ◌<◌, length, IfOk};

use crate::bases::{Bases, Place};
use crate::fault::Damage;
use gix_delta::{apply, sizes};
use gix_inflate::Inflater;
use gix_object::Kind;
use std::alloc::{AllocError, Global};
use std::mem;

/// The most bytes of an object, and of the deltas of one object together.
pub(crate) const MOST_OBJECT: u64 = 1 << 28;
/// How many bytes are inflated and copied at the most, for all objects together.
const MOST_WORK: u64 = 1 << 40;
/// How many bytes one byte of a stream holds at the most, and what a stream may hold besides.
const MOST_OF_ONE: u64 = 1032;

const MOST_MORE: u64 = 64;
/// How many deltas lead to an object at the most.
pub(crate) const DEEPEST: u32 = 4095;
/// The most bytes of an object that is kept although nothing asked for it as a base.
const MOST_END: usize = 1 << 14;

/// How many bytes a stream of so many bytes holds at the most.
pub(crate) fn most_of(stream: u64) -> u64 {
    stream.saturating_mul(MOST_OF_ONE).saturating_add(MOST_MORE)
}

/// Room that grows and stays.
pub(crate) struct Room {
    bytes: Vec<u8>,
}

impl Drop for Room {
    fn drop(self) {
        let Room { bytes: _ } = self;
    }
}

impl Room {
    /// Lends so many bytes, which may hold anything.
    pub fn first(&mut self, len: usize) -> Result<&mut [u8], AllocError> {
        if self.bytes.len() < len {
            self.bytes.resize(len, 0)?;
        }
        let room = self.bytes.as_mut_slice();
        match room.get_mut(..len) {
            Some(room) => Ok(room),
            None => Err(AllocError),
        }
    }
}

/// A delta on the way from an object to the entry that is no delta.
#[derive(Clone, Copy)]
struct Step {
    /// Where the entry begins.
    place: Place,
    /// Where its delta begins in all deltas.
    start: usize,
}

/// Room for one object after the other.
pub(crate) struct Work {
    /// Codes of blocks.
    pub inflater: Inflater,
    /// Bytes of a file.
    pub stream: Vec<u8>,
    /// What a stream holds.
    pub room: Room,
    /// The object that was read.
    pub out: Vec<u8>,
    /// The object that a delta makes.
    made: Vec<u8>,
    /// The deltas on the way, one behind the other, and where each begins.
    deltas: Vec<u8>,
    steps: Vec<Step>,
    /// Objects that were read before.
    pub bases: Bases,
    /// How many bytes may still be inflated and copied.
    left: u64,
}

impl Drop for Work {
    fn drop(self) {
        let Work {
            inflater: _,
            stream: _,
            room: _,
            out: _,
            made: _,
            deltas: _,
            steps: _,
            bases: _,
            left: _,
        } = self;
    }
}

impl Work {
    /// Room that is empty.
    pub fn new(alloc: Global) -> Result<Work, AllocError> {
        Ok(Work {
            inflater: Inflater::new(),
            stream: Vec::new(alloc),
            room: Room {
                bytes: Vec::new(alloc),
            },
            out: Vec::new(alloc),
            made: Vec::new(alloc),
            deltas: Vec::new(alloc),
            steps: Vec::new(alloc),
            bases: Bases::new(alloc)?,
            left: MOST_WORK,
        })
    }

    /// Forgets the deltas on the way.
    pub fn begin(&mut self) {
        self.deltas.clear();
        self.steps.clear();
    }

    /// Counts so many bytes that are inflated or copied.
    pub fn spend(&mut self, bytes: usize) -> Result<(), Damage> {
        match self.left.checked_sub(bytes as u64) {
            Some(left) => {
                self.left = left;
                Ok(())
            }
            None => Err(Damage::TooMuch),
        }
    }

    /// Keeps what a stream held, so many bytes, as the object.
    pub fn set_whole(&mut self, size: usize) -> Result<(), Damage> {
        self.out.clear();
        let room = self.room.first(size)?;
        self.out.extend_from_slice(room)?;
        Ok(())
    }

    /// Keeps what the stream of an entry held, so many bytes, as a delta on the way.
    pub fn push_delta(&mut self, place: Place, size: usize) -> Result<(), Damage> {
        let start = self.deltas.len();
        if start.saturating_add(size) as u64 > MOST_OBJECT {
            return Err(Damage::EntryTooLarge(place.at, size as u64));
        }
        let room = self.room.first(size)?;
        self.deltas.extend_from_slice(room)?;
        self.steps.push(Step { place, start })?;
        Ok(())
    }

    /// Takes an object that is kept, and whether there is one.
    pub fn take_base(&mut self, place: Place) -> Result<Option<Kind>, AllocError> {
        self.bases.get(place, &mut self.out)
    }

    /// Makes the object of the deltas on the way, of the object of the place that was read last. Whether `place` is kept already is said by
    /// `is_kept`.
    pub fn make(&mut self, kind: Kind, place: Place, is_kept: bool) -> Result<Kind, Damage> {
        let mut place = place;
        let mut is_kept = is_kept;
        for _ in 0..=DEEPEST {
            let is_end = self.steps.is_empty();
            if !is_kept && (!is_end || self.out.len() <= MOST_END) {
                self.bases.put(place, kind, self.out.as_slice())?;
            }
            let Some(step) = self.steps.pop() else {
                return Ok(kind);
            };
            self.make_one(step)?;
            place = step.place;
            is_kept = false;
        }
        Err(Damage::Deep(place.at))
    }

    /// Makes an object of the delta that is last.
    fn make_one(&mut self, step: Step) -> Result<(), Damage> {
        let delta = self.deltas.as_slice().get(step.start..).unwrap_or_default();
        let size = match sizes(delta) {
            Ok((_, size)) => size,
            Err(fault) => return Err(Damage::Delta(step.place.at, fault)),
        };
        if size > MOST_OBJECT {
            return Err(Damage::EntryTooLarge(step.place.at, size));
        }
        match apply(self.out.as_slice(), delta, &mut self.made) {
            Ok(()) => {}
            Err(gix_delta::Fault::Memory) => return Err(Damage::Memory),
            Err(fault) => return Err(Damage::Delta(step.place.at, fault)),
        }
        mem::swap(&mut self.out, &mut self.made);
        self.deltas.truncate(step.start);
        self.spend(size as usize)
    }
}
