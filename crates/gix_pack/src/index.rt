//! The index of a pack, read piece by piece.
ghost use Rattle.std.specs.Prelude.{◌≡◌, ◌+◌, ◌≤◌, ◌<◌, length, IfSome, IfOk};

use crate::front::Front;
use crate::number::word_at;
use gix_hash::{Kind, ObjectId};
use std::cmp::Ordering;
use std::ops::Range;
use thiserror::Error;

/// What an index of version 2 begins with.
const SIGNATURE: u32 = 0xFF74_4F63;
/// Where the 256 counts begin.
const COUNTS: usize = 8;
/// How many bytes the head of an index has, with its counts. Behind it are the ids.
pub const INDEX_HEAD: usize = 1032;
/// What is added to the number of an offset of eight bytes.
const FLAG: u32 = 0x8000_0000;
/// How often a search guesses a place by how far an id is from those around it, at the most.
const GUESSES: u32 = 8;
/// How often a search halves what is left, at the most.
const HALVINGS: u32 = 33;
/// How many numbers the four bytes behind the first byte of an id write.
const FRONTS: u64 = 1 << 32;

/// Why bytes are no index of a pack.
#[derive(Clone, Copy, PartialEq, Eq, Debug, Error)]
pub enum IndexFault {
    /// It ends within its head or its counts.
    #[error("an index that is cut")]
    Truncated,
    /// It is of the version 1, which git wrote until 2008, or it isn't an index at all.
    #[error("an index of version 1, or no index: `git index-pack` writes it anew")]
    VersionOne,
    /// It is of a version other than 1 and 2.
    #[error("an index of version {0}")]
    Version(u32),
    /// A count is lower than the one before.
    #[error("counts of an index that fall")]
    Counts,
    /// There are too few or too many bytes for as many ids as it counts.
    #[error("an index of another length than its counts say")]
    Length,
}

/// The file of an index, of which pieces are read.
pub trait Source {
    /// Puts the bytes from a place on into `buffer`. Whether there are as many.
    fn fill(&mut self, at: u64, buffer: &mut [u8]) -> bool;
}

/// The index of a pack, of version 2: the ids of the pack's objects in rising order, and where their entries begin.
///
/// Places are numbers of ids, from 0 on. That ids rise isn't tested, as git doesn't: where they don't, some are not found. Only the head is
/// kept. What else a call asks for is read from a [`Source`], which is to be the file. Where it lacks a piece, the call is `Truncated`.
#[derive(Drop)]
pub struct Index {
    kind: Kind,
    head: Vec<u8>,
    /// The hash at the end of the pack.
    hash: Vec<u8>,
    /// How many bytes the file has.
    size: u64,
    len: u32,
}

impl Index {
    /// The index in a file of so many bytes, whose ids are of this kind. Its first bytes are `head`, and `hash` are those before its last
    /// hash, as many as an id has. Both are kept.
    ///
    /// # Errors
    ///
    /// The first fault of [`IndexFault`] in their order.
    pub fn new(kind: Kind, size: u64, head: Vec<u8>, hash: Vec<u8>) -> Result<Index, IndexFault> {
        let bytes = head.as_slice();
        if bytes.len() < INDEX_HEAD {
            return Err(IndexFault::Truncated);
        }
        if word_at(bytes, 0) != Some(SIGNATURE) {
            return Err(IndexFault::VersionOne);
        }
        match word_at(bytes, 4) {
            Some(2) => {}
            version => return Err(IndexFault::Version(version.unwrap_or(0))),
        }
        let mut len = 0u32;
        for first in 0..256usize {
            let count = word_at(bytes, COUNTS + 4 * first).unwrap_or(0);
            if count < len {
                return Err(IndexFault::Counts);
            }
            len = count;
        }
        let id = kind.len_in_bytes() as u64;
        let least = INDEX_HEAD as u64 + len as u64 * (id + 8) + 2 * id;
        let most = least + 8 * (len as u64).saturating_sub(1);
        if size < least || size > most {
            return Err(IndexFault::Length);
        }
        Ok(Index {
            kind,
            head,
            hash,
            size,
            len,
        })
    }

    /// How many ids there are.
    pub fn len(&self) -> u32 {
        self.len
    }

    /// Whether there is no id.
    pub fn is_empty(&self) -> bool {
        self.len == 0
    }

    /// The hash at the end of the pack that this is the index of, as the index says it.
    pub fn pack_hash(&self) -> &[u8] {
        self.hash.as_slice()
    }

    /// The id at a place, and None behind the last.
    ///
    /// # Errors
    ///
    /// `Truncated`.
    pub fn id_at<S: Source>(
        &self,
        place: u32,
        source: &mut S,
    ) -> Result<Option<ObjectId>, IndexFault> {
        if place >= self.len {
            return Ok(None);
        }
        let mut id = [0u8; 32];
        let id = &mut id[..self.kind.len_in_bytes()];
        self.read_id(place, id, source)?;
        Ok(ObjectId::from_bytes(id))
    }

    /// Puts the bytes of the id at a place into a buffer of as many.
    fn read_id<S: Source>(
        &self,
        place: u32,
        id: &mut [u8],
        source: &mut S,
    ) -> Result<(), IndexFault>
        requires { length id.old ≤ 32 }
    {
        let at = INDEX_HEAD as u64 + place as u64 * id.len() as u64;
        if source.fill(at, id) {
            Ok(())
        } else {
            Err(IndexFault::Truncated)
        }
    }

    /// The place of an id, and None where it isn't found. Ids are spread as hashes are, so that a few guesses are enough. Where they aren't,
    /// what is left is halved.
    ///
    /// # Errors
    ///
    /// `Truncated`.
    pub fn place_of<S: Source>(
        &self,
        id: &ObjectId,
        source: &mut S,
    ) -> Result<Option<u32>, IndexFault>
        ensures { IfOk result (λ found. IfSome found (λ place. place < self.now.len)) }
    {
        if id.kind() != self.kind {
            return Ok(None);
        }
        let id = id.as_bytes();
        let first = id[0] as usize;
        let mut left = Left {
            low: match first {
                0 => 0,
                _ => self.count_at(first - 1),
            },
            high: self.count_at(first),
            above: 0,
            below: FRONTS,
        };
        let mut buffer = [0u8; 32];
        for turn in 0..GUESSES + HALVINGS {
            if left.low >= left.high {
                return Ok(None);
            }
            let middle = if turn < GUESSES {
                left.guess(front_of(id))
            } else {
                left.middle()
            };
            self.read_id(middle, &mut buffer[..id.len()], source)?;
            let found = &buffer[..id.len()];
            match id.cmp(found) {
                Ordering::Equal => {
                    return Ok(if middle < self.len {
                        Some(middle)
                    } else {
                        None
                    });
                }
                Ordering::Greater => {
                    left.low = middle.saturating_add(1);
                    left.above = front_of(found);
                }
                Ordering::Less => {
                    left.high = middle;
                    left.below = front_of(found);
                }
            }
        }
        Ok(None)
    }

    /// The places of all ids that begin with these digits. Where ids don't rise, some may be missing, and others among them.
    ///
    /// # Errors
    ///
    /// `Truncated`.
    pub fn places_from<S: Source>(
        &self,
        front: &Front,
        source: &mut S,
    ) -> Result<Range<u32>, IndexFault> {
        let low = self.first_behind(front, false, source)?;
        let high = self.first_behind(front, true, source)?;
        Ok(low..high)
    }

    /// The first place whose id isn't below the digits, or, where those that begin with them count as below too, is above.
    fn first_behind<S: Source>(
        &self,
        front: &Front,
        are_below: bool,
        source: &mut S,
    ) -> Result<u32, IndexFault> {
        let mut low = 0;
        let mut high = self.len;
        for _ in 0..HALVINGS {
            if low >= high {
                break;
            }
            let middle = low + (high - low) / 2;
            let is_below = match self.id_at(middle, source)? {
                Some(id) => match front.compare(id.as_bytes()) {
                    Ordering::Greater => true,
                    Ordering::Equal => are_below,
                    Ordering::Less => false,
                },
                None => false,
            };
            if is_below {
                low = middle + 1;
            } else {
                high = middle;
            }
        }
        Ok(low)
    }

    /// How many ids begin with this byte or a lower one.
    fn count_at(&self, first: usize) -> u32
        requires { first < 256 }
    {
        word_at(self.head.as_slice(), COUNTS + 4 * first).unwrap_or(0)
    }

    /// Where the entry begins, as a number of bytes from the front of the pack, of the object whose id is at a place. None behind the last
    /// place, and where the number of an offset of eight bytes is above the last.
    ///
    /// # Errors
    ///
    /// `Truncated`.
    pub fn offset_at<S: Source>(
        &self,
        place: u32,
        source: &mut S,
    ) -> Result<Option<u64>, IndexFault> {
        if place >= self.len {
            return Ok(None);
        }
        let id = self.kind.len_in_bytes() as u64;
        let len = self.len as u64;
        let offsets = INDEX_HEAD as u64 + len * (id + 4);
        let word = u32::from_be_bytes(number_at(offsets + 4 * place as u64, source)?);
        if word < FLAG {
            return Ok(Some(word as u64));
        }
        let long = offsets + 4 * len + 8 * (word - FLAG) as u64;
        if long + 8 > self.size.saturating_sub(2 * id) {
            return Ok(None);
        }
        Ok(Some(u64::from_be_bytes(number_at(long, source)?)))
    }
}

/// The bytes of a number that begins at a place.
fn number_at<S: Source, const N: usize>(at: u64, source: &mut S) -> Result<[u8; N], IndexFault> {
    let mut bytes = [0u8; N];
    if source.fill(at, &mut bytes) {
        Ok(bytes)
    } else {
        Err(IndexFault::Truncated)
    }
}

/// Which places of a search are left: from `low` on, and below `high`.
#[derive(Clone, Copy)]
struct Left {
    low: u32,
    high: u32,
    /// The front of the id before `low`, and that of the id at `high`.
    above: u64,
    below: u64,
}

impl Left {
    /// The place that an id with this front has if the ids that are left are spread evenly.
    fn guess(&self, front: u64) -> u32
        requires { self.now.low < self.now.high }
        ensures from { self.now.low ≤ result }
        ensures below { result < self.now.high }
    {
        let places = (self.high - self.low) as u64;
        let fronts = self.below.saturating_sub(self.above).max(1);
        let ahead = front.saturating_sub(self.above).saturating_mul(places) / fronts;
        self.low + ahead.min(places - 1) as u32
    }

    /// The place in the middle.
    fn middle(&self) -> u32
        requires { self.now.low < self.now.high }
        ensures from { self.now.low ≤ result }
        ensures below { result < self.now.high }
    {
        self.low + (self.high - self.low) / 2
    }
}

/// The number that the four bytes behind the first one write.
fn front_of(id: &[u8]) -> u64 {
    match id {
        [_, a, b, c, d, ..] => u32::from_be_bytes([*a, *b, *c, *d]) as u64,
        _ => 0,
    }
}
