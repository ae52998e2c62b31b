//! The records of a repository's objects, read into a store in memory.
//!
//! A record is a kind (`commit`, `tree`, `blob` or `tag`), a space, an id in 40 or 64 hex digits, a space, the number of bytes in 1 to 10
//! decimal digits, a newline, the bytes, and a newline. Records follow one another with nothing between them, as git writes them:
//!
//! ```sh
//! git cat-file --batch-all-objects --batch='%(objecttype) %(objectname) %(objectsize)'
//! ```
#![tactic(auto)]

ghost use Rattle.std.specs.Prelude.{◌≡◌, ◌⊎◌, ℕ, List, length, Some, IfOk, IfErr, MatchResult};
ghost use Rattle.gix_object.specs.MemoryStore.{objects_at, AreWithin};
ghost use Rattle.gix_records.specs.Reading.{IsReadFrom, IsReadFault};
ghost use Rattle.gix_records.specs.Records.{Record, AreRecords, IsRecordFault, stored};

mod front;
mod input;
pub mod laws;
mod named;
mod objects;

use front::record_at;
use gix_hash::hashtable::IdMap;
use gix_hash::{Keys, ObjectId};
use gix_object::memory::{MemoryStore, Stored};
pub use input::read_to_end;
pub use named::{check_names, named_records_in};
pub use objects::NamedObjects;
use std::alloc::{AllocError, Global};
use std::borrow::CowSlice;
use std::io::Read;
use thiserror::Error;

/// How often [`read`] asks its reader at the most.
pub const READS: u32 = 1 << 24;

/// Why records weren't read. In each case there is no store.
#[derive(Clone, Copy, PartialEq, Eq, Debug, Error)]
pub enum Error {
    /// The reader failed, or each of [`READS`] reads gave something and none the end.
    #[error("read failed")]
    Read,
    /// The record of this number isn't one, or is cut. The first record is record 1.
    #[error("bad record {0}")]
    Record(usize),
    /// The record of this number has this id, and its object another. The first record is record 1.
    #[error("record {record}: {id} isn't the hash of its bytes")]
    Name {
        /// The number of the record.
        record: usize,
        /// The id that it has.
        id: ObjectId,
    },
    /// Memory ran out.
    #[error("out of memory")]
    Memory,
}

impl From<AllocError> for Error {
    ghost use Rattle.gix_records.specs.declared.Error.TheVariants as error;

    ghost from_gives = { λ _ r. r ≡ error.Memory };

    fn from(_error: AllocError) -> Error {
        Error::Memory
    }
}

/// The objects of the records that a reader gives until its end. Of two records of one id the later counts. An input without a byte is
/// an empty store. That an id is the hash of its bytes isn't tested; [`named_records_in`] tests it.
///
/// A read that was interrupted is made again. The whole input is held in memory, and the store keeps it. Its table of ids has these keys.
///
/// # Errors
/// `Read` where the reader fails, or gives no end in [`READS`] reads. `Record` with the number of the first record that isn't one, once
/// all is read. `Memory`. The bytes that were read until then are lost.
///
/// # Examples
///
/// In a program's `main`, under the name that users have for it (the whole is in crates/example_newest):
///
/// ```rust
///     let store = records::read(alloc, Keys::random(rt)?, &mut rt.stdin())?;
///     let newest = Sorting::ByCommitTime(CommitTimeOrder::NewestFirst);
///     let walk = Simple::new(alloc, tips, store)?.sorting(newest)?;
/// ```
pub fn read<R: Read>(
    alloc: Global,
    keys: Keys,
    reader: &mut R,
) -> Result<MemoryStore<'static>, Error>
    ensures read { IfOk result (λ store. IsReadFrom (R.remaining reader.old) store) }
    ensures fault { IfErr result (λ e. IsReadFault (R.remaining reader.old) e) }
    // Input that is records is read, unless the reader fails or memory runs out.
    ensures only { (input : List ℕ) (records : List Record) → R.remaining reader.old ≡ Some input → AreRecords records input
        → MatchResult result (λ store. store ≡ stored records) (λ e. (e ≡ Error.Read) ⊎ (e ≡ Error.Memory)) }
{
    let input = read_to_end(alloc, reader, READS)?;
    records_of(alloc, keys, input)
}

/// The objects of the records that the bytes are, in a store that keeps the bytes and copies no object. Of two records of one id the
/// later counts. The table of ids has these keys.
///
/// # Errors
/// `Record` with the number of the first that isn't one, `Memory`. The bytes are dropped.
pub fn records_of(alloc: Global, keys: Keys, input: Vec<u8>) -> Result<MemoryStore<'static>, Error>
    ensures read { IfOk result (λ store. (records : List Record) × AreRecords records input.items × (store ≡ stored records)) }
    ensures fault { IfErr result (λ e. IsRecordFault input.items e) }
    // Input that is records is read, unless memory runs out.
    ensures only { (records : List Record) → AreRecords records input.items
        → MatchResult result (λ store. store ≡ stored records) (λ e. e ≡ Error.Memory) }
{
    let objects = places_of(alloc, keys, input.as_slice())?;
    Ok(MemoryStore::over(alloc, CowSlice::Owned(input), objects))
}

/// The objects of the records that the bytes are, in a store that borrows the bytes and copies none. Of two records of one id the later
/// counts. The table of ids has these keys.
///
/// # Errors
/// `Record` with the number of the first that isn't one, `Memory`.
pub fn records_in(alloc: Global, keys: Keys, bytes: &[u8]) -> Result<MemoryStore<'_>, Error>
    ensures read { IfOk result (λ store. (records : List Record) × AreRecords records bytes.now × (store ≡ stored records)) }
    ensures fault { IfErr result (λ e. IsRecordFault bytes.now e) }
    // Bytes that are records are read, unless memory runs out.
    ensures only { (records : List Record) → AreRecords records bytes.now
        → MatchResult result (λ store. store ≡ stored records) (λ e. e ≡ Error.Memory) }
{
    let objects = places_of(alloc, keys, bytes)?;
    Ok(MemoryStore::over(alloc, CowSlice::Borrowed(bytes), objects))
}

/// How many bytes the record of a short commit has. It serves to guess how many records there are.
const RECORD_LEN: usize = 200;

/// The places of the objects of the records that the bytes are.
fn places_of(alloc: Global, keys: Keys, bytes: &[u8]) -> Result<IdMap<Stored>, Error>
    ensures within { IfOk result (λ places. AreWithin places (length bytes.now)) }
    ensures read { IfOk result (λ places. (records : List Record) × AreRecords records bytes.now
        × (objects_at bytes.now places ≡ stored records)) }
    ensures fault { IfErr result (λ e. IsRecordFault bytes.now e) }
    ensures only { (records : List Record) → AreRecords records bytes.now
        → MatchResult result (λ places. objects_at bytes.now places ≡ stored records) (λ e. e ≡ Error.Memory) }
{
    let mut objects = IdMap::with_room(alloc, keys, bytes.len() / RECORD_LEN);
    let mut rest = bytes;
    let mut number = 1;
    while !rest.is_empty() {
        let Some(front) = record_at(rest) else {
            return Err(Error::Record(number));
        };
        let end = bytes.len() - front.behind.len() - 1;
        let start = end - front.bytes.len();
        let kind = front.kind;
        objects.insert(front.id, Stored { kind, start, end })?;
        rest = front.behind;
        number += 1;
    }
    Ok(objects)
}

#[cfg(test)]
mod tests;
