//! Records whose ids are compared with the hashes of their objects.
ghost use Rattle.std.specs.Prelude.{◌≡◌, ◌⊎◌, List, All, OnOk, IfOk, IfErr, MatchResult};
ghost use Rattle.gix_records.specs.Records.{Record, AreRecords, IsRecordFault, stored};
ghost use Rattle.gix_records.specs.NamedRecords.{IsNamedRecord, AreNamed, BeginsNamed, IsNameFault};

use crate::front::record_at;
use crate::{Error, records_in};
use gix_hash::Keys;
use gix_names::is_named;
use gix_object::memory::MemoryStore;
use std::alloc::Global;

/// The objects of the records that the bytes are, as [`records_in`] gives them, where each record's id is the one that its object has: the
/// hash of its kind, its length and its bytes, by SHA-1 for ids of 20 bytes and by SHA-256 for ids of 32. So each object that the store
/// finds is the object of that id, whoever wrote the records.
///
/// # Errors
/// `Record` with the number of the first that isn't one, and `Name` with the number and the id of the first whose id is another than its
/// object has, where all are records. `Memory`.
pub fn named_records_in(alloc: Global, keys: Keys, bytes: &[u8]) -> Result<MemoryStore<'_>, Error>
    ensures read { IfOk result (λ store. (records : List Record) × AreRecords records bytes.now × All IsNamedRecord records
        × (store ≡ stored records)) }
    ensures named { IfOk result (λ store. AreNamed store) }
    ensures fault { IfErr result (λ e. IsRecordFault bytes.now e
        ⊎ ((records : List Record) × AreRecords records bytes.now × IsNameFault bytes.now e)) }
    // Bytes that are named records are read, unless memory runs out.
    ensures only { (records : List Record) → AreRecords records bytes.now → All IsNamedRecord records
        → MatchResult result (λ store. store ≡ stored records) (λ e. e ≡ Error.Memory) }
{
    let store = records_in(alloc, keys, bytes)?;
    check_names(bytes)?;
    Ok(store)
}

/// Compares the id of each record with the one that the record's object has. The bytes are read as long as records follow one another:
/// where something else follows, that is no fault here.
///
/// # Errors
/// `Name` with the number and the id of the first record whose id is another than its object has.
pub fn check_names(bytes: &[u8]) -> Result<(), Error>
    ensures named { OnOk result (BeginsNamed bytes.now) }
    ensures fault { IfErr result (λ e. IsNameFault bytes.now e) }
{
    let mut rest = bytes;
    let mut record = 1;
    while let Some(front) = record_at(rest) {
        if !is_named(&front.id, front.kind, front.bytes) {
            let id = front.id;
            return Err(Error::Name { record, id });
        }
        rest = front.behind;
        record += 1;
    }
    Ok(())
}
