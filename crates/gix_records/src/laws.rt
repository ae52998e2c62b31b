//! What follows from the definitions alone.

ghost use Rattle.gix_records.specs.NamedPart.{NamedPart};

/// The objects of records that were read under their own hashes, as [`named_records_in`](crate::named_records_in) reads them, are the
/// objects that any store under its own hashes has for their ids, whichever way that store was made; or two different texts of one hash are
/// at hand. The premises: the store has an object for each id of the records, and the records and its objects are smaller than 2^64 bytes,
/// as each slice is.
pub fn named_records_agree()
    ensures { NamedPart }
{}
