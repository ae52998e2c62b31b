//! The records of a repository's objects, read into a store in memory.
pub use gix_records::{
    Error, NamedObjects, READS, check_names, named_records_in, read, read_to_end, records_in,
    records_of,
};
