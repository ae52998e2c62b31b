//! Sets and maps of ids.
pub use gix_hash::hashtable::{IdMap, IdSet};
