//! The ids that objects have: hashes of their kinds and bytes.
pub use gix_names::{is_named, name_of};
