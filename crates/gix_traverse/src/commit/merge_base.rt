//! The best common ancestors of commits.
pub use gix_merge_base::{Error, merge_bases};
