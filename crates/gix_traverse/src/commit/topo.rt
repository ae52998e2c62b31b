//! Walks in which no commit comes before its children.
pub use gix_topo::{Builder, Error, Sorting, Topo};
