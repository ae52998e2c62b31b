//! Walks of commits.
pub mod ahead;
pub mod contained;
pub mod containing;
pub mod merge_base;
pub mod simple;
pub mod topo;

pub use gix_revwalk::{Either, Filter, Info, ParentIds, Parents, Predicate, Unfiltered, find};
pub use gix_simple::Simple;
pub use gix_topo::Topo;
