//! A queue that gives a value of greatest key first.
pub use gix_revwalk::queue::{IterUnordered, PriorityQueue};
