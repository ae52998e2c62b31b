//! Walks from commits to their parents, breadth first or by commit time.
pub use gix_paint::Hidden;
pub use gix_revwalk::CommitTimeOrder;
pub use gix_simple::{Error, Simple, Sorting};
