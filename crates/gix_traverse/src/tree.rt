//! Walks of trees, which show each entry to a delegate.
pub use gix_tree::{Recorder, Visit, breadthfirst, depthfirst, recorder, visit};
